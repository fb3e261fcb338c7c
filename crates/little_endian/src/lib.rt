// Numbers in bytes, little endian: codes, and signed numbers.

#![tactic(auto)]

ghost use Rattle.std.specs.Prelude.{◌≡◌, ◌+◌, ◌≤◌, ◌<◌, length, take, drop};
ghost use Rattle.rules.specs.Record.{value, digits, to_bits, of_bits, number_bytes};

// The bytes of a code, of a signed number, and of a half float.
pub const CODE_BYTES: usize = 2;

pub const NUMBER_BYTES: usize = 8;

pub const HALF_BYTES: usize = 2;

// The number of two bytes: a code, a half float's bits, or an EI.
pub fn u16_at(r: &[u8], at: usize) -> u16
    requires { at + 2 ≤ length r.now }
    ensures { result ≡ value (take 2 (drop at r.now)) }
{
    u16::from_le_bytes([r[at], r[at + 1]])
}

// The 64 bits of a signed number. (A function of its own for its clause, in the rules' words, which the sums of a reel cite.)
pub fn to_bits(z: i64) -> u64
    ensures { result ≡ to_bits number_bytes z }
{
    z.cast_unsigned()
}

// A signed number from its bytes.
pub fn number_at(r: &[u8], at: usize) -> i64
    requires { at + number_bytes ≤ length r.now }
    ensures { result ≡ of_bits number_bytes (value (take number_bytes (drop at r.now))) }
{
    i64::from_le_bytes([
        r[at],
        r[at + 1],
        r[at + 2],
        r[at + 3],
        r[at + 4],
        r[at + 5],
        r[at + 6],
        r[at + 7],
    ])
}

// A number in two bytes.
pub fn put_u16(out: &mut [u8], x: u16)
    requires { length out.old ≡ 2 }
    ensures { out.new ≡ digits 2 x }
{
    out.copy_from_slice(&x.to_le_bytes());
}

// A signed number in its bytes. (Beside `put_u16`: a code has no sign, and each clause is in the rules' words.)
pub fn put_number(out: &mut [u8], z: i64)
    requires { length out.old ≡ number_bytes }
    ensures { out.new ≡ digits number_bytes (to_bits number_bytes z) }
{
    out.copy_from_slice(&z.to_le_bytes());
}
