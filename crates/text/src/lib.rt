// Text in a buffer: bytes, words and decimal numbers, put one behind the other. (The buffer and the place in it stay two arguments: a
// struct of both would hold the `&mut`, and no clause would be plainer.)

#![tactic(auto)]

ghost use Rattle.std.specs.Prelude.{[], ◌∷◌};
ghost use Rattle.text.specs.Put.{Room, Put};
ghost use Rattle.rules.specs.Decimal.{decimal, signed};
ghost use Rattle.rules.specs.Lister.{followed};

const MINUS: u8 = b'-';

// One byte.
fn put_byte(out: &mut [u8], at: usize, b: u8) -> usize
    requires { Room (b ∷ []) out.old at }
    ensures { Put (b ∷ []) out.old at out.new result }
{
    out[at] = b;
    at + 1
}

// The bytes of a word.
pub fn put_word(out: &mut [u8], at: usize, word: &[u8]) -> usize
    requires { Room word.now out.old at }
    ensures { Put word.now out.old at out.new result }
{
    let end = at + word.len();
    out[at..end].copy_from_slice(word);
    end
}

// The digits of a number. (By hand: no clause says what bytes `write!`
// writes. By recursion: docs/DECISIONS.md.)
fn put_decimal(out: &mut [u8], at: usize, n: u64) -> usize
    requires { Room (decimal n) out.old at }
    ensures { Put (decimal n) out.old at out.new result }
{
    if n < 10 {
        return put_byte(out, at, b'0' + n as u8);
    }
    let last = put_decimal(out, at, n / 10);
    put_byte(out, last, b'0' + (n % 10) as u8)
}

// A signed number.
fn put_signed(out: &mut [u8], at: usize, z: i64) -> usize
    requires { Room (signed z) out.old at }
    ensures { Put (signed z) out.old at out.new result }
{
    if z < 0 {
        let then = put_byte(out, at, MINUS);
        put_decimal(out, then, z.unsigned_abs())
    } else {
        put_decimal(out, at, z.unsigned_abs())
    }
}

// The digits of a number, and the byte behind them.
pub fn put_number(out: &mut [u8], at: usize, n: u64, b: u8) -> usize
    requires { Room (followed (decimal n) b) out.old at }
    ensures { Put (followed (decimal n) b) out.old at out.new result }
{
    let then = put_decimal(out, at, n);
    put_byte(out, then, b)
}

// A signed number, and the byte behind it. (Beside `put_number`, since a u64 is no i64: one of both would take a trait of two impls.)
pub fn put_signed_number(out: &mut [u8], at: usize, z: i64, b: u8) -> usize
    requires { Room (followed (signed z) b) out.old at }
    ensures { Put (followed (signed z) b) out.old at out.new result }
{
    let then = put_signed(out, at, z);
    put_byte(out, then, b)
}
