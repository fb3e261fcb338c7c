// Whole numbers: the upper half of a product of two words, a number's part above or below 0, and a quotient
// rounded down. (proofs/ has the laws of ℤ that the other crates cite.)

#![tactic(auto)]

ghost use Rattle.std.specs.Prelude.{◌≡◌, ◌*◌, ◌/◌, ◌^◌, ◌≤◌, nat_abs};
ghost use Rattle.std.specs.Int.Signed.{shr_z};
ghost use Rattle.whole.specs.Parts.{up, dn};

// The upper 64 bits of a * b.
pub fn high_product(a: u64, b: u64) -> u64
    ensures { result ≡ a * b / 2 ^ 64 }
{
    a.carrying_mul(b, 0).1
}

// How far a number is above 0, and how far below it.
pub fn above_zero(z: i64) -> u64
    ensures { result ≡ up z }
{
    if z < 0 { 0 } else { z.unsigned_abs() }
}

pub fn below_zero(z: i64) -> u64
    ensures { result ≡ dn z }
{
    if z < 0 { z.unsigned_abs() } else { 0 }
}

// x over 10^6, rounded down. With 2 * 10^18 added there is no sign to look at. (div_euclid looks at the sign: it took a quarter more.)
pub fn floor_million(x: i64) -> i64
    requires { nat_abs x ≤ 2 * 10 ^ 18 }
    ensures { result ≡ shr_z x 1000000 }
{
    ((x + 2000000000000000000) as u64 / 1000000) as i64 - 2000000000000
}
