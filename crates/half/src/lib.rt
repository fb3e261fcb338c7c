// Half floats (IEEE 754 binary16): the check of one, its units, and the half nearest to an ACES number.

#![tactic(auto)]

ghost use Rattle.std.specs.Prelude.{◌≡◌, ◌≤◌, ◌<◌, ◌^◌};
ghost use Rattle.rules.specs.Half.{exponent_of, size_units, half_units, half_check, half_end, behind_eleven, to_even, half_size, half_of};

use rules::{Aces, Half, Refusal};

// The exponent of an infinity and of what is not a number: five ones.
const ONES: u64 = 31;

// The fraction's places, and what the digit before it counts.
const FRACTION: u64 = 10;

const FIRST: u64 = 1 << FRACTION;

// The greatest finite half, 65,504, in units.
const END: u64 = 65504 << 24;

// The sign bit.
const MINUS: u16 = 1 << 15;

// The exponent's bits of a half.
fn exponent(h: Half) -> u64
    ensures { result ≡ exponent_of h.0 }
{
    (h.0 as u64 >> FRACTION) & ONES
}

// Refusal 8: a half is an infinity or not a number.
pub fn check(h: Half) -> Result<(), Refusal>
    ensures { result ≡ half_check h.0 }
{
    if exponent(h) < ONES {
        Ok(())
    } else {
        Err(Refusal::FloatNotFinite)
    }
}

// The units of a half without its sign. Below the exponent 1 there is no digit before the fraction.
fn size(exponent: u64, fraction: u64) -> u64
    requires { (exponent < 2 ^ 5) × (fraction < 2 ^ 10) }
    ensures { (result ≡ size_units exponent fraction) × (result < 2 ^ 41) }
{
    if exponent == 0 {
        fraction
    } else {
        (FIRST + fraction) << (exponent - 1)
    }
}

// The units of a finite half, exactly. (Of another they are what its fields would count.)
pub fn read(h: Half) -> Aces
    ensures { result.0 ≡ half_units h.0 }
{
    let fraction = h.0 as u64 & (FIRST - 1);
    let units = size(exponent(h), fraction) as i64;
    if h.0 < MINUS {
        Aces(units)
    } else {
        Aces(-units)
    }
}

// How many binary digits of n are behind its first eleven: its leading zeros say it, since 64 - 11 is 53.
fn behind_eleven(n: u64) -> u64
    requires { n ≤ half_end }
    ensures { (result ≡ behind_eleven n) × (result ≤ 29) }
{
    let zeros = n.leading_zeros() as u64;
    53u64.saturating_sub(zeros)
}

// n / 2^k to the nearest whole number, a tie to the even one.
fn to_even(n: u64, k: u64) -> u64
    requires { (n ≤ half_end) × (k ≤ 29) }
    ensures { result ≡ to_even n k }
{
    let place = 1 << k;
    (2 * n + (place - 1) + (n >> k) % 2) / (2 * place)
}

// The half nearest to m units, without its sign. The first digit that is kept adds one to the exponent, and so does a carry.
fn nearest_size(m: u64) -> u16
    ensures { (result ≡ half_size m) × (result < 2 ^ 15) }
{
    let n = m.min(END);
    let k = behind_eleven(n);
    (k * FIRST + to_even(n, k)) as u16
}

// The half nearest to an ACES number, a tie to the even fraction.
pub fn write(v: Aces) -> Half
    ensures { result.0 ≡ half_of v.0 }
{
    let size = nearest_size(v.0.unsigned_abs());
    if v.0 < 0 {
        Half(MINUS + size)
    } else {
        Half(size)
    }
}
