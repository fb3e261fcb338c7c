// One float and its units: a scene number as an f64, and an f64 to the nearest unit, read from its sign, exponent and fraction bits.

#![tactic(auto)]

ghost use Rattle.std.specs.Prelude.{◌≡◌, ◌^◌, ◌≤◌, ◌<◌, eqb, nat_abs};
ghost use Rattle.std.specs.Float.{binary64};
ghost use Rattle.std.specs.Float.Ieee.{of_fields};
ghost use Rattle.rules.specs.Float.{float_of};
ghost use Rattle.float_unit.specs.Reading.{unit_count, read_answer};

use rules::{Refusal, Scene};

// A scene number as a float, in units of 2^-24: the cast and the quotient lose nothing.
pub fn float_of(y: Scene) -> f64
    requires { nat_abs y.0 ≤ 2 ^ 40 }
    ensures { result ≡ float_of y.0 }
{
    y.0 as f64 / 16777216.0
}

// The units of a float without its sign, to the nearest. Without it the float is digits / 2^places units. A half goes up: away from 0 above it,
// towards 0 below it.
fn size(sign: u64, exponent: u64, fraction: u64) -> u64
    requires { (sign < 2) × (997 ≤ exponent) × (exponent ≤ 1039) × (fraction < 2 ^ 52) }
    ensures { result ≡ unit_count sign exponent fraction }
{
    let digits: u64 = fraction + 0x10_0000_0000_0000;
    let places: u64 = 1051 - exponent;
    let half: u64 = 1 << (places - 1);
    (digits + half - sign) >> places
}

// A float by its three parts. 65,536 has the exponent 1039 and the fraction 0; below the exponent 997 a float is less than half a unit.
fn join(sign: u64, exponent: u64, fraction: u64) -> Result<Scene, Refusal>
    requires { (sign < 2) × (exponent < 2048) × (fraction < 2 ^ 52) }
    ensures { result ≡ read_answer (of_fields binary64 (eqb sign 1) exponent fraction) }
{
    if exponent == 2047 {
        return Err(Refusal::FloatNotFinite);
    }
    if exponent > 1039 {
        return Err(Refusal::FloatOutOfRange);
    }
    if exponent == 1039 && fraction > 0 {
        return Err(Refusal::FloatOutOfRange);
    }
    if exponent < 997 {
        return Ok(Scene(0));
    }
    let units = size(sign, exponent, fraction) as i64;
    if sign == 0 {
        Ok(Scene(units))
    } else {
        Ok(Scene(-units))
    }
}

// The nearest unit of a float, or the refusal of the first check that fails: 8, then 9.
pub fn read(x: f64) -> Result<Scene, Refusal>
    ensures { result ≡ read_answer x }
{
    if x.is_nan() {
        Err(Refusal::FloatNotFinite)
    } else {
        let bits: u64 = x.to_bits();
        let sign: u64 = bits >> 63;
        let exponent: u64 = (bits >> 52) & 0x7ff;
        let fraction: u64 = bits & 0xf_ffff_ffff_ffff;
        join(sign, exponent, fraction)
    }
}
