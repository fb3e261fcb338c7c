// From ACES numbers back to scene numbers: the inverse of the setting's matrix, rounded once.

#![tactic(auto)]

ghost use Rattle.std.specs.Prelude.{◌≡◌, ◌^◌};
ghost use Rattle.rules.specs.Fraction.{integer, whole, ◌/ℚ◌, nearest};
ghost use Rattle.rules.specs.Pixels.{triple};
ghost use Rattle.rules.specs.Setting.{ValidForAces};
ghost use Rattle.row_product.specs.Row.{Sum};
ghost use Rattle.aces_inverse.specs.Reach.{InReach};
ghost use Rattle.aces_inverse.specs.Inverse.{low_rows, high_rows, pair, candidates};

mod entries;

use curves::log_c3::LogC3;
use curves::log_c4::LogC4;
use entries::Digits;
use rules::{Aces, Scene, Scenes, Setting};

// The digits of the inverse of a setting's matrix. (By the curve's number, as the matrix is chosen. The last
// arm is of no setting that is valid for ACES.)
fn digits_of(s: Setting) -> Digits
    requires { ValidForAces s }
    ensures high { result.high ≡ high_rows s }
    ensures low { result.low ≡ low_rows s }
{
    match s.curve {
        LogC3::NUMBER => entries::LOG_C3,
        LogC4::NUMBER => entries::LOG_C4,
        _ => entries::NONE,
    }
}

// A row product over 2^40, of which l and h are those of the digits, rounded once.
fn over_binary(l: i64, h: i64) -> i64
    requires low { Sum l }
    requires high { Sum h }
    ensures { result ≡ nearest (integer (pair h l) /ℚ whole (2 ^ 40)) }
{
    let carry = l >> entries::DIGIT;
    (h + carry + entries::HALF) >> entries::REST
}

// The scene numbers for three ACES numbers: those that a way back tries, and those of graded numbers. (The numbers are passed one by one, in
// registers: docs/DECISIONS.md.)
pub fn candidate(s: Setting, red: Aces, green: Aces, blue: Aces) -> Scenes
    requires valid_for_aces { ValidForAces s }
    requires in_reach { InReach red.0 green.0 blue.0 }
    ensures { result ≡ candidates s (triple red.0 green.0 blue.0) }
{
    let x = red.0;
    let y = green.0;
    let z = blue.0;
    let digits = digits_of(s);
    let l = row_product::products(digits.low, x, y, z);
    let h = row_product::products(digits.high, x, y, z);
    Scenes {
        red: Scene(over_binary(l.red, h.red)),
        green: Scene(over_binary(l.green, h.green)),
        blue: Scene(over_binary(l.blue, h.blue)),
    }
}
