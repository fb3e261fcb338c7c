// ACES numbers: a row of the matrix times three scene numbers, over the scale, rounded once.

#![tactic(auto)]

ghost use Rattle.std.specs.Prelude.{◌≡◌, ◌^◌};
ghost use Rattle.rules.specs.Fraction.{integer, whole, ◌/ℚ◌, nearest};
ghost use Rattle.rules.specs.Matrix.{log_c3_matrix, log_c4_matrix, matrix_of, IsAces};
ghost use Rattle.rules.specs.Pixels.{IsPixel};
ghost use Rattle.row_product.specs.Row.{Number, Sum};
ghost use Rattle.aces.specs.Joined.{joined};
ghost use Rattle.aces.specs.OfPixel.{pixel_aces};

mod entries;

use curves::log_c3::LogC3;
use curves::log_c4::LogC4;
use decode::prepared::Prepared;
use rules::{Aces, Pixel, Scene, Setting, Triple};

// of a curve that has no matrix (no Option: by the rules its ACES numbers are 0)
const NONE: Triple = Triple {
    red: Aces(0),
    green: Aces(0),
    blue: Aces(0),
};

// A row product over 10^6, rounded once.
fn over_million(p: i64) -> i64
    requires { Sum p }
    ensures { result ≡ nearest (integer p /ℚ whole (10 ^ 6)) }
{
    whole::floor_million(p + 500000)
}

// A row product over 10^18, of which l, m and h are those of the digits, rounded once.
fn over_digits(l: i64, m: i64, h: i64) -> i64
    requires low { Sum l }
    requires middle { Sum m }
    requires high { Sum h }
    ensures { result ≡ nearest (integer (joined h m l) /ℚ whole (10 ^ 18)) }
{
    let carry = whole::floor_million(l);
    let second = whole::floor_million(m + carry);
    whole::floor_million(h + second + 500000)
}

// The ACES numbers of three scene numbers, by the matrix of curve 3 and by that of curve 4. (Two functions: an entry of curve 3 is
// one factor, and one of curve 4 is taken by three digits.)
fn aces_c3(x: Scene, y: Scene, z: Scene) -> Triple
    requires red { Number x.0 }
    requires green { Number y.0 }
    requires blue { Number z.0 }
    ensures { IsAces log_c3_matrix x.0 y.0 z.0 result.red.0 result.green.0 result.blue.0 }
{
    let p = row_product::products(entries::LOG_C3, x.0, y.0, z.0);
    Triple {
        red: Aces(over_million(p.red)),
        green: Aces(over_million(p.green)),
        blue: Aces(over_million(p.blue)),
    }
}

fn aces_c4(x: Scene, y: Scene, z: Scene) -> Triple
    requires red { Number x.0 }
    requires green { Number y.0 }
    requires blue { Number z.0 }
    ensures { IsAces log_c4_matrix x.0 y.0 z.0 result.red.0 result.green.0 result.blue.0 }
{
    let red = x.0;
    let green = y.0;
    let blue = z.0;
    let l = row_product::products(entries::LOG_C4_LOW, red, green, blue);
    let m = row_product::products(entries::LOG_C4_MIDDLE, red, green, blue);
    let h = row_product::products(entries::LOG_C4_HIGH, red, green, blue);
    Triple {
        red: Aces(over_digits(l.red, m.red, h.red)),
        green: Aces(over_digits(l.green, m.green, h.green)),
        blue: Aces(over_digits(l.blue, m.blue, h.blue)),
    }
}

// The ACES numbers of three scene numbers, 0 where there is no matrix. (It goes by the curve's number: to
// name the curve first took 5 % of pixel to ACES.)
fn aces(s: Setting, x: Scene, y: Scene, z: Scene) -> Triple
    requires red { Number x.0 }
    requires green { Number y.0 }
    requires blue { Number z.0 }
    ensures { IsAces (matrix_of s) x.0 y.0 z.0 result.red.0 result.green.0 result.blue.0 }
{
    match s.curve {
        LogC3::NUMBER => aces_c3(x, y, z),
        LogC4::NUMBER => aces_c4(x, y, z),
        _ => NONE,
    }
}

// The ACES numbers of a pixel. (That it is a pixel of the setting, and that numbers are small, are clauses: the values are read from a record.)
#[tactic(auto, using(crate::proofs::Theorems::scene_number))]
pub fn of_pixel(d: &Prepared, p: Pixel) -> Triple
    requires pixel { IsPixel d.now.setting p }
    ensures { result ≡ pixel_aces d.now.setting p }
{
    let x = d.scene(p.red);
    let y = d.scene(p.green);
    let z = d.scene(p.blue);
    aces(d.setting, x, y, z)
}
