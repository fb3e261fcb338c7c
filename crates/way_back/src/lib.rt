// The way back from three ACES numbers to the pixel: the exact one, and the tolerant one of numbers that another package moved.

#![tactic(auto)]

ghost use Rattle.std.specs.Prelude.{◌≡◌, ◌≤◌, nat_abs};
ghost use Rattle.rules.specs.Setting.{ValidForAces};
ghost use Rattle.rules.specs.WayBack.{within, within3, found_check, distance_of};
ghost use Rattle.aces_inverse.specs.Reach.{reach, InReach};
ghost use Rattle.aces.specs.OfPixel.{pixel_aces};
ghost use Rattle.way_back.specs.Back.{pixel_for, back_result, way_back_result};
ghost use Rattle.way_back.specs.Candidate.{in_reach, all_in_reach, candidate_pixel};
ghost use Rattle.rules.specs.Pixels.{IsPixel, triple};

use decode::prepared::Prepared;
use rules::{Aces, Distance, Pixel, Refusal, Setting, Triple};

// No pixel has an ACES number beyond it, or within the tolerated distance of one beyond it.
const REACH: i64 = 1 << 38;

// How many units a number of a record may be from the pixel's on the tolerant way back.
const TOLERATED: u8 = 5;

// The units of a distance. (A match, and no number of the enum's own: the tolerated distance is a figure of the rules, under its name here.)
fn distance_of(k: Distance) -> u8
    ensures { result ≡ distance_of k }
{
    match k {
        Distance::Exact => 0,
        Distance::Tolerant => TOLERATED,
    }
}

fn in_reach(a: Aces) -> bool
    ensures { result ≡ in_reach a.0 }
{
    (-REACH..=REACH).contains(&a.0)
}

// Three numbers are passed one by one, in registers, for speed (docs/DECISIONS.md). (So that they are in reach is a clause and no type. That a
// setting is valid for ACES is one too: a prepared setting serves conversions without ACES as well.)
#[tactic(auto, unfolding(crate::specs::Candidate::all_in_reach))]
pub fn all_in_reach(red: Aces, green: Aces, blue: Aces) -> bool
    ensures { result ≡ all_in_reach (triple red.0 green.0 blue.0) }
{
    in_reach(red) && in_reach(green) && in_reach(blue)
}

// Whether two numbers are at most e units apart. (They are in reach: a sum of any number and e might not fit a word. Two comparisons and no
// abs_diff: so says `within` of the rules, and edits such as larger_accepted hold each.)
fn within(e: u8, a: Aces, b: Aces) -> bool
    requires a_bound { nat_abs a.0 ≤ reach }
    requires b_bound { nat_abs b.0 ≤ reach }
    ensures { result ≡ within e a.0 b.0 }
{
    let x = a.0;
    let y = b.0;
    let far = e as i64;
    x <= y + far && y <= x + far
}

#[tactic(auto, unfolding(rules::specs::WayBack::within3))]
fn all_within(e: u8, red: Aces, green: Aces, blue: Aces, b: Triple) -> bool
    requires in_reach { InReach red.0 green.0 blue.0 }
    requires b_in_reach { InReach b.red.0 b.green.0 b.blue.0 }
    ensures { result ≡ within3 e (triple red.0 green.0 blue.0) b }
{
    within(e, red, b.red) && within(e, green, b.green) && within(e, blue, b.blue)
}

// The only pixel that can give the numbers, exactly or nearly. Where they passed the check, it need not be tried again.
pub fn candidate(d: &Prepared, red: Aces, green: Aces, blue: Aces) -> Pixel
    requires valid_for_aces { ValidForAces d.now.setting }
    requires in_reach { InReach red.0 green.0 blue.0 }
    ensures { result ≡ candidate_pixel d.now.setting (triple red.0 green.0 blue.0) }
{
    let x = aces_inverse::candidate(d.setting, red, green, blue);
    encode::pixel_of(d, x.red, x.green, x.blue)
}

// Whether a pixel gives the numbers, exactly or nearly.
pub fn gives(k: Distance, d: &Prepared, p: Pixel, red: Aces, green: Aces, blue: Aces) -> bool
    requires valid_for_aces { ValidForAces d.now.setting }
    requires pixel { IsPixel d.now.setting p }
    requires in_reach { InReach red.0 green.0 blue.0 }
    ensures { result ≡ within3 (distance_of k) (triple red.0 green.0 blue.0) (pixel_aces d.now.setting p) }
{
    all_within(distance_of(k), red, green, blue, aces::of_pixel(d, p))
}

// The pixel that gives the numbers, exactly or nearly: the candidate, where it does.
fn find(k: Distance, d: &Prepared, a: Triple) -> Option<Pixel>
    requires valid_for_aces { ValidForAces d.now.setting }
    ensures { result ≡ pixel_for (distance_of k) d.now.setting a }
{
    if !all_in_reach(a.red, a.green, a.blue) {
        return None;
    }
    let p = candidate(d, a.red, a.green, a.blue);
    gives(k, d, p, a.red, a.green, a.blue).then_some(p)
}

// Refusal 10.
pub fn check_aces(k: Distance, d: &Prepared, a: Triple) -> Result<(), Refusal>
    requires valid_for_aces { ValidForAces d.now.setting }
    ensures { result ≡ found_check (pixel_for (distance_of k) d.now.setting a) }
{
    find(k, d, a).map(|_| ()).ok_or(Refusal::NoPixel)
}

// The way back over one record: the only pixel that gives the numbers, exactly or nearly, or the refusal of the first check that fails: 3, 4,
// 5, 12, then 10.
#[tactic(auto, using(rules::proofs::Settings::aces_valid), unfolding(crate::specs::Back::way_back_result))]
pub fn way_back(k: Distance, s: Setting, a: Triple) -> Result<Pixel, Refusal>
    ensures { back_result result ≡ way_back_result (distance_of k) s a }
{
    setting::check_for_aces(s)?;
    let d = Prepared::new(s);
    find(k, &d, a).ok_or(Refusal::NoPixel)
}
