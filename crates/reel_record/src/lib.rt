// A pixel record of a reel: its checks, and its scene numbers as they are added to the sums. (A slice with its length in a clause, as
// `record_at` lends it.)

#![tactic(auto)]

ghost use Rattle.std.specs.Prelude.{◌≡◌, length, Ok};
ghost use Rattle.rules.specs.Record.{pixel_size};
ghost use Rattle.rules.specs.Reel.{meter_check, metered, no_scenes};
ghost use Rattle.decode.specs.Decoded.{decoded};

use decode::prepared::Prepared;
use rules::{Refusal, Scene, Scenes};

// What is added for no record, or taken off. (No Option: it is `no_scenes` of the rules.)
pub const NONE: Scenes = Scenes {
    red: Scene(0),
    green: Scene(0),
    blue: Scene(0),
};

// Refusals 3, 4, 5, then 12, then 13, 11 and 6 of red, of green and of blue.
#[tactic(auto, using(rules::proofs::Settings::aces_valid), unfolding(rules::specs::Reel::meter_check))]
pub fn check(r: &[u8]) -> Result<(), Refusal>
    requires { length r.now ≡ pixel_size }
    ensures { result ≡ meter_check r.now }
{
    let s = records::setting_of(r);
    setting::check_for_aces(s)?;
    pixel_record::check_codes(s, r)
}

// The scene numbers of a record that passes.
pub fn scenes_in(r: &[u8]) -> Scenes
    requires r_len { length r.now ≡ pixel_size }
    requires r_value { meter_check r.now ≡ Ok tt }
    ensures { result ≡ metered decoded r.now }
{
    let p = records::channels_in(r);
    let d = Prepared::new(records::setting_of(r));
    Scenes {
        red: d.scene(p.red),
        green: d.scene(p.green),
        blue: d.scene(p.blue),
    }
}

// The same of any record: nothing of one that is refused.
#[tactic(auto, unfolding(rules::specs::Reel::metered))]
pub fn metered_in(r: &[u8]) -> Scenes
    requires { length r.now ≡ pixel_size }
    ensures { result ≡ metered decoded r.now }
{
    match check(r) {
        Ok(()) => scenes_in(r),
        Err(_) => NONE,
    }
}
