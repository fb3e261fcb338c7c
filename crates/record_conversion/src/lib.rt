// The conversions of one record: what each checks of its setting and of the record after it, and what it writes for it.

#![tactic(auto)]

ghost use Rattle.std.specs.Prelude.{◌≡◌, ◌<◌, length, Ok};
ghost use Rattle.rules.specs.Record.{setting_of};
ghost use Rattle.rules.specs.WayBack.{distance_of};
ghost use Rattle.record_conversion.specs.Conversions.{back_within, stretch_after};

pub use aces_to_half::AcesToHalf;
pub use aces_to_pixel::AcesToPixel;
use decode::prepared::Prepared;
pub use graded_to_pixel::GradedToPixel;
pub use graded_to_scene::GradedToScene;
pub use half_to_aces::HalfToAces;
pub use pixel_to_aces::PixelToAces;
pub use pixel_to_scene::PixelToScene;
use rules::{Distance, Refusal, Setting};
pub use scene_to_pixel::SceneToPixel;

mod aces_to_half;
mod aces_to_pixel;
mod graded_to_pixel;
mod graded_to_scene;
mod half_to_aces;
mod pixel_to_aces;
mod pixel_to_scene;
mod scene_to_pixel;

// The setting that is prepared before the first record's. Every conversion accepts it.
pub const FIRST: Setting = Setting {
    curve: 4,
    width: 12,
    ei: 0,
};

// A conversion of records, each on its own: a type for each, so that a loop over records has the steps of one of them (docs/DECISIONS.md).
// (The impls are alike in form: each method is the one call of its conversion, and each type has edits. A record is a slice with its length in
// a clause: the length is of the type, and Rattle has no array of a length that is computed from one.)
pub trait RecordConversion: Copy {
    ghost use Rattle.rules.specs.Strip.{Conversion};
    ghost use Rattle.record_conversion.specs.Lawful.{Lawful};

    // The conversion of the rules.
    ghost rule: { Self → Conversion };

    // The bytes of a record, and of what is written for one. (Functions and no constants, since `rule` takes a value.)
    fn size_from(self) -> usize
        ensures { (result ≡ (rule self).from) × (0 < result) × (result < 100) };

    fn size_to(self) -> usize
        ensures { (result ≡ (rule self).to) × (0 < result) × (result < 100) };

    // The checks of a record's setting.
    fn check_setting(self, s: Setting) -> Result<(), Refusal>
        ensures { result ≡ (rule self).setting s };

    // The checks of a record after its setting's.
    fn check_inner(self, d: &Prepared, r: &[u8]) -> Result<(), Refusal>
        requires { (d.now.setting ≡ setting_of r.now) × (length r.now ≡ (rule self).from) × ((rule self).setting d.now.setting ≡ Ok tt) }
        ensures { result ≡ (rule self).inner r.now };

    // What is written for a record that passes.
    fn write_record(self, d: &Prepared, r: &[u8], out: &mut [u8])
        requires s_value { (d.now.setting ≡ setting_of r.now) × (length r.now ≡ (rule self).from) × ((rule self).inner r.now ≡ Ok tt) × ((rule self).setting d.now.setting ≡ Ok tt) }
        requires out_len { length out.old ≡ (rule self).to }
        ensures { out.new ≡ (rule self).bytes r.now };

    // What holds of every conversion.
    ghost lawful: { (k : Self) → Lawful (rule k) };
}

// An ACES record on the way back, exact or tolerant, in one step: its check, refusal 10, and where it passes what is written for it. (The steps
// of a way back stand here, and not behind one call, for speed: docs/DECISIONS.md.)
pub fn convert_aces(k: Distance, d: &Prepared, r: &[u8], out: &mut [u8]) -> Result<(), Refusal>
    requires s_value { (d.now.setting ≡ setting_of r.now) × (length r.now ≡ (back_within (distance_of k)).from) × ((back_within (distance_of k)).setting d.now.setting ≡ Ok tt) }
    requires out_len { length out.old ≡ (back_within (distance_of k)).to }
    ensures value { result ≡ (back_within (distance_of k)).inner r.now }
    ensures out_after { out.new ≡ stretch_after result ((back_within (distance_of k)).bytes r.now) out.old }
{
    let a = records::channels_in(r);
    if !way_back::all_in_reach(a.red, a.green, a.blue) {
        return Err(Refusal::NoPixel);
    }
    let p = way_back::candidate(d, a.red, a.green, a.blue);
    if !way_back::gives(k, d, p, a.red, a.green, a.blue) {
        return Err(Refusal::NoPixel);
    }
    records::put(out, d.setting, p);
    Ok(())
}
