// Graded records: what is checked of an ACES record that a colourist changed, and what is written for one: a scene record, or a pixel record.
// (A record is a slice with its length in a clause: `record_at` lends a part whose size the conversion says.)

#![tactic(auto)]

ghost use Rattle.std.specs.Prelude.{◌≡◌, length, Ok};
ghost use Rattle.rules.specs.Setting.{ValidForAces};
ghost use Rattle.rules.specs.Record.{triple_in, scene_record, pixel_record, pixel_size, numbers_size};
ghost use Rattle.rules.specs.Graded.{graded_checks, pixel_nearest};
ghost use Rattle.decode.specs.Decoded.{decoded};
ghost use Rattle.aces_inverse.specs.Inverse.{candidates};

use decode::prepared::Prepared;
use rules::{Refusal, Setting};

// The check of a record: refusal 14.
pub fn check_graded(r: &[u8]) -> Result<(), Refusal>
    requires { length r.now ≡ numbers_size }
    ensures { result ≡ graded_checks (triple_in r.now) }
{
    graded::check_triple(records::channels_in(r))
}

// What is written for a record that passes: its scene record.
pub fn write_scene(s: Setting, r: &[u8], out: &mut [u8])
    requires valid_for_aces { ValidForAces s }
    requires r_len { length r.now ≡ numbers_size }
    requires r_value { graded_checks (triple_in r.now) ≡ Ok tt }
    requires out_len { length out.old ≡ numbers_size }
    ensures { out.new ≡ scene_record s (candidates s (triple_in r.now)) }
{
    let x = graded::scenes_for(s, records::channels_in(r));
    records::put(out, s, x);
}

// Or its pixel record: that triple encoded.
pub fn write_pixel(d: &Prepared, r: &[u8], out: &mut [u8])
    requires valid_for_aces { ValidForAces d.now.setting }
    requires r_len { length r.now ≡ numbers_size }
    requires r_value { graded_checks (triple_in r.now) ≡ Ok tt }
    requires out_len { length out.old ≡ pixel_size }
    ensures { out.new ≡ pixel_record d.now.setting (pixel_nearest decoded d.now.setting (candidates d.now.setting (triple_in r.now))) }
{
    let s = d.setting;
    let x = graded::scenes_for(s, records::channels_in(r));
    let p = encode::pixel_of(d, x.red, x.green, x.blue);
    records::put(out, s, p);
}
