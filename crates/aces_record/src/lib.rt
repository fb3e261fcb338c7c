// ACES records: what is written for a pixel record, and for an ACES record on the way back, exact or tolerant. (A record is a slice with its length
// in a clause: `record_at` lends a part whose size the conversion says.)

#![tactic(auto)]

ghost use Rattle.std.specs.Prelude.{◌≡◌, length, Ok};
ghost use Rattle.rules.specs.Setting.{code_check, ValidForAces};
ghost use Rattle.rules.specs.WayBack.{found_check, distance_of};
ghost use Rattle.aces_inverse.specs.Reach.{InReach};
ghost use Rattle.way_back.specs.Back.{pixel_for};
ghost use Rattle.way_back.specs.Candidate.{candidate_pixel};
ghost use Rattle.rules.specs.Record.{pixel_in, pixel_record, triple_in, aces_record, code_bytes, pixel_size, numbers_size};
ghost use Rattle.rules.specs.Conversions.{channel_checks};
ghost use Rattle.aces.specs.OfPixel.{pixel_aces};

use decode::prepared::Prepared;
use rules::{Distance, Refusal, Triple};

// What is written for a pixel record: its ACES record.
pub fn write_triple(d: &Prepared, r: &[u8], out: &mut [u8])
    requires r_len { length r.now ≡ pixel_size }
    requires r_value { channel_checks code_bytes (code_check d.now.setting) r.now ≡ Ok tt }
    requires out_len { length out.old ≡ numbers_size }
    ensures { out.new ≡ aces_record d.now.setting (pixel_aces d.now.setting (pixel_in r.now)) }
{
    let a = aces::of_pixel(d, records::channels_in(r));
    records::put(out, d.setting, a);
}

// The check of an ACES record: refusal 10.
pub fn check_triple(k: Distance, d: &Prepared, r: &[u8]) -> Result<(), Refusal>
    requires valid_for_aces { ValidForAces d.now.setting }
    requires r_len { length r.now ≡ numbers_size }
    ensures { result ≡ found_check (pixel_for (distance_of k) d.now.setting (triple_in r.now)) }
{
    way_back::check_aces(k, d, records::channels_in(r))
}

// What is written for an ACES record that passes: the record of the only pixel that can give it, exactly or nearly.
pub fn write_back(d: &Prepared, r: &[u8], out: &mut [u8])
    requires valid_for_aces { ValidForAces d.now.setting }
    requires r_len { length r.now ≡ numbers_size }
    requires in_reach { InReach (triple_in r.now).red.0 (triple_in r.now).green.0 (triple_in r.now).blue.0 }
    requires out_len { length out.old ≡ pixel_size }
    ensures { out.new ≡ pixel_record d.now.setting (candidate_pixel d.now.setting (triple_in r.now)) }
{
    let a: Triple = records::channels_in(r);
    let p = way_back::candidate(d, a.red, a.green, a.blue);
    records::put(out, d.setting, p);
}
