// Scene records: the checks of their numbers, and what is written for one. (A record is a slice with its length
// in a clause: `record_at` lends a part whose size the conversion says.)

#![tactic(auto)]

ghost use Rattle.std.specs.Prelude.{◌≡◌, length, Ok};
ghost use Rattle.rules.specs.Record.{code_bytes, number_bytes, pixel_size, numbers_size};
ghost use Rattle.decode.specs.Decoded.{decoded};
ghost use Rattle.rules.specs.Conversions.{channel_checks, each_channel, number_check, code_bits};

use decode::prepared::Prepared;
use rules::{Refusal, Scenes, Setting};

// The checks of the three numbers of a record.
#[tactic(auto, unfolding(rules::specs::Conversions::channel_checks))]
pub fn check_numbers(s: Setting, r: &[u8]) -> Result<(), Refusal>
    requires { length r.now ≡ numbers_size }
    ensures { result ≡ channel_checks number_bytes (number_check s) r.now }
{
    let x: Scenes = records::channels_in(r);
    encode::check_scene(x.red)?;
    encode::check_scene(x.green)?;
    encode::check_scene(x.blue)
}

// What is written for a record: its setting and codes.
pub fn write_pixel(d: &Prepared, r: &[u8], out: &mut [u8])
    requires r_len { length r.now ≡ numbers_size }
    requires r_value { channel_checks number_bytes (number_check d.now.setting) r.now ≡ Ok tt }
    requires out_len { length out.old ≡ pixel_size }
    ensures { out.new ≡ each_channel number_bytes code_bytes d.now.setting (code_bits decoded d.now.setting) r.now }
{
    let x: Scenes = records::channels_in(r);
    let p = encode::pixel_of(d, x.red, x.green, x.blue);
    records::put(out, d.setting, p);
}
