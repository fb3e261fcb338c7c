// Pixel records: the checks of their codes, and what is written for one. (A record is a slice with its length
// in a clause: `record_at` lends a part whose size the conversion says.)

#![tactic(auto)]

ghost use Rattle.std.specs.Prelude.{◌≡◌, length, Ok};
ghost use Rattle.rules.specs.Record.{code_bytes, number_bytes, pixel_size, numbers_size};
ghost use Rattle.rules.specs.Setting.{code_check, Valid};
ghost use Rattle.decode.specs.Decoded.{decoded};
ghost use Rattle.rules.specs.Conversions.{channel_checks, each_channel, scene_bits};

use decode::prepared::Prepared;
use rules::{Pixel, Refusal, Scenes, Setting};

// The checks of the three codes of a record.
#[tactic(auto, unfolding(rules::specs::Conversions::channel_checks))]
pub fn check_codes(s: Setting, r: &[u8]) -> Result<(), Refusal>
    requires valid { Valid s }
    requires r_len { length r.now ≡ pixel_size }
    ensures { result ≡ channel_checks code_bytes (code_check s) r.now }
{
    setting_codes::check_pixel(s, records::channels_in(r))
}

// What is written for a record: its setting and scene numbers.
pub fn write_scene(d: &Prepared, r: &[u8], out: &mut [u8])
    requires r_len { length r.now ≡ pixel_size }
    requires r_value { channel_checks code_bytes (code_check d.now.setting) r.now ≡ Ok tt }
    requires out_len { length out.old ≡ numbers_size }
    ensures { out.new ≡ each_channel code_bytes number_bytes d.now.setting (scene_bits decoded d.now.setting) r.now }
{
    let p: Pixel = records::channels_in(r);
    let x = Scenes {
        red: d.scene(p.red),
        green: d.scene(p.green),
        blue: d.scene(p.blue),
    };
    records::put(out, d.setting, x);
}
