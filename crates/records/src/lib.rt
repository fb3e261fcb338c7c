// Records in their bytes: a setting and three channels, read and written.

#![tactic(auto)]

ghost use Rattle.std.specs.Prelude.{◌≡◌, [], ◌∷◌, ◌+◌, ◌*◌, ◌≤◌, length};
ghost use Rattle.rules.specs.Record.{bytes_of, setting_of, setting_bytes, size_of};
ghost use Rattle.rules.specs.Strip.{record_at};
ghost use Rattle.records.specs.Channels.{channels_in, record_with};

pub mod channel;

use channel::Channel;
use little_endian::{CODE_BYTES, HALF_BYTES, NUMBER_BYTES};
use rules::{Rgb, Setting};

// The bytes of a setting, of a pixel record, of a scene record or an ACES record, and of a half record.
pub const SETTING_BYTES: usize = 4;

pub const PIXEL_SIZE: usize = SETTING_BYTES + 3 * CODE_BYTES;

pub const NUMBERS_SIZE: usize = SETTING_BYTES + 3 * NUMBER_BYTES;

pub const HALVES_SIZE: usize = SETTING_BYTES + 3 * HALF_BYTES;

// Where the green and the blue channel of each begin. The red one begins behind the setting. (The functions below have these places as
// sums with the bytes of their channel, of any kind.)
pub const GREEN_CODE: usize = SETTING_BYTES + CODE_BYTES;

pub const BLUE_CODE: usize = GREEN_CODE + CODE_BYTES;

pub const GREEN_NUMBER: usize = SETTING_BYTES + NUMBER_BYTES;

pub const BLUE_NUMBER: usize = GREEN_NUMBER + NUMBER_BYTES;

pub const GREEN_HALF: usize = SETTING_BYTES + HALF_BYTES;

pub const BLUE_HALF: usize = GREEN_HALF + HALF_BYTES;

// A record of a strip, from 0.
pub fn record_at(strip: &[u8], size: usize, i: usize) -> &[u8]
    requires { i * size + size ≤ length strip.now }
    ensures { result.now ≡ record_at size i strip.now }
{
    let at = i * size;
    &strip[at..at + size]
}

// A record's setting.
pub fn setting_of(r: &[u8]) -> Setting
    requires { setting_bytes ≤ length r.now }
    ensures { result ≡ setting_of r.now }
{
    Setting {
        curve: r[0],
        width: r[1],
        ei: little_endian::u16_at(r, 2),
    }
}

// A setting in its bytes.
fn put_setting(out: &mut [u8], s: Setting)
    requires { length out.old ≡ setting_bytes }
    ensures { out.new ≡ bytes_of (1 ∷ 1 ∷ 2 ∷ []) (s.curve ∷ s.width ∷ s.ei ∷ []) }
{
    out[0] = s.curve;
    out[1] = s.width;
    little_endian::put_u16(&mut out[2..SETTING_BYTES], s.ei);
}

// The three channels of a record.
pub fn channels_in<T: Channel>(r: &[u8]) -> Rgb<T>
    requires { length r.now ≡ size_of T.BYTES }
    ensures { result ≡ channels_in T.BYTES T.of r.now }
{
    Rgb {
        red: T::read(r, SETTING_BYTES),
        green: T::read(r, SETTING_BYTES + T::BYTES),
        blue: T::read(r, SETTING_BYTES + 2 * T::BYTES),
    }
}

// A record: the setting, and each channel in its own stretch.
pub fn put<T: Channel>(out: &mut [u8], s: Setting, x: Rgb<T>)
    requires { length out.old ≡ size_of T.BYTES }
    ensures { out.new ≡ record_with T.BYTES T.bits s x }
{
    let green = SETTING_BYTES + T::BYTES;
    let blue = green + T::BYTES;
    put_setting(&mut out[0..SETTING_BYTES], s);
    x.red.write(&mut out[SETTING_BYTES..green]);
    x.green.write(&mut out[green..blue]);
    x.blue.write(&mut out[blue..blue + T::BYTES]);
}
