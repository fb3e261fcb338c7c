// The strip of a reel: how many records it has room for, which are held, and the record at an index, read and written.

#![tactic(auto)]

ghost use Rattle.std.specs.Prelude.{◌≡◌, ◌<◌};
ghost use Rattle.rules.specs.Record.{pixel_size};
ghost use Rattle.rules.specs.Reel.{room_in, held, with_record, metered};
ghost use Rattle.rules.specs.Strip.{record_at};
ghost use Rattle.decode.specs.Decoded.{decoded};

use records::PIXEL_SIZE;
use rules::Scenes;

// The most records of a reel.
const MOST: u64 = 4096;

// How many records a strip has room for.
pub fn room_in(strip: &[u8]) -> u64
    ensures { result ≡ room_in strip.now }
{
    let whole = (strip.len() / PIXEL_SIZE) as u64;
    whole.min(MOST)
}

// Whether an index is held.
pub fn held(strip: &[u8], count: u64, index: u64) -> bool
    ensures { result ≡ held (room_in strip.now) count index }
{
    index < count && index < room_in(strip)
}

// The scene numbers of the record at an index.
pub fn metered_at(strip: &[u8], index: u64) -> Scenes
    requires { index < room_in strip.now }
    ensures { result ≡ metered decoded (record_at pixel_size index strip.now) }
{
    reel_record::metered_in(records::record_at(strip, PIXEL_SIZE, index as usize))
}

// A record written at an index.
pub fn put_record(strip: &mut [u8], index: u64, r: &[u8; PIXEL_SIZE])
    requires { index < room_in strip.old }
    ensures { strip.new ≡ with_record strip.old index r.now }
{
    let at = index as usize * PIXEL_SIZE;
    strip[at..at + PIXEL_SIZE].copy_from_slice(r);
}
