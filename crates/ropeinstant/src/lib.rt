// The conversions of strips and of float pixels for C, the calls on a reel, and the top code of a width. A function over strips lends them to a
// conversion of `strip` and gives the answer as a number and a place; one over a float pixel gives the number, and writes where it is 0; one on
// a reel lends what C keeps of it to `reel_for_c`. include/ropeinstant.h declares them.

#![tactic(auto)]

ghost use Rattle.std.specs.Prelude.{◌≡◌};
ghost use Rattle.record_conversion.specs.Conversions.{pixel_to_scene, scene_to_pixel, pixel_to_aces, aces_to_pixel, aces_to_pixel_tolerant, graded_to_pixel, graded_to_scene};
ghost use Rattle.rules.specs.Conversions.{aces_to_half, half_to_aces};
ghost use Rattle.rules.specs.Result.{strip_result};
ghost use Rattle.rules.specs.Setting.{top_of};
ghost use Rattle.rules.specs.Reel as calls;
ghost use Rattle.reel_for_c.specs.Call.{GivesReel};
ghost use Rattle.strip.specs.Lent.{LentBytes};
ghost use Rattle.ropeinstant.specs.Call.{place, Gives};
ghost use Rattle.ropeinstant.specs.Floats.{decoding, encoding, GivesValues};

use float_decode::FloatPixel;
use records::PIXEL_SIZE;
use rules::{Code, Pixel, RefusedAt, Setting};

// An answer as C has it: its number, and its place in a word that C lends.
fn give(a: Result<usize, RefusedAt>, at: &mut u64) -> u32
    ensures value { result ≡ (strip_result a).number }
    ensures at_after { at.new ≡ place (strip_result a) }
{
    match a {
        Ok(n) => {
            *at = n as u64;
            0
        }
        Err(e) => {
            *at = e.index as u64;
            setting::refusal_number(e.cause) as u32
        }
    }
}

// The nine functions over strips stand apart, and not one with the conversion as an argument: C links each by its own name, for the C interface.

// Decoding: a strip of pixel records to one of scene records.
#[unsafe(no_mangle)]
pub extern "C" fn ropeinstant_pixel_to_scene(input: &[u8], output: &mut [u8], at: &mut u64) -> u32
    ensures gives { Gives pixel_to_scene input.now output.old result at.new output.new }
    ensures lent_bytes { LentBytes input.now output.old output.new }
{
    give(strip::pixel_to_scene(input, output), at)
}

// Encoding: a strip of scene records to one of pixel records.
#[unsafe(no_mangle)]
pub extern "C" fn ropeinstant_scene_to_pixel(input: &[u8], output: &mut [u8], at: &mut u64) -> u32
    ensures gives { Gives scene_to_pixel input.now output.old result at.new output.new }
    ensures lent_bytes { LentBytes input.now output.old output.new }
{
    give(strip::scene_to_pixel(input, output), at)
}

// A strip of pixel records to one of ACES records.
#[unsafe(no_mangle)]
pub extern "C" fn ropeinstant_pixel_to_aces(input: &[u8], output: &mut [u8], at: &mut u64) -> u32
    ensures gives { Gives pixel_to_aces input.now output.old result at.new output.new }
    ensures lent_bytes { LentBytes input.now output.old output.new }
{
    give(strip::pixel_to_aces(input, output), at)
}

// The way back: a strip of ACES records to one of pixel records.
#[unsafe(no_mangle)]
pub extern "C" fn ropeinstant_aces_to_pixel(input: &[u8], output: &mut [u8], at: &mut u64) -> u32
    ensures gives { Gives aces_to_pixel input.now output.old result at.new output.new }
    ensures lent_bytes { LentBytes input.now output.old output.new }
{
    give(strip::aces_to_pixel(input, output), at)
}

// The tolerant way back: the same where numbers were moved by a few units.
#[unsafe(no_mangle)]
pub extern "C" fn ropeinstant_aces_to_pixel_tolerant(
    input: &[u8],
    output: &mut [u8],
    at: &mut u64,
) -> u32
    ensures gives { Gives aces_to_pixel_tolerant input.now output.old result at.new output.new }
    ensures lent_bytes { LentBytes input.now output.old output.new }
{
    give(strip::aces_to_pixel_tolerant(input, output), at)
}

// A strip of ACES records to one of half records.
#[unsafe(no_mangle)]
pub extern "C" fn ropeinstant_aces_to_half(input: &[u8], output: &mut [u8], at: &mut u64) -> u32
    ensures gives { Gives aces_to_half input.now output.old result at.new output.new }
    ensures lent_bytes { LentBytes input.now output.old output.new }
{
    give(strip::aces_to_half(input, output), at)
}

// A strip of half records to one of ACES records.
#[unsafe(no_mangle)]
pub extern "C" fn ropeinstant_half_to_aces(input: &[u8], output: &mut [u8], at: &mut u64) -> u32
    ensures gives { Gives half_to_aces input.now output.old result at.new output.new }
    ensures lent_bytes { LentBytes input.now output.old output.new }
{
    give(strip::half_to_aces(input, output), at)
}

// The graded road: a strip of graded ACES records to one of pixel records.
#[unsafe(no_mangle)]
pub extern "C" fn ropeinstant_graded_to_pixel(input: &[u8], output: &mut [u8], at: &mut u64) -> u32
    ensures gives { Gives graded_to_pixel input.now output.old result at.new output.new }
    ensures lent_bytes { LentBytes input.now output.old output.new }
{
    give(strip::graded_to_pixel(input, output), at)
}

// The same to one of scene records.
#[unsafe(no_mangle)]
pub extern "C" fn ropeinstant_graded_to_scene(input: &[u8], output: &mut [u8], at: &mut u64) -> u32
    ensures gives { Gives graded_to_scene input.now output.old result at.new output.new }
    ensures lent_bytes { LentBytes input.now output.old output.new }
{
    give(strip::graded_to_scene(input, output), at)
}

// Decoding one pixel to floats.
#[unsafe(no_mangle)]
pub extern "C" fn ropeinstant_codes_to_floats(
    curve: u8,
    width: u8,
    ei: u16,
    red: u16,
    green: u16,
    blue: u16,
    floats: &mut [f64; 3],
) -> u32
    ensures { GivesValues (decoding curve width ei red green blue) floats.old result floats.new }
{
    let s = Setting { curve, width, ei };
    let p = Pixel {
        red: Code(red),
        green: Code(green),
        blue: Code(blue),
    };
    match float_decode::decode_pixel_or_number(s, p) {
        Ok(f) => {
            *floats = [f.red, f.green, f.blue];
            0
        }
        Err(number) => number as u32,
    }
}

// Encoding one float pixel.
#[unsafe(no_mangle)]
pub extern "C" fn ropeinstant_floats_to_codes(
    curve: u8,
    width: u8,
    ei: u16,
    red: f64,
    green: f64,
    blue: f64,
    codes: &mut [u16; 3],
) -> u32
    ensures { GivesValues (encoding curve width ei red green blue) codes.old result codes.new }
{
    let s = Setting { curve, width, ei };
    let f = FloatPixel { red, green, blue };
    match float_encode::encode_pixel_or_number(s, f) {
        Ok(p) => {
            *codes = [p.red.0, p.green.0, p.blue.0];
            0
        }
        Err(number) => number as u32,
    }
}

// The top code of a width of 1 to 16 bits, and 0 for any other number.
#[unsafe(no_mangle)]
pub extern "C" fn ropeinstant_top_code(width: u8) -> u16
    ensures { result ≡ top_of width }
{
    setting_codes::top_code(width).0
}

// Appending a record to a reel.
#[unsafe(no_mangle)]
pub extern "C" fn ropeinstant_reel_append(
    strip: &mut [u8],
    count: &mut u64,
    sums: &mut [u64; 3],
    r: &[u8; PIXEL_SIZE],
) -> u32
    ensures { GivesReel strip.old count.old sums.old (calls.Call.append r.now) result count.new sums.new strip.new }
{
    reel_for_c::append(strip, count, sums, r)
}

// Replacing the record at an index of a reel.
#[unsafe(no_mangle)]
pub extern "C" fn ropeinstant_reel_replace(
    strip: &mut [u8],
    count: u64,
    sums: &mut [u64; 3],
    index: u64,
    r: &[u8; PIXEL_SIZE],
) -> u32
    ensures { GivesReel strip.old count sums.old (calls.Call.replace index r.now) result count sums.new strip.new }
{
    reel_for_c::replace(strip, count, sums, index, r)
}

// Dropping the last record of a reel.
#[unsafe(no_mangle)]
pub extern "C" fn ropeinstant_reel_drop(strip: &[u8], count: &mut u64, sums: &mut [u64; 3]) -> u32
    ensures { GivesReel strip.now count.old sums.old calls.Call.drop_last result count.new sums.new strip.now }
{
    reel_for_c::drop_last(strip, count, sums)
}
