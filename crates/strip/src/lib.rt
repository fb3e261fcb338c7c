// Conversions of strips. A first pass checks every record, a second writes each: a refusal leaves the output as it was. The way back of a short
// strip takes one pass, into a buffer.

#![tactic(auto)]

ghost use Rattle.std.specs.Prelude.{◌≡◌};
ghost use Rattle.rules.specs.Conversions.{aces_to_half, half_to_aces};
ghost use Rattle.rules.specs.Strip.{Converts};
ghost use Rattle.rules.specs.WayBack.{distance_of};
ghost use Rattle.record_conversion.specs.Conversions.{pixel_to_scene, scene_to_pixel, pixel_to_aces, back_within, aces_to_pixel, aces_to_pixel_tolerant, graded_to_pixel, graded_to_scene};
ghost use Rattle.strip.specs.Lent.{LentBytes};

use record_conversion::{
    AcesToHalf, AcesToPixel, GradedToPixel, GradedToScene, HalfToAces, PixelToAces, PixelToScene,
    RecordConversion, SceneToPixel,
};
use records::{NUMBERS_SIZE, PIXEL_SIZE};
use rules::{Distance, Refusal, RefusedAt};

// The least records that the way back takes in one pass. For fewer the two passes are done before a buffer is made.
const ONE_PASS_LEAST: usize = 16;

// The conversion of a strip.
fn convert<C: RecordConversion>(k: C, input: &[u8], output: &mut [u8]) -> Result<usize, RefusedAt>
    ensures converts { Converts (C.rule k) input.now output.old result output.new }
    ensures lent_bytes { LentBytes input.now output.old output.new }
{
    let from = k.size_from();
    let to = k.size_to();
    if input.len() % from != 0 {
        return Err(RefusedAt {
            cause: Refusal::PartialRecord,
            index: 0,
        });
    }
    let n = input.len() / from;
    if output.len() / to < n {
        return Err(RefusedAt {
            cause: Refusal::ShortOutput,
            index: 0,
        });
    }
    let m = strip_passes::scan(k, input, n)?;
    strip_passes::write(k, input, output, m);
    Ok(m)
}

// The nine conversions, by the names that docs/PROMISES.md has for them. (Each is one call of a function above, with the value that says which
// conversion it is: the contract of each says the conversion, and edits such as aces_read_as_halves hold the value to it.)
//
// Decoding: a strip of pixel records to one of scene records.
pub fn pixel_to_scene(input: &[u8], output: &mut [u8]) -> Result<usize, RefusedAt>
    ensures converts { Converts pixel_to_scene input.now output.old result output.new }
    ensures lent_bytes { LentBytes input.now output.old output.new }
{
    convert(PixelToScene, input, output)
}

// Encoding: a strip of scene records to one of pixel records.
pub fn scene_to_pixel(input: &[u8], output: &mut [u8]) -> Result<usize, RefusedAt>
    ensures converts { Converts scene_to_pixel input.now output.old result output.new }
    ensures lent_bytes { LentBytes input.now output.old output.new }
{
    convert(SceneToPixel, input, output)
}

// A strip of pixel records to one of ACES records.
pub fn pixel_to_aces(input: &[u8], output: &mut [u8]) -> Result<usize, RefusedAt>
    ensures converts { Converts pixel_to_aces input.now output.old result output.new }
    ensures lent_bytes { LentBytes input.now output.old output.new }
{
    convert(PixelToAces, input, output)
}

// A way back: a short strip in one pass, any other in two.
fn take_back(k: Distance, input: &[u8], output: &mut [u8]) -> Result<usize, RefusedAt>
    ensures converts { Converts (back_within (distance_of k)) input.now output.old result output.new }
    ensures lent_bytes { LentBytes input.now output.old output.new }
{
    let n = input.len() / NUMBERS_SIZE;
    if ONE_PASS_LEAST <= n
        && n <= strip_one_pass::MOST
        && input.len() % NUMBERS_SIZE == 0
        && n * PIXEL_SIZE <= output.len()
    {
        return strip_one_pass::aces_to_pixel(k, input, n, output);
    }
    convert(AcesToPixel { distance: k }, input, output)
}

// The way back: a strip of ACES records to the one of pixel records that gives it.
pub fn aces_to_pixel(input: &[u8], output: &mut [u8]) -> Result<usize, RefusedAt>
    ensures converts { Converts aces_to_pixel input.now output.old result output.new }
    ensures lent_bytes { LentBytes input.now output.old output.new }
{
    take_back(Distance::Exact, input, output)
}

// The tolerant way back: a strip of ACES records to the one of pixel records whose ACES numbers are near those of the input.
pub fn aces_to_pixel_tolerant(input: &[u8], output: &mut [u8]) -> Result<usize, RefusedAt>
    ensures converts { Converts aces_to_pixel_tolerant input.now output.old result output.new }
    ensures lent_bytes { LentBytes input.now output.old output.new }
{
    take_back(Distance::Tolerant, input, output)
}

// A strip of ACES records to one of half records. Pixels that differ may have one half record: a half strip is no master.
pub fn aces_to_half(input: &[u8], output: &mut [u8]) -> Result<usize, RefusedAt>
    ensures converts { Converts aces_to_half input.now output.old result output.new }
    ensures lent_bytes { LentBytes input.now output.old output.new }
{
    convert(AcesToHalf, input, output)
}

// A strip of half records to one of ACES records.
pub fn half_to_aces(input: &[u8], output: &mut [u8]) -> Result<usize, RefusedAt>
    ensures converts { Converts half_to_aces input.now output.old result output.new }
    ensures lent_bytes { LentBytes input.now output.old output.new }
{
    convert(HalfToAces, input, output)
}

// The graded road: a strip of graded ACES records to one of pixel records, with the codes nearest to what graded_to_scene gives.
pub fn graded_to_pixel(input: &[u8], output: &mut [u8]) -> Result<usize, RefusedAt>
    ensures converts { Converts graded_to_pixel input.now output.old result output.new }
    ensures lent_bytes { LentBytes input.now output.old output.new }
{
    convert(GradedToPixel, input, output)
}

// The same to one of scene records, whose ACES numbers are near those of the input.
pub fn graded_to_scene(input: &[u8], output: &mut [u8]) -> Result<usize, RefusedAt>
    ensures converts { Converts graded_to_scene input.now output.old result output.new }
    ensures lent_bytes { LentBytes input.now output.old output.new }
{
    convert(GradedToScene, input, output)
}
