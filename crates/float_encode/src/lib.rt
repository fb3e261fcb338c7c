// Encoding from float pixels: the pixel of three f64.

#![tactic(auto)]

ghost use Rattle.std.specs.Prelude.{◌≡◌};
ghost use Rattle.float_encode.specs.Answer.{float_encoding_result, numbered_float_encoding_result, encode_pixel_result};

use decode::prepared::Prepared;
use float_decode::FloatPixel;
use rules::{Pixel, Refusal, Setting};

// The pixel of a float pixel, or the cause of the first check that fails: 3, 4, 5, then 8 and 9 for red, green and blue.
#[tactic(auto, unfolding(crate::specs::Answer::encode_pixel_result, float_unit::specs::Reading::read_answer), using(float_unit::proofs::Range::units_pass))]
pub fn encode_pixel(s: Setting, f: FloatPixel) -> Result<Pixel, Refusal>
    ensures { float_encoding_result result ≡ encode_pixel_result s f }
{
    setting::check_setting(s)?;
    let red = float_unit::read(f.red)?;
    let green = float_unit::read(f.green)?;
    let blue = float_unit::read(f.blue)?;
    Ok(encode::pixel_of(&Prepared::new(s), red, green, blue))
}

// The same with the cause's number, as `decode_pixel_or_number` answers it.
pub fn encode_pixel_or_number(s: Setting, f: FloatPixel) -> Result<Pixel, u8>
    ensures { numbered_float_encoding_result result ≡ encode_pixel_result s f }
{
    encode_pixel(s, f).map_err(|why| setting::refusal_number(why))
}
