// Float pixels, and decoding to them: a pixel's scene numbers as three f64.

#![tactic(auto)]

ghost use Rattle.std.specs.Prelude.{◌≡◌, Ok};
ghost use Rattle.rules.specs.Setting.{code_check};
ghost use Rattle.rules.specs.Float.{float_of};
ghost use Rattle.rules.specs.Pixels.{IsPixel};
ghost use Rattle.decode.specs.Decoded.{decoded};
ghost use Rattle.float_decode.specs.Answer.{float_pixel, float_decoding_result, numbered_float_decoding_result, decode_pixel_result, Exact};

use decode::prepared::Prepared;
use rules::{Code, Pixel, Refusal, Rgb, Setting};

// A float pixel: the floats of its three channels.
pub type FloatPixel = Rgb<f64>;

// The float of a code's number.
fn float_at(d: &Prepared, n: Code) -> f64
    requires { code_check d.now.setting n.0 ≡ Ok tt }
    ensures { result ≡ float_of (decoded d.now.setting n.0) }
{
    float_unit::float_of(d.scene(n))
}

fn floats_of(d: &Prepared, p: Pixel) -> FloatPixel
    requires { IsPixel d.now.setting p }
    ensures { result ≡ float_pixel d.now.setting p }
{
    FloatPixel {
        red: float_at(d, p.red),
        green: float_at(d, p.green),
        blue: float_at(d, p.blue),
    }
}

// The float pixel of a pixel, or the cause of the first check that fails: 3, 4, 5, then 13, 11 and 6 for red, green and blue.
#[tactic(auto, unfolding(crate::specs::Answer::decode_pixel_result), using(crate::proofs::Theorems::answer_exact))]
pub fn decode_pixel(s: Setting, p: Pixel) -> Result<FloatPixel, Refusal>
    ensures result_value { float_decoding_result result ≡ decode_pixel_result s p }
    ensures exact { Exact s p (float_decoding_result result).values }
{
    setting::check_setting(s)?;
    setting_codes::check_pixel(s, p)?;
    Ok(floats_of(&Prepared::new(s), p))
}

// The same with the cause's number, which is 01's form: the float pixel or a refusal number.
#[tactic(auto, using(crate::proofs::Theorems::answer_exact))]
pub fn decode_pixel_or_number(s: Setting, p: Pixel) -> Result<FloatPixel, u8>
    ensures result_value { numbered_float_decoding_result result ≡ decode_pixel_result s p }
    ensures exact { Exact s p (numbered_float_decoding_result result).values }
{
    decode_pixel(s, p).map_err(|why| setting::refusal_number(why))
}
