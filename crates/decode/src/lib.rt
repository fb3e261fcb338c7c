// Decoding: the scene number of a code.

#![tactic(auto)]

ghost use Rattle.std.specs.Prelude.{◌≡◌};
ghost use Rattle.rules.specs.Decoding.{DecodesCode};
ghost use Rattle.rules.specs.Result.{Each};
ghost use Rattle.decode.specs.Answer.{decoding_result, decode_result};

pub mod decoder;
pub mod prepared;

use prepared::Prepared;
use rules::{Code, Refusal, Scene, Setting};

// The scene number of a code, or the refusal of the first check that fails: 3, 4, 5, then 13, 11 and 6. The number is a decoded number in the rules'
// sense.
#[tactic(auto, unfolding(crate::specs::Answer::decode_result))]
pub fn decode(s: Setting, n: Code) -> Result<Scene, Refusal>
    ensures result_value { decoding_result result ≡ decode_result s n.0 }
    ensures each { Each (DecodesCode s n.0) (decoding_result result).values }
{
    setting::check_setting(s)?;
    setting_codes::check_code(s, n)?;
    Ok(Prepared::new(s).scene(n))
}
