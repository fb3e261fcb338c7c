// Encoding: the code of a scene number.

#![tactic(auto)]

ghost use Rattle.std.specs.Prelude.{◌≡◌, Ok};
ghost use Rattle.rules.specs.Result.{Each};
ghost use Rattle.rules.specs.Pixels.{pixel};
ghost use Rattle.rules.specs.Setting.{last_of};
ghost use Rattle.rules.specs.Encoding.{scene_check};
ghost use Rattle.encode.specs.Encoded.{encoded, encoded_step};
ghost use Rattle.encode.specs.Answer.{encoding_result, encode_result, Encodes};

use decode::prepared::Prepared;
use rules::{Code, Pixel, Refusal, Scene, Setting, Step};

// The scene numbers to encode go from minus this to this.
const LIMIT: i64 = 1 << 40;

// A number with its offset, 2^20, is not below 0 if it is a step's.
const OFFSET: i64 = 1 << 20;

// Refusal 7.
pub fn check_scene(x: Scene) -> Result<(), Refusal>
    ensures { result ≡ scene_check x.0 }
{
    setting::check_between(-LIMIT, x.0, LIMIT, Refusal::SceneOutOfRange)
}

// The step of a scene number, of a setting with this last step.
fn nearest_step(d: &Prepared, last: Step, x: Scene) -> Step
    requires last_value { last.0 ≡ last_of d.now.setting }
    requires x_value { scene_check x.0 ≡ Ok tt }
    ensures { result.0 ≡ encoded_step d.now.setting x.0 }
{
    let number = x.0;
    if number < -OFFSET {
        return Step(0);
    }
    nearest_code::find(
        d.setting,
        d.decoder,
        &d.table,
        last,
        (number + OFFSET) as u64,
    )
}

// The code of a scene number, likewise.
fn code_of(d: &Prepared, last: Step, x: Scene) -> Code
    requires last_value { last.0 ≡ last_of d.now.setting }
    requires x_value { scene_check x.0 ≡ Ok tt }
    ensures { result.0 ≡ encoded d.now.setting x.0 }
{
    setting_codes::code_at(d.setting, nearest_step(d, last, x))
}

// The pixel of three scene numbers, with the last step computed once. (They come one by one, in registers: docs/DECISIONS.md.)
pub fn pixel_of(d: &Prepared, red: Scene, green: Scene, blue: Scene) -> Pixel
    requires red_value { scene_check red.0 ≡ Ok tt }
    requires green_value { scene_check green.0 ≡ Ok tt }
    requires blue_value { scene_check blue.0 ≡ Ok tt }
    ensures { result ≡ pixel (encoded d.now.setting red.0) (encoded d.now.setting green.0) (encoded d.now.setting blue.0) }
{
    let last = setting_codes::last_step(d.setting);
    Pixel {
        red: code_of(d, last, red),
        green: code_of(d, last, green),
        blue: code_of(d, last, blue),
    }
}

// The code of a scene number, or the refusal of the first check that fails: 3, 4, 5, then 7. The code is the nearest, and where it is not
// clipped within two thirds of a code of the exact curve.
#[tactic(auto, unfolding(crate::specs::Answer::encode_result))]
pub fn encode(s: Setting, x: Scene) -> Result<Code, Refusal>
    ensures result_value { encoding_result result ≡ encode_result s x.0 }
    ensures each { Each (Encodes s x.0) (encoding_result result).values }
{
    setting::check_setting(s)?;
    check_scene(x)?;
    Ok(code_of(&Prepared::new(s), setting_codes::last_step(s), x))
}
