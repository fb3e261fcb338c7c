// The checks of a setting, the check of a number between two ends, and the numbers of the refusals.

#![tactic(auto)]

ghost use Rattle.std.specs.Prelude.{◌≡◌, false, ◌<◌};
ghost use Rattle.std.specs.Int.Signed.{le_z};
ghost use Rattle.rules.specs.Choice.{choose};
ghost use Rattle.rules.specs.Refusal.{number_of, then, refuse_unless};
ghost use Rattle.rules.specs.declared.Refusal.TheVariants.{UnknownWidth, UnknownEi, NoMatrix};
ghost use Rattle.rules.specs.Setting.{named, has_matrix, setting_check, aces_check};
ghost use Rattle.setting.specs.Same.{word_of, same_setting};

use curves::log_c::LogC;
use curves::log_c2::LogC2;
use curves::log_c3::LogC3;
use curves::log_c4::LogC4;
use rules::{CurveName, Refusal, Setting};

// The number of a refusal. (A match and no number of the enum's own: edits such as refusal_number_swapped hold each number here.)
pub fn refusal_number(r: Refusal) -> u8
    ensures { result ≡ number_of r }
{
    match r {
        Refusal::PartialRecord => 1,
        Refusal::ShortOutput => 2,
        Refusal::UnknownCurve => 3,
        Refusal::UnknownWidth => 4,
        Refusal::UnknownEi => 5,
        Refusal::CodeAboveTop => 6,
        Refusal::SceneOutOfRange => 7,
        Refusal::FloatNotFinite => 8,
        Refusal::FloatOutOfRange => 9,
        Refusal::NoPixel => 10,
        Refusal::CodeBelowFirst => 11,
        Refusal::NoMatrix => 12,
        Refusal::CodeNotDivisible => 13,
        Refusal::GradedOutOfRange => 14,
        Refusal::ReelFull => 15,
        Refusal::NotHeld => 16,
    }
}

// Refusals 4 and 5, where the curve has the width or not, and the EI or not.
fn check_limits(width: bool, ei: bool) -> Result<(), Refusal>
    ensures { result ≡ then (refuse_unless width UnknownWidth) (refuse_unless ei UnknownEi) }
{
    if !width {
        return Err(Refusal::UnknownWidth);
    }
    if !ei {
        return Err(Refusal::UnknownEi);
    }
    Ok(())
}

// Refusals 3, 4 and 5.
#[tactic(auto, unfolding(rules::specs::Setting::setting_check))]
pub fn check_setting(s: Setting) -> Result<(), Refusal>
    ensures { result ≡ setting_check s }
{
    match curves::name_of(s.curve) {
        CurveName::LogC2 => check_limits(LogC2::has_width(s.width), LogC::has_ei(s.ei)),
        CurveName::LogC3 => check_limits(LogC3::has_width(s.width), LogC::has_ei(s.ei)),
        CurveName::LogC4 => check_limits(LogC4::has_width(s.width), LogC4::has_ei(s.ei)),
        CurveName::Unknown => Err(Refusal::UnknownCurve),
    }
}

// Refusal 12.
fn check_matrix(s: Setting) -> Result<(), Refusal>
    ensures { result ≡ refuse_unless (has_matrix (named s.curve)) NoMatrix }
{
    if curves::has_matrix(s.curve) {
        Ok(())
    } else {
        Err(Refusal::NoMatrix)
    }
}

// A number from one end to the other, which are among them, or the refusal.
pub fn check_between(low: i64, x: i64, high: i64, cause: Refusal) -> Result<(), Refusal>
    ensures { result ≡ refuse_unless (choose (le_z low x) (le_z x high) false) cause }
{
    if low <= x && x <= high {
        Ok(())
    } else {
        Err(cause)
    }
}

// Refusals 3, 4 and 5, then 12: the checks of a setting in a conversion to or from ACES.
#[tactic(auto, unfolding(rules::specs::Setting::aces_check))]
pub fn check_for_aces(s: Setting) -> Result<(), Refusal>
    ensures { result ≡ aces_check s }
{
    check_setting(s)?;
    check_matrix(s)
}

// The four bytes of a setting as one number; curve and width have one byte each.
fn word(s: Setting) -> u32
    ensures { (result ≡ word_of s) × (s.curve < 256) × (s.width < 256) }
{
    s.curve as u32 + 256 * (s.width as u32) + 65536 * (s.ei as u32)
}

// Whether two settings are the same. (By one number of each, and not by a derived `==`, which goes part by part: every record's
// setting is compared with that of the record before it, and part by part that took up to 5 % more of pixel to ACES.)
pub fn same_setting(a: Setting, b: Setting) -> bool
    ensures { result ≡ same_setting a b }
{
    word(a) == word(b)
}
