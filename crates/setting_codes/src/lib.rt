// The codes of a setting: the top code of a width, the steps of codes, and the checks of a code.

#![tactic(auto)]

ghost use Rattle.std.specs.Prelude.{◌≡◌, ◌^◌, ◌≤◌, ◌<◌, Ok};
ghost use Rattle.rules.specs.Pixels.{each_code, codes_check};
ghost use Rattle.rules.specs.Setting.{top_of, codes_of, last_of, code_at, step_of, code_among, code_check, Valid};
ghost use Rattle.setting_codes.specs.LogC4.{is_log_c4, low_zeros};

use curves::log_c4::LogC4;
use rules::{Code, Pixel, Refusal, Setting, Step};

// The legal range of 12 bits, at curve 4: its width byte, its first code and its last step.
const LEGAL: u8 = 140;

const LEGAL_FIRST: u16 = 256;

const LEGAL_LAST: u16 = 3504;

// 16 bits as recorders write them, at curve 4: the width, how many low bits of a code are 0, and how far apart
// the codes are.
const RECORDER: u8 = 16;

const RECORDER_ZEROS: u8 = 4;

const RECORDER_APART: u16 = 1 << RECORDER_ZEROS;

// The top code of a width of 1 to 16 bits, two to the width, less one. 0 for any other number. (Of width 0 the
// shift gives 0 too.) (0 and no Option: C gets it.)
pub fn top_code(width: u8) -> Code
    ensures { result.0 ≡ top_of width }
{
    if width > 16 {
        return Code(0);
    }
    let power = 1u32 << width;
    let top = power - 1;
    let code = top as u16;
    Code(code)
}

// Whether a setting is of curve 4 at a width. (By the number, as the checks below go: no other curve has codes of its own.)
#[tactic(auto, unfolding(crate::specs::LogC4::is_log_c4))]
fn is_log_c4(s: Setting, width: u8) -> bool
    ensures { result ≡ is_log_c4 s width }
{
    s.curve == LogC4::NUMBER && s.width == width
}

// How many low bits of each code of a setting are 0.
fn low_zeros(s: Setting) -> u8
    ensures value { result ≡ low_zeros s }
    ensures result_value { (2 ^ result ≡ (codes_of s).apart) × (result < 16) }
{
    if is_log_c4(s, RECORDER) {
        RECORDER_ZEROS
    } else {
        0
    }
}

// The last step of a setting. At full range a step has the bits of a code without the low ones that are 0.
pub fn last_step(s: Setting) -> Step
    ensures { result.0 ≡ last_of s }
{
    if is_log_c4(s, LEGAL) {
        return Step(LEGAL_LAST as u64);
    }
    let bits = s.width - low_zeros(s);
    Step(top_code(bits).0 as u64)
}

// The first code of a setting, that of step 0: 256 at width 140, else 0. Only that width is 128 or
// more, and a test of it took 6 % of the instructions of pixel to ACES. (That a setting is valid is a clause
// in this crate, and no type: a prepared setting is of a crate above.)
fn first_code(s: Setting) -> Code
    requires { Valid s }
    ensures { result.0 ≡ (codes_of s).first }
{
    Code((s.width / 128) as u16 * LEGAL_FIRST)
}

// The code of a step.
pub fn code_at(s: Setting, i: Step) -> Code
    requires valid { Valid s }
    requires i_bound { i.0 ≤ last_of s }
    ensures { result.0 ≡ code_at s i.0 }
{
    let first = first_code(s).0;
    let zeros = low_zeros(s);
    let step = i.0 as u16;
    let code = first + (step << zeros);
    Code(code)
}

// The step of a code that passes its check. (By one shift for every setting, as in `code_at`: the three cases of
// the rules, for each code or for three at once, took 23 to 30 % more of the way back's time.)
pub fn step_of(s: Setting, n: Code) -> Step
    requires valid { Valid s }
    requires n_value { code_check s n.0 ≡ Ok tt }
    ensures { result.0 ≡ step_of s n.0 }
{
    let first = first_code(s).0 as u64;
    let zeros = low_zeros(s);
    let code = n.0 as u64;
    let step = (code - first) >> zeros;
    Step(step)
}

// Refusals 13, 11 and 6, of a code beside the distance of codes, the first code and the top code.
fn check_among(first: Code, apart: u16, top: Code, n: Code) -> Result<(), Refusal>
    requires { 0 < apart }
    ensures { result ≡ code_among first.0 apart top.0 n.0 }
{
    if n.0 % apart != 0 {
        return Err(Refusal::CodeNotDivisible);
    }
    if n.0 < first.0 {
        return Err(Refusal::CodeBelowFirst);
    }
    if n.0 > top.0 {
        return Err(Refusal::CodeAboveTop);
    }
    Ok(())
}

// The checks of a pixel's codes, likewise: the first code that is refused decides.
fn check_three(first: Code, apart: u16, top: Code, p: Pixel) -> Result<(), Refusal>
    requires { 0 < apart }
    ensures { result ≡ each_code (code_among first.0 apart top.0) p }
{
    check_among(first, apart, top, p.red)?;
    check_among(first, apart, top, p.green)?;
    check_among(first, apart, top, p.blue)
}

// The same, of a setting. (Each call has the numbers of its codes in it, so that the compiler drops the
// tests that never fail: of the full range those with 1 and 0.)
pub fn check_pixel(s: Setting, p: Pixel) -> Result<(), Refusal>
    ensures { result ≡ codes_check s p }
{
    if s.curve != LogC4::NUMBER {
        return check_three(Code(0), 1, top_code(s.width), p);
    }
    let width = s.width;
    match width {
        RECORDER => {
            let top = top_code(RECORDER - RECORDER_ZEROS).0;
            check_three(Code(0), RECORDER_APART, Code(top * RECORDER_APART), p)
        }
        LEGAL => check_three(Code(LEGAL_FIRST), 1, Code(LEGAL_FIRST + LEGAL_LAST), p),
        _ => check_three(Code(0), 1, top_code(s.width), p),
    }
}

// The check of one code: that of a pixel with this code in each channel.
pub fn check_code(s: Setting, n: Code) -> Result<(), Refusal>
    ensures { result ≡ code_check s n.0 }
{
    check_pixel(
        s,
        Pixel {
            red: n,
            green: n,
            blue: n,
        },
    )
}
