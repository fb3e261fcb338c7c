// The curves: which there are, and the one choice by a curve's number. The limits of each are constants of its type.

#![tactic(auto)]

ghost use Rattle.std.specs.Prelude.{◌≡◌, ◌^◌, ◌<◌};
ghost use Rattle.rules.specs.Setting.{named, has_matrix};
ghost use Rattle.curves.specs.Gap.{gap_of};

mod lists;
pub mod log_c;
pub mod log_c2;
pub mod log_c3;
pub mod log_c4;

use log_c2::LogC2;
use log_c3::LogC3;
use log_c4::LogC4;
use rules::CurveName;

// The curve that a number names. (No From: the enum is of the rules, which have no curve's number as a constant.)
pub fn name_of(curve: u8) -> CurveName
    ensures { result ≡ named curve }
{
    match curve {
        LogC2::NUMBER => CurveName::LogC2,
        LogC3::NUMBER => CurveName::LogC3,
        LogC4::NUMBER => CurveName::LogC4,
        _ => CurveName::Unknown,
    }
}

// Whether there is an ACES matrix for a curve.
pub fn has_matrix(curve: u8) -> bool
    ensures { result ≡ has_matrix (named curve) }
{
    match name_of(curve) {
        CurveName::LogC2 => false,
        CurveName::LogC3 => true,
        CurveName::LogC4 => true,
        CurveName::Unknown => false,
    }
}

// How far apart the decoded numbers of two codes of a curve are at least, in units. (0 for no curve, as in the rules.)
pub fn gap_of(curve: u8) -> u64
    ensures { (result ≡ gap_of (named curve)) × (result < 2 ^ 16) }
{
    match curve {
        LogC2::NUMBER => LogC2::GAP,
        LogC3::NUMBER => LogC3::GAP,
        LogC4::NUMBER => LogC4::GAP,
        _ => 0,
    }
}
