// Curve 4: its number, its widths, its EI, and the numbers of its formula.
ghost use Rattle.std.specs.Prelude.{◌≡◌};
ghost use Rattle.rules.specs.Choice.{member};
ghost use Rattle.rules.specs.declared.CurveName as named;
ghost use Rattle.rules.specs.Setting.{widths_of, eis_of};
ghost use Rattle.curves.specs.LogC4.{IsLogC4};

use super::lists;

// Of a signal t the exact value is (2^P - less) * times / over, where
// P = begin + stops * (white * t - black) / range.
#[derive(Clone, Copy)]
pub struct LogC4 {
    pub begin: u64,
    pub stops: u64,
    pub white: u64,
    pub black: u64,
    pub range: u64,
    pub less: u64,
    pub times: u64,
    pub over: u64,
}

impl LogC4 {
    pub const NUMBER: u8 = 4;

    // "Curve 4 has widths 12 and 16", and 140 for the legal range
    pub const WIDTHS: [u8; 3] = [12, 16, 140];

    // ".. and EI 0, since it doesn't depend on EI"
    pub const EI: u16 = 0;

    // The decoded numbers of two codes are at least so many units apart. (Of 12-bit codes the first
    // two are 466.02 apart before they are rounded.)
    pub const GAP: u64 = 466;

    // "P = 6 + 14 · (1023·n - 95·top) / (928·top)"
    pub const BEGIN: u64 = 6;

    pub const STOPS: u64 = 14;

    pub const WHITE: u64 = 1023;

    pub const BLACK: u64 = 95;

    pub const RANGE: u64 = 928;

    // "(2^P - 64) · 783 / 1747520"
    pub const LESS: u64 = 64;

    pub const TIMES: u64 = 783;

    pub const OVER: u64 = 1747520;

    // (One for each curve: the clause says whose widths they are, and the lists differ in length.)
    pub fn has_width(width: u8) -> bool
        ensures { result ≡ member width (widths_of named.CurveName.LogC4) }
    {
        lists::is_one_of(&LogC4::WIDTHS, width)
    }

    pub fn has_ei(ei: u16) -> bool
        ensures { result ≡ member ei (eis_of named.CurveName.LogC4) }
    {
        ei == LogC4::EI
    }

    // The numbers of the formula.
    pub fn new() -> LogC4
        ensures { IsLogC4 result }
    {
        LogC4 {
            begin: LogC4::BEGIN,
            stops: LogC4::STOPS,
            white: LogC4::WHITE,
            black: LogC4::BLACK,
            range: LogC4::RANGE,
            less: LogC4::LESS,
            times: LogC4::TIMES,
            over: LogC4::OVER,
        }
    }
}
