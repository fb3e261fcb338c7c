// Curve 2: its number, its widths, and its constants at each EI, from the table of the older firmware
// (SUP 2.x) in source document 001.
ghost use Rattle.std.specs.Prelude.{◌≡◌};
ghost use Rattle.rules.specs.Choice.{member};
ghost use Rattle.rules.specs.declared.CurveName as named;
ghost use Rattle.rules.specs.Curve.{constants_at, log_c2_rows};
ghost use Rattle.rules.specs.Setting.{widths_of};
ghost use Rattle.curves.specs.LogC.{constants_of};

use super::lists;
use super::log_c::LogC;

#[derive(Clone, Copy)]
pub struct LogC2;

impl LogC2 {
    pub const NUMBER: u8 = 2;

    // 02, item 3: "widths 10 and 12 only"
    pub const WIDTHS: [u8; 2] = [10, 12];

    // The decoded numbers of two codes are at least so many units apart. (At width 12 and EI 1600 two
    // are 9.72 apart before they are rounded.)
    pub const GAP: u64 = 9;

    // The same at every EI.
    pub const CUT: u64 = 0_003907;

    pub const D: u64 = 0_391007;

    // The constants by their rows, those of `LogC::row`.
    pub const TABLE: [LogC; LogC::ROWS] = [
        // EI 160
        LogC {
            a: 36_439829,
            cut: LogC2::CUT,
            b: -0_053366,
            c: 0_269035,
            d: LogC2::D,
            e: 45_593473,
            f: -0_069772,
        },
        // EI 200
        LogC {
            a: 45_549786,
            cut: LogC2::CUT,
            b: -0_088959,
            c: 0_266007,
            d: LogC2::D,
            e: 55_709581,
            f: -0_106114,
        },
        // EI 250
        LogC {
            a: 56_937232,
            cut: LogC2::CUT,
            b: -0_133449,
            c: 0_262978,
            d: LogC2::D,
            e: 67_887153,
            f: -0_150510,
        },
        // EI 320
        LogC {
            a: 72_879657,
            cut: LogC2::CUT,
            b: -0_195737,
            c: 0_259627,
            d: LogC2::D,
            e: 84_167616,
            f: -0_210597,
        },
        // EI 400
        LogC {
            a: 91_099572,
            cut: LogC2::CUT,
            b: -0_266922,
            c: 0_256598,
            d: LogC2::D,
            e: 101_811426,
            f: -0_276349,
        },
        // EI 500
        LogC {
            a: 113_874465,
            cut: LogC2::CUT,
            b: -0_355903,
            c: 0_253569,
            d: LogC2::D,
            e: 122_608379,
            f: -0_354421,
        },
        // EI 640
        LogC {
            a: 145_759315,
            cut: LogC2::CUT,
            b: -0_480477,
            c: 0_250218,
            d: LogC2::D,
            e: 149_703304,
            f: -0_456760,
        },
        // EI 800
        LogC {
            a: 182_199144,
            cut: LogC2::CUT,
            b: -0_622848,
            c: 0_247189,
            d: LogC2::D,
            e: 178_216873,
            f: -0_564981,
        },
        // EI 1000
        LogC {
            a: 227_748930,
            cut: LogC2::CUT,
            b: -0_800811,
            c: 0_244161,
            d: LogC2::D,
            e: 210_785040,
            f: -0_689043,
        },
        // EI 1280
        LogC {
            a: 291_518630,
            cut: LogC2::CUT,
            b: -1_049959,
            c: 0_240810,
            d: LogC2::D,
            e: 251_689459,
            f: -0_845336,
        },
        // EI 1600
        LogC {
            a: 364_398287,
            cut: LogC2::CUT,
            b: -1_334700,
            c: 0_237781,
            d: LogC2::D,
            e: 293_073575,
            f: -1_003841,
        },
    ];

    // (One for each curve: the clause says whose widths they are, and the lists differ in length.)
    pub fn has_width(width: u8) -> bool
        ensures { result ≡ member width (widths_of named.CurveName.LogC2) }
    {
        lists::is_one_of(&LogC2::WIDTHS, width)
    }

    // The constants of an EI. (One for each of the two curves: the clause says whose rows they are.)
    pub fn at(ei: u16) -> LogC
        ensures { constants_of result ≡ constants_at ei log_c2_rows }
    {
        LogC::in_table(&LogC2::TABLE, ei)
    }
}
