// Curve 3: its number, its widths, and its constants at each EI, from the table of 01.
ghost use Rattle.std.specs.Prelude.{◌≡◌};
ghost use Rattle.rules.specs.Choice.{member};
ghost use Rattle.rules.specs.declared.CurveName as named;
ghost use Rattle.rules.specs.Curve.{constants_at, log_c3_rows};
ghost use Rattle.rules.specs.Setting.{widths_of};
ghost use Rattle.curves.specs.LogC.{constants_of};

use super::lists;
use super::log_c::LogC;

#[derive(Clone, Copy)]
pub struct LogC3;

impl LogC3 {
    pub const NUMBER: u8 = 3;

    // "Curve 3 has widths 10, 12, 16"
    pub const WIDTHS: [u8; 3] = [10, 12, 16];

    // The decoded numbers of two codes are at least so many units apart. (At width 16 and EI 200 two
    // are 42.89 apart before they are rounded.)
    pub const GAP: u64 = 42;

    // "Always a = 5.555556."
    pub const A: u64 = 5_555556;

    // The constants by their rows, those of `LogC::row`.
    pub const TABLE: [LogC; LogC::ROWS] = [
        // EI 160
        LogC {
            a: LogC3::A,
            cut: 0_005561,
            b: 0_080216,
            c: 0_269036,
            d: 0_381991,
            e: 5_842037,
            f: 0_092778,
        },
        // EI 200
        LogC {
            a: LogC3::A,
            cut: 0_006208,
            b: 0_076621,
            c: 0_266007,
            d: 0_382478,
            e: 5_776265,
            f: 0_092782,
        },
        // EI 250
        LogC {
            a: LogC3::A,
            cut: 0_006871,
            b: 0_072941,
            c: 0_262978,
            d: 0_382966,
            e: 5_710494,
            f: 0_092786,
        },
        // EI 320
        LogC {
            a: LogC3::A,
            cut: 0_007622,
            b: 0_068768,
            c: 0_259627,
            d: 0_383508,
            e: 5_637732,
            f: 0_092791,
        },
        // EI 400
        LogC {
            a: LogC3::A,
            cut: 0_008318,
            b: 0_064901,
            c: 0_256598,
            d: 0_383999,
            e: 5_571960,
            f: 0_092795,
        },
        // EI 500
        LogC {
            a: LogC3::A,
            cut: 0_009031,
            b: 0_060939,
            c: 0_253569,
            d: 0_384493,
            e: 5_506188,
            f: 0_092800,
        },
        // EI 640
        LogC {
            a: LogC3::A,
            cut: 0_009840,
            b: 0_056443,
            c: 0_250219,
            d: 0_385040,
            e: 5_433426,
            f: 0_092805,
        },
        // EI 800
        LogC {
            a: LogC3::A,
            cut: 0_010591,
            b: 0_052272,
            c: 0_247190,
            d: 0_385537,
            e: 5_367655,
            f: 0_092809,
        },
        // EI 1000
        LogC {
            a: LogC3::A,
            cut: 0_011361,
            b: 0_047996,
            c: 0_244161,
            d: 0_386036,
            e: 5_301883,
            f: 0_092814,
        },
        // EI 1280
        LogC {
            a: LogC3::A,
            cut: 0_012235,
            b: 0_043137,
            c: 0_240810,
            d: 0_386590,
            e: 5_229121,
            f: 0_092819,
        },
        // EI 1600
        LogC {
            a: LogC3::A,
            cut: 0_013047,
            b: 0_038625,
            c: 0_237781,
            d: 0_387093,
            e: 5_163350,
            f: 0_092824,
        },
    ];

    // (One for each curve: the clause says whose widths they are, and the lists differ in length.)
    pub fn has_width(width: u8) -> bool
        ensures { result ≡ member width (widths_of named.CurveName.LogC3) }
    {
        lists::is_one_of(&LogC3::WIDTHS, width)
    }

    // The constants of an EI. (One for each of the two curves: the clause says whose rows they are.)
    pub fn at(ei: u16) -> LogC
        ensures { constants_of result ≡ constants_at ei log_c3_rows }
    {
        LogC::in_table(&LogC3::TABLE, ei)
    }
}
