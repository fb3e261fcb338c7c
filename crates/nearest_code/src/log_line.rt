// The lines of the guess, one for each curve, and for each EI of a curve with a toe. Written by tools/tables.py.
ghost use Rattle.std.specs.Prelude.{◌^◌, ◌<◌};

use curves::log_c::LogC;
use curves::log_c2::LogC2;
use curves::log_c3::LogC3;
use curves::log_c4::LogC4;
use rules::Setting;

// Above the toe a step's number, less the decoder's bias, is a number z over 2^27, and the signal is slope * log2(z) - start. The slope is
// in units of 2^-32, the start in units of 2^-48.
#[derive(Clone, Copy)]
pub struct LogLine {
    pub slope: u64,
    pub start: u64,
}

impl LogLine {
    pub const LOGC4: LogLine = LogLine {
        slope: 278294208,
        start: 810560664515757,
    };

    pub const LOGC2_EI160: LogLine = LogLine {
        slope: 347839114,
        start: 934283609973651,
    };

    pub const LOGC2_EI200: LogLine = LogLine {
        slope: 343924171,
        start: 915273423861156,
    };

    pub const LOGC2_EI250: LogLine = LogLine {
        slope: 340007934,
        start: 896424604613219,
    };

    pub const LOGC2_EI320: LogLine = LogLine {
        slope: 335675380,
        start: 875764736240112,
    };

    pub const LOGC2_EI400: LogLine = LogLine {
        slope: 331759143,
        start: 857263978640545,
    };

    pub const LOGC2_EI500: LogLine = LogLine {
        slope: 327842907,
        start: 838928469873325,
    };

    pub const LOGC2_EI640: LogLine = LogLine {
        slope: 323510352,
        start: 818836474547713,
    };

    pub const LOGC2_EI800: LogLine = LogLine {
        slope: 319594115,
        start: 800849027930485,
    };

    pub const LOGC2_EI1000: LogLine = LogLine {
        slope: 315679172,
        start: 783030487714277,
    };

    pub const LOGC2_EI1280: LogLine = LogLine {
        slope: 311346617,
        start: 763506335194673,
    };

    pub const LOGC2_EI1600: LogLine = LogLine {
        slope: 307430381,
        start: 746032172144067,
    };

    pub const LOGC3_EI160: LogLine = LogLine {
        slope: 347840407,
        start: 998682699113490,
    };

    pub const LOGC3_EI200: LogLine = LogLine {
        slope: 343924171,
        start: 986091188213012,
    };

    pub const LOGC3_EI250: LogLine = LogLine {
        slope: 340007934,
        start: 973499395837557,
    };

    pub const LOGC3_EI320: LogLine = LogLine {
        slope: 335675380,
        start: 959568426496437,
    };

    pub const LOGC3_EI400: LogLine = LogLine {
        slope: 331759143,
        start: 946975789696052,
    };

    pub const LOGC3_EI500: LogLine = LogLine {
        slope: 327842907,
        start: 934382308470736,
    };

    pub const LOGC3_EI640: LogLine = LogLine {
        slope: 323511645,
        start: 920454043485531,
    };

    pub const LOGC3_EI800: LogLine = LogLine {
        slope: 319595408,
        start: 907859717835285,
    };

    pub const LOGC3_EI1000: LogLine = LogLine {
        slope: 315679172,
        start: 895264829235086,
    };

    pub const LOGC3_EI1280: LogLine = LogLine {
        slope: 311346617,
        start: 881330482194246,
    };

    pub const LOGC3_EI1600: LogLine = LogLine {
        slope: 307430381,
        start: 868734467694140,
    };

    // of no curve
    pub const NONE: LogLine = LogLine { slope: 0, start: 0 };

    // The line of a row of curve 2's constants.
    fn log_c2(row: usize) -> LogLine
        ensures { result.slope < 2 ^ 29 }
    {
        match row {
            0 => LogLine::LOGC2_EI160,
            1 => LogLine::LOGC2_EI200,
            2 => LogLine::LOGC2_EI250,
            3 => LogLine::LOGC2_EI320,
            4 => LogLine::LOGC2_EI400,
            5 => LogLine::LOGC2_EI500,
            6 => LogLine::LOGC2_EI640,
            7 => LogLine::LOGC2_EI800,
            8 => LogLine::LOGC2_EI1000,
            9 => LogLine::LOGC2_EI1280,
            10 => LogLine::LOGC2_EI1600,
            _ => LogLine::NONE,
        }
    }

    // The line of a row of curve 3's constants.
    fn log_c3(row: usize) -> LogLine
        ensures { result.slope < 2 ^ 29 }
    {
        match row {
            0 => LogLine::LOGC3_EI160,
            1 => LogLine::LOGC3_EI200,
            2 => LogLine::LOGC3_EI250,
            3 => LogLine::LOGC3_EI320,
            4 => LogLine::LOGC3_EI400,
            5 => LogLine::LOGC3_EI500,
            6 => LogLine::LOGC3_EI640,
            7 => LogLine::LOGC3_EI800,
            8 => LogLine::LOGC3_EI1000,
            9 => LogLine::LOGC3_EI1280,
            10 => LogLine::LOGC3_EI1600,
            _ => LogLine::NONE,
        }
    }

    // The line of a setting. (It goes by the curve's number: to name the curve first took 4 % of the
    // way back's time.)
    pub fn of(s: Setting) -> LogLine
        ensures { result.slope < 2 ^ 29 }
    {
        let curve = s.curve;
        match curve {
            LogC2::NUMBER => LogLine::log_c2(LogC::row(s.ei)),
            LogC3::NUMBER => LogLine::log_c3(LogC::row(s.ei)),
            LogC4::NUMBER => LogLine::LOGC4,
            _ => LogLine::NONE,
        }
    }
}
