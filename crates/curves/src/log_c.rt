// A curve with a toe, as curves 2 and 3 are: its constants at one EI, in millionths, and the rows of
// its EIs, which are the same for both. b and f have a sign.
ghost use Rattle.std.specs.Prelude.{◌≡◌, map, get_or};
ghost use Rattle.rules.specs.Choice.{member};
ghost use Rattle.rules.specs.declared.CurveName as named;
ghost use Rattle.rules.specs.Curve.{no_constants};
ghost use Rattle.rules.specs.Setting.{eis_of};
ghost use Rattle.curves.specs.LogC.{constants_of, row_of};

#[derive(Clone, Copy)]
pub struct LogC {
    pub a: u64,
    pub cut: u64,
    pub b: i64,
    pub c: u64,
    pub d: u64,
    pub e: u64,
    pub f: i64,
}

impl LogC {
    // How many EIs there are.
    pub const ROWS: usize = 11;

    // of an EI that is not one of them (no Option: `constants_at` of the rules has numbers for every EI, 0 for such a one)
    pub const NONE: LogC = LogC {
        a: 0,
        cut: 0,
        b: 0,
        c: 0,
        d: 0,
        e: 0,
        f: 0,
    };

    // The row of an EI in a table of constants, from 0, and their count where it has none. The one
    // list of the EIs: what else there is for an EI is found by its row. (A count and no `Option`:
    // `table_of` in the specs of curve_table and the lines of nearest_code go by the row as a number, and
    // there is none past the last.)
    #[tactic(auto, unfolding(crate::specs::LogC::row_of))]
    pub fn row(ei: u16) -> usize
        ensures { result ≡ row_of ei }
    {
        match ei {
            160 => 0,
            200 => 1,
            250 => 2,
            320 => 3,
            400 => 4,
            500 => 5,
            640 => 6,
            800 => 7,
            1000 => 8,
            1280 => 9,
            1600 => 10,
            _ => LogC::ROWS,
        }
    }

    // Whether an EI is one of curve 3's, which are those of curve 2 too.
    pub fn has_ei(ei: u16) -> bool
        ensures { result ≡ member ei (eis_of named.CurveName.LogC3) }
    {
        LogC::row(ei) < LogC::ROWS
    }

    // The constants of an EI in a table that has a row for each EI; `NONE` where it has no row.
    pub fn in_table(table: &[LogC; LogC::ROWS], ei: u16) -> LogC
        ensures { constants_of result ≡ get_or (map constants_of table.now) (row_of ei) no_constants }
    {
        let row = LogC::row(ei);
        if row < LogC::ROWS {
            table[row]
        } else {
            LogC::NONE
        }
    }
}
