// The tables of the curves.

#![tactic(auto)]

ghost use Rattle.std.specs.Prelude.{◌≡◌, get_or};
ghost use Rattle.curve_table.specs.Table.{no_table, log_c4_table, table_of};

mod values;

use curves::log_c::LogC;
use rules::{CurveName, Setting};

// of a setting that is not valid (no Option: `table_of` has a table for every setting, and `table` asks for nothing)
const NONE: [u64; 128] = [0; 128];

// The table of a row of constants, among those of a curve at a width.
fn by_row(tables: &[[u64; 128]; LogC::ROWS], row: usize) -> [u64; 128]
    ensures { result ≡ get_or tables.now row no_table }
{
    if row < LogC::ROWS { tables[row] } else { NONE }
}

// Curve 4. At width 16 its steps are the 12-bit codes.
fn logc4(width: u8) -> [u64; 128]
    ensures { result ≡ log_c4_table width }
{
    match width {
        12 => values::LOGC4_W12,
        16 => values::LOGC4_W12,
        140 => values::LOGC4_W140,
        _ => NONE,
    }
}

// The table of a setting.
pub fn table(s: Setting) -> [u64; 128]
    ensures { result ≡ table_of s }
{
    let width = s.width;
    match curves::name_of(s.curve) {
        CurveName::LogC2 => {
            let row = LogC::row(s.ei);
            match width {
                10 => by_row(&values::LOGC2_W10, row),
                12 => by_row(&values::LOGC2_W12, row),
                _ => NONE,
            }
        }
        CurveName::LogC3 => {
            let row = LogC::row(s.ei);
            match width {
                10 => by_row(&values::LOGC3_W10, row),
                12 => by_row(&values::LOGC3_W12, row),
                16 => by_row(&values::LOGC3_W16, row),
                _ => NONE,
            }
        }
        CurveName::LogC4 => logc4(width),
        CurveName::Unknown => NONE,
    }
}
