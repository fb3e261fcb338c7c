// The third-stop table of ARRI's LogC4 paper (source document 002, appendix D): 0.18 times two to the stops, to the nearest unit, encoded
// under curve 4, width 12. A line for each row: the stops in thirds, the scene number and its code.

#![tactic(auto)]

use rules::{Scene, Setting};

// The standard streams. (Read and written by the kit's io: std's would rest the program on one more axiom, os::c::rattle_errno.)
const STDOUT_FILENO: i32 = 1;

// 0.18 * 2^24 * 2^(i / 3) to the nearest unit, i from -19 to 34
const SCENES: [i64; 54] = [
    37451, 47186, 59451, 74903, 94372, 118901, 149806, 188744, 237802, 299612, 377487, 475604,
    599224, 754975, 951209, 1198448, 1509949, 1902417, 2396895, 3019899, 3804834, 4793791, 6039798,
    7609668, 9587581, 12079596, 15219337, 19175163, 24159191, 30438673, 38350325, 48318382,
    60877347, 76700651, 96636764, 121754693, 153401301, 193273528, 243509387, 306802602, 386547057,
    487018773, 613605204, 773094113, 974037547, 1227210409, 1546188227, 1948075094, 2454420817,
    3092376453, 3896150187, 4908841635, 6184752906, 7792300375,
];

fn print_stops(row: u64) {
    if row < 19 {
        io::write_all(STDOUT_FILENO, b"-");
        io::print_decimal(STDOUT_FILENO, 19 - row);
    } else {
        io::print_decimal(STDOUT_FILENO, row - 19);
    }
    io::write_all(STDOUT_FILENO, b"/3 ");
}

fn print_code(x: i64) {
    let s = Setting {
        curve: 4,
        width: 12,
        ei: 0,
    };
    match encode::encode(s, Scene(x)) {
        Ok(n) => {
            io::print_decimal(STDOUT_FILENO, n.0 as u64);
        }
        Err(why) => {
            io::write_all(STDOUT_FILENO, b"refused ");
            io::print_decimal(STDOUT_FILENO, setting::refusal_number(why) as u64);
        }
    }
}

fn print_row(row: u64, x: i64) {
    print_stops(row);
    io::print_decimal(STDOUT_FILENO, x.unsigned_abs());
    io::write_all(STDOUT_FILENO, b" ");
    print_code(x);
    io::write_all(STDOUT_FILENO, b"\n");
}

fn main() {
    for (row, x) in (0..).zip(SCENES) {
        print_row(row, x);
    }
}
