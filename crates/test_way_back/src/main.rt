// The ways back of one record, called for each ACES record of standard input. A line is printed for each: what the exact one gives, ` | `, and what
// the tolerant one gives, each the three codes of a pixel, or `refused` and the refusal's number. Bytes short of a record at the end are left.

#![tactic(auto)]

use records::NUMBERS_SIZE;
use rules::{Distance, Pixel, Refusal};

// The standard streams. (Read and written by the kit's io: std's would rest the program on one more axiom, os::c::rattle_errno.)
const STDIN_FILENO: i32 = 0;

const STDOUT_FILENO: i32 = 1;

fn print_codes(p: Pixel) {
    io::print_decimal(STDOUT_FILENO, p.red.0 as u64);
    io::write_all(STDOUT_FILENO, b" ");
    io::print_decimal(STDOUT_FILENO, p.green.0 as u64);
    io::write_all(STDOUT_FILENO, b" ");
    io::print_decimal(STDOUT_FILENO, p.blue.0 as u64);
}

fn print_answer(a: Result<Pixel, Refusal>) {
    match a {
        Ok(p) => print_codes(p),
        Err(why) => {
            io::write_all(STDOUT_FILENO, b"refused ");
            io::print_decimal(STDOUT_FILENO, setting::refusal_number(why) as u64);
        }
    }
}

// One record: whether there may be another.
fn one() -> bool {
    let mut r = [0u8; NUMBERS_SIZE];
    if io::read_full(STDIN_FILENO, &mut r) < NUMBERS_SIZE {
        return false;
    }
    let s = records::setting_of(&r);
    let a = records::channels_in(&r);
    print_answer(way_back::way_back(Distance::Exact, s, a));
    io::write_all(STDOUT_FILENO, b" | ");
    print_answer(way_back::way_back(Distance::Tolerant, s, a));
    io::write_all(STDOUT_FILENO, b"\n");
    true
}

// A proved loop has to end: this one has more turns than any input uses up. (Each test program has this loop: a crate for it would be
// longer than the loop.)
fn main() {
    for _ in 0..u64::MAX {
        if !one() {
            break;
        }
    }
}
