// The graded road of one record, called for each ACES record of standard input. A line is printed for each: the three scene numbers, or `refused`
// and the refusal's number. Bytes short of a record at the end are left.

#![tactic(auto)]

use records::NUMBERS_SIZE;
use rules::{Refusal, Scene, Scenes};

// The standard streams. (Read and written by the kit's io: std's would rest the program on one more axiom, os::c::rattle_errno.)
const STDIN_FILENO: i32 = 0;

const STDOUT_FILENO: i32 = 1;

fn print_number(x: Scene) {
    let number = x.0;
    if number < 0 {
        io::write_all(STDOUT_FILENO, b"-");
    }
    io::print_decimal(STDOUT_FILENO, number.unsigned_abs());
}

fn print_scenes(x: Scenes) {
    print_number(x.red);
    io::write_all(STDOUT_FILENO, b" ");
    print_number(x.green);
    io::write_all(STDOUT_FILENO, b" ");
    print_number(x.blue);
}

fn print_answer(a: Result<Scenes, Refusal>) {
    match a {
        Ok(x) => print_scenes(x),
        Err(why) => {
            io::write_all(STDOUT_FILENO, b"refused ");
            io::print_decimal(STDOUT_FILENO, setting::refusal_number(why) as u64);
        }
    }
    io::write_all(STDOUT_FILENO, b"\n");
}

// One record: whether there may be another.
fn one() -> bool {
    let mut r = [0u8; NUMBERS_SIZE];
    if io::read_full(STDIN_FILENO, &mut r) < NUMBERS_SIZE {
        return false;
    }
    print_answer(graded::to_scene(records::setting_of(&r), records::channels_in(&r)));
    true
}

// A proved loop has to end: this one has more turns than any input uses up. (Each test program has this loop: a crate for it would be
// longer than the loop.)
fn main() {
    for _ in 0..u64::MAX {
        if !one() {
            break;
        }
    }
}
