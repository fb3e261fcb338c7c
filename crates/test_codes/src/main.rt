// Decodes what it reads. Standard input holds records of six bytes, a setting and a code, as a pixel record begins. A line is printed for
// each: the scene number in units of 2^-24, or `refused` and the refusal's number. Bytes short of a record at the end print `tail` and
// their count.

#![tactic(auto)]

use rules::{Code, Refusal, Scene, Setting};

// The standard streams. (Read and written by the kit's io: std's would rest the program on one more axiom, os::c::rattle_errno.)
const STDIN_FILENO: i32 = 0;

const STDOUT_FILENO: i32 = 1;

fn print_number(z: i64) {
    if z < 0 {
        io::write_all(STDOUT_FILENO, b"-");
    }
    io::print_decimal(STDOUT_FILENO, z.unsigned_abs());
}

fn print_answer(a: Result<Scene, Refusal>) {
    match a {
        Ok(y) => print_number(y.0),
        Err(why) => {
            io::write_all(STDOUT_FILENO, b"refused ");
            io::print_decimal(STDOUT_FILENO, setting::refusal_number(why) as u64);
        }
    }
    io::write_all(STDOUT_FILENO, b"\n");
}

// One record: whether there may be another.
fn one() -> bool {
    let mut b = [0u8; 6];
    let n = io::read_full(STDIN_FILENO, &mut b);
    if n < 6 {
        if 0 < n {
            io::write_all(STDOUT_FILENO, b"tail ");
            io::print_decimal(STDOUT_FILENO, n as u64);
            io::write_all(STDOUT_FILENO, b"\n");
        }
        return false;
    }
    let [curve, width, ei_low, ei_high, low, high] = b;
    let s = Setting {
        curve,
        width,
        ei: u16::from_le_bytes([ei_low, ei_high]),
    };
    print_answer(decode::decode(s, Code(u16::from_le_bytes([low, high]))));
    true
}

// A proved loop has to end: this one has more turns than any input uses up. (Each test program has this loop: a crate for it would be
// longer than the loop.)
fn main() {
    for _ in 0..u64::MAX {
        if !one() {
            break;
        }
    }
}
