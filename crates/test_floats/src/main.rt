// Decodes pixels to floats and encodes float pixels. Standard input holds records of 29 bytes: what is asked (0 decoding, else encoding), a
// setting, and for each channel eight bytes, a code or the bits of a float. A line is printed for each: the bits of the three floats, or the three
// codes, or `refused` and the refusal's number. Any bits of a float that is not a number stand for that one float.

#![tactic(auto)]

ghost use Rattle.std.specs.Prelude.{◌≤◌};

use float_decode::FloatPixel;
use rules::{Code, Pixel, Setting};

// The standard streams. (Read and written by the kit's io: std's would rest the program on one more axiom, os::c::rattle_errno.)
const STDIN_FILENO: i32 = 0;

const STDOUT_FILENO: i32 = 1;

fn print_refusal(number: u8) {
    io::write_all(STDOUT_FILENO, b"refused ");
    io::print_decimal(STDOUT_FILENO, number as u64);
}

fn print_three(red: u64, green: u64, blue: u64) {
    io::print_decimal(STDOUT_FILENO, red);
    io::write_all(STDOUT_FILENO, b" ");
    io::print_decimal(STDOUT_FILENO, green);
    io::write_all(STDOUT_FILENO, b" ");
    io::print_decimal(STDOUT_FILENO, blue);
}

fn bits_of(x: f64) -> u64 {
    if x.is_nan() { 0 } else { x.to_bits() }
}

fn float_with(bits: u64) -> f64 {
    if bits & 0x7fff_ffff_ffff_ffff > 0x7ff0_0000_0000_0000 {
        f64::NAN
    } else {
        f64::from_bits(bits)
    }
}

fn print_floats(a: Result<FloatPixel, u8>) {
    match a {
        Ok(f) => print_three(bits_of(f.red), bits_of(f.green), bits_of(f.blue)),
        Err(number) => print_refusal(number),
    }
}

fn print_codes(a: Result<Pixel, u8>) {
    match a {
        Ok(p) => print_three(p.red.0 as u64, p.green.0 as u64, p.blue.0 as u64),
        Err(number) => print_refusal(number),
    }
}

// Where the channels of a record begin, each of eight bytes.
const RED: usize = 5;

const GREEN: usize = 13;

const BLUE: usize = 21;

fn code_at(b: &[u8; 29], at: usize) -> Code
    requires { at ≤ 21 }
{
    Code(u16::from_le_bytes([b[at], b[at + 1]]))
}

fn float_at(b: &[u8; 29], at: usize) -> f64
    requires { at ≤ 21 }
{
    float_with(u64::from_le_bytes(b[at..at + 8].try_into().unwrap()))
}

// The codes, and the floats, channel by channel. (A closure's clauses would be longer than the three lines.)
fn pixel_in(b: &[u8; 29]) -> Pixel {
    Pixel {
        red: code_at(b, RED),
        green: code_at(b, GREEN),
        blue: code_at(b, BLUE),
    }
}

fn floats_in(b: &[u8; 29]) -> FloatPixel {
    FloatPixel {
        red: float_at(b, RED),
        green: float_at(b, GREEN),
        blue: float_at(b, BLUE),
    }
}

fn answer(b: &[u8; 29]) {
    let s = Setting {
        curve: b[1],
        width: b[2],
        ei: u16::from_le_bytes([b[3], b[4]]),
    };
    if b[0] == 0 {
        print_floats(float_decode::decode_pixel_or_number(s, pixel_in(b)));
    } else {
        print_codes(float_encode::encode_pixel_or_number(s, floats_in(b)));
    }
    io::write_all(STDOUT_FILENO, b"\n");
}

// One record: whether there may be another.
fn one() -> bool {
    let mut b = [0u8; 29];
    if io::read_full(STDIN_FILENO, &mut b) < 29 {
        return false;
    }
    answer(&b);
    true
}

// A proved loop has to end: this one has more turns than any input uses up. (Each test program has this loop: a crate for it would be
// longer than the loop.)
fn main() {
    for _ in 0..u64::MAX {
        if !one() {
            break;
        }
    }
}
