// Calls `decode_pixel` and `encode_pixel`, which refuse with a cause, on some pixels and float pixels that they convert and on one or more for each
// cause. (`test_floats` has the calls that refuse with a number.) A line is printed for each: the call, the setting, and the codes or the bits of
// the floats; then the bits of the floats or the codes that it gives, or `refused` and the number of the cause.

#![tactic(auto)]

use float_decode::FloatPixel;
use rules::{Code, Pixel, Refusal, Setting};

// The standard streams. (Read and written by the kit's io: std's would rest the program on one more axiom, os::c::rattle_errno.)
const STDOUT_FILENO: i32 = 1;

// Curve, width and EI, and three codes: four pixels with a code at each end; refusals 3, 4 and 5, each of a pixel whose code is refused too;
// refusals 13, 11 and 6.
const PIXELS: [(u8, u8, u16, [u16; 3]); 10] = [
    (2, 12, 200, [0, 1024, 4095]),
    (3, 10, 800, [0, 400, 1023]),
    (4, 16, 0, [0, 16384, 65520]),
    (4, 140, 0, [256, 1024, 3760]),
    (5, 10, 800, [1024, 400, 400]),
    (3, 11, 800, [400, 2048, 400]),
    (3, 10, 801, [400, 400, 1024]),
    (4, 16, 0, [400, 17, 400]),
    (4, 140, 0, [255, 3761, 400]),
    (3, 10, 800, [400, 400, 1024]),
];

// The same, and three floats: four float pixels in range, its ends among them; refusals 3, 4 and 5, likewise; refusals 8 and 9 of each channel.
const FLOATS: [(u8, u8, u16, [f64; 3]); 13] = [
    (2, 12, 200, [0.18, 0.0, 1.0]),
    (3, 10, 800, [0.18, 0.5, -0.0]),
    (4, 16, 0, [0.18, -65536.0, 65536.0]),
    (4, 140, 0, [0.18, -1.0, 469.8]),
    (5, 10, 800, [f64::INFINITY, 0.18, 0.18]),
    (3, 11, 800, [0.18, 65537.0, 0.18]),
    (3, 10, 801, [0.18, 0.18, f64::INFINITY]),
    (3, 10, 800, [f64::INFINITY, 65537.0, 0.18]),
    (3, 10, 800, [65537.0, f64::INFINITY, 0.18]),
    (3, 10, 800, [0.18, f64::NEG_INFINITY, 65537.0]),
    (3, 10, 800, [0.18, -65537.0, f64::INFINITY]),
    (3, 10, 800, [0.18, 0.18, f64::INFINITY]),
    (3, 10, 800, [0.18, 0.18, -65537.0]),
];

fn print_three(red: u64, green: u64, blue: u64) {
    for x in [red, green, blue] {
        io::write_all(STDOUT_FILENO, b" ");
        io::print_decimal(STDOUT_FILENO, x);
    }
}

fn bits_of(x: f64) -> u64 {
    if x.is_nan() { 0 } else { x.to_bits() }
}

fn print_call(call: &[u8], s: Setting) {
    io::write_all(STDOUT_FILENO, call);
    print_three(s.curve as u64, s.width as u64, s.ei as u64);
}

fn print_codes(p: Pixel) {
    print_three(p.red.0 as u64, p.green.0 as u64, p.blue.0 as u64);
}

fn print_floats(f: FloatPixel) {
    print_three(bits_of(f.red), bits_of(f.green), bits_of(f.blue));
}

fn print_refusal(why: Refusal) {
    io::write_all(STDOUT_FILENO, b" refused ");
    io::print_decimal(STDOUT_FILENO, setting::refusal_number(why) as u64);
}

fn decode(s: Setting, p: Pixel) {
    print_call(b"decode", s);
    print_codes(p);
    match float_decode::decode_pixel(s, p) {
        Ok(f) => print_floats(f),
        Err(why) => print_refusal(why),
    }
    io::write_all(STDOUT_FILENO, b"\n");
}

fn encode(s: Setting, f: FloatPixel) {
    print_call(b"encode", s);
    print_floats(f);
    match float_encode::encode_pixel(s, f) {
        Ok(p) => print_codes(p),
        Err(why) => print_refusal(why),
    }
    io::write_all(STDOUT_FILENO, b"\n");
}

fn main() {
    for (curve, width, ei, [red, green, blue]) in PIXELS {
        let p = Pixel {
            red: Code(red),
            green: Code(green),
            blue: Code(blue),
        };
        decode(Setting { curve, width, ei }, p);
    }
    for (curve, width, ei, [red, green, blue]) in FLOATS {
        encode(
            Setting { curve, width, ei },
            FloatPixel { red, green, blue },
        );
    }
}
