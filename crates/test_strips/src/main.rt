// Converts strips. Standard input holds jobs: a byte for the conversion (0 pixel to scene, 1 scene to pixel, 2 pixel to ACES, 3 ACES to
// pixel, 4 ACES to half, 5 half to ACES, 6 graded to pixel, 7 graded to scene, 8 ACES to pixel, tolerant), the lengths of the input and of the
// output strip, two bytes each, then the bytes of both. For each job a line says `done` and the count of records, or `refused`, the refusal's number and the record's
// index; the output strip's bytes follow.

#![tactic(auto)]

use rules::RefusedAt;

// The standard streams. (Read and written by the kit's io: std's would rest the program on one more axiom, os::c::rattle_errno.)
const STDIN_FILENO: i32 = 0;

const STDOUT_FILENO: i32 = 1;

fn print_answer(a: Result<usize, RefusedAt>) {
    match a {
        Ok(n) => {
            io::write_all(STDOUT_FILENO, b"done ");
            io::print_decimal(STDOUT_FILENO, n as u64);
        }
        Err(e) => {
            io::write_all(STDOUT_FILENO, b"refused ");
            io::print_decimal(STDOUT_FILENO, setting::refusal_number(e.cause) as u64);
            io::write_all(STDOUT_FILENO, b" ");
            io::print_decimal(STDOUT_FILENO, e.index as u64);
        }
    }
    io::write_all(STDOUT_FILENO, b"\n");
}

// Which conversion is a byte of the job, so this goes by it.
fn convert(conversion: u8, input: &[u8], output: &mut [u8]) -> Result<usize, RefusedAt> {
    match conversion {
        0 => strip::pixel_to_scene(input, output),
        1 => strip::scene_to_pixel(input, output),
        2 => strip::pixel_to_aces(input, output),
        3 => strip::aces_to_pixel(input, output),
        4 => strip::aces_to_half(input, output),
        5 => strip::half_to_aces(input, output),
        6 => strip::graded_to_pixel(input, output),
        7 => strip::graded_to_scene(input, output),
        _ => strip::aces_to_pixel_tolerant(input, output),
    }
}

// A job whose strips have their lengths.
fn job(conversion: u8, input: &mut [u8], output: &mut [u8]) {
    io::read_full(STDIN_FILENO, input);
    io::read_full(STDIN_FILENO, output);
    print_answer(convert(conversion, input, output));
    io::write_all(STDOUT_FILENO, output);
}

// One job: whether there may be another.
fn one() -> bool {
    let mut head = [0u8; 5];
    if io::read_full(STDIN_FILENO, &mut head) < 5 {
        return false;
    }
    let [conversion, n_low, n_high, m_low, m_high] = head;
    let n = usize::from(u16::from_le_bytes([n_low, n_high]));
    let m = usize::from(u16::from_le_bytes([m_low, m_high]));
    let mut input = io::large_buffer();
    let mut output = io::large_buffer();
    job(conversion, &mut input[0..n], &mut output[0..m]);
    true
}

// A proved loop has to end: this one has more turns than any input uses up. (Each test program has this loop: a crate for it would be
// longer than the loop.)
fn main() {
    for _ in 0..u64::MAX {
        if !one() {
            break;
        }
    }
}
