// Lists pixel records. Standard input holds records of ten bytes. A line is printed for each: its index from 0, then `ok` and three ACES
// numbers, or `refused` and the refusal's number. Bytes short of a record at the end print `tail` and their count.

#![tactic(auto)]

// The standard streams. (Read and written by the kit's io: std's would rest the program on one more axiom, os::c::rattle_errno.)
const STDIN_FILENO: i32 = 0;

const STDOUT_FILENO: i32 = 1;

// A piece of the input: its records, its bytes, and the bytes of its longest text. (Two arrays and how much of each is used: no heap, however long
// the input.)
const RECORDS: u64 = 6553;

const BYTES: usize = 65530;

const TEXT: usize = 432505;

// 2^50 pieces, which no input has.
const PIECES: u64 = 1125899906842624;

// The piece whose first record has the index k: whether there may be another. Every piece but the last is full.
fn piece(k: u64) -> bool {
    let mut input = [0u8; BYTES];
    let mut text = [0u8; TEXT];
    let n = io::read_full(STDIN_FILENO, &mut input);
    let count = lister_text::list(k, &input[..n], &mut text);
    io::write_all(STDOUT_FILENO, &text[..count]) && n == BYTES
}

// A proved loop has to end: this one counts the pieces.
fn main() {
    for i in 0..PIECES {
        if !piece(i * RECORDS) {
            break;
        }
    }
}
