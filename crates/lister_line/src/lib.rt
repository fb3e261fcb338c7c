// The lister's lines: a record's outcome, and the bytes short of a record, as text.

#![tactic(auto)]

ghost use Rattle.std.specs.Prelude.{Err, Ok};
ghost use Rattle.text.specs.Put.{Room, Put};
ghost use Rattle.rules.specs.Lister.{line_of, words, line, tail_line};

use rules::{Refusal, Triple};

const SPACE: u8 = b' ';

const NEWLINE: u8 = b'\n';

// `ok` and three ACES numbers, to the end of the line.
fn put_ok(out: &mut [u8], at: usize, a: Triple) -> usize
    requires { Room (line_of (words (Ok a))) out.old at }
    ensures { Put (line_of (words (Ok a))) out.old at out.new result }
{
    let red = text::put_word(out, at, b"ok ");
    let green = text::put_signed_number(out, red, a.red.0, SPACE);
    let blue = text::put_signed_number(out, green, a.green.0, SPACE);
    text::put_signed_number(out, blue, a.blue.0, NEWLINE)
}

// `refused` and the refusal's number, to the end of the line.
fn put_refused(out: &mut [u8], at: usize, why: Refusal) -> usize
    requires { Room (line_of (words (Err why))) out.old at }
    ensures { Put (line_of (words (Err why))) out.old at out.new result }
{
    let then = text::put_word(out, at, b"refused ");
    text::put_number(out, then, setting::refusal_number(why) as u64, NEWLINE)
}

// The line of a record.
pub fn put_line(out: &mut [u8], at: usize, index: u64, o: Result<Triple, Refusal>) -> usize
    requires { Room (line index o) out.old at }
    ensures { Put (line index o) out.old at out.new result }
{
    let then = text::put_number(out, at, index, SPACE);
    match o {
        Ok(a) => put_ok(out, then, a),
        Err(why) => put_refused(out, then, why),
    }
}

// `tail` and a count, to the end of the line; nothing where the count is 0.
pub fn put_tail(out: &mut [u8], at: usize, n: usize) -> usize
    requires { Room (tail_line n) out.old at }
    ensures { Put (tail_line n) out.old at out.new result }
{
    if n == 0 {
        return at;
    }
    let then = text::put_word(out, at, b"tail ");
    text::put_number(out, then, n as u64, NEWLINE)
}
