// The lister's text: a line for each pixel record, and one for the bytes short of a record at the end.

#![tactic(auto)]

ghost use Rattle.std.specs.Prelude.{◌≡◌, ◌+◌, ◌*◌, ◌^◌, ◌≤◌, ◌<◌, length};
ghost use Rattle.rules.specs.Strip.{records};
ghost use Rattle.text.specs.Put.{Put};
ghost use Rattle.lister_line.specs.Line.{longest};
ghost use Rattle.lister_text.specs.Listed.{outcome_of, lines, Lists};
ghost use Rattle.rules.specs.Lister.{size};

use decode::prepared::Prepared;
use record_conversion::{PixelToAces, RecordConversion};
use records::PIXEL_SIZE;
use rules::{Refusal, Triple};

// The bytes of the longest line, and of the longest line of a tail.
const LONGEST: usize = 66;

const LONGEST_TAIL: usize = 7;

// A record judged alone: refusals 3, 4, 5 and 12, then 13, 11 and 6 of each code.
fn judge(r: &[u8]) -> Result<Triple, Refusal>
    requires { length r.now ≡ size }
    ensures { result ≡ outcome_of r.now }
{
    let s = records::setting_of(r);
    PixelToAces.check_setting(s)?;
    let d = Prepared::new(s);
    PixelToAces.check_inner(&d, r)?;
    Ok(aces::of_pixel(&d, records::channels_in(r)))
}

// The lines of the first n records, of which the first has the index `first`.
fn put_lines(first: u64, input: &[u8], n: usize, out: &mut [u8]) -> usize
    requires { (n * size ≤ length input.now) × (longest * n ≤ length out.old) × (first + n < 2 ^ 64) }
    ensures { Put (lines first (records size n input.now)) out.old 0 out.new result }
{
    let mut at = 0;
    for i in 0..n {
        let o = judge(records::record_at(input, PIXEL_SIZE, i));
        at = lister_line::put_line(out, at, first + i as u64, o);
    }
    at
}

// The text of bytes whose first record has the index `first`, at the start of the output: how many bytes it has. An output without room for
// the longest text of so many records is left as it was, and the answer is 0; so too where the index after the last is
// 2^64. (0 and no Option: it is the count that `Lists` promises.)
pub fn list(first: u64, input: &[u8], out: &mut [u8]) -> usize
    ensures { Lists first input.now out.old result out.new }
{
    let n = input.len() / PIXEL_SIZE;
    if out.len() < LONGEST_TAIL {
        return 0;
    }
    if (out.len() - LONGEST_TAIL) / LONGEST < n {
        return 0;
    }
    if u64::MAX - first < n as u64 {
        return 0;
    }
    let at = put_lines(first, input, n, out);
    lister_line::put_tail(out, at, input.len() % PIXEL_SIZE)
}
