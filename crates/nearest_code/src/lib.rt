// The search for the step whose number is nearest to a number y, which has the offset: from a guess outwards, then by halves.

#![tactic(auto)]

ghost use Rattle.std.specs.Prelude.{◌≡◌, ◌^◌, ◌<◌, min};
ghost use Rattle.rules.specs.Setting.{named};
ghost use Rattle.curves.specs.Gap.{gap_of};
ghost use Rattle.decode.specs.Decoded.{raw_by};
ghost use Rattle.nearest_code.specs.Search.{Rising, NearestStep};

mod guess;
mod log_line;

use decode::decoder::Decoder;
use rules::{Setting, Step};

// The step whose number is nearest to y. Between the steps low and high, whose numbers are low_number and high_number, any step may be
// tried next: here one a stride from the end that moved last, where strides grow fourfold, or else the one half way. (No partition_point: the steps
// are no slice, and which is tried next goes by the end that moved.)
fn search(d: Decoder, t: &[u64; 128], last: u64, gap: u64, y: u64, first: u64) -> u64
    requires rising { Rising d t.now last gap }
    requires y_bound { y < 2 ^ 62 }
    ensures { NearestStep (raw_by d t.now) last y result }
{
    let mut low: u64 = 0;
    let mut high = last + 1;
    let mut low_number: u64 = 0;
    let mut high_number: u64 = 0;
    let mut stride: u64 = 1;
    let mut middle = (first % 65536 + 1).min(last);
    while low + 1 < high {
        let reach = stride;
        stride = (4 * stride).min(65536);
        let number = d.raw(t, Step(middle));
        if number < y {
            low = middle;
            low_number = number;
            middle = low + reach.min((high - low) / 2);
        } else {
            high = middle;
            high_number = number;
            middle = high - reach.min((high - low) / 2);
        }
    }
    if last < high {
        return low;
    }
    if low == 0 {
        low_number = d.raw(t, Step(0));
    }
    if low_number + high_number < 2 * y {
        return high;
    }
    low
}

// The same, where the step guessed is tried first: what is nearer to its number than half the curve's gap has that step.
// (It takes the parts and no Prepared: it asks only that the numbers rise.)
pub fn find(s: Setting, d: Decoder, t: &[u64; 128], last: Step, y: u64) -> Step
    requires rising { Rising d t.now last.0 (gap_of (named s.curve)) }
    requires y_bound { y < 2 ^ 62 }
    ensures { NearestStep (raw_by d t.now) last.0 y result.0 }
{
    let gap = curves::gap_of(s.curve);
    let first = guess::guess(s, d, last.0, y);
    let number = d.raw(t, Step(first));
    if 2 * number < 2 * y + gap && 2 * y < 2 * number + gap {
        return Step(first);
    }
    Step(search(d, t, last.0, gap, y, first))
}
