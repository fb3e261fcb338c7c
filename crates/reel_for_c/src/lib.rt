// The calls on a reel over what C has: the strip, the count and the three sums. Each gives the number, and where it is 0 the count and the sums
// after it. (The functions for C in `ropeinstant` lend these. C has the sums as signed numbers.)

#![tactic(auto)]

ghost use Rattle.std.specs.Prelude.{◌≡◌};
ghost use Rattle.rules.specs.Reel as calls;
ghost use Rattle.rules.specs.Reel.{reel_result};
ghost use Rattle.reel_for_c.specs.Call.{totals, count_after, sums_after, GivesReel};

use records::PIXEL_SIZE;
use rules::{Refusal, Totals};

// The count and the sums of C.
fn totals_of(count: u64, sums: &[u64; 3]) -> Totals
    ensures { result ≡ totals count sums.now }
{
    Totals {
        count,
        red: sums[0],
        green: sums[1],
        blue: sums[2],
    }
}

// An answer as C has it: its number, and where it is 0 the count and the sums.
fn give(a: Result<Totals, Refusal>, count: &mut u64, sums: &mut [u64; 3]) -> u32
    ensures value { result ≡ (reel_result a).number }
    ensures count_after { count.new ≡ count_after a count.old }
    ensures sums_after { sums.new ≡ sums_after a sums.old }
{
    match a {
        Ok(t) => {
            *count = t.count;
            *sums = [t.red, t.green, t.blue];
            0
        }
        Err(why) => setting::refusal_number(why) as u32,
    }
}

// Appending a record.
pub fn append(strip: &mut [u8], count: &mut u64, sums: &mut [u64; 3], r: &[u8; PIXEL_SIZE]) -> u32
    ensures { GivesReel strip.old count.old sums.old (calls.Call.append r.now) result count.new sums.new strip.new }
{
    let t = totals_of(*count, sums);
    give(reel::append(strip, t, r), count, sums)
}

// Replacing the record at an index. The count stays.
pub fn replace(
    strip: &mut [u8],
    count: u64,
    sums: &mut [u64; 3],
    index: u64,
    r: &[u8; PIXEL_SIZE],
) -> u32
    ensures { GivesReel strip.old count sums.old (calls.Call.replace index r.now) result count sums.new strip.new }
{
    let t = totals_of(count, sums);
    let mut unchanged = count;
    give(reel::replace(strip, t, index, r), &mut unchanged, sums)
}

// Dropping the last record.
pub fn drop_last(strip: &[u8], count: &mut u64, sums: &mut [u64; 3]) -> u32
    ensures { GivesReel strip.now count.old sums.old calls.Call.drop_last result count.new sums.new strip.now }
{
    let t = totals_of(*count, sums);
    give(reel::drop_last(strip, t), count, sums)
}
