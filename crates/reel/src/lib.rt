// A reel: up to 4,096 pixel records in a strip that is lent, kept with their count and the three sums of their scene numbers. A call costs the
// same however many records there are, and says what it does whatever it is lent. (The strip lies beside its
// count: C owns both. Any list of calls: crate reel_calls.)

#![tactic(auto)]

ghost use Rattle.std.specs.Prelude.{◌≡◌};
ghost use Rattle.rules.specs.Reel as calls;
ghost use Rattle.rules.specs.Reel.{Answers};
ghost use Rattle.decode.specs.Decoded.{decoded};

use records::PIXEL_SIZE;
use rules::{Refusal, Totals};

// Appending a record: 15 where the reel is full, then the record's checks.
pub fn append(strip: &mut [u8], t: Totals, r: &[u8; PIXEL_SIZE]) -> Result<Totals, Refusal>
    ensures { Answers decoded strip.old t (calls.Call.append r.now) result strip.new }
{
    if reel_strip::room_in(strip) <= t.count {
        return Err(Refusal::ReelFull);
    }
    reel_record::check(r)?;
    reel_strip::put_record(strip, t.count, r);
    let new = reel_record::scenes_in(r);
    Ok(reel_sums::totals_with(t.count + 1, t, reel_record::NONE, new))
}

// Replacing the record at an index: 16 where it is not held, then the record's checks. The numbers of the record that stood there, by its own
// setting, are taken off.
pub fn replace(
    strip: &mut [u8],
    t: Totals,
    index: u64,
    r: &[u8; PIXEL_SIZE],
) -> Result<Totals, Refusal>
    ensures { Answers decoded strip.old t (calls.Call.replace index r.now) result strip.new }
{
    if !reel_strip::held(strip, t.count, index) {
        return Err(Refusal::NotHeld);
    }
    reel_record::check(r)?;
    let old = reel_strip::metered_at(strip, index);
    reel_strip::put_record(strip, index, r);
    let new = reel_record::scenes_in(r);
    Ok(reel_sums::totals_with(t.count, t, old, new))
}

// Dropping the last record: 16 where there is none. The strip is not written.
pub fn drop_last(strip: &[u8], t: Totals) -> Result<Totals, Refusal>
    ensures { Answers decoded strip.now t calls.Call.drop_last result strip.now }
{
    if t.count == 0 {
        return Err(Refusal::NotHeld);
    }
    let last = t.count - 1;
    if !reel_strip::held(strip, t.count, last) {
        return Err(Refusal::NotHeld);
    }
    let old = reel_strip::metered_at(strip, last);
    Ok(reel_sums::totals_with(last, t, old, reel_record::NONE))
}
