// The sums of a reel: numbers taken off and added, whatever the sums were.

#![tactic(auto)]

ghost use Rattle.std.specs.Prelude.{◌≡◌};
ghost use Rattle.rules.specs.Reel.{sum_after, totals_with};

use rules::{Scene, Scenes, Totals};

// A sum with one number taken off and another added, modulo 2^64.
fn sum_after(sum: u64, old: Scene, new: Scene) -> u64
    ensures { result ≡ sum_after sum old.0 new.0 }
{
    sum.wrapping_add(little_endian::to_bits(new.0))
        .wrapping_sub(little_endian::to_bits(old.0))
}

// The sums with the numbers of one record taken off and those of another added, beside a count.
pub fn totals_with(count: u64, t: Totals, old: Scenes, new: Scenes) -> Totals
    ensures { result ≡ totals_with count t old new }
{
    Totals {
        count,
        red: sum_after(t.red, old.red, new.red),
        green: sum_after(t.green, old.green, new.green),
        blue: sum_after(t.blue, old.blue, new.blue),
    }
}
