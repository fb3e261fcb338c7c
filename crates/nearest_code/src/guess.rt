// A guess at the step of a number y, which has the offset. Nothing but speed rests on it: the search ends at the same step wherever it begins.
// (The remainders change no number that occurs. They show that products fit words.)
ghost use Rattle.std.specs.Prelude.{◌^◌, ◌≤◌, ◌<◌};

use super::log_line::LogLine;
use decode::decoder::Decoder;
use rules::Setting;

// 2^25 * 10^6: what a number in the toe rises from a step to the next, in the toe's measure.
const TOE_RISE: u64 = (1 << 25) * 1_000_000;

// The numbers of the toe are below 2^21, and all are below 2^33. What the toe divides by is below 2^42.
const TOE_LIMIT: u64 = 1 << 21;

const LIMIT: u64 = 1 << 33;

const OVER_LIMIT: u64 = 1 << 42;

// A product of table entries stands at 2^27 a unit.
const UNIT: u64 = 1 << 27;

// A line's signals are in units of 2^-48 before they are cut to 2^-32.
const SIGNAL: u64 = 1 << 32;

const CUT: u64 = 1 << 16;

// What is above the 16 bits after the highest one bit.
const BELOW_BITS: u64 = 1 << 47;

// a * b, where b is in units of 2^-16.
fn part(a: u64, b: u64) -> u64
    requires { (a < 2 ^ 16) × (b ≤ 2 ^ 16) }
    ensures { result ≤ a }
{
    a * b / 65536
}

// 2^16 * (log2(1 + m / 2^16) - m / 2^16), by a polynomial.
fn bend(m: u64) -> u64
    requires { m < 2 ^ 16 }
    ensures { result < 2 ^ 16 }
{
    let m2 = part(m, m);
    let m3 = part(m2, m);
    let m4 = part(m2, m2);
    let more = 29010 + part(12065, m2) + part(1684, m4);
    let less = part(18125, m) + part(6370, m3);
    part(part(m, 65536 - m), more - less)
}

// 2^16 * log2(z), by the place of the highest one bit and the 16 bits after it.
fn log2(z: u64) -> u64
    ensures { result < 2 ^ 23 }
{
    let zeros = u64::leading_zeros(z) % 64;
    let m = (z << zeros) / BELOW_BITS % 65536;
    (63 - zeros) as u64 * 65536 + m + bend(m)
}

// The step nearest to the signal of z. (`last` is a u64 with its bound in a clause, since it is multiplied as one.)
fn on_line(k: LogLine, last: u64, z: u64) -> u64
    requires { (k.slope < 2 ^ 29) × (last < 2 ^ 16) }
{
    let rise = k.slope * log2(z);
    let start = k.start;
    if rise < start {
        return 0;
    }
    ((rise - start) / CUT * last + SIGNAL / 2) / SIGNAL
}

// The step of a number above the toe: a step's number is z and the bias, over 2^27 and rounded down.
fn above_toe(k: LogLine, d: Decoder, last: u64, y: u64) -> u64
    requires { (k.slope < 2 ^ 29) × (last < 2 ^ 16) × (y < 2 ^ 33) }
{
    let sum = UNIT * y + UNIT / 2;
    let bias = d.bias;
    if sum < bias {
        return 0;
    }
    on_line(k, last, sum - bias)
}

// In the toe the number is a line in the step.
fn in_toe(d: Decoder, y: u64) -> u64
    requires { y < 2 ^ 21 }
{
    let rise = y * (d.over % OVER_LIMIT);
    let toe = d.toe;
    if rise < toe {
        return 0;
    }
    (rise - toe + TOE_RISE / 2) / TOE_RISE
}

// The step of y, but for some steps; it may be above the last.
fn on_curve(s: Setting, d: Decoder, last: u64, y: u64) -> u64
    requires { last < 2 ^ 16 }
{
    if y < TOE_LIMIT {
        let n = in_toe(d, y);
        if n < d.first {
            return n;
        }
    }
    if LIMIT <= y {
        return last;
    }
    above_toe(LogLine::of(s), d, last, y)
}

// The step of y, but for some steps.
pub fn guess(s: Setting, d: Decoder, last: u64, y: u64) -> u64
    requires { last < 2 ^ 16 }
    ensures { result ≤ last }
{
    on_curve(s, d, last, y).min(last)
}
