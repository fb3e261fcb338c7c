// The way back of a short strip, exact or tolerant, in one pass: the pixels that are found are kept in a buffer, and copied where no record is refused.

#![tactic(auto)]

ghost use Rattle.std.specs.Prelude.{◌≡◌, ◌*◌, ◌≤◌, length};
ghost use Rattle.rules.specs.Record.{pixel_size, numbers_size};
ghost use Rattle.rules.specs.Strip.{scan_of, output_after};
ghost use Rattle.rules.specs.WayBack.{distance_of};
ghost use Rattle.record_conversion.specs.Conversions.{back_within};
ghost use Rattle.strip_one_pass.specs.Kept.{most, Kept};

use decode::prepared::Prepared;
use record_conversion::{AcesToPixel, FIRST, RecordConversion};
use records::{NUMBERS_SIZE, PIXEL_SIZE};
use rules::{Distance, RefusedAt};

// The most records that a strip may have here, and the bytes of the buffer for the pixel records of so many.
pub const MOST: usize = 4096;

// (An array: the library takes no heap.)
const BUFFER: usize = MOST * PIXEL_SIZE;

// The pass over n records. A setting is checked and prepared for a run of records that have it.
fn fill(k: Distance, input: &[u8], n: usize, buffer: &mut [u8]) -> Result<usize, RefusedAt>
    requires { (n * numbers_size ≤ length input.now) × (n * pixel_size ≤ length buffer.old) }
    ensures value { result ≡ scan_of (back_within (distance_of k)) n input.now }
    ensures kept { Kept (distance_of k) input.now result buffer.new }
{
    let back = AcesToPixel { distance: k };
    let mut d = Prepared::new(FIRST);
    for index in 0..n {
        let r = records::record_at(input, NUMBERS_SIZE, index);
        let next = records::setting_of(r);
        if !setting::same_setting(d.setting, next) {
            if let Err(cause) = back.check_setting(next) {
                return Err(RefusedAt { cause, index });
            }
            d = Prepared::new(next);
        }
        let b = index * PIXEL_SIZE;
        let out = &mut buffer[b..b + PIXEL_SIZE];
        if let Err(cause) = record_conversion::convert_aces(k, &d, r, out) {
            return Err(RefusedAt { cause, index });
        }
    }
    Ok(n)
}

// The way back of the n records of a strip, of which the buffer holds the pixels.
pub fn aces_to_pixel(
    k: Distance,
    input: &[u8],
    n: usize,
    output: &mut [u8],
) -> Result<usize, RefusedAt>
    requires { (n ≤ most) × (n * numbers_size ≤ length input.now) × (n * pixel_size ≤ length output.old) }
    ensures value { result ≡ scan_of (back_within (distance_of k)) n input.now }
    ensures output_after { output.new ≡ output_after (back_within (distance_of k)) input.now output.old result }
{
    let mut buffer = [0u8; BUFFER];
    let m = fill(k, input, n, &mut buffer)?;
    let end = m * PIXEL_SIZE;
    output[0..end].copy_from_slice(&buffer[0..end]);
    Ok(m)
}
