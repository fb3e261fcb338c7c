// The two passes over a strip: the first checks every record, the second writes each. Both prepare a setting for a run of records that have it.

#![tactic(auto)]

ghost use Rattle.std.specs.Prelude.{◌≡◌, ◌*◌, ◌≤◌, length, Ok};
ghost use Rattle.rules.specs.Strip.{scan_of, output_after};

use decode::prepared::Prepared;
use record_conversion::{FIRST, RecordConversion};
use rules::RefusedAt;

// The first pass: the first of the n records that is refused. A setting is checked where a run begins. (`if let` and no `map_err`: a closure
// between a check and the answer is no plainer.)
pub fn scan<C: RecordConversion>(k: C, input: &[u8], n: usize) -> Result<usize, RefusedAt>
    requires { n * (C.rule k).from ≤ length input.now }
    ensures { result ≡ scan_of (C.rule k) n input.now }
{
    let size = k.size_from();
    let mut d = Prepared::new(FIRST);
    for index in 0..n {
        let r = records::record_at(input, size, index);
        let next = records::setting_of(r);
        if !setting::same_setting(d.setting, next) {
            if let Err(cause) = k.check_setting(next) {
                return Err(RefusedAt { cause, index });
            }
            d = Prepared::new(next);
        }
        if let Err(cause) = k.check_inner(&d, r) {
            return Err(RefusedAt { cause, index });
        }
    }
    Ok(n)
}

// The second pass: each of the n records is written in its own stretch of the output.
pub fn write<C: RecordConversion>(k: C, input: &[u8], output: &mut [u8], n: usize)
    requires k_in_bounds { (n * (C.rule k).from ≤ length input.now) × (n * (C.rule k).to ≤ length output.old) }
    requires n_value { Ok n ≡ scan_of (C.rule k) n input.now }
    ensures { output.new ≡ output_after (C.rule k) input.now output.old (Ok n) }
{
    let from = k.size_from();
    let to = k.size_to();
    let mut d = Prepared::new(FIRST);
    for i in 0..n {
        let r = records::record_at(input, from, i);
        let s = records::setting_of(r);
        if !setting::same_setting(d.setting, s) {
            d = Prepared::new(s);
        }
        let b = i * to;
        k.write_record(&d, r, &mut output[b..b + to]);
    }
}
