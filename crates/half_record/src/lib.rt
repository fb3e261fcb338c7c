// Half records: the check of their halves, what is written for one, and what is written for an ACES record. (A record is a slice with its length
// in a clause: `record_at` lends a part whose size the conversion says.)

#![tactic(auto)]

ghost use Rattle.std.specs.Prelude.{◌≡◌, length};
ghost use Rattle.rules.specs.Record.{number_bytes, half_bytes, numbers_size, halves_size};
ghost use Rattle.rules.specs.Half.{half_check};
ghost use Rattle.rules.specs.Conversions.{channel_checks, each_channel, half_bits, unit_bits};

use rules::{Half, Refusal, Rgb, Setting, Triple};

// The checks of the three halves of a record.
#[tactic(auto, unfolding(rules::specs::Conversions::channel_checks))]
pub fn check_halves(r: &[u8]) -> Result<(), Refusal>
    requires { length r.now ≡ halves_size }
    ensures { result ≡ channel_checks half_bytes half_check r.now }
{
    let h: Rgb<Half> = records::channels_in(r);
    half::check(h.red)?;
    half::check(h.green)?;
    half::check(h.blue)
}

// What is written for a half record: its setting and the units of its halves.
pub fn write_units(s: Setting, r: &[u8], out: &mut [u8])
    requires r_len { length r.now ≡ halves_size }
    requires out_len { length out.old ≡ numbers_size }
    ensures { out.new ≡ each_channel half_bytes number_bytes s (unit_bits s) r.now }
{
    let h: Rgb<Half> = records::channels_in(r);
    // (Channel by channel, here and in the other records: the clauses of a closure would be as long as the three lines.)
    let a = Triple {
        red: half::read(h.red),
        green: half::read(h.green),
        blue: half::read(h.blue),
    };
    records::put(out, s, a);
}

// What is written for an ACES record: its setting and the nearest halves.
pub fn write_halves(s: Setting, r: &[u8], out: &mut [u8])
    requires r_len { length r.now ≡ numbers_size }
    requires out_len { length out.old ≡ halves_size }
    ensures { out.new ≡ each_channel number_bytes half_bytes s (half_bits s) r.now }
{
    let a: Triple = records::channels_in(r);
    let h = Rgb {
        red: half::write(a.red),
        green: half::write(a.green),
        blue: half::write(a.blue),
    };
    records::put(out, s, h);
}
