// What may stand in a channel of a record: a code or a half float in two bytes, a scene number or an ACES number in eight.
ghost use Rattle.std.specs.Prelude.{◌≡◌, ℕ, ◌+◌, ◌≤◌, length, take, drop};
ghost use Rattle.std.proofs.Common.{rules};
ghost use Rattle.rules.specs.Record.{value, digits, to_bits, of_bits, code_bytes, number_bytes, half_bytes};

use little_endian::{CODE_BYTES, HALF_BYTES, NUMBER_BYTES};
use rules::{Aces, Code, Half, Scene};

// (The four impls are two and two alike: rt ci refuses an impl that a macro writes.)
pub trait Channel: Copy {
    // How many bytes it takes, the number that stands in them, and what a number that is read there is.
    ghost BYTES: { ℕ };

    ghost bits: { Self → ℕ };

    ghost of: { ℕ → Self };

    const BYTES: usize;

    fn read(r: &[u8], at: usize) -> Self
        requires { at + BYTES ≤ length r.now }
        ensures { result ≡ of (value (take BYTES (drop at r.now))) };

    fn write(self, out: &mut [u8])
        requires { length out.old ≡ BYTES }
        ensures { out.new ≡ digits BYTES (bits self) };

    ghost small: { BYTES ≤ 8 };
}

impl Channel for Code {
    ghost BYTES = { code_bytes };

    ghost bits = { λ x. x.0 };

    ghost of = { λ u. record { 0 = u } };

    const BYTES: usize = CODE_BYTES;

    fn read(r: &[u8], at: usize) -> Code {
        Code(little_endian::u16_at(r, at))
    }

    fn write(self, out: &mut [u8]) {
        little_endian::put_u16(out, self.0);
    }

    ghost small = { Prim.search rules };
}

impl Channel for Half {
    ghost BYTES = { half_bytes };

    ghost bits = { λ x. x.0 };

    ghost of = { λ u. record { 0 = u } };

    const BYTES: usize = HALF_BYTES;

    fn read(r: &[u8], at: usize) -> Half {
        Half(little_endian::u16_at(r, at))
    }

    fn write(self, out: &mut [u8]) {
        little_endian::put_u16(out, self.0);
    }

    ghost small = { Prim.search rules };
}

impl Channel for Scene {
    ghost BYTES = { number_bytes };

    ghost bits = { λ x. to_bits number_bytes x.0 };

    ghost of = { λ u. record { 0 = of_bits number_bytes u } };

    const BYTES: usize = NUMBER_BYTES;

    fn read(r: &[u8], at: usize) -> Scene {
        Scene(little_endian::number_at(r, at))
    }

    fn write(self, out: &mut [u8]) {
        little_endian::put_number(out, self.0);
    }

    ghost small = { Prim.search rules };
}

impl Channel for Aces {
    ghost BYTES = { number_bytes };

    ghost bits = { λ x. to_bits number_bytes x.0 };

    ghost of = { λ u. record { 0 = of_bits number_bytes u } };

    const BYTES: usize = NUMBER_BYTES;

    fn read(r: &[u8], at: usize) -> Aces {
        Aces(little_endian::number_at(r, at))
    }

    fn write(self, out: &mut [u8]) {
        little_endian::put_number(out, self.0);
    }

    ghost small = { Prim.search rules };
}
