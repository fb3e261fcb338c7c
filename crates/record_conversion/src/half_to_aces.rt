// A half record to its ACES record.
ghost use Rattle.rules.specs.Conversions.{half_to_aces};
ghost use Rattle.record_conversion.specs.Laws.{half_to_aces_lawful};

use crate::RecordConversion;
use decode::prepared::Prepared;
use rules::{Refusal, Setting};

#[derive(Clone, Copy)]
pub struct HalfToAces;

impl RecordConversion for HalfToAces {
    ghost rule = { λ _. half_to_aces };

    fn size_from(self) -> usize {
        records::HALVES_SIZE
    }

    fn size_to(self) -> usize {
        records::NUMBERS_SIZE
    }

    fn check_setting(self, s: Setting) -> Result<(), Refusal> {
        setting::check_for_aces(s)
    }

    fn check_inner(self, _d: &Prepared, r: &[u8]) -> Result<(), Refusal> {
        half_record::check_halves(r)
    }

    fn write_record(self, d: &Prepared, r: &[u8], out: &mut [u8]) {
        half_record::write_units(d.setting, r, out);
    }

    ghost lawful = { λ _. half_to_aces_lawful };
}
