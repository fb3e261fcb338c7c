// An ACES record to its half record. Nothing but its setting is checked.
ghost use Rattle.rules.specs.Conversions.{aces_to_half};
ghost use Rattle.record_conversion.specs.Laws.{aces_to_half_lawful};

use crate::RecordConversion;
use decode::prepared::Prepared;
use rules::{Refusal, Setting};

#[derive(Clone, Copy)]
pub struct AcesToHalf;

impl RecordConversion for AcesToHalf {
    ghost rule = { λ _. aces_to_half };

    fn size_from(self) -> usize {
        records::NUMBERS_SIZE
    }

    fn size_to(self) -> usize {
        records::HALVES_SIZE
    }

    fn check_setting(self, s: Setting) -> Result<(), Refusal> {
        setting::check_for_aces(s)
    }

    #[tactic(auto, unfolding(rules::specs::Conversions::channel_checks))]
    fn check_inner(self, _d: &Prepared, _r: &[u8]) -> Result<(), Refusal> {
        Ok(())
    }

    fn write_record(self, d: &Prepared, r: &[u8], out: &mut [u8]) {
        half_record::write_halves(d.setting, r, out);
    }

    ghost lawful = { λ _. aces_to_half_lawful };
}
