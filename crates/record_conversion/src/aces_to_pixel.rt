// The way back: an ACES record to its pixel record, at a distance.
ghost use Rattle.rules.specs.WayBack.{distance_of};
ghost use Rattle.record_conversion.specs.Conversions.{back_within};
ghost use Rattle.record_conversion.specs.Laws.{back_lawful};

use crate::RecordConversion;
use decode::prepared::Prepared;
use rules::{Distance, Refusal, Setting};

#[derive(Clone, Copy)]
pub struct AcesToPixel {
    pub distance: Distance,
}

impl RecordConversion for AcesToPixel {
    ghost rule = { λ k. back_within (distance_of k.distance) };

    fn size_from(self) -> usize {
        records::NUMBERS_SIZE
    }

    fn size_to(self) -> usize {
        records::PIXEL_SIZE
    }

    fn check_setting(self, s: Setting) -> Result<(), Refusal> {
        setting::check_for_aces(s)
    }

    fn check_inner(self, d: &Prepared, r: &[u8]) -> Result<(), Refusal> {
        aces_record::check_triple(self.distance, d, r)
    }

    fn write_record(self, d: &Prepared, r: &[u8], out: &mut [u8]) {
        aces_record::write_back(d, r, out);
    }

    ghost lawful = { λ k. back_lawful (distance_of k.distance) };
}
