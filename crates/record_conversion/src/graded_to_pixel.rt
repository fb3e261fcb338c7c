// A graded ACES record to a pixel record.
ghost use Rattle.record_conversion.specs.Conversions.{graded_to_pixel};
ghost use Rattle.record_conversion.specs.Laws.{graded_to_pixel_lawful};

use crate::RecordConversion;
use decode::prepared::Prepared;
use rules::{Refusal, Setting};

#[derive(Clone, Copy)]
pub struct GradedToPixel;

impl RecordConversion for GradedToPixel {
    ghost rule = { λ _. graded_to_pixel };

    fn size_from(self) -> usize {
        records::NUMBERS_SIZE
    }

    fn size_to(self) -> usize {
        records::PIXEL_SIZE
    }

    fn check_setting(self, s: Setting) -> Result<(), Refusal> {
        setting::check_for_aces(s)
    }

    fn check_inner(self, _d: &Prepared, r: &[u8]) -> Result<(), Refusal> {
        graded_record::check_graded(r)
    }

    fn write_record(self, d: &Prepared, r: &[u8], out: &mut [u8]) {
        graded_record::write_pixel(d, r, out);
    }

    ghost lawful = { λ _. graded_to_pixel_lawful };
}
