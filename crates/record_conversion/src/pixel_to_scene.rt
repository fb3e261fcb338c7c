// A pixel record to its scene record: decoding.
ghost use Rattle.record_conversion.specs.Conversions.{pixel_to_scene};
ghost use Rattle.record_conversion.specs.Laws.{pixel_to_scene_lawful};

use crate::RecordConversion;
use decode::prepared::Prepared;
use rules::{Refusal, Setting};

#[derive(Clone, Copy)]
pub struct PixelToScene;

impl RecordConversion for PixelToScene {
    ghost rule = { λ _. pixel_to_scene };

    fn size_from(self) -> usize {
        records::PIXEL_SIZE
    }

    fn size_to(self) -> usize {
        records::NUMBERS_SIZE
    }

    fn check_setting(self, s: Setting) -> Result<(), Refusal> {
        setting::check_setting(s)
    }

    fn check_inner(self, d: &Prepared, r: &[u8]) -> Result<(), Refusal> {
        pixel_record::check_codes(d.setting, r)
    }

    fn write_record(self, d: &Prepared, r: &[u8], out: &mut [u8]) {
        pixel_record::write_scene(d, r, out);
    }

    ghost lawful = { λ _. pixel_to_scene_lawful };
}
