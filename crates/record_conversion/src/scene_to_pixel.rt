// A scene record to its pixel record: encoding.
ghost use Rattle.record_conversion.specs.Conversions.{scene_to_pixel};
ghost use Rattle.record_conversion.specs.Laws.{scene_to_pixel_lawful};

use crate::RecordConversion;
use decode::prepared::Prepared;
use rules::{Refusal, Setting};

#[derive(Clone, Copy)]
pub struct SceneToPixel;

impl RecordConversion for SceneToPixel {
    ghost rule = { λ _. scene_to_pixel };

    fn size_from(self) -> usize {
        records::NUMBERS_SIZE
    }

    fn size_to(self) -> usize {
        records::PIXEL_SIZE
    }

    fn check_setting(self, s: Setting) -> Result<(), Refusal> {
        setting::check_setting(s)
    }

    fn check_inner(self, d: &Prepared, r: &[u8]) -> Result<(), Refusal> {
        scene_record::check_numbers(d.setting, r)
    }

    fn write_record(self, d: &Prepared, r: &[u8], out: &mut [u8]) {
        scene_record::write_pixel(d, r, out);
    }

    ghost lawful = { λ _. scene_to_pixel_lawful };
}
