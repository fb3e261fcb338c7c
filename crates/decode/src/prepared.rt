// What decoding needs of a setting that passes its checks: its decoder and its table. They are fetched once for a setting and then lent.
ghost use Rattle.std.specs.Prelude.{◌≡◌, Ok};
ghost use Rattle.rules.specs.Setting.{code_check, Valid};
ghost use Rattle.decode.specs.Decoded.{decoded};
ghost use Rattle.decode.specs.Ready.{Ready};

use super::decoder::Decoder;
use rules::{Code, Scene, Setting};

// A setting that passes its checks, with its decoder and its table.
#[derive(Drop)]
pub struct Prepared {
    pub setting: Setting,
    pub decoder: Decoder,
    pub table: [u64; 128],
    pub ghost ready: { Ready setting decoder table },
}

impl Prepared {
    pub fn new(s: Setting) -> Prepared
        requires { Valid s }
        ensures { result.setting ≡ s }
    {
        Prepared {
            setting: s,
            decoder: Decoder::new(s),
            table: curve_table::table(s),
        }
    }

    // The scene number of a code that passes its check.
    pub fn scene(&self, n: Code) -> Scene
        requires { code_check self.now.setting n.0 ≡ Ok tt }
        ensures { result.0 ≡ decoded self.now.setting n.0 }
    {
        let i = setting_codes::step_of(self.setting, n);
        self.decoder.number(&self.table, i)
    }
}
