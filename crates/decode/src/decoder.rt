// Decoding by a decoder, four numbers of a setting, and a table.
ghost use Rattle.std.specs.Prelude.{◌≡◌, ◌+◌, ◌-◌, ◌*◌, ◌/◌, ◌^◌, ◌≤◌, ◌<◌};
ghost use Rattle.rules.specs.Curve.{log_c, log_c4};
ghost use Rattle.rules.specs.Setting.{Valid};
ghost use Rattle.rules.specs.Exact.{scale_of};
ghost use Rattle.curves.specs.LogC.{constants_of};
ghost use Rattle.curves.specs.LogC4.{IsLogC4};
ghost use Rattle.decode.specs.Constants.{Small};
ghost use Rattle.decode.specs.Decoded.{product, raw_by, decoded_by, decoder_of, Fits};

use curves::log_c::LogC;
use curves::log_c2::LogC2;
use curves::log_c3::LogC3;
use curves::log_c4::LogC4;
use rules::{CurveName, Scene, Setting, Step};

// A number is computed with 2^20 added, so that none is below 0. Twice that and 1: the offset and a half, in halves.
const OFFSET: i64 = 1 << 20;

const HALVES: u64 = (1 << 21) + 1;

// A product of table entries stands at 2^27 a unit.
const UNIT: u64 = 1 << 27;

// 2^25 * 10^6: twice a unit, in the toe's millionths.
const TOE_RISE: u64 = (1 << 25) * MILLION;

const MILLION: u64 = 1_000_000;

// first: the first step of the power part. bias: what is added to a product of table entries before it is rounded.
// toe and over: in the toe, what is added, and what is divided by.
#[derive(Clone, Copy)]
pub struct Decoder {
    pub first: u64,
    pub bias: u64,
    pub toe: u64,
    pub over: u64,
}

// The product of the entries of a step's three digits.
fn scaled(t: &[u64; 128], n: u64) -> u64
    requires { n < 2 ^ 16 }
    ensures { result ≡ product t.now n }
{
    let i = n as usize;
    let upper = whole::high_product(t[i / 1024], t[64 + i / 32 % 32]);
    whole::high_product(upper, t[96 + i % 32])
}

// The first step above the toe's border, e * cut + f, where f is above - below.
fn first_step(cut: u64, e: u64, above: u64, below: u64, last: u64) -> u64
    requires { (cut < 2 ^ 14) × (e < 2 ^ 29) × (above < 2 ^ 20) × (below < 2 ^ 20) × (last < 2 ^ 16) × (1000000 * below ≤ e * cut + 1000000 * above) }
    ensures { result ≡ ((e * cut + 1000000 * above) * last - 1000000 * below * last) / 10 ^ 12 + 1 }
{
    ((e * cut + MILLION * above) * last - MILLION * below * last) / (MILLION * MILLION) + 1
}

// 2^51 * part / over, rounded down. 2^51 * part may be more than a word, so it is divided in two
// steps.
fn lower(part: u64, over: u64) -> u64
    requires { (part < 2 ^ 21) × (16 * part ≤ over) × (0 < over) × (over < 2 ^ 29) }
    ensures { result ≡ 2 ^ 51 * part / over }
{
    let high = (1 << 40) * part;
    high / over * 2048 + high % over * 2048 / over
}

// (2^20 + 1/2 - (above - below) / over * 2^24) * 2^27, where (above - below) / over is what the power
// is less, times the factor.
fn bias(above: u64, below: u64, over: u64) -> u64
    requires { (above < 2 ^ 21) × (16 * above ≤ over) × (below < 2 ^ 21) × (16 * below ≤ over) × (0 < over) × (over < 2 ^ 29) }
    ensures { result ≡ 2097153 * 2 ^ 26 + 2 ^ 51 * below / over - 2 ^ 51 * above / over }
{
    HALVES * (1 << 26) + lower(below, over) - lower(above, over)
}

// (2^20 + 1/2) * 2 * e * last, less 2^25 * f * last, where f is above - below.
fn toe_added(e: u64, above: u64, below: u64, last: u64) -> u64
    requires { (e * last < 2 ^ 41) × (above < 2 ^ 20) × (below < 2 ^ 20) × (last < 2 ^ 16) × (2 ^ 25 * (above * last) ≤ e * last * 2097153 + 2 ^ 25 * (below * last)) }
    ensures { result ≡ e * last * 2097153 + 2 ^ 25 * (below * last) - 2 ^ 25 * (above * last) }
{
    e * last * HALVES + (1 << 25) * (below * last) - (1 << 25) * (above * last)
}

fn toe_divisor(e: u64, last: u64) -> u64
    requires { e * last < 2 ^ 41 }
    ensures { result ≡ 2 * (e * last) }
{
    2 * (e * last)
}

impl Decoder {
    // of no curve (no Option: `decoder_of` has one for every scale, and no valid setting comes here)
    pub const NONE: Decoder = Decoder {
        first: 0,
        bias: 0,
        toe: 0,
        over: 0,
    };

    // A curve with a toe, at a last step.
    fn log_c(k: LogC, last: u64) -> Decoder
        requires { Small (constants_of k) last }
        ensures { result ≡ decoder_of (record { curve = log_c (constants_of k); last = last }) }
    {
        let b_above = whole::above_zero(k.b);
        let b_below = whole::below_zero(k.b);
        let f_above = whole::above_zero(k.f);
        let f_below = whole::below_zero(k.f);
        Decoder {
            first: first_step(k.cut, k.e, f_above, f_below, last),
            bias: bias(b_above, b_below, k.a),
            toe: toe_added(k.e, f_above, f_below, last),
            over: toe_divisor(k.e, last),
        }
    }

    // Curve 4, which has no toe, and so one decoder at every last step.
    fn log_c4(k: LogC4) -> Decoder
        requires { IsLogC4 k }
        ensures { result ≡ decoder_of (record { curve = log_c4; last = 0 }) }
    {
        Decoder {
            first: 0,
            bias: bias(k.less * k.times, 0, k.over),
            toe: 0,
            over: 0,
        }
    }

    // The decoder of a setting.
    pub fn new(s: Setting) -> Decoder
        requires { Valid s }
        ensures { result ≡ decoder_of (scale_of s) }
    {
        match curves::name_of(s.curve) {
            CurveName::LogC2 => Decoder::log_c(LogC2::at(s.ei), setting_codes::last_step(s).0),
            CurveName::LogC3 => Decoder::log_c(LogC3::at(s.ei), setting_codes::last_step(s).0),
            CurveName::LogC4 => Decoder::log_c4(LogC4::new()),
            CurveName::Unknown => Decoder::NONE,
        }
    }

    // The number of a step, with the offset.
    pub fn raw(self, t: &[u64; 128], i: Step) -> u64
        requires { Fits self t.now i.0 }
        ensures { result ≡ raw_by self t.now i.0 }
    {
        let n = i.0;
        let toe = self.toe;
        let over = self.over;
        let bias = self.bias;
        if n < self.first {
            return (TOE_RISE * n + toe) / over;
        }
        (scaled(t, n) + bias) / UNIT
    }

    // The scene number of a step.
    pub fn number(self, t: &[u64; 128], i: Step) -> Scene
        requires { Fits self t.now i.0 }
        ensures { result.0 ≡ decoded_by self t.now i.0 }
    {
        Scene(self.raw(t, i) as i64 - OFFSET)
    }
}
