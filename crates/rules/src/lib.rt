// The types that the rules speak of. The rules themselves are in specs/.

#![tactic(auto)]

// A record's first four bytes: curve, width in bits, and EI (two bytes, read as one number).
#[derive(Clone, Copy)]
pub struct Setting {
    pub curve: u8,
    pub width: u8,
    pub ei: u16,
}

// The curve that a setting names. (Not an Option: each table of the rules has a row for a number that names none, and so no case is left out.)
#[derive(Clone, Copy)]
pub enum CurveName {
    LogC2,
    LogC3,
    LogC4,
    Unknown,
}

// A code as the camera wrote it.
#[derive(Clone, Copy)]
pub struct Code(pub u16);

// A step: the place of a code among the codes of its setting, from 0.
#[derive(Clone, Copy)]
pub struct Step(pub u64);

// A scene number, in units of 2^-24. Of curve 2 it is a sensor value.
#[derive(Clone, Copy)]
pub struct Scene(pub i64);

// An ACES number, in units of 2^-24.
#[derive(Clone, Copy)]
pub struct Aces(pub i64);

// A half float, its 16 bits.
#[derive(Clone, Copy)]
pub struct Half(pub u16);

// One of a kind for each channel.
#[derive(Clone, Copy)]
pub struct Rgb<T> {
    pub red: T,
    pub green: T,
    pub blue: T,
}

// A pixel: its three codes.
pub type Pixel = Rgb<Code>;

// Three ACES numbers.
pub type Triple = Rgb<Aces>;

// Three scene numbers.
pub type Scenes = Rgb<Scene>;

// How far the numbers of a record may be from those of the pixel that a way back finds: not at all, or as far as the tolerant one allows.
#[derive(Clone, Copy)]
pub enum Distance {
    Exact,
    Tolerant,
}

// Why a conversion refuses: the rows of the table "Refused, by the place of the check".
#[derive(Clone, Copy)]
pub enum Refusal {
    PartialRecord,
    ShortOutput,
    UnknownCurve,
    UnknownWidth,
    UnknownEi,
    CodeAboveTop,
    SceneOutOfRange,
    FloatNotFinite,
    FloatOutOfRange,
    NoPixel,
    CodeBelowFirst,
    NoMatrix,
    CodeNotDivisible,
    GradedOutOfRange,
    ReelFull,
    NotHeld,
}

// Why a strip is refused, and the index of the record that is. (Where the strip itself is, the index is 0.)
#[derive(Clone, Copy)]
pub struct RefusedAt {
    pub cause: Refusal,
    pub index: usize,
}

// What is kept of a reel beside its records: how many it holds, and the sum of their scene numbers in each channel, a signed number by its 64 bits.
#[derive(Clone, Copy)]
pub struct Totals {
    pub count: u64,
    pub red: u64,
    pub green: u64,
    pub blue: u64,
}
