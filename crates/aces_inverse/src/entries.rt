// The inverses of the published matrices, and the digits of their entries.

// The inverse of the matrix of each curve that has one, over 2^40.
const BACK_3: [[i64; 3]; 3] = [
    [1666845747229, -397300528251, -170033591202],
    [-141097559821, 1120748249465, 119860938131],
    [-11556925031, 66887523426, 1044181029382],
];

const BACK_4: [[i64; 3]; 3] = [
    [1464273425074, -210052714742, -154709082556],
    [-1188600726, 1091615728564, 9084499938],
    [730062762, 826298081, 1097955266932],
];

// Their entries by two digits of so many bits. A digit has the sign of its entry.
pub const DIGIT: i64 = 21;

const P21: i64 = 1 << DIGIT;

// The bits that are left of 40, and the half that is added before the shift by them.
pub const REST: i64 = 40 - DIGIT;

pub const HALF: i64 = 1 << (REST - 1);

// The digits of a matrix's entries. (Written out entry by entry, since a constant's value may hold no call and no loop.)
#[derive(Clone, Copy)]
pub struct Digits {
    pub high: [[i64; 3]; 3],
    pub low: [[i64; 3]; 3],
}

pub const LOG_C3: Digits = Digits {
    high: [
        [BACK_3[0][0] / P21, BACK_3[0][1] / P21, BACK_3[0][2] / P21],
        [BACK_3[1][0] / P21, BACK_3[1][1] / P21, BACK_3[1][2] / P21],
        [BACK_3[2][0] / P21, BACK_3[2][1] / P21, BACK_3[2][2] / P21],
    ],
    low: [
        [BACK_3[0][0] % P21, BACK_3[0][1] % P21, BACK_3[0][2] % P21],
        [BACK_3[1][0] % P21, BACK_3[1][1] % P21, BACK_3[1][2] % P21],
        [BACK_3[2][0] % P21, BACK_3[2][1] % P21, BACK_3[2][2] % P21],
    ],
};

pub const LOG_C4: Digits = Digits {
    high: [
        [BACK_4[0][0] / P21, BACK_4[0][1] / P21, BACK_4[0][2] / P21],
        [BACK_4[1][0] / P21, BACK_4[1][1] / P21, BACK_4[1][2] / P21],
        [BACK_4[2][0] / P21, BACK_4[2][1] / P21, BACK_4[2][2] / P21],
    ],
    low: [
        [BACK_4[0][0] % P21, BACK_4[0][1] % P21, BACK_4[0][2] % P21],
        [BACK_4[1][0] % P21, BACK_4[1][1] % P21, BACK_4[1][2] % P21],
        [BACK_4[2][0] % P21, BACK_4[2][1] % P21, BACK_4[2][2] % P21],
    ],
};

// of a curve that has no matrix (no Option: no setting that is valid for ACES comes here)
pub const NONE: Digits = Digits {
    high: [[0; 3]; 3],
    low: [[0; 3]; 3],
};
