// The published matrices, and the digits of curve 4's entries.

// The matrix of curve 3, over 10^6.
pub const LOG_C3: [[i64; 3]; 3] = [
    [680205, 236137, 83658],
    [85415, 1017471, -102886],
    [2057, -62563, 1060506],
];

// The matrix of curve 4, over 10^18.
const LOG_C4: [[i64; 3]; 3] = [
    [750957362824734131, 144422786709757084, 104619850465508965],
    [821837079380207, 1007397584885003194, -8219421964383583],
    [-499952143533471, -854177231436971, 1001354129374970370],
];

// Its entries by three digits to the base 10^6, since a product with a whole entry does not fit a
// word: 821837079380207 is 821, 837079 and 380207. A digit has the sign of its entry. (Written out entry by entry, since a
// constant's value may hold no call and no loop.)
const E6: i64 = 1000000;

const UPPER: [[i64; 3]; 3] = [
    [LOG_C4[0][0] / E6, LOG_C4[0][1] / E6, LOG_C4[0][2] / E6],
    [LOG_C4[1][0] / E6, LOG_C4[1][1] / E6, LOG_C4[1][2] / E6],
    [LOG_C4[2][0] / E6, LOG_C4[2][1] / E6, LOG_C4[2][2] / E6],
];

pub const LOG_C4_HIGH: [[i64; 3]; 3] = [
    [UPPER[0][0] / E6, UPPER[0][1] / E6, UPPER[0][2] / E6],
    [UPPER[1][0] / E6, UPPER[1][1] / E6, UPPER[1][2] / E6],
    [UPPER[2][0] / E6, UPPER[2][1] / E6, UPPER[2][2] / E6],
];

pub const LOG_C4_MIDDLE: [[i64; 3]; 3] = [
    [UPPER[0][0] % E6, UPPER[0][1] % E6, UPPER[0][2] % E6],
    [UPPER[1][0] % E6, UPPER[1][1] % E6, UPPER[1][2] % E6],
    [UPPER[2][0] % E6, UPPER[2][1] % E6, UPPER[2][2] % E6],
];

pub const LOG_C4_LOW: [[i64; 3]; 3] = [
    [LOG_C4[0][0] % E6, LOG_C4[0][1] % E6, LOG_C4[0][2] % E6],
    [LOG_C4[1][0] % E6, LOG_C4[1][1] % E6, LOG_C4[1][2] % E6],
    [LOG_C4[2][0] % E6, LOG_C4[2][1] % E6, LOG_C4[2][2] % E6],
];
