// The kinds of the lane ops, and the patterns that they are tried on. Written by crates/test_lanes/make.py.

// The integer ops of a lane and the cell beside it.
pub const INT_CELLS: [u64; 16] = [
    15, // index
    16, // offset
    17, // bitwise nand
    18, // bitwise and
    19, // bitwise or
    20, // bitwise xor
    22, // left shift
    23, // logical right shift
    24, // arithmetic right shift
    25, // and
    26, // or
    28, // add
    29, // sub
    30, // mul
    31, // div
    32, // rem
];

// The float ops of a lane and the cell beside it.
pub const FLOAT_CELLS: [u64; 5] = [
    261, // float add
    262, // float sub
    263, // float mul
    264, // float div
    265, // float rem
];

// The ops of an integer lane alone.
pub const INT_LANES: [u64; 7] = [
    21, // bitwise not
    27, // not
    33, // neg
    34, // inc
    35, // dec
    37, // gez
    260, // to float
];

// The ops of a float lane alone.
pub const FLOAT_LANES: [u64; 3] = [
    259, // to int
    266, // float neg
    267, // float gez
];

// Lanes and cells of INT_CELLS.
pub const INTS: [u64; 14] = [
    0x0000000000000000, // 0
    0x0000000000000001, // 1
    0x0000000000000002, // 2
    0x0000000000000007, // 7
    0xFFFFFFFFFFFFFFFF, // -1
    0xFFFFFFFFFFFFFFFE, // -2
    0xFFFFFFFFFFFFFFF9, // -7
    0x000000000000003F, // 63
    0x0000000000000040, // 64
    0x123456789ABCDEF0, // digits of every kind
    0xFEDCBA9876543211, // the same, negative
    0x00000000FFFFFFFF, // a low half full
    0x7FFFFFFFFFFFFFFF, // the largest
    0x8000000000000000, // the least
];

// Lanes and cells of FLOAT_CELLS.
pub const FLOATS: [u64; 24] = [
    0x0000000000000000, // 0
    0x8000000000000000, // -0
    0x3FE0000000000000, // 0.5
    0x3FF0000000000000, // 1
    0xBFF0000000000000, // -1
    0x3FF0000000000001, // the next after 1
    0x4008000000000000, // 3
    0xC004000000000000, // -2.5
    0x3FB999999999999A, // 0.1
    0x4340000000000000, // 2^53
    0xC340000000000001, // -(2^53 + 2)
    0x0000000000000001, // the least subnormal
    0x8000000000000003, // -3 of it
    0x000FFFFFFFFFFFFF, // the largest subnormal
    0x0010000000000000, // the least normal
    0x1E68000000000000, // 1.5 * 2^-537
    0x7C90000000000000, // 2^970, half a step of the largest
    0x7FEFFFFFFFFFFFFF, // the largest
    0xFFEFFFFFFFFFFFFF, // -the largest
    0x7FF0000000000000, // infinity
    0xFFF0000000000000, // -infinity
    0x7FF8000000000000, // the stored NaN
    0xFFF8000000000123, // a negative quiet NaN with a payload
    0x7FF0000000000001, // a signalling NaN
];

// Lanes of INT_LANES, beside INTS.
pub const LONE_INTS: [u64; 9] = [
    0x0020000000000001, // 2^53 + 1, a tie
    0x0020000000000003, // 2^53 + 3, a tie
    0xFFDFFFFFFFFFFFFF, // -(2^53 + 1), a tie
    0x0040000000000001, // 2^54 + 1, below a tie
    0x0040000000000003, // 2^54 + 3, above a tie
    0x7FFFFFFFFFFFFE00, // 2^63 - 512, a tie upward
    0x7FFFFFFFFFFFFDFF, // 2^63 - 513, below it
    0x8000000000000001, // the least + 1
    0xFFFFFFFF00000000, // -2^32
];

// Lanes of FLOAT_LANES, beside FLOATS.
pub const LONE_FLOATS: [u64; 14] = [
    0x3FEFFFFFFFFFFFFF, // the last before 1
    0xBFEFFFFFFFFFFFFF, // -the last before 1
    0x3FF8000000000000, // 1.5
    0xBFF8000000000000, // -1.5
    0x43DFFFFFFFFFFFFF, // 2^63 - 1024
    0x43E0000000000000, // 2^63
    0x43E0000000000001, // 2^63 + 2048
    0xC3DFFFFFFFFFFFFF, // -(2^63 - 1024)
    0xC3E0000000000000, // -2^63
    0xC3E0000000000001, // -(2^63 + 2048)
    0x41DFFFFFFFE00000, // 2^31 - 0.5
    0x432FFFFFFFFFFFFF, // 2^52 - 0.5
    0xFFF0000000000001, // a negative signalling NaN
    0x7FFFFFFFFFFFFFFF, // the last NaN
];
