// The rows of the table of kinds, by the names of the Rust's ops: "Core kinds 0 to 39 follow `CoreOp`'s order", rows 0 to 39; "standard kinds 256 to 277",
// rows 40 to 61. Numbers and no enum: a row is a place of the table, and a byte of a patch's column that a run reads at each step.
pub const COMMENT: u8 = 0;

pub const SET: u8 = 1;

pub const FUNCTION: u8 = 2;

pub const CALL: u8 = 3;

pub const RETURN: u8 = 4;

pub const WHILE: u8 = 5;

pub const IF: u8 = 6;

pub const ELSE: u8 = 7;

pub const END: u8 = 8;

pub const STORE: u8 = 9;

pub const LOAD: u8 = 10;

pub const MOVE: u8 = 11;

pub const WHERE: u8 = 12;

pub const DEREF: u8 = 13;

pub const REFER: u8 = 14;

pub const INDEX: u8 = 15;

pub const OFFSET: u8 = 16;

pub const BITWISE_NAND: u8 = 17;

pub const BITWISE_AND: u8 = 18;

pub const BITWISE_OR: u8 = 19;

pub const BITWISE_XOR: u8 = 20;

pub const BITWISE_NOT: u8 = 21;

pub const LEFT_SHIFT: u8 = 22;

pub const LOGICAL_RIGHT_SHIFT: u8 = 23;

pub const ARITHMETIC_RIGHT_SHIFT: u8 = 24;

pub const AND: u8 = 25;

pub const OR: u8 = 26;

pub const NOT: u8 = 27;

pub const ADD: u8 = 28;

pub const SUB: u8 = 29;

pub const MUL: u8 = 30;

pub const DIV: u8 = 31;

pub const REM: u8 = 32;

pub const NEG: u8 = 33;

pub const INC: u8 = 34;

pub const DEC: u8 = 35;

pub const SWAP: u8 = 36;

pub const IS_NON_NEGATIVE: u8 = 37;

pub const GET: u8 = 38;

pub const PUT: u8 = 39;

pub const STANDARD_SET: u8 = 40;

pub const ALLOC: u8 = 41;

pub const FREE: u8 = 42;

pub const TO_INT: u8 = 43;

pub const TO_FLOAT: u8 = 44;

pub const FLOAT_ADD: u8 = 45;

pub const FLOAT_SUB: u8 = 46;

pub const FLOAT_MUL: u8 = 47;

pub const FLOAT_DIV: u8 = 48;

pub const FLOAT_REM: u8 = 49;

pub const FLOAT_NEG: u8 = 50;

pub const FLOAT_IS_NON_NEGATIVE: u8 = 51;

pub const SIN: u8 = 52;

pub const COS: u8 = 53;

pub const TAN: u8 = 54;

pub const A_SIN: u8 = 55;

pub const A_COS: u8 = 56;

pub const A_TAN: u8 = 57;

pub const POW: u8 = 58;

pub const PEEK: u8 = 59;

pub const POKE: u8 = 60;

pub const STANDARD_CALL: u8 = 61;
