// The numbers that a descriptor's fields hold.

// The opcode classes, in `Opcode` order.
pub const OP: u8 = 0;

pub const FUNC: u8 = 1;

pub const SPECIAL: u8 = 2;

pub const ALGEBRA: u8 = 3;

pub const COP1: u8 = 4;

pub const COP1I: u8 = 5;

// The encodings, in `Encoding` order.
pub const REGISTER: u8 = 0;

pub const REGISTER_SHIFT: u8 = 1;

pub const SOURCE: u8 = 2;

pub const DESTINATION: u8 = 3;

pub const INPUTS: u8 = 4;

pub const SHAM: u8 = 5;

pub const SPECIAL_BRANCH: u8 = 6;

pub const IMMEDIATE: u8 = 7;

pub const LOAD_IMMEDIATE: u8 = 8;

pub const JUMP: u8 = 9;

pub const BRANCH: u8 = 10;

pub const BRANCH_ZERO: u8 = 11;

pub const PARAMETERLESS: u8 = 12;

pub const OFFSET: u8 = 13;

pub const FP_OFFSET: u8 = 14;

pub const FP_3REGISTER: u8 = 15;

pub const FP_2REGISTER: u8 = 16;

pub const FP_MOVE: u8 = 17;

pub const FP_COND: u8 = 18;

pub const FP_CROSS_MOVE: u8 = 19;

pub const FP_BRANCH: u8 = 20;

// The sizes.
pub const SINGLE: u8 = 0;

pub const DOUBLE: u8 = 1;

pub const WORD: u8 = 2;
