// Opcodes, float formats and encodings of the instruction table (instructions.rs), and the word each opcode starts from.
#![tactic(auto)]

ghost use Rattle.std.specs.Prelude.{◌≡◌};
ghost use Rattle.instructions.specs.Bases.{instruction_base};

// The six opcode classes, each with its key.
#[derive(Clone, Copy, PartialEq, Eq)]
pub enum Opcode {
    Op(u8),
    Func(u8),
    Special(u8),
    Algebra(u8),
    Cop1(u8),
    Cop1I(u8),
}

#[derive(Clone, Copy, PartialEq, Eq)]
pub enum Size {
    Single,
    Double,
    Word,
}

// How an instruction reads its operands and lays its word out.
// kept: FPMove, FPCrossMove and FPBranch carry a flag as in the Rust, and document 01 has a byte for it in the descriptor.
#[derive(Clone, Copy, PartialEq, Eq)]
pub enum Encoding {
    Register,
    RegisterShift,
    Source,
    Destination,
    Inputs,
    Sham,
    SpecialBranch,
    Immediate(Option<Opcode>),
    LoadImmediate,
    Jump,
    Branch,
    BranchZero,
    Parameterless,
    Offset,
    FPOffset,
    FP3Register(Size),
    FP2Register(Size),
    FPMove { size: Size, flag: bool },
    FPCond(Size),
    FPCrossMove { flag: bool },
    FPBranch { flag: bool },
}

// Returns the word that an opcode starts from: its class and key, all other bits zero. Takes any key.
pub fn instruction_base(op: Opcode) -> u32
    ensures { result ≡ instruction_base op }
{
    match op {
        Opcode::Op(key) => u32::from(key % 64) << 26,
        Opcode::Func(key) => u32::from(key % 64),
        Opcode::Special(key) => (u32::from(key % 64) << 16) + (1 << 26),
        Opcode::Algebra(key) => u32::from(key % 64) + (28 << 26),
        Opcode::Cop1(key) => u32::from(key % 64) + (17 << 26),
        Opcode::Cop1I(key) => (u32::from(key % 32) << 21) + (17 << 26),
    }
}
