// A machine of 32 registers and a pc, and the eighteen instructions of a dry run: which of them a word is, and what it does.
#![tactic(auto)]

pub mod effects;
mod numbers;
pub mod words;

#[derive(Clone, Copy)]
pub struct Machine {
    pub pc: u32,
    pub registers: [u32; 32],
}

#[derive(Clone, Copy, PartialEq, Eq)]
pub enum Instruction {
    Nop,
    Addiu,
    Addi,
    Add,
    Addu,
    Sub,
    Subu,
    Slt,
    Sltu,
    Ori,
    Xori,
    Xor,
    Nor,
    Lui,
    Sra,
    Beq,
    Bne,
    J,
    Other,
}

// Why a run stops, with its number in a linked answer.
#[derive(Clone, Copy, PartialEq, Eq)]
pub enum Reason {
    Allowance = 0,
    Pc = 1,
    Word = 2,
    Overflow = 3,
}

// What a word does: it sets rt or rd and goes on to the next word, or goes to a pc, or overflows, or is none of the eighteen.
// kept: two cases stop a run, each for its own reason, so neither can be an Option's None.
#[derive(Clone, Copy, PartialEq, Eq)]
pub enum Effect {
    SetRt(u32),
    SetRd(u32),
    Go(u32),
    Overflows,
    Unknown,
}
