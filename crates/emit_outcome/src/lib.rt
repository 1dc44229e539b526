// What an emit call is given and gives back, and the definition of its whole outcome. This crate has types, constants and definitions, and no functions.
#![tactic(auto)]

use loading::LoadForm;
use pseudo_names::Pseudo;
use refusal::Refusal;

// The region number that means: no region is selected.
pub const NO_REGION: u16 = breakpoints::NO_REGION;

// The most bytes that a region's data can have.
pub const MOST_DATA: usize = 65528;

// The lists that a call only reads: the tokens, the line's mnemonic, the descriptors.
#[derive(Clone, Copy)]
pub struct Lists<'a> {
    pub tokens: &'a [u8],
    pub mnemonic: &'a [u8],
    pub descriptors: &'a [u8],
}

// The caller's three fill counts. For the region data it is the data length.
#[derive(Clone, Copy)]
pub struct FillCounts {
    pub data_len: u32,
    pub pending: u32,
    pub breakpoints: u32,
}

// The token position, and the selected region's number and address.
#[derive(Clone, Copy)]
pub struct LinePlace {
    pub position: u32,
    pub region: u16,
    pub address: u32,
}

// All the numbers of a call.
#[derive(Clone, Copy)]
pub struct LineNumbers {
    pub counts: FillCounts,
    pub place: LinePlace,
}

// An accepted line: the token position after it, and how its constant is loaded.
#[derive(Clone, Copy)]
pub struct DoneLine {
    pub position: u32,
    pub loaded: LoadForm,
}

// A refused line: why, and the token position where reading stopped.
#[derive(Clone, Copy)]
pub struct RefusedLine {
    pub refusal: Refusal,
    pub position: u32,
}

pub type EmitAnswer = Result<DoneLine, RefusedLine>;

// An accepted line's answer, and the fill counts after it.
#[derive(Clone, Copy)]
pub struct Appended {
    pub done: DoneLine,
    pub counts: FillCounts,
}

// An emit call's answer and counts.
#[derive(Clone, Copy)]
pub struct Emitted {
    pub answer: EmitAnswer,
    pub counts: FillCounts,
}

// What a mnemonic is: a descriptor at a place of the table, a pseudo-instruction, or neither.
#[derive(Clone, Copy)]
pub enum Meaning {
    Table(usize),
    Builtin(Pseudo),
    Neither,
}
