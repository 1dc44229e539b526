// What goes into and comes out of an emit call with an index of label uses, and a call that makes such an index from scratch. This crate has types,
// definitions and theorems, and no functions.
#![tactic(auto)]

use emit_outcome::{DoneLine, EmitAnswer, FillCounts};

// The caller's four fill counts.
#[derive(Clone, Copy)]
pub struct IndexedCounts {
    pub counts: FillCounts,
    pub index: u32,
}

// An accepted line's answer, and the counts after it.
#[derive(Clone, Copy)]
pub struct IndexedAppended {
    pub done: DoneLine,
    pub counts: IndexedCounts,
}

// What the call returns: the answer, and the counts after it.
#[derive(Clone, Copy)]
pub struct IndexedEmitted {
    pub answer: EmitAnswer,
    pub counts: IndexedCounts,
}
