// What a dry run returns, and the definition of its whole outcome. This crate has types, definitions and theorems, and no functions.
#![tactic(auto)]

use machine::{Machine, Reason};
use refusal::Refusal;

// Why a run stopped, and after how many steps.
#[derive(Clone, Copy)]
pub struct Stopped {
    pub reason: Reason,
    pub steps: u32,
}

// The state that a run leaves, and how it stopped.
#[derive(Clone, Copy)]
pub struct Ran {
    pub machine: Machine,
    pub stopped: Stopped,
}

// A dry run's answer: how it stopped, or why it does not start.
pub type RunAnswer = Result<Stopped, Refusal>;

// The answer and the final state; a refused run keeps the state that was given.
#[derive(Clone, Copy)]
pub struct DryRun {
    pub machine: Machine,
    pub answer: RunAnswer,
}
