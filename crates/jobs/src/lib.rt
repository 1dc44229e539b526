// The sorts of job, and what depends on them (document 02, P5 and P9).
#![tactic(auto)]

ghost use Rattle.std.specs.Prelude.{◌≡◌};
ghost use Rattle.jobs.specs.Jobs.{job_numbered, by_manual, size_code, most_back, most_ahead, shift_within, code_within, is_function, source_opcode, is_dropped, commit_code, manual_code};

use instructions::{Opcode, Size};

// A sort of job: as the commit does it, by the manual, or by the manual for Release 6 boards.
#[derive(Clone, Copy, PartialEq, Eq)]
pub enum Job {
    Commit,
    Manual,
    Release6,
}

// Returns the job with that number.
pub fn job_numbered(number: u32) -> Option<Job>
    ensures { result ≡ job_numbered number }
{
    match number {
        0 => Some(Job::Commit),
        1 => Some(Job::Manual),
        2 => Some(Job::Release6),
        _ => None,
    }
}

// A float format in a job.
#[derive(Clone, Copy, PartialEq, Eq)]
pub struct Format {
    pub job: Job,
    pub size: Size,
}

pub fn by_manual(job: Job) -> bool
    ensures { result ≡ by_manual job }
{
    job != Job::Commit
}

// Returns the commit's code. Kept beside `manual_code`: the customer wants the codes of each as plain cases.
fn commit_code(size: Size) -> u32
    ensures { result ≡ commit_code size }
{
    match size {
        Size::Single => 16,
        Size::Double => 17,
        Size::Word => 18,
    }
}

fn manual_code(size: Size) -> u32
    ensures { result ≡ manual_code size }
{
    match size {
        Size::Single => 16,
        Size::Double => 17,
        Size::Word => 20,
    }
}

// Returns a float format's code in the field fmt.
pub fn size_code(fmt: Format) -> u32
    ensures { result ≡ size_code fmt }
{
    if by_manual(fmt.job) {
        manual_code(fmt.size)
    } else {
        commit_code(fmt.size)
    }
}

// Returns how many words back a branch can reach.
pub fn most_back(job: Job) -> u32
    ensures { result ≡ most_back job }
{
    if by_manual(job) { 32768 } else { 0x1_0000 }
}

// Returns how many words ahead a branch can reach.
pub fn most_ahead(job: Job) -> u32
    ensures { result ≡ most_ahead job }
{
    if by_manual(job) { 32767 } else { 0xFFFF }
}

// Whether a job accepts a shift amount.
pub fn shift_within(job: Job, amount: u64) -> bool
    ensures { result ≡ shift_within job amount }
{
    !by_manual(job) || amount <= 31
}

// Whether a job accepts a condition code.
pub fn code_within(job: Job, code: u64) -> bool
    ensures { result ≡ code_within job code }
{
    !by_manual(job) || code <= 7
}

fn is_function(function: u8, op: Opcode) -> bool
    ensures { result ≡ is_function function op }
{
    matches!(op, Opcode::Func(key) if key % 64 == function)
}

// Returns the opcode to encode under Source: on Release 6, jr has function 9.
pub fn source_opcode(job: Job, op: Opcode) -> Opcode
    ensures { result ≡ source_opcode job op }
{
    if job == Job::Release6 && is_function(8, op) {
        Opcode::Func(9)
    } else {
        op
    }
}

// Whether a job refuses a line as dropped (refusal 27). `third`: the line has the third operand of Inputs.
pub fn is_dropped(job: Job, third: bool, op: Opcode) -> bool
    ensures { result ≡ is_dropped job third op }
{
    job == Job::Release6 && (third || is_function(18, op))
}
