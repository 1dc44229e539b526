// What `emit_line` does: it reads an emit call's six buffers, its numbers and its job, makes the call, and prints what the call leaves.
#![tactic(auto)]

ghost use Rattle.std.specs.Prelude.{◌≡◌, ◌++◌, ◌+◌, ◌≤◌, length};
ghost use Rattle.std.proofs.Common.{rules};
ghost use Rattle.record.specs.Texts.{bytes_of};
ghost use Rattle.emit_outcome.specs.Call.{lent_of, outcome_of};
ghost use Rattle.emit_outcome.specs.Contract.{EmittedBy};
ghost use Rattle.line_text.specs.Line.{counts_in, place_of, numbers_in, outcome_text, call_in, job_text, job_numbered, job_in, line_text};

use emit_outcome::{Emitted, FillCounts, LineNumbers, LinePlace};
use jobs::Job;
use program::TextProgram;
use text::{MOST, Text};

pub mod lines;

// Reads the three fill counts that `bytes` begins with.
pub fn counts_in(bytes: &[u8]) -> FillCounts
    ensures { result ≡ counts_in bytes.now }
{
    FillCounts {
        data_len: input::word_or_zero(bytes, 0),
        pending: input::word_or_zero(bytes, 4),
        breakpoints: input::word_or_zero(bytes, 8),
    }
}

// Reads the position, the region and the region's address that `bytes` begins with.
pub fn place_of(bytes: &[u8]) -> LinePlace
    ensures { result ≡ place_of bytes.now }
{
    LinePlace {
        position: input::word_or_zero(bytes, 0),
        region: input::half_or_zero(bytes, 4),
        address: input::word_or_zero(bytes, 6),
    }
}

// Reads the numbers of a call. `input` starts after the six buffers.
#[tactic(auto, using(crate::proofs::PlaceLaws::place_behind_counts))]
fn numbers_in(input: &[u8]) -> LineNumbers
    ensures { result ≡ numbers_in input.now }
{
    let counts = counts_in(input);
    let place = place_of(input::behind(input, 12));
    LineNumbers { counts, place }
}

// Makes an input's call, on these copies of its last three buffers.
fn make_call(
    job: Job,
    input: &[u8],
    data: &mut [u8],
    pending: &mut [u8],
    breakpoints: &mut [u8],
) -> Emitted
    ensures { EmittedBy job (call_in input.now (lent_of «data».old pending.old breakpoints.old))
        result.answer result.counts (lent_of «data».new pending.new breakpoints.new) }
{
    let numbers = numbers_in(input::behind_lists(input, 6));
    let mut counts = numbers.counts;
    let answer = emit::do_job(
        job,
        &mut counts,
        input::list_of(input, 0),
        input::list_of(input, 1),
        input::list_of(input, 2),
        data,
        pending,
        breakpoints,
        numbers.place,
    );
    Emitted { answer, counts }
}

// Appends a call's answer, and what the buffers hold after it.
#[tactic(auto, using(crate::proofs::LineLaws::outcome_length, std::proofs::lemmas::Grind::common_steps), unfolding(crate::specs::Line::outcome_text))]
fn put_emitted<const N: usize>(
    out: &mut Text<N>,
    emitted: Emitted,
    data: &[u8],
    pending: &[u8],
    breakpoints: &[u8],
)
    requires { length out.old + length (outcome_text (outcome_of emitted.answer emitted.counts
        (lent_of «data».now pending.now breakpoints.now))) ≤ N }
    ensures { out.new ≡ out.old ++ outcome_text (outcome_of emitted.answer emitted.counts
        (lent_of «data».now pending.now breakpoints.now)) }
{
    lines::put_head(&mut *out, emitted.answer, emitted.counts);
    bytes_line::push_bytes(&mut *out, b"data ", data);
    bytes_line::push_bytes(&mut *out, b"pending ", pending);
    bytes_line::push_bytes(out, b"breakpoints ", breakpoints);
}

// Makes an input's call in a job, and writes its text.
fn put_job<const N: usize>(job: Job, input: &[u8], out: &mut Text<N>)
    requires { 400000 ≤ N }
    ensures { out.new ≡ job_text job input.now }
{
    let mut data = [0u8; record::LIMIT + 1];
    let mut pending = [0u8; record::LIMIT + 1];
    let mut breakpoints = [0u8; record::LIMIT + 1];
    let data = input::hold_in(&mut data, input::list_of(input, 3));
    let pending = input::hold_in(&mut pending, input::list_of(input, 4));
    let breakpoints = input::hold_in(&mut breakpoints, input::list_of(input, 5));
    let emitted = make_call(job, input, &mut *data, &mut *pending, &mut *breakpoints);
    out.clear();
    put_emitted(out, emitted, data, pending, breakpoints);
}

// Returns the job that this byte names.
pub fn job_numbered(number: u8) -> Option<Job>
    ensures { result ≡ job_numbered number }
{
    jobs::job_numbered(u32::from(number))
}

fn job_in(input: &[u8]) -> Option<Job>
    ensures { result ≡ job_in input.now }
{
    job_numbered(input::byte_or_zero(input::behind_lists(input, 6), 22))
}

// Writes the text of an input whose job's byte names no job.
pub fn put_no_job<const N: usize>(out: &mut Text<N>)
    requires { 12 ≤ N }
    ensures { out.new ≡ bytes_of "no such job\n" }
{
    out.clear();
    out.push(b"no such job\n");
}

// Writes the text that `emit_line` prints for an input.
#[tactic(auto, unfolding(crate::specs::Line::line_text))]
pub fn emit_line(input: &[u8], out: &mut Text<MOST>)
    ensures { out.new ≡ line_text input.now }
{
    match job_in(input) {
        Some(job) => put_job(job, input, out),
        None => put_no_job(out),
    }
}

// `emit_line` as a program.
pub struct EmitLineText;

impl TextProgram<MOST> for EmitLineText {
    ghost text_of = { line_text };

    fn print_text(&self, input: &[u8], out: &mut Text<MOST>) {
        emit_line(input, out);
    }

    ghost fits = { Prim.search rules };
}
