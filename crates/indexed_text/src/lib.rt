// The program `emit_indexed` (document 02, P1), from the bytes it reads to the text it prints: it makes an emit call with labels and an index, in the
// commit's job, and prints what the call leaves.
#![tactic(auto)]

ghost use Rattle.std.specs.Prelude.{◌≡◌, ◌++◌, ◌+◌, ◌≤◌, length};
ghost use Rattle.std.proofs.Common.{rules};
ghost use Rattle.jobs.specs.declared.Job.TheVariants.{Commit};
ghost use Rattle.emit_outcome.specs.Call.{lent_of};
ghost use Rattle.indexed_outcome.specs.Indexed.{indexed_outcome_of};
ghost use Rattle.indexed_outcome.specs.Contract.{IndexedBy};
ghost use Rattle.indexed_text.specs.IndexedText.{fills_line, head_text, outcome_text, counts_in, place_in, call_in, emit_indexed_text};

use emit_outcome::{EmitAnswer, LinePlace};
use indexed_outcome::{IndexedCounts, IndexedEmitted};
use jobs::Job;
use program::TextProgram;
use text::Text;

// Room for the text of four buffers, each of one byte more than its limit.
pub const MOST: usize = 525_000;

// Reads the four fill counts, which follow the buffers.
fn counts_in(rest: &[u8]) -> IndexedCounts
    ensures { result ≡ counts_in rest.now }
{
    let counts = line_text::counts_in(rest);
    let index = input::word_or_zero(rest, 12);
    IndexedCounts { counts, index }
}

// Reads the numbers after the fill counts.
#[tactic(auto, using(crate::proofs::IndexedTextLaws::place_behind_counts))]
fn place_in(rest: &[u8]) -> LinePlace
    ensures { result ≡ place_in rest.now }
{
    line_text::place_of(input::behind(rest, 16))
}

#[tactic(auto, using(crate::proofs::IndexedTextLaws::fills_length), unfolding(crate::specs::IndexedText::fills_line))]
fn put_fills<const N: usize>(out: &mut Text<N>, counts: IndexedCounts)
    requires { length out.old + length (fills_line counts) ≤ N }
    ensures { out.new ≡ out.old ++ fills_line counts }
{
    let three = counts.counts;
    out.push(b"fills");
    out.push_field(u64::from(three.data_len));
    out.push_field(u64::from(three.pending));
    out.push_field(u64::from(three.breakpoints));
    out.push_last_field(u64::from(counts.index));
}

// Prints everything but the buffers.
#[tactic(auto, using(crate::proofs::IndexedTextLaws::head_length, std::proofs::lemmas::Grind::common_steps), unfolding(crate::specs::IndexedText::head_text))]
fn put_head<const N: usize>(out: &mut Text<N>, answer: EmitAnswer, counts: IndexedCounts)
    requires { length out.old + length (head_text answer counts) ≤ N }
    ensures { out.new ≡ out.old ++ head_text answer counts }
{
    line_text::lines::put_answer(&mut *out, answer);
    put_fills(&mut *out, counts);
    line_text::lines::put_loaded(out, answer);
}

// Makes the call of an input. The four buffers that it may change are passed in.
fn make_call(
    input: &[u8],
    data: &mut [u8],
    pending: &mut [u8],
    breakpoints: &mut [u8],
    index: &mut [u8],
) -> IndexedEmitted
    ensures { IndexedBy Commit (call_in input.now (lent_of «data».old pending.old breakpoints.old) index.old)
        result.answer result.counts (lent_of «data».new pending.new breakpoints.new) index.new }
{
    let rest = input::behind_lists(input, 8);
    let mut counts = counts_in(rest);
    let answer = indexed::do_indexed(
        &mut counts,
        input::list_of(input, 0),
        input::list_of(input, 1),
        input::list_of(input, 2),
        data,
        pending,
        breakpoints,
        input::list_of(input, 6),
        index,
        place_in(rest),
        Job::Commit,
    );
    IndexedEmitted { answer, counts }
}

// Prints the call's answer and counts, and the buffers after it.
#[tactic(auto, using(crate::proofs::IndexedTextLaws::outcome_length, std::proofs::lemmas::Grind::common_steps), unfolding(crate::specs::IndexedText::outcome_text))]
fn put_emitted<const N: usize>(
    out: &mut Text<N>,
    emitted: IndexedEmitted,
    data: &[u8],
    pending: &[u8],
    breakpoints: &[u8],
    index: &[u8],
)
    requires { length out.old + length (outcome_text (indexed_outcome_of emitted.answer emitted.counts
        (lent_of «data».now pending.now breakpoints.now) index.now)) ≤ N }
    ensures { out.new ≡ out.old ++ outcome_text (indexed_outcome_of emitted.answer emitted.counts
        (lent_of «data».now pending.now breakpoints.now) index.now) }
{
    put_head(&mut *out, emitted.answer, emitted.counts);
    bytes_line::push_bytes(&mut *out, b"data ", data);
    bytes_line::push_bytes(&mut *out, b"pending ", pending);
    bytes_line::push_bytes(&mut *out, b"breakpoints ", breakpoints);
    bytes_line::push_bytes(out, b"index ", index);
}

// Writes the text that `emit_indexed` prints for an input.
pub fn emit_indexed(input: &[u8], out: &mut Text<MOST>)
    ensures { out.new ≡ emit_indexed_text input.now }
{
    let mut data = [0u8; record::LIMIT + 1];
    let mut pending = [0u8; record::LIMIT + 1];
    let mut breakpoints = [0u8; record::LIMIT + 1];
    let mut index = [0u8; record::LIMIT + 1];
    let data = input::hold_in(&mut data, input::list_of(input, 3));
    let pending = input::hold_in(&mut pending, input::list_of(input, 4));
    let breakpoints = input::hold_in(&mut breakpoints, input::list_of(input, 5));
    let index = input::hold_in(&mut index, input::list_of(input, 7));
    let emitted = make_call(
        input,
        &mut *data,
        &mut *pending,
        &mut *breakpoints,
        &mut *index,
    );
    out.clear();
    put_emitted(out, emitted, data, pending, breakpoints, index);
}

// `emit_indexed` as a program.
pub struct EmitIndexedText;

impl TextProgram<MOST> for EmitIndexedText {
    ghost text_of = { emit_indexed_text };

    fn print_text(&self, input: &[u8], out: &mut Text<MOST>) {
        emit_indexed(input, out);
    }

    ghost fits = { Prim.search rules };
}
