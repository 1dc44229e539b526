// The linked calls for patching by steps. The caller's record is a buffer of 20 bytes; the answer goes into its own buffer as six words.
#![tactic(auto)]

ghost use Rattle.std.specs.Prelude.{◌≡◌, ◌≤◌, length};
ghost use Rattle.record.specs.Stores.{append};
ghost use Rattle.linked_answer.specs.Words.{words_as_bytes};
ghost use Rattle.patching_line.specs.Contract.{given_of};
ghost use Rattle.linked_patching.specs.LinkedPatching.{state_bytes, state_at, state_words, step_words, linked_step, linked_patch_line};

use jobs::Job;
use linked_answer::{ANSWER_BYTES, TOO_SHORT};
use patching_outcome::{PatchCounts, Progress, StepAnswer};

// The caller's record: the fill counts of the region list, the pendings and the breakpoints, how many pendings are patched, and whether
// patching runs, each four bytes.
const STATE_BYTES: usize = 20;

fn state_at(state: &[u8]) -> PatchCounts
    requires { state_bytes ≤ length state.now }
    ensures { result ≡ state_at state.now }
{
    let regions = record::word_at(state, 0);
    let pending = record::word_at(state, 4);
    let breakpoints = record::word_at(state, 8);
    let patches = record::word_at(state, 12);
    let running = record::word_at(state, 16);
    PatchCounts {
        regions,
        pending,
        breakpoints,
        patches,
        state: running,
    }
}

fn put_state(state: &mut [u8], counts: PatchCounts)
    requires { state_bytes ≤ length state.old }
    ensures { state.new ≡ append state.old 0 (words_as_bytes (state_words counts)) }
{
    let words = [
        counts.regions,
        counts.pending,
        counts.breakpoints,
        counts.patches,
        counts.state,
    ];
    linked_answer::store_words(state, &words[..]);
}

// What a step's answer says in a: that it patched a pending, or that none was left.
const PATCHED: u32 = 0;

const ENDED: u32 = 1;

// Returns the six words of a step's answer. A refusal has neither a count nor an entry.
fn step_words(answer: StepAnswer) -> [u32; 6]
    ensures { result ≡ step_words answer }
{
    match answer {
        Ok(Progress::Patched(patches)) => linked_answer::done_words(PATCHED, patches),
        Ok(Progress::Ended(entry)) => linked_answer::done_words(ENDED, entry),
        Err(refusal) => linked_answer::refusal_words(refusal, 0),
    }
}

// Makes a step, writes the caller's record and the answer, and returns the answer's number: 0 for a step that was not refused.
// If the answer or the record is too short, it returns TOO_SHORT and changes nothing.
pub fn patch_step(
    job: Job,
    labels: &[u8],
    entry: &[u8],
    regions: &mut [u8],
    pending: &[u8],
    kept: &mut [u8],
    state: &mut [u8],
    answer: &mut [u8],
) -> u32
    ensures { linked_step job labels.now entry.now regions.old pending.now kept.old
        state.old answer.old
        ≡ (record { result = result; regions = regions.new; kept = kept.new; state = state.new; answer = answer.new }) }
{
    if answer.len() < ANSWER_BYTES || state.len() < STATE_BYTES {
        return TOO_SHORT;
    }
    let counts = state_at(&*state);
    let stepped = patching_step::patch_step(job, labels, entry, counts, regions, pending, kept);
    let given = stepped.answer;
    let left = stepped.counts;
    let words = step_words(given);
    put_state(state, left);
    linked_answer::store_answer(answer, words)
}

// Appends a line to its region, or refuses it. Writes the caller's record and the answer, and returns the answer's number: 0 for an accepted line.
// If the answer or the record is too short, it returns TOO_SHORT and changes nothing.
pub fn patch_line(
    job: Job,
    tokens: &[u8],
    mnemonic: &[u8],
    descriptors: &[u8],
    regions: &mut [u8],
    pending: &mut [u8],
    breakpoints: &mut [u8],
    state: &mut [u8],
    position: u32,
    region: u16,
    answer: &mut [u8],
) -> u32
    ensures { linked_patch_line job (given_of tokens.now mnemonic.now descriptors.now position region)
        regions.old pending.old breakpoints.old state.old answer.old
        ≡ (record {
          result = result;
          regions = regions.new;
          pending = pending.new;
          breakpoints = breakpoints.new;
          state = state.new;
          answer = answer.new;
        }) }
{
    if answer.len() < ANSWER_BYTES || state.len() < STATE_BYTES {
        return TOO_SHORT;
    }
    let counts = state_at(&*state);
    let lined = patching_line::patch_line(
        job,
        counts,
        tokens,
        mnemonic,
        descriptors,
        regions,
        pending,
        breakpoints,
        position,
        region,
    );
    let given = lined.answer;
    let left = lined.counts;
    let words = linked_line::emitted_words(given);
    put_state(state, left);
    linked_answer::store_answer(answer, words)
}
