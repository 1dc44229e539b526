// An emit call as a linked call: the fill counts are in a buffer of twelve bytes, and the answer goes as six words into a buffer of its own.
#![tactic(auto)]

ghost use Rattle.std.specs.Prelude.{◌≡◌, ◌≤◌, length};
ghost use Rattle.emit_outcome.specs.Call.{lent_of};
ghost use Rattle.linked_line.specs.LineWords.{emitted_words, counts_bytes, counts_at};
ghost use Rattle.linked_line.specs.LinkedLine.{counts_after, linked_line_by};

use emit_outcome::{EmitAnswer, FillCounts, LinePlace};
use jobs::Job;
use linked_answer::{ANSWER_BYTES, TOO_SHORT, done_words, refusal_words};

// The counts' length: the fill counts of the region data, the pending and the breakpoint buffer, four bytes each.
pub const COUNTS_BYTES: usize = 12;

// Returns the answer's words. The last is the position, of a refused line too.
pub fn emitted_words(answer: EmitAnswer) -> [u32; 6]
    ensures { result ≡ emitted_words answer }
{
    match answer {
        Ok(done) => done_words(done.loaded as u32, done.position),
        Err(refused) => refusal_words(refused.refusal, refused.position),
    }
}

pub fn counts_at(counts: &[u8]) -> FillCounts
    requires { counts_bytes ≤ length counts.now }
    ensures { result ≡ counts_at counts.now }
{
    let data_len = record::word_at(counts, 0);
    let pending = record::word_at(counts, 4);
    let breakpoints = record::word_at(counts, 8);
    FillCounts {
        data_len,
        pending,
        breakpoints,
    }
}

// Writes the new counts of an accepted line. A refused line leaves the old ones.
fn put_counts(counts: &mut [u8], answer: EmitAnswer, filled: FillCounts)
    requires { counts_bytes ≤ length counts.old }
    ensures { counts.new ≡ counts_after answer filled counts.old }
{
    let words = [filled.data_len, filled.pending, filled.breakpoints];
    linked_answer::store_accepted(counts, &answer, &words[..]);
}

// Emits a line into the buffers or refuses it, writes the answer and returns its number: 0 for an accepted line.
// If the answer or the counts are too short, it returns TOO_SHORT and changes nothing.
pub fn do_instruction(
    job: Job,
    tokens: &[u8],
    mnemonic: &[u8],
    descriptors: &[u8],
    data: &mut [u8],
    pending: &mut [u8],
    breakpoints: &mut [u8],
    counts: &mut [u8],
    place: LinePlace,
    answer: &mut [u8],
) -> u32
    ensures { linked_line_by job tokens.now mnemonic.now descriptors.now
        (lent_of «data».old pending.old breakpoints.old) counts.old
        place answer.old
        ≡ (record {
          result = result;
          lent = lent_of «data».new pending.new breakpoints.new;
          counts = counts.new;
          answer = answer.new;
        }) }
{
    if answer.len() < ANSWER_BYTES || counts.len() < COUNTS_BYTES {
        return TOO_SHORT;
    }
    let mut filled = counts_at(&*counts);
    let given = emit::do_job(
        job,
        &mut filled,
        tokens,
        mnemonic,
        descriptors,
        data,
        pending,
        breakpoints,
        place,
    );
    let words = emitted_words(given);
    put_counts(counts, given, filled);
    linked_answer::store_answer(answer, words)
}
