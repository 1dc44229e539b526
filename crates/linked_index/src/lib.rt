// The linked calls for an index: an emit call with labels and an index, in a job given by its number, and making an index from scratch.
// The answer goes into its buffer as six words.
#![tactic(auto)]

ghost use Rattle.std.specs.Prelude.{◌≡◌, ◌≤◌, length};
ghost use Rattle.emit_outcome.specs.Call.{lent_of};
ghost use Rattle.linked_index.specs.LinkedIndex.{indexed_counts_bytes, indexed_counts_at, indexed_counts_after, linked_indexed, linked_make};

use emit_outcome::{EmitAnswer, LinePlace};
use indexed_outcome::IndexedCounts;
use linked_answer::{ANSWER_BYTES, TOO_SHORT};

// The fill counts of the region data, pending, breakpoint and index buffers, four bytes each.
const COUNTS_BYTES: usize = 16;

fn counts_at(counts: &[u8]) -> IndexedCounts
    requires { indexed_counts_bytes ≤ length counts.now }
    ensures { result ≡ indexed_counts_at counts.now }
{
    IndexedCounts {
        counts: linked_line::counts_at(counts),
        index: record::word_at(counts, 12),
    }
}

// Writes the counts of an accepted line; a refused line leaves the counts as they were.
fn put_counts(counts: &mut [u8], answer: EmitAnswer, filled: IndexedCounts)
    requires { indexed_counts_bytes ≤ length counts.old }
    ensures { counts.new ≡ indexed_counts_after answer filled counts.old }
{
    let three = filled.counts;
    let words = [
        three.data_len,
        three.pending,
        three.breakpoints,
        filled.index,
    ];
    linked_answer::store_accepted(counts, &answer, &words[..]);
}

// Emits a line and updates the index, or refuses the line. Writes the answer and returns its number: 0 for an accepted line.
// If the answer or the counts are too short, or no job has that number, it returns TOO_SHORT and changes nothing.
pub fn do_indexed(
    tokens: &[u8],
    mnemonic: &[u8],
    descriptors: &[u8],
    data: &mut [u8],
    pending: &mut [u8],
    breakpoints: &mut [u8],
    labels: &[u8],
    index: &mut [u8],
    counts: &mut [u8],
    place: LinePlace,
    job: u32,
    answer: &mut [u8],
) -> u32
    ensures { linked_indexed tokens.now mnemonic.now descriptors.now
        (lent_of «data».old pending.old breakpoints.old) labels.now index.old counts.old
        place job answer.old
        ≡ (record {
          result = result;
          lent = lent_of «data».new pending.new breakpoints.new;
          index = index.new;
          counts = counts.new;
          answer = answer.new;
        }) }
{
    if answer.len() < ANSWER_BYTES || counts.len() < COUNTS_BYTES {
        return TOO_SHORT;
    }
    let Some(job) = jobs::job_numbered(job) else {
        return TOO_SHORT;
    };
    let mut filled = counts_at(&*counts);
    let given = indexed::do_indexed(
        &mut filled,
        tokens,
        mnemonic,
        descriptors,
        data,
        pending,
        breakpoints,
        labels,
        index,
        place,
        job,
    );
    let words = linked_line::emitted_words(given);
    put_counts(counts, given, filled);
    linked_answer::store_answer(answer, words)
}

// Makes the index of a filled pending buffer from scratch, or refuses. Writes the answer and returns its number: 0 for an index.
// If the answer is too short, it returns TOO_SHORT and changes nothing.
pub fn make_index(
    pending: &[u8],
    fill: u32,
    labels: &[u8],
    index: &mut [u8],
    answer: &mut [u8],
) -> u32
    ensures { linked_make pending.now fill labels.now index.old answer.old
        ≡ (record { result = result; index = index.new; answer = answer.new }) }
{
    if answer.len() < ANSWER_BYTES {
        return TOO_SHORT;
    }
    let given = index_maker::make_index(pending, fill, labels, index);
    let words = linked_answer::answered_words(given);
    linked_answer::store_answer(answer, words)
}
