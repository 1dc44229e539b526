// Counts the constants of a range by form, as a linked call: the counts go into a buffer of 32 bytes, the answer as six words into its own.
#![tactic(auto)]

ghost use Rattle.std.specs.Prelude.{◌≡◌, ◌≤◌, length};
ghost use Rattle.record.specs.Stores.{append};
ghost use Rattle.linked_count.specs.LinkedCount.{counted_words, form_count_bytes, form_counts, form_counts_after, linked_count};

use form_counts::FormCounts;
use linked_answer::{ANSWER_BYTES, TOO_SHORT};
use refusal::Refusal;

// The counts' length: how many constants load by addiu, by ori, by lui and by both halves, eight bytes each.
const FORM_COUNT_BYTES: usize = 32;

// Returns the answer's words. The counts are not among them.
fn counted_words(answer: Result<FormCounts, Refusal>) -> [u32; 6]
    ensures { result ≡ counted_words answer }
{
    linked_answer::answered_words(answer.map(|_| 0))
}

fn store_form_counts(counts: &mut [u8], counted: FormCounts)
    requires { form_count_bytes ≤ length counts.old }
    ensures { counts.new ≡ append counts.old 0 (form_counts counted) }
{
    record::put64(&mut *counts, 0, counted.addiu);
    record::put64(&mut *counts, 8, counted.ori);
    record::put64(&mut *counts, 16, counted.lui);
    record::put64(counts, 24, counted.both);
}

// Writes the counts of a range. A refused range leaves the buffer as it was.
// kept: an `if let` of its own. A count has eight bytes, and `store_accepted` writes words of four.
fn put_form_counts(counts: &mut [u8], answer: Result<FormCounts, Refusal>)
    requires { form_count_bytes ≤ length counts.old }
    ensures { counts.new ≡ form_counts_after answer counts.old }
{
    if let Ok(counted) = answer {
        store_form_counts(counts, counted);
    }
}

// Counts the constants from `start` to `end` by their forms or refuses, writes the answer and returns its number: 0 for a counted range.
// If the answer or the counts are too short, it returns TOO_SHORT and changes nothing.
pub fn count_forms(start: u32, end: u32, counts: &mut [u8], answer: &mut [u8]) -> u32
    ensures { linked_count start end counts.old answer.old
        ≡ (record { result = result; counts = counts.new; answer = answer.new }) }
{
    if answer.len() < ANSWER_BYTES || counts.len() < FORM_COUNT_BYTES {
        return TOO_SHORT;
    }
    let given = form_counts::count_forms(start, end);
    let words = counted_words(given);
    put_form_counts(counts, given);
    linked_answer::store_answer(answer, words)
}
