// The linked call for a page for the wall. The page goes into its buffer, and the answer into its own as six words.
#![tactic(auto)]

ghost use Rattle.std.specs.Prelude.{◌≡◌};
ghost use Rattle.linked_page.specs.LinkedPage.{linked_page};

use linked_answer::{ANSWER_BYTES, TOO_SHORT};

// Lays the image out or refuses. Writes the answer and returns its number: 0 for a page.
// If the answer is too short, it returns TOO_SHORT and changes nothing.
pub fn lay_out(labels: &[u8], regions: &[u8], page: &mut [u8], answer: &mut [u8]) -> u32
    ensures { linked_page labels.now regions.now page.old answer.old
        ≡ (record { result = result; page = page.new; answer = answer.new }) }
{
    if answer.len() < ANSWER_BYTES {
        return TOO_SHORT;
    }
    let given = page_core::lay_out(labels, regions, page);
    let words = linked_answer::answered_words(given);
    linked_answer::store_answer(answer, words)
}
