// The linked call for a lookup of a label. The answer goes into its buffer as six words.
#![tactic(auto)]

ghost use Rattle.std.specs.Prelude.{◌≡◌};
ghost use Rattle.linked_label.specs.LinkedLabel.{found_words, find_words, linked_find};

use labels::Found;
use linked_answer::{ANSWER_BYTES, TOO_SHORT};
use refusal::Refusal;

// Returns the six words of a lookup: whether there is a label, how many names were compared, and the label's address.
fn found_words(found: Found) -> [u32; 6]
    ensures { result ≡ found_words found }
{
    match found.address {
        Some(value) => [0, 0, 0, 1, found.compared, value],
        None => [0, 0, 0, 0, found.compared, 0],
    }
}

fn find_words(answer: Result<Found, Refusal>) -> [u32; 6]
    ensures { result ≡ find_words answer }
{
    match answer {
        Ok(found) => found_words(found),
        Err(refusal) => linked_answer::refusal_words(refusal, 0),
    }
}

// Looks the name up or refuses. Writes the answer and returns its number: 0 for a lookup, whether or not there is a label.
// If the answer is too short, it returns TOO_SHORT and changes nothing.
pub fn find_label(labels: &[u8], name: &[u8], source: u32, answer: &mut [u8]) -> u32
    ensures { linked_find labels.now name.now source answer.old ≡ (record { result = result; answer = answer.new }) }
{
    if answer.len() < ANSWER_BYTES {
        return TOO_SHORT;
    }
    let given = label_finder::find_label(labels, name, source);
    let words = find_words(given);
    linked_answer::store_answer(answer, words)
}
