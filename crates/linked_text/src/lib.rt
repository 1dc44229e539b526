// Reads a text as a linked call: the tokens go into their buffer, the answer as six words into its own.
#![tactic(auto)]

ghost use Rattle.std.specs.Prelude.{◌≡◌};
ghost use Rattle.linked_text.specs.LinkedText.{linked_text};

use linked_answer::{ANSWER_BYTES, TOO_SHORT};

// Writes the text's tokens or refuses, writes the answer and returns its number: 0 for a text that was read.
// If the answer buffer is too short, it returns TOO_SHORT and changes nothing.
pub fn read_text(text: &[u8], source: u32, tokens: &mut [u8], answer: &mut [u8]) -> u32
    ensures { linked_text text.now source tokens.old answer.old
        ≡ (record { result = result; tokens = tokens.new; answer = answer.new }) }
{
    if answer.len() < ANSWER_BYTES {
        return TOO_SHORT;
    }
    let given = text_reader::read_text(text, source, tokens);
    let words = linked_answer::answered_words(given);
    linked_answer::store_answer(answer, words)
}
