// Writes macros out as a linked call: the tokens go into their buffer, the answer as six words into its own.
#![tactic(auto)]

ghost use Rattle.std.specs.Prelude.{◌≡◌};
ghost use Rattle.linked_macros.specs.LinkedMacros.{linked_macros};

use linked_answer::{ANSWER_BYTES, TOO_SHORT};

// Writes the list out or refuses, writes the answer and returns its number: 0 for a list that was written out.
// If the answer buffer is too short, it returns TOO_SHORT and changes nothing.
pub fn write_out(tokens: &[u8], macros: &[u8], out: &mut [u8], answer: &mut [u8]) -> u32
    ensures { linked_macros tokens.now macros.now out.old answer.old
        ≡ (record { result = result; out = out.new; answer = answer.new }) }
{
    if answer.len() < ANSWER_BYTES {
        return TOO_SHORT;
    }
    let given = write_out::write_out(tokens, macros, out);
    let words = linked_answer::answered_words(given);
    linked_answer::store_answer(answer, words)
}
