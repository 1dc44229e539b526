// What `expand` does (document 02, P8), from its input bytes to the bytes that it prints.
#![tactic(auto)]

ghost use Rattle.std.specs.Prelude.{◌≡◌};
ghost use Rattle.std.proofs.Common.{rules};
ghost use Rattle.macro_text.specs.MacroText.{expand_text};

use program::TextProgram;
use text::{MOST, Text};

// Writes what `expand` prints for an input: the written-out tokens, or the refusal alone. A buffer over the limit is held as the limit
// plus one byte: that is enough for its refusal.
#[tactic(auto, using(text::proofs::TextLaws::refused_most, crate::proofs::MacroTextLaws::held_text, token_text::proofs::TokenTextLaws::line_length, token_text::proofs::TokenTextLaws::part_held, written_out::proofs::KeepsLayout::fill_within, std::proofs::lemmas::Grind::common_steps), unfolding(crate::specs::MacroText::expand_text))]
pub fn expand(input: &[u8], out: &mut Text<MOST>)
    ensures { out.new ≡ expand_text input.now }
{
    let asked = input::word_or_zero(input::behind_lists(input, 2), 0);
    let mut space = [0u8; record::LIMIT + 1];
    let room = (asked as usize).min(record::LIMIT + 1);
    let written = &mut space[..room];
    let tokens = input::list_of(input, 0);
    let macros = input::list_of(input, 1);
    out.clear();
    match write_out::write_out(tokens, macros, &mut *written) {
        Ok(fill) => token_text::put_tokens(out, &written[..fill as usize]),
        Err(refusal) => out.push_refusal(refusal),
    }
}

// `expand` as a program.
pub struct ExpandText;

impl TextProgram<MOST> for ExpandText {
    ghost text_of = { expand_text };

    fn print_text(&self, input: &[u8], out: &mut Text<MOST>) {
        expand(input, out);
    }

    ghost fits = { Prim.search rules };
}
