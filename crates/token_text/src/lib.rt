// What `read_text` does (document 02, P7), from its input bytes to the bytes that it prints.
#![tactic(auto)]

ghost use Rattle.std.specs.Prelude.{◌≡◌, ◌++◌, ◌+◌, ◌≤◌, length};
ghost use Rattle.std.proofs.Common.{rules};
ghost use Rattle.token_text.specs.TokenText.{tokens_line, read_text_text};

use program::TextProgram;
use text::{MOST, Text};

// Writes a token list as one line.
pub fn put_tokens<const N: usize>(out: &mut Text<N>, list: &[u8])
    requires { length out.old + length (tokens_line list.now) ≤ N }
    ensures { out.new ≡ out.old ++ tokens_line list.now }
{
    out.push(b"tokens ");
    out.push_hex_bytes(list);
    out.push_byte(b'\n');
}

// Writes what `read_text` prints for an input: the tokens, or the refusal alone. A token buffer over the limit is held as the limit
// plus one byte: that is enough for its refusal.
#[tactic(auto, using(text::proofs::TextLaws::refused_most, crate::proofs::TokenTextLaws::held_text, crate::proofs::TokenTextLaws::line_length, crate::proofs::TokenTextLaws::part_held, text_reader::proofs::ReadsBack::fill_within, std::proofs::lemmas::Grind::common_steps), unfolding(crate::specs::TokenText::read_text_text))]
pub fn read_text(input: &[u8], out: &mut Text<MOST>)
    ensures { out.new ≡ read_text_text input.now }
{
    let source = input::word_or_zero(input, 0);
    let asked = input::word_or_zero(input, 4);
    let mut space = [0u8; record::LIMIT + 1];
    let room = (asked as usize).min(record::LIMIT + 1);
    let tokens = &mut space[..room];
    out.clear();
    match text_reader::read_text(input::behind(input, 8), source, &mut *tokens) {
        Ok(fill) => put_tokens(out, &tokens[..fill as usize]),
        Err(refusal) => out.push_refusal(refusal),
    }
}

// `read_text` as a program.
pub struct ReadTextText;

impl TextProgram<MOST> for ReadTextText {
    ghost text_of = { read_text_text };

    fn print_text(&self, input: &[u8], out: &mut Text<MOST>) {
        read_text(input, out);
    }

    ghost fits = { Prim.search rules };
}
