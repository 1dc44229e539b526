// The program `make_index` (document 02, P1), from the bytes it reads to the text it prints.
#![tactic(auto)]

ghost use Rattle.std.specs.Prelude.{◌≡◌, ◌++◌, ◌+◌, ◌≤◌, length};
ghost use Rattle.std.proofs.Common.{rules};
ghost use Rattle.index_text.specs.IndexText.{made_text, make_index_text};

use program::TextProgram;
use text::{MOST, Text};

// Prints the fill count and the whole buffer.
#[tactic(auto, using(std::proofs::lemmas::Grind::common_steps))]
fn put_made<const N: usize>(out: &mut Text<N>, fill: u32, index: &[u8])
    requires { length out.old + length (made_text fill index.now) ≤ N }
    ensures { out.new ≡ out.old ++ made_text fill index.now }
{
    out.push_number_line(b"fill", u64::from(fill));
    bytes_line::push_bytes(out, b"index ", index);
}

// Writes the text that `make_index` prints for an input: the index, or the refusal alone. Of an index buffer over its limit, one byte
// more than the limit is kept, so that the call still refuses it.
#[tactic(auto, using(text::proofs::TextLaws::refused_most))]
pub fn make_index(input: &[u8], out: &mut Text<MOST>)
    ensures { out.new ≡ make_index_text input.now }
{
    let mut space = [0u8; record::LIMIT + 1];
    let index = input::hold_in(&mut space, input::list_of(input, 2));
    let fill = input::word_or_zero(input::behind_lists(input, 3), 0);
    let pending = input::list_of(input, 0);
    let labels = input::list_of(input, 1);
    out.clear();
    match index_maker::make_index(pending, fill, labels, &mut *index) {
        Ok(count) => put_made(out, count, &*index),
        Err(refusal) => out.push_refusal(refusal),
    }
}

// `make_index` as a program.
pub struct MakeIndexText;

impl TextProgram<MOST> for MakeIndexText {
    ghost text_of = { make_index_text };

    fn print_text(&self, input: &[u8], out: &mut Text<MOST>) {
        make_index(input, out);
    }

    ghost fits = { Prim.search rules };
}
