// What `count_forms` does (document 02, P14), from its input bytes to the bytes that it prints.
#![tactic(auto)]

ghost use Rattle.std.specs.Prelude.{◌≡◌};
ghost use Rattle.std.proofs.Common.{rules};
ghost use Rattle.count_text.specs.CountText.{count_text};

use program::TextProgram;
use text::Text;

// Room for four counts, or for a refusal.
pub const MOST: usize = 128;

// Writes what `count_forms` prints for an input: the four counts, or the refusal alone.
#[tactic(auto, using(text::proofs::TextLaws::refused_most, text::proofs::TextLaws::last_most, std::proofs::lemmas::Grind::common_steps), unfolding(crate::specs::CountText::count_text))]
pub fn count_forms(input: &[u8], out: &mut Text<MOST>)
    ensures { out.new ≡ count_text input.now }
{
    let start = input::word_or_zero(input, 0);
    let end = input::word_or_zero(input, 4);
    out.clear();
    match form_counts::count_forms(start, end) {
        Ok(counts) => {
            out.push_number_line(b"addiu", counts.addiu);
            out.push_number_line(b"ori", counts.ori);
            out.push_number_line(b"lui", counts.lui);
            out.push_number_line(b"both", counts.both);
        }
        Err(refusal) => out.push_refusal(refusal),
    }
}

// `count_forms` as a program.
pub struct CountFormsText;

impl TextProgram<MOST> for CountFormsText {
    ghost text_of = { count_text };

    fn print_text(&self, input: &[u8], out: &mut Text<MOST>) {
        count_forms(input, out);
    }

    ghost fits = { Prim.search rules };
}
