// What is printed for a lookup (document 02, P13), from an input's bytes to the text. Its stored cases are in crates/cases.
#![tactic(auto)]

ghost use Rattle.std.specs.Prelude.{◌≡◌, ◌++◌, ◌+◌, ◌≤◌, length};
ghost use Rattle.std.proofs.Common.{rules};
ghost use Rattle.find_text.specs.FindText.{address_line, found_lines, find_text};

use labels::Found;
use program::TextProgram;
use text::Text;

// Room for two lines, or for a refusal.
pub const MOST: usize = 128;

fn put_address<const N: usize>(out: &mut Text<N>, address: Option<u32>)
    requires { length out.old + length (address_line address) ≤ N }
    ensures { out.new ≡ out.old ++ address_line address }
{
    match address {
        Some(value) => {
            out.push(b"found ");
            out.push_hex(value, 8);
            out.push_byte(b'\n');
        }
        None => out.push(b"none\n"),
    }
}

#[tactic(auto, using(std::proofs::lemmas::Grind::common_steps))]
fn put_found<const N: usize>(out: &mut Text<N>, found: Found)
    requires { length out.old + length (found_lines found) ≤ N }
    ensures { out.new ≡ out.old ++ found_lines found }
{
    put_address(&mut *out, found.address);
    out.push_number_line(b"compared", u64::from(found.compared));
}

// Writes the text for an input: the labels and the name, each after its count, and then the source.
#[tactic(auto, using(text::proofs::TextLaws::refused_most, text::proofs::TextLaws::last_most, crate::proofs::FindTextLaws::address_most, std::proofs::lemmas::Grind::common_steps), unfolding(crate::specs::FindText::find_text))]
pub fn find_label(input: &[u8], out: &mut Text<MOST>)
    ensures { out.new ≡ find_text input.now }
{
    let source = input::word_or_zero(input::behind_lists(input, 2), 0);
    out.clear();
    match label_finder::find_label(input::list_of(input, 0), input::list_of(input, 1), source) {
        Ok(found) => put_found(out, found),
        Err(refusal) => out.push_refusal(refusal),
    }
}

// `find_label` as a program.
pub struct FindLabelText;

impl TextProgram<MOST> for FindLabelText {
    ghost text_of = { find_text };

    fn print_text(&self, input: &[u8], out: &mut Text<MOST>) {
        find_label(input, out);
    }

    ghost fits = { Prim.search rules };
}
