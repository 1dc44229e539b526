// Counts the constants in the range on standard input, by form (document 02, P14).
#![tactic(auto)]

use count_text::CountFormsText;
use program::TextProgram;
use text::Text;

fn main() {
    let mut input = [0u8; 8];
    let mut out = Text::<{ count_text::MOST }>::new();
    let count = io::read_full(input::STDIN, &mut input);
    CountFormsText.print_text(&input[..count], &mut out);
    io::write_all(text::STDOUT, out.as_bytes());
}
