// Writes out the macro calls on standard input and prints the tokens or the refusal (document 02, P8).
#![tactic(auto)]

use macro_text::ExpandText;

fn main() {
    program::run(&ExpandText);
}
