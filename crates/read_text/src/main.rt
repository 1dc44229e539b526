// Reads the text on standard input and prints its tokens or the refusal (document 02, P7).
#![tactic(auto)]

use token_text::ReadTextText;

fn main() {
    program::run(&ReadTextText);
}
