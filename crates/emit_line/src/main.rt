// Emits the line of standard input and prints what the call leaves.
#![tactic(auto)]

use line_text::EmitLineText;

fn main() {
    program::run(&EmitLineText);
}
