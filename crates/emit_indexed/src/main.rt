// Reads an emit call with labels and an index from standard input, makes it, and prints what it answers and leaves (document 02, P1).
#![tactic(auto)]

use indexed_text::EmitIndexedText;

fn main() {
    program::run(&EmitIndexedText);
}
