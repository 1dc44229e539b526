// Reads pendings and labels from standard input, makes their index and prints it, or the refusal (document 02, P1).
#![tactic(auto)]

use index_text::MakeIndexText;

fn main() {
    program::run(&MakeIndexText);
}
