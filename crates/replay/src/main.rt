// Replays a list of calls of both entries with the Rust's answers, and prints how many calls there are, how many differ, and the last that does.
// `compare/run list` makes the list; compare/src/list.rs says how. For refusals 1, 2 and 12 the Rust has no answer, and the list has one from
// a model written from document 01.
#![tactic(auto)]

use text::Text;

fn main() {
    let mut input = [0u8; replay_text::MOST];
    let mut out = Text::<{ replay_text::MOST_TEXT }>::new();
    let count = io::read_full(input::STDIN, &mut input);
    replay_text::replay(&input[..count], &mut out);
    io::write_all(text::STDOUT, out.as_bytes());
}
