// Reads labels, regions and the page buffer's length from standard input, and prints the page or the refusal (document 02, P3).
#![tactic(auto)]

use page_text::PageText;

fn main() {
    program::run(&PageText);
}
