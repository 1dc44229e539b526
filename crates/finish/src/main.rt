// Builds the lists of standard input and prints the image or the refusal (document 01, `finish`).
#![tactic(auto)]

use image_text::FinishText;

fn main() {
    program::run(&FinishText);
}
