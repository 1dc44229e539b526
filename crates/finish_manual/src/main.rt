// Builds the lists of standard input by the manual and prints the image or the refusal (document 02, P5; document 01, `finish`).
#![tactic(auto)]

use image_text::FinishManualText;

fn main() {
    program::run(&FinishManualText);
}
