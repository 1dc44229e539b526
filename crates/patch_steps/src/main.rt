// Runs the script of steps and lines on standard input, and prints what each call answers and what the buffers hold at the end (document 02, P12).
#![tactic(auto)]

use patching_text::PatchStepsText;

fn main() {
    program::run(&PatchStepsText);
}
