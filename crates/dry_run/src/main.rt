// Dry-runs the image on standard input and prints the outcome (document 02, P10).
#![tactic(auto)]

use dry_run_text::DryRunText;

fn main() {
    program::run(&DryRunText);
}
