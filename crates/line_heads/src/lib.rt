// Definitions and laws on token records line by line, and on what a line begins with. This crate has no code.
#![tactic(auto)]
