// Every finished word of an accepted build, and every bit that no patch alters, as definitions and theorems. This crate has no code.
#![tactic(auto)]
