// Reads a finished image's patches back (demand 3's first half) and lists its words in order: definitions and theorems. This crate has no code.
#![tactic(auto)]
