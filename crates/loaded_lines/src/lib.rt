// Theorems: a line or a call that loads a constant has the words that load it, and what a call appends. This crate has no code.
#![tactic(auto)]
