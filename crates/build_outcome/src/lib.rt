// The definition of the whole outcome of a build (document 01). This crate has definitions and no code.
#![tactic(auto)]
