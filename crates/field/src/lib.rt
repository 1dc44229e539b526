// Fields of a word: definitions and laws for every offset and width together. This crate has no code.
#![tactic(auto)]
