// Example calls of `write_out`, proved by computing them: what is written, and each refusal. This crate has no code.
#![tactic(auto)]
