// Patching by steps, with lines added in between: scripts of steps and lines, the claims about each script, and the proofs. This crate has no code.
#![tactic(auto)]
