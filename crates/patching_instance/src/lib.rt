// Two scripts of steps and lines, computed, to show that the claims' premises can be met. This crate has no code.
#![tactic(auto)]
