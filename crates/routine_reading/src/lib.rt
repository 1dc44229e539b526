// Definitions and theorems: what emit calls leave reads back, as every routine of accepted lines meets the tender's premises on patches. This crate
// has no code.
#![tactic(auto)]
