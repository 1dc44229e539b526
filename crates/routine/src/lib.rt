// Definitions and theorems: lines and a build fit together, as the next line and a build take what accepted lines leave. This crate has no code.
#![tactic(auto)]
