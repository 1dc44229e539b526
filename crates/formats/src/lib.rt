// The manual's formats, which constant each line loads, and the format of every word that is emitted, as definitions and theorems. This crate has no code.
#![tactic(auto)]
