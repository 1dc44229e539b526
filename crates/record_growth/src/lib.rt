// Laws about lists of bytes: what happens when a record in the list grows, and when bytes are written into the list. This crate has no code.
#![tactic(auto)]
