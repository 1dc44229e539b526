// The statements by which the customer accepts the work: document 01's table 'Marked for proof' as one, and the tender's three demands. This crate
// has no functions.
#![tactic(auto)]
