// What writing macros out answers, and the definition of the whole call. This crate has a type and no functions.
#![tactic(auto)]

// Where on its line the next token stands: before the head, at a label's Colon, after a head that is not a call, or after a call's name.
#[derive(Clone, Copy)]
pub enum Mode {
    Leading,
    Labelled,
    Copied,
    LeftOut,
}
