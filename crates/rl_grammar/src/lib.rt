//! The grammar of RLISP: tokens, statements, the forms that they mean, and parsing, in `specs/`, with laws about them.
#![tactic(auto)]

pub mod laws;
