//! Lisp text: the relation between bytes and the data that they spell, and reading, in `specs/`, with laws about them.
#![tactic(auto)]

pub mod bytes;
pub mod laws;
