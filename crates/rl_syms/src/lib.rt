//! The table of names: identifiers in cells, and the chain of those that are interned.
#![tactic(auto)]

mod fields;
mod gensym;
pub mod laws;
mod made;
mod opening;
mod table;

pub use table::Syms;
