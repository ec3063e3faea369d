//! The store of objects: a bump allocator over words, seen as a list of cells, two words each.
#![tactic(auto)]

pub mod laws;
mod objects;
mod store;

pub use store::{Cells, Full, Mark};
