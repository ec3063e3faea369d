//! The definitions that the contracts of the layers above cite, in `specs/`, with laws about them, and owned trees. A law is the contract of a function that does nothing.
#![tactic(auto)]

mod held;
mod nodes;
pub mod preorder;
mod trees;

pub use held::{HeldTree, Kept, Kind, Names, VarKind};
pub use nodes::{Node, Text};
pub use trees::{Tree, TreeBuilder};
