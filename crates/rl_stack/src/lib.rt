//! The stack of a run: frames, bindings and registers.
#![tactic(auto)]

mod answer;
mod bindings;
pub mod laws;
mod saved;
mod stack;
mod steps;
mod tops;

pub use answer::IStep;
pub use stack::Stack;
