//! PRIN1 and PRIN2.
#![tactic(auto)]

mod advance;
mod atom;
pub mod laws;
mod print;
mod put;
mod show;
mod walk;

pub use atom::{AtomText, Style, bare};
pub use print::{print1, print2};
