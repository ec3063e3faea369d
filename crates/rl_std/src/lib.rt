//! The natives of Standard Lisp that need neither names nor output.
#![tactic(auto)]

mod lists;
mod pairs;

pub use lists::{append, length, nconc, reverse};
pub use pairs::{Letter, Path, cons, part, rplaca, rplacd};
