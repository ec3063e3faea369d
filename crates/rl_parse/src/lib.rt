//! Statements of RLISP over bytes: where one ends, or where its text ceases to go on to one.
#![tactic(auto)]

mod begin;
mod end;
mod frame;
mod level;
mod place;
mod recognize;
mod stack;
mod step;

pub use place::What;
pub use recognize::{Recognized, recognize_statement};
