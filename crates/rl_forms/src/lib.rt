//! What runs today: files of forms without calls of the user, from the bytes of a file to what its forms print.
//!
//! An evaluator of the whole definition takes the place of this crate later.
#![tactic(auto)]

mod evaluator;
mod forms;
pub mod laws;
mod memory;
mod printing;
mod reading;
mod run;

pub use run::{Ending, run_forms};
