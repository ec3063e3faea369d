//! Lisp text is read into a world: `read_form` over texts in memory and over the input.
#![tactic(auto)]

mod bytes;
mod frames;
pub mod laws;
mod make;
mod read;
mod step;
mod word;

pub use bytes::{Bytes, SliceBytes};
pub use read::{ReadFault, read_form};
