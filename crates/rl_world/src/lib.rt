//! The world of a run: what it counts, and where its bytes go.
#![tactic(auto)]

mod buffer;
mod counts;
mod errors;
mod input;
pub mod laws;
mod levels;
mod output;
mod outside;
mod stop;
mod world;

pub use buffer::Buffer;
pub use counts::{Aside, Counts, Expansion};
pub use input::Input;
pub use levels::Levels;
pub use output::Output;
pub use stop::{Limits, NStep, Stop};
pub use world::{Apart, World};
