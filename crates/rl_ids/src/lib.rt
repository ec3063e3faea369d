//! Natives on identifiers: names, property lists and flags.
#![tactic(auto)]

mod elements;
mod parts;
mod properties;
mod same;
mod truth;

pub use properties::{flagp, get, put, remprop};
