//! Whole numbers as values, their arithmetic, and their decimal text.
#![tactic(auto)]

mod arithmetic;
mod number;

pub use arithmetic::{less, minus, plus, power, quotient, remainder, times};
pub use number::{NumFault, decimal, make, value};
