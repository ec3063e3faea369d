//! Laws of runs in which code runs: a run that runs code agrees with the one that walks all functions.
#![tactic(auto)]

pub mod laws;
