//! Tests of the crates below, and nothing else. They stand above those crates, since the gate proves a crate that has tests of its own twice.
#![tactic(auto)]

#[cfg(test)]
mod arithmetic;
#[cfg(test)]
mod cells;
#[cfg(test)]
mod edge;
#[cfg(test)]
mod names;
#[cfg(test)]
mod numbers;
#[cfg(test)]
mod printing;
#[cfg(test)]
mod reading;
#[cfg(test)]
mod stack;
#[cfg(test)]
mod world;
