//! Tests of the crates of the edge, of words and trees, and of the tokens, and nothing else. They stand above those crates, since the gate proves a crate that has tests of its own twice, and apart from `rl_tests`, so that neither takes long.
#![tactic(auto)]

#[cfg(test)]
mod io;
#[cfg(test)]
mod lex;
#[cfg(test)]
mod tags;
#[cfg(test)]
mod tree;
#[cfg(test)]
mod words;
