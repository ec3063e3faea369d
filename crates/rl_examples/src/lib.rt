//! Runs of examples, which the definition of the language computes. They stand above it, so that no change of a law, and no edit, computes them anew.
#![tactic(auto)]
