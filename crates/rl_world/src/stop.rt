//! The bounds of a run, and how a step ends.

use rl_tags::Val;

/// The bounds of a run: on turns, on cells and on nesting.
#[derive(Clone, Copy, Debug, PartialEq, Eq)]
pub struct Limits {
    pub turns: u64,
    pub cells: u32,
    pub nest: u32,
}

/// Why a run stops.
#[derive(Clone, Copy, Debug, PartialEq, Eq)]
pub enum Stop {
    /// No turn is left.
    Turns,
    /// No cell is left.
    Cells,
    /// Nesting is too deep.
    Depth,
    /// An expansion of this macro took too many turns or cells.
    Expansion(Val),
    /// The input could not be read.
    Read,
    /// The output or the notes could not be written.
    Write,
    /// A file could not be read or written.
    Files,
    /// There is no such file.
    Missing,
}

/// How a native ends.
#[derive(Clone, Copy, Debug, PartialEq, Eq)]
pub enum NStep {
    /// With a value.
    Done(Val),
    /// With an error: its number and its message.
    Error(Val, Val),
    /// With the end of the run.
    Stop(Stop),
}
