//! The edge of the product: where bytes come from and go to. Three traits say what a read or a write did and count
//! the faults; there are objects in memory, which tests and users make, and real ones over the runtime.
#![tactic(auto)]

mod calls;
mod copies;
mod errors;
mod folders;
mod real;
mod sinks;
mod sources;
mod store;
mod traits;

pub use errors::{Failed, OutOfMemory};
pub use folders::MemFiles;
pub use real::{DirFiles, StdSink, StdSource};
pub use sinks::{MemSink, NullSink};
pub use sources::{MemSource, SureSource};
pub use traits::{FileRead, Files, Io, Sink, Source};
