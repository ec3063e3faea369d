//! Objects in memory around a world.

use rl_io::{MemFiles, MemSink, MemSource, OutOfMemory};

/// An input, no files, and two sinks.
#[derive(Drop)]
pub struct Edge {
    pub input: MemSource,
    pub files: MemFiles,
    pub out: MemSink,
    pub notes: MemSink,
}

/// The bytes for which a sink has room, and which of its writes fail.
pub type Room<'a> = (usize, &'a [u64]);

/// An input of these bytes, of which these reads fail, and no files.
pub fn sources(
    rt: &HostRuntime,
    bytes: &[u8],
    fails: &[u64],
) -> Result<(MemSource, MemFiles), OutOfMemory> {
    let input = MemSource::new(rt.alloc(), bytes, fails)?;
    let files = MemFiles::new(rt.alloc(), 0, &[])?;
    Ok((input, files))
}

fn sinks(
    rt: &HostRuntime,
    out: Room<'_>,
    notes: Room<'_>,
) -> Result<(MemSink, MemSink), OutOfMemory> {
    let out = MemSink::new(rt.alloc(), out.0, out.1)?;
    let notes = MemSink::new(rt.alloc(), notes.0, notes.1)?;
    Ok((out, notes))
}

impl Edge {
    pub fn new(
        rt: &HostRuntime,
        input: (&[u8], &[u64]),
        out: Room<'_>,
        notes: Room<'_>,
    ) -> Result<Edge, OutOfMemory> {
        let (input, files) = sources(rt, input.0, input.1)?;
        let (out, notes) = sinks(rt, out, notes)?;
        Ok(Edge {
            input,
            files,
            out,
            notes,
        })
    }
}
