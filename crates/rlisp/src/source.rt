//! The source: a file that is read whole.
ghost use Rattle.std.specs.Prelude.{◌≡◌, ◌≤◌, ◌<◌, ◌+◌, length, vec_len, IfSome, take};
ghost use Rattle.rlisp.specs.Loads.{Loads, IsShortFile, FaultsCounted};

use rl_io::{FileRead, Files};
use std::alloc::Global;

/// Bytes of the longest file that is run.
const LONGEST_FILE: usize = 4096;

/// Bytes that are asked for in one read.
const PIECE: usize = 512;

/// What came of loading a file.
#[derive(Drop)]
pub(crate) enum Loaded {
    File(Vec<u8>),
    Long,
    Missing,
    Fault,
    OutOfMemory,
}

/// Reads a whole file of at most 4,096 bytes, and finds out that it is longer.
pub(crate) fn load<F: Files>(alloc: Global, files: &mut F, path: &[u8]) -> Loaded
    ensures unchanged { F.contents files.new ≡ F.contents files.old }
    ensures loaded { IfSome (F.contents files.old) (λ folder. Loads (folder path.now) result) }
    ensures short { IsShortFile result }
    ensures counts { FaultsCounted (F.faults files.old) (F.faults files.new) result }
{
    let mut bytes = Vec::new(alloc);
    while bytes.len() <= LONGEST_FILE {
        let mut piece = [0u8; PIECE];
        match files.read_at(path, bytes.len() as u64, &mut piece) {
            Err(_) => return Loaded::Fault,
            Ok(FileRead::Missing) => return Loaded::Missing,
            Ok(FileRead::End) => return Loaded::File(bytes),
            Ok(FileRead::Piece(n)) => {
                if bytes.extend_from_slice(&piece[..n]).is_err() {
                    return Loaded::OutOfMemory;
                }
            }
        }
    }
    Loaded::Long
}
