//! How a run ends.
ghost use Rattle.std.specs.Prelude.{◌≡◌, ◌≤◌, length};
ghost use Rattle.rlisp.specs.Status.{status_number};

use arrayvec::ArrayVec;
use std::marker::Model;

/// A file's name, of at most 4,096 bytes. A contract sees the bytes.
#[derive(Drop)]
pub struct FileName {
    bytes: ArrayVec<u8, 4096>,
}

impl Model for FileName {
    ghost use Rattle.std.specs.Prelude.{List, ℕ};

    ghost Value = { List ℕ };

    ghost view = { λ a. a.bytes.items };
}

impl FileName {
    /// The name of these bytes.
    pub fn new(bytes: &[u8]) -> FileName
        requires { length bytes.now ≤ 4096 }
        ensures { result ≡ bytes.now }
    {
        let mut name = ArrayVec::new();
        match name.try_extend_from_slice(bytes) {
            Ok(()) => FileName { bytes: name },
            Err(_) => unreachable!(),
        }
    }

    /// Its bytes.
    pub fn bytes(&self) -> &[u8]
        ensures { result.now ≡ self.now }
    {
        self.bytes.as_slice()
    }
}

/// How a run ends: at the end of its source, or at the first thing that stops it.
#[derive(Drop)]
pub enum Status {
    /// The source was read to its end.
    Done,
    /// The words are no command: the number, from 0, of the first word after which no command remains, or the number of words.
    Usage(u64),
    /// There is no file of this name.
    Missing(FileName),
    /// What was printed could not be written.
    WriteFault,
    /// A file could not be read.
    FileFault,
    /// There was no memory.
    OutOfMemory,
    /// The file is longer than 4,096 bytes, or has something that is not built yet.
    Unbuilt,
}

impl Status {
    /// The number by which a program ends with this status.
    pub fn number(&self) -> u8
        ensures { result ≡ status_number self.now }
    {
        match self {
            Status::Done => 0,
            Status::Usage(_) => 2,
            Status::Missing(_) => 3,
            Status::WriteFault => 5,
            Status::FileFault => 6,
            Status::OutOfMemory => 12,
            Status::Unbuilt => 13,
        }
    }
}
