//! Where bytes come from and go to.
#![tactic(auto)]

ghost use Rattle.std.specs.Prelude.{◌≡◌, ℕ, ◌≤◌, List, ◌++◌, length, Option, IfOk, IfSome, OnOk, OnErr};
ghost use Rattle.rl_io.specs.Faults.{Rose};
ghost use Rattle.rl_io.specs.Told.{WhereTold};
ghost use Rattle.rl_io.specs.Pieces.{Moves, AppendsFront};
ghost use Rattle.rl_io.specs.FileReads.{ReadsFile, FitsBuffer};
ghost use Rattle.rl_io.specs.Folder.{Replaces, LeavesOthers};

use crate::errors::Failed;

/// Bytes that are read from first to last.
///
/// A source may tell which bytes it has left. Its count of faults rises at every failed read, and stays else.
pub trait Source {
    ghost faults: { Self → ℕ };

    ghost left: { Self → Option (List ℕ) };

    /// Reads bytes into the front of `buf` and says how many: 0 at the end, or where `buf` has no room.
    /// After `Failed` the content of `buf` is not known.
    fn read(&mut self, buf: &mut [u8]) -> Result<usize, Failed>
        ensures fits { IfOk result (λ n. n ≤ length buf.old) }
        ensures moved { IfOk result (λ n. WhereTold (left self.old) (left self.new) (λ before now. Moves before now buf.new n)) }
        ensures steady { OnOk result (faults self.new ≡ faults self.old) }
        ensures failed { OnErr result (Rose (faults self.old) (faults self.new)) };
}

/// What takes bytes, one piece after another.
///
/// A sink may tell which bytes it has taken. Its count of faults rises at every failed write, and stays else.
pub trait Sink {
    ghost faults: { Self → ℕ };

    ghost contents: { Self → Option (List ℕ) };

    /// Takes the whole piece. After `Failed` a front of it may have been taken.
    fn write(&mut self, piece: &[u8]) -> Result<(), Failed>
        ensures appended { OnOk result
            (WhereTold (contents self.old) (contents self.new) (λ before now. now ≡ before ++ piece.now)) }
        ensures front { OnErr result
            (WhereTold (contents self.old) (contents self.new) (λ before now. AppendsFront before now piece.now)) }
        ensures steady { OnOk result (faults self.new ≡ faults self.old) }
        ensures failed { OnErr result (Rose (faults self.old) (faults self.new)) };
}

/// What a read of a file answers.
#[derive(Clone, Copy, Debug, PartialEq, Eq)]
pub enum FileRead {
    /// So many bytes are in the front of the buffer.
    Piece(usize),
    /// The file ends at the offset or before it.
    End,
    /// There is no file of that name.
    Missing,
}

/// Files by name.
///
/// A folder may tell the file of each name. Its count of faults rises at every failed call, and stays else.
pub trait Files {
    ghost faults: { Self → ℕ };

    ghost contents: { Self → Option (List ℕ → Option (List ℕ)) };

    /// Reads a file's bytes from `offset` on, in bytes from its start, into the front of `buf`. No read changes a
    /// file. After `Failed` the content of `buf` is not known.
    fn read_at(&mut self, name: &[u8], offset: u64, buf: &mut [u8]) -> Result<FileRead, Failed>
        ensures unchanged { contents self.new ≡ contents self.old }
        ensures fits { IfOk result (FitsBuffer (length buf.old)) }
        ensures read { IfOk result
            (λ answer. IfSome (contents self.old) (λ files. ReadsFile (files name.now) offset buf.new answer)) }
        ensures steady { OnOk result (faults self.new ≡ faults self.old) }
        ensures failed { OnErr result (Rose (faults self.old) (faults self.new)) };

    /// Makes `bytes` the whole file of that name, which need not have been there. After `Failed` nothing is known of
    /// that file; the others stay.
    fn write(&mut self, name: &[u8], bytes: &[u8]) -> Result<(), Failed>
        ensures written { OnOk result (WhereTold (contents self.old) (contents self.new) (Replaces name.now bytes.now)) }
        ensures others { OnErr result (WhereTold (contents self.old) (contents self.new) (LeavesOthers name.now)) }
        ensures steady { OnOk result (faults self.new ≡ faults self.old) }
        ensures failed { OnErr result (Rose (faults self.old) (faults self.new)) };
}

/// All that a running system reads and writes.
#[derive(Drop)]
pub struct Io<'a, I: Source, O: Sink, N: Sink, F: Files> {
    /// The characters that the system reads.
    pub input: &'a mut I,
    /// The characters that it writes.
    pub out: &'a mut O,
    /// Its notes.
    pub notes: &'a mut N,
    /// The files that it can name.
    pub files: &'a mut F,
}
