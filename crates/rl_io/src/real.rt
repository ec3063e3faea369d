//! Sources, sinks and files of the system. Nothing is told of their content: what a file, a pipe or a terminal gives
//! or takes is the system's. Each counts its faults.
#![tactic(auto)]

ghost use Rattle.std.specs.Prelude.{◌≡◌, ℕ, ◌≤◌, length, None, Ok, IsErr, IsUtf8, IfOk, OnOk, OnErr};
ghost use Rattle.std.specs.Io.KnownBytes.{ReadConsumes, Appends};
ghost use Rattle.rl_io.specs.Faults.{Rose};
ghost use Rattle.rl_io.specs.FileReads.{FitsBuffer};
ghost use Rattle.rl_io.specs.Calls.{raised_count};

use crate::errors::Failed;
use crate::traits::{FileRead, Files, Sink, Source};
use std::io::{ErrorKind, Read, Seek, SeekFrom, Write};
use std::marker::Model;
use std::{fs, io, rt, str};

/// A source over a reader of the system.
#[derive(Drop)]
pub struct StdSource<R: Read + Drop> {
    reader: R,
    faults: u64,
}

impl<R: Read + Drop> Model for StdSource<R> {
    ghost use Rattle.rl_io.specs.Counted.{Counted};

    ghost Value = { Counted R };

    ghost view = { λ a. record { inner = a.reader; faults = a.faults } };
}

impl<R: Read + Drop> StdSource<R> {
    /// A source that reads from `reader`.
    pub fn new(reader: R) -> StdSource<R>
        ensures { result ≡ record { inner = reader; faults = 0 } }
    {
        StdSource { reader, faults: 0 }
    }
}

impl<R: Read + Drop> Source for StdSource<R> {
    ghost faults = { λ s. s.faults };

    ghost left = { λ _. None };

    fn read(&mut self, buf: &mut [u8]) -> Result<usize, Failed>
        // Where the reader tells its bytes, these are they.
        ensures bytes { ReadConsumes (R.remaining self.old.inner) (R.remaining self.new.inner) result buf.new }
        ensures fits { IfOk result (λ n. n ≤ length buf.old) }
        ensures steady { OnOk result (self.new.faults ≡ self.old.faults) }
        ensures failed { OnErr result (Rose self.old.faults self.new.faults) }
        ensures one { OnErr result (self.new.faults ≡ raised_count self.old.faults) }
    {
        match self.reader.read(buf) {
            Ok(n) => Ok(n),
            Err(_) => {
                self.faults = self.faults.saturating_add(1);
                Err(Failed)
            }
        }
    }
}

/// A sink over a writer of the system. Each piece is flushed.
#[derive(Drop)]
pub struct StdSink<W: Write + Drop> {
    writer: W,
    faults: u64,
}

impl<W: Write + Drop> Model for StdSink<W> {
    ghost use Rattle.rl_io.specs.Counted.{Counted};

    ghost Value = { Counted W };

    ghost view = { λ a. record { inner = a.writer; faults = a.faults } };
}

impl<W: Write + Drop> StdSink<W> {
    /// A sink that writes to `writer`.
    pub fn new(writer: W) -> StdSink<W>
        ensures { result ≡ record { inner = writer; faults = 0 } }
    {
        StdSink { writer, faults: 0 }
    }
}

fn write_and_flush<W: Write>(writer: &mut W, piece: &[u8]) -> io::Result<()>
    ensures { OnOk result (Appends (W.contents writer.old) (W.contents writer.new) piece.now) }
{
    writer.write_all(piece)?;
    writer.flush()
}

impl<W: Write + Drop> Sink for StdSink<W> {
    ghost faults = { λ s. s.faults };

    ghost contents = { λ _. None };

    fn write(&mut self, piece: &[u8]) -> Result<(), Failed>
        // Where the writer tells its bytes, the piece comes behind them.
        ensures bytes { OnOk result (Appends (W.contents self.old.inner) (W.contents self.new.inner) piece.now) }
        ensures steady { OnOk result (self.new.faults ≡ self.old.faults) }
        ensures failed { OnErr result (Rose self.old.faults self.new.faults) }
        ensures one { OnErr result (self.new.faults ≡ raised_count self.old.faults) }
    {
        match write_and_flush(&mut self.writer, piece) {
            Ok(()) => Ok(()),
            Err(_) => {
                self.faults = self.faults.saturating_add(1);
                Err(Failed)
            }
        }
    }
}

/// Files of the file system. A name is a path from the folder that the program runs in; one that is not UTF-8 names
/// no file.
#[derive(Drop)]
pub struct DirFiles<R: rt::Files + Drop> {
    rt: R,
    faults: u64,
}

impl<R: rt::Files + Drop> Model for DirFiles<R> {
    ghost use Rattle.std.specs.Prelude.{ℕ};

    ghost Value = { ℕ };

    ghost view = { λ a. a.faults };
}

impl<R: rt::Files + Drop> DirFiles<R> {
    /// The files that `rt` reaches.
    pub fn new(rt: R) -> DirFiles<R>
        ensures { result ≡ 0 }
    {
        DirFiles { rt, faults: 0 }
    }
}

/// Reads an opened file from `offset` on.
fn read_opened<F: Read + Seek>(file: &mut F, offset: u64, buf: &mut [u8]) -> io::Result<FileRead>
    ensures { IfOk result (FitsBuffer (length buf.old)) }
{
    if buf.is_empty() {
        return Ok(FileRead::Piece(0));
    }
    file.seek(SeekFrom::Start(offset))?;
    match file.read(buf)? {
        0 => Ok(FileRead::End),
        n => Ok(FileRead::Piece(n)),
    }
}

/// Reads the file at a path, where there is one.
fn read_path<R: rt::Files>(rt: &R, path: &str, offset: u64, buf: &mut [u8]) -> io::Result<FileRead>
    ensures { IfOk result (FitsBuffer (length buf.old)) }
{
    match fs::open(rt, path) {
        Ok(mut file) => read_opened(&mut file, offset, buf),
        Err(e) if e.kind() == ErrorKind::NotFound => Ok(FileRead::Missing),
        Err(e) => Err(e),
    }
}

impl<R: rt::Files + Drop> Files for DirFiles<R> {
    ghost faults = { λ s. s };

    ghost contents = { λ _. None };

    fn read_at(&mut self, name: &[u8], offset: u64, buf: &mut [u8]) -> Result<FileRead, Failed>
        ensures no_text { ¬ (IsUtf8 name.now) → result ≡ Ok FileRead.Missing }
        ensures fits { IfOk result (FitsBuffer (length buf.old)) }
        ensures steady { OnOk result (self.new ≡ self.old) }
        ensures failed { OnErr result (Rose self.old self.new) }
        ensures one { OnErr result (self.new ≡ raised_count self.old) }
    {
        let Ok(path) = str::from_utf8(name) else {
            return Ok(FileRead::Missing);
        };
        match read_path(&self.rt, path, offset, buf) {
            Ok(answer) => Ok(answer),
            Err(_) => {
                self.faults = self.faults.saturating_add(1);
                Err(Failed)
            }
        }
    }

    fn write(&mut self, name: &[u8], bytes: &[u8]) -> Result<(), Failed>
        ensures no_text { ¬ (IsUtf8 name.now) → IsErr result }
        ensures steady { OnOk result (self.new ≡ self.old) }
        ensures failed { OnErr result (Rose self.old self.new) }
        ensures one { OnErr result (self.new ≡ raised_count self.old) }
    {
        let written = match str::from_utf8(name) {
            Ok(path) => fs::write(&self.rt, path, bytes).is_ok(),
            Err(_) => false,
        };
        if !written {
            self.faults = self.faults.saturating_add(1);
            return Err(Failed);
        }
        Ok(())
    }
}
