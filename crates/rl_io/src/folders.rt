//! A folder in memory.
#![tactic(auto)]

ghost use Rattle.std.specs.Prelude.{◌≡◌, ℕ, ◌<◌, ◌≤◌, ◌⊎◌, ◌↔◌, [], length, None, Some, IsErr, IsTrue, IfOk, OnOk, OnErr, MatchOption, if◌then◌else◌};
ghost use Rattle.rl_io.specs.Faults.{Rose};
ghost use Rattle.rl_io.specs.FileReads.{ReadsFile, FitsBuffer};
ghost use Rattle.rl_io.specs.Folder.{Replaces, LeavesOthers};
ghost use Rattle.rl_io.specs.Calls.{FailsNext, fresh};
ghost use Rattle.rl_io.specs.Entries.{file_of, put_of, room_used, folder_with_file, written, looked, untouched, answer_of, buffer_of};

use crate::calls::CallCount;
use crate::copies::copy_front;
use crate::errors::{Failed, OutOfMemory};
use crate::store::FileStore;
use crate::traits::{FileRead, Files};
use std::alloc::Global;
use std::marker::Model;

/// Files in memory, up to its room. Some of the reads and writes may be told to fail.
#[derive(Drop)]
pub struct MemFiles {
    store: FileStore,
    calls: CallCount,
}

impl Model for MemFiles {
    ghost use Rattle.rl_io.specs.Entries.{FolderState};

    ghost Value = { FolderState };

    ghost view = { λ a. record { files = a.store.files; room = a.store.room; calls = a.calls } };
}

impl MemFiles {
    /// An empty folder with room for so many bytes, which it takes at once; each file takes its name, its bytes and
    /// 16 more. `fails` has the numbers, from 1, of the reads and writes, counted together, that are to fail.
    pub fn new(alloc: Global, room: usize, fails: &[u64]) -> Result<MemFiles, OutOfMemory>
        ensures { IfOk result (λ folder. folder ≡ record { files = []; room = room; calls = fresh fails.now }) }
    {
        let calls = CallCount::new(alloc, fails)?;
        let store = FileStore::new(alloc, room)?;
        Ok(MemFiles { store, calls })
    }

    /// Makes `bytes` the whole file of that name, where the room suffices, and says whether it does. This is no call
    /// that could be told to fail.
    pub fn put(&mut self, name: &[u8], bytes: &[u8]) -> bool
        ensures room { IsTrue result ↔ (room_used (put_of self.old.files name.now bytes.now) ≤ self.old.room) }
        ensures after { self.new ≡ (if result then folder_with_file self.old name.now bytes.now else self.old) }
    {
        self.store.put(name, bytes)
    }

    /// The bytes of the file of that name: `None` where there is none.
    pub fn get(&self, name: &[u8]) -> Option<&[u8]>
        ensures { MatchOption result (file_of self.now.files name.now ≡ None)
            (λ file. file_of self.now.files name.now ≡ Some file.now) }
    {
        self.store.get(name)
    }
}

/// Reads a file from `offset` on.
fn read_piece(file: &[u8], offset: u64, buf: &mut [u8]) -> FileRead
    ensures answer { result ≡ answer_of (Some file.now) offset (length buf.old) }
    ensures buffer { buf.new ≡ buffer_of (Some file.now) offset buf.old }
{
    if offset >= file.len() as u64 {
        return FileRead::End;
    }
    FileRead::Piece(copy_front(&file[offset as usize..], buf))
}

impl Files for MemFiles {
    ghost faults = { λ s. s.calls.faults };

    ghost contents = { λ s. Some (file_of s.files) };

    fn read_at(&mut self, name: &[u8], offset: u64, buf: &mut [u8]) -> Result<FileRead, Failed>
        ensures exactly { IsErr result ↔ FailsNext self.old.calls }
        ensures answer { IfOk result (λ answer. answer ≡ answer_of (file_of self.old.files name.now) offset (length buf.old)) }
        ensures buffer { OnOk result (buf.new ≡ buffer_of (file_of self.old.files name.now) offset buf.old) }
        ensures after { OnOk result (self.new ≡ looked self.old) }
        ensures missed { OnErr result (self.new ≡ untouched self.old) }
        ensures kept { OnErr result (buf.new ≡ buf.old) }
        ensures unchanged { Some (file_of self.new.files) ≡ Some (file_of self.old.files) }
        ensures fits { IfOk result (FitsBuffer (length buf.old)) }
        ensures read { IfOk result (λ answer. ReadsFile (file_of self.old.files name.now) offset buf.new answer) }
        ensures steady { OnOk result (self.new.calls.faults ≡ self.old.calls.faults) }
        ensures failed { OnErr result (Rose self.old.calls.faults self.new.calls.faults) }
    {
        self.calls.next()?;
        match self.store.get(name) {
            Some(file) => Ok(read_piece(file, offset, buf)),
            None => Ok(FileRead::Missing),
        }
    }

    fn write(&mut self, name: &[u8], bytes: &[u8]) -> Result<(), Failed>
        ensures exactly { IsErr result ↔
            (FailsNext self.old.calls ⊎ self.old.room < room_used (put_of self.old.files name.now bytes.now)) }
        ensures after { OnOk result (self.new ≡ written self.old name.now bytes.now) }
        ensures missed { OnErr result (self.new ≡ untouched self.old) }
        ensures written { OnOk result (Replaces name.now bytes.now (file_of self.old.files) (file_of self.new.files)) }
        ensures others { OnErr result (LeavesOthers name.now (file_of self.old.files) (file_of self.new.files)) }
        ensures steady { OnOk result (self.new.calls.faults ≡ self.old.calls.faults) }
        ensures failed { OnErr result (Rose self.old.calls.faults self.new.calls.faults) }
    {
        self.calls.next()?;
        if !self.store.put(name, bytes) {
            return Err(self.calls.fault());
        }
        Ok(())
    }
}
