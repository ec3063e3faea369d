//! Sinks that keep bytes in memory, or drop them.
#![tactic(auto)]

ghost use Rattle.std.specs.Prelude.{◌≡◌, ℕ, ◌+◌, ◌<◌, ◌++◌, ◌⊎◌, ◌↔◌, [], length, None, Some, IsErr, IsOk, IfOk, OnOk, OnErr};
ghost use Rattle.rl_io.specs.Faults.{Rose};
ghost use Rattle.rl_io.specs.Told.{WhereTold};
ghost use Rattle.rl_io.specs.Pieces.{AppendsFront};
ghost use Rattle.rl_io.specs.Calls.{FailsNext, fresh};
ghost use Rattle.rl_io.specs.Memory.{taken, refused};

use crate::calls::CallCount;
use crate::copies::append;
use crate::errors::{Failed, OutOfMemory};
use crate::traits::Sink;
use std::alloc::Global;
use std::marker::Model;

/// Keeps what is written, up to its room. Some of the writes may be told to fail.
#[derive(Drop)]
pub struct MemSink {
    bytes: Vec<u8>,
    room: usize,
    calls: CallCount,
}

impl Model for MemSink {
    ghost use Rattle.std.specs.Prelude.{◌≤◌, length, vec_capacity};
    ghost use Rattle.rl_io.specs.Memory.{SinkState};

    ghost Value = { SinkState };

    ghost view = { λ a. record { contents = a.bytes.items; room = a.room; calls = a.calls } };

    ghost invariant = { λ a. (length a.bytes.items ≤ a.room) × (a.room ≤ vec_capacity a.bytes) };
}

impl MemSink {
    /// An empty sink with room for so many bytes, which it takes at once. `fails` has the numbers, from 1, of the
    /// writes that are to fail.
    pub fn new(alloc: Global, room: usize, fails: &[u64]) -> Result<MemSink, OutOfMemory>
        ensures { IfOk result (λ sink. sink ≡ record { contents = []; room = room; calls = fresh fails.now }) }
    {
        let calls = CallCount::new(alloc, fails)?;
        let bytes = Vec::with_capacity(alloc, room)?;
        Ok(MemSink { bytes, room, calls })
    }

    /// All bytes that were written.
    pub fn bytes(&self) -> &[u8]
        ensures { result.now ≡ self.now.contents }
    {
        &self.bytes
    }
}

impl Sink for MemSink {
    ghost faults = { λ s. s.calls.faults };

    ghost contents = { λ s. Some s.contents };

    fn write(&mut self, piece: &[u8]) -> Result<(), Failed>
        ensures exactly { IsErr result ↔ (FailsNext self.old.calls ⊎ self.old.room < length self.old.contents + length piece.now) }
        ensures after { OnOk result (self.new ≡ taken self.old piece.now) }
        ensures missed { OnErr result (self.new ≡ refused self.old) }
        ensures appended { OnOk result (self.new.contents ≡ self.old.contents ++ piece.now) }
        ensures front { OnErr result (AppendsFront self.old.contents self.new.contents piece.now) }
        ensures steady { OnOk result (self.new.calls.faults ≡ self.old.calls.faults) }
        ensures failed { OnErr result (Rose self.old.calls.faults self.new.calls.faults) }
    {
        self.calls.next()?;
        if piece.len() > self.room - self.bytes.len() {
            return Err(self.calls.fault());
        }
        append(&mut self.bytes, piece);
        Ok(())
    }
}

/// Drops what is written, and tells nothing of it. No write to it fails.
#[derive(Clone, Copy, Debug)]
pub struct NullSink;

impl NullSink {
    /// A sink that drops all.
    pub fn new() -> NullSink {
        NullSink
    }
}

impl Sink for NullSink {
    ghost faults = { λ _. 0 };

    ghost contents = { λ _. None };

    fn write(&mut self, _piece: &[u8]) -> Result<(), Failed>
        ensures sure { IsOk result }
    {
        Ok(())
    }
}
