//! Sources over bytes in memory.
#![tactic(auto)]

ghost use Rattle.std.specs.Prelude.{◌≡◌, ℕ, ◌≤◌, ◌++◌, ◌↔◌, length, take, drop, min, Some, IsOk, IsErr, IfOk, OnOk, OnErr};
ghost use Rattle.rl_io.specs.Faults.{Rose};
ghost use Rattle.rl_io.specs.Told.{WhereTold};
ghost use Rattle.rl_io.specs.Pieces.{Moves};
ghost use Rattle.rl_io.specs.Calls.{FailsNext, fresh};
ghost use Rattle.rl_io.specs.Memory.{read_of, unread};

use crate::calls::CallCount;
use crate::copies::copy_front;
use crate::errors::{Failed, OutOfMemory};
use crate::traits::Source;
use std::alloc::Global;
use std::marker::Model;

/// Bytes in memory, some of whose reads may be told to fail.
#[derive(Drop)]
pub struct MemSource {
    bytes: Vec<u8>,
    at: usize,
    calls: CallCount,
}

impl Model for MemSource {
    ghost use Rattle.std.specs.Prelude.{drop, length, ◌≤◌};
    ghost use Rattle.rl_io.specs.Memory.{SourceState};

    ghost Value = { SourceState };

    ghost view = { λ a. record { left = drop a.at a.bytes.items; calls = a.calls } };

    ghost invariant = { λ a. a.at ≤ length a.bytes.items };
}

impl MemSource {
    /// A source of `bytes`. `fails` has the numbers, from 1, of the reads that are to fail.
    pub fn new(alloc: Global, bytes: &[u8], fails: &[u64]) -> Result<MemSource, OutOfMemory>
        ensures { IfOk result (λ source. source ≡ record { left = bytes.now; calls = fresh fails.now }) }
    {
        let calls = CallCount::new(alloc, fails)?;
        let bytes = bytes.to_vec(alloc)?;
        Ok(MemSource {
            bytes,
            at: 0,
            calls,
        })
    }
}

impl Source for MemSource {
    ghost faults = { λ s. s.calls.faults };

    ghost left = { λ s. Some s.left };

    fn read(&mut self, buf: &mut [u8]) -> Result<usize, Failed>
        ensures exactly { IsErr result ↔ FailsNext self.old.calls }
        ensures count { IfOk result (λ n. n ≡ min (length self.old.left) (length buf.old)) }
        ensures copied { IfOk result (λ n. buf.new ≡ take n self.old.left ++ drop n buf.old) }
        ensures after { IfOk result (λ n. self.new ≡ read_of self.old n) }
        ensures missed { OnErr result (self.new ≡ unread self.old) }
        ensures kept { OnErr result (buf.new ≡ buf.old) }
        ensures fits { IfOk result (λ n. n ≤ length buf.old) }
        ensures moved { IfOk result (λ n. Moves self.old.left self.new.left buf.new n) }
        ensures steady { OnOk result (self.new.calls.faults ≡ self.old.calls.faults) }
        ensures failed { OnErr result (Rose self.old.calls.faults self.new.calls.faults) }
    {
        self.calls.next()?;
        let n = copy_front(&self.bytes[self.at..], buf);
        self.at += n;
        Ok(n)
    }
}

/// Bytes that are lent. No read of them fails.
#[derive(Drop)]
pub struct SureSource<'a> {
    rest: &'a [u8],
}

impl<'a> Model for SureSource<'a> {
    ghost use Rattle.std.specs.Prelude.{List, ℕ};

    ghost Value = { List ℕ };

    ghost view = { λ a. a.rest.now };
}

impl<'a> SureSource<'a> {
    /// A source of these bytes.
    pub fn new(bytes: &'a [u8]) -> SureSource<'a>
        ensures { result ≡ bytes.now }
    {
        SureSource { rest: bytes }
    }
}

impl Source for SureSource<'_> {
    ghost faults = { λ _. 0 };

    ghost left = { λ s. Some s };

    fn read(&mut self, buf: &mut [u8]) -> Result<usize, Failed>
        ensures sure { IsOk result }
        ensures count { IfOk result (λ n. n ≡ min (length self.old) (length buf.old)) }
        ensures copied { IfOk result (λ n. buf.new ≡ take n self.old ++ drop n buf.old) }
        ensures after { IfOk result (λ n. self.new ≡ drop n self.old) }
        ensures fits { IfOk result (λ n. n ≤ length buf.old) }
        ensures moved { IfOk result (λ n. Moves self.old self.new buf.new n) }
    {
        let all = self.rest;
        let n = copy_front(all, buf);
        self.rest = &all[n..];
        Ok(n)
    }
}
