//! Counts the calls of an object in memory and lets those fail that are to fail.
#![tactic(auto)]

ghost use Rattle.std.specs.Prelude.{◌≡◌, ◌↔◌, IfOk, IsErr, OnOk, OnErr};
ghost use Rattle.rl_io.specs.Faults.{Rose};
ghost use Rattle.rl_io.specs.Calls.{raised_count, FailsNext, fresh, passed, missed};

use crate::errors::{Failed, OutOfMemory};
use std::alloc::Global;
use std::marker::Model;

#[derive(Drop)]
pub struct CallCount {
    fails: Vec<u64>,
    made: u64,
    faults: u64,
}

impl Model for CallCount {
    ghost use Rattle.std.specs.Prelude.{ℕ};
    ghost use Rattle.rl_io.specs.Calls.{Calls};

    ghost Value = { Calls };

    ghost view = { λ a. record { fails = a.fails.items; made = a.made; faults = a.faults } };
}

impl CallCount {
    pub fn new(alloc: Global, fails: &[u64]) -> Result<CallCount, OutOfMemory>
        ensures { IfOk result (λ calls. calls ≡ fresh fails.now) }
    {
        let fails = fails.to_vec(alloc)?;
        Ok(CallCount {
            fails,
            made: 0,
            faults: 0,
        })
    }

    /// Counts a call, which fails where its number is one of those that are to fail.
    pub fn next(&mut self) -> Result<(), Failed>
        ensures exactly { IsErr result ↔ FailsNext self.old }
        ensures passed { OnOk result (self.new ≡ passed self.old) }
        ensures missed { OnErr result (self.new ≡ missed self.old) }
        ensures rose { OnErr result (Rose self.old.faults self.new.faults) }
    {
        self.made = self.made.saturating_add(1);
        if self.fails.contains(&self.made) {
            self.faults = self.faults.saturating_add(1);
            return Err(Failed);
        }
        Ok(())
    }

    /// Counts a fault of the call that was counted last.
    pub fn fault(&mut self) -> Failed
        ensures counted { self.new ≡ record self.old { faults = raised_count self.old.faults } }
        ensures rose { Rose self.old.faults self.new.faults }
    {
        self.faults = self.faults.saturating_add(1);
        Failed
    }
}
