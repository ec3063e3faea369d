//! The levels that are entered, and the places that walks keep.
ghost use Rattle.std.specs.Prelude.{◌≡◌, ℕ, ◌+◌, ◌-◌, ◌≤◌, None, Some, [], ◌∷◌, length, IfOk, OnOk, IfErr};
ghost use Rattle.rl_world.specs.Levels.{AreLevels, enter_stop, levels_below};
ghost use Rattle.rl_world.specs.Walks.{IsSteady, kept_above};

use crate::stop::Stop;
use rl_io::OutOfMemory;
use rl_words::Words;
use std::alloc::Global;
use std::marker::Model;

/// The levels that are entered, and what walks over values keep: three words for each descent that is not done. A contract
/// sees their numbers and lists.
#[derive(Drop)]
pub struct Levels {
    words: Words,
    bound: u32,
    level: u32,
    kept: u32,
    aside: Option<u32>,
}

impl Model for Levels {
    ghost use Rattle.rl_world.specs.Levels.{WorldLevels, HasWords, threes};

    ghost Value = { WorldLevels };

    ghost view = { λ a. record { bound = a.bound; level = a.level; walk = threes a.kept a.words; aside = a.aside } };

    ghost invariant = { λ a. HasWords a.words a.bound a.level a.kept a.aside };
}

impl Levels {
    pub(crate) fn new(alloc: Global, bound: u32) -> Result<Levels, OutOfMemory>
        requires { bound ≤ 500000 }
        ensures { IfOk result (λ l. l ≡ record { bound = bound; level = 0; walk = []; aside = None }) }
    {
        let words = Words::new(alloc, 3 * bound as usize)?;
        Ok(Levels {
            words,
            bound,
            level: 0,
            kept: 0,
            aside: None,
        })
    }

    /// Enters levels. After a stop nothing is changed.
    pub(crate) fn enter(&mut self, n: u32) -> Result<(), Stop>
        ensures ok { OnOk result (enter_stop self.old n ≡ None) }
        ensures entered { OnOk result (self.new ≡ record self.old { level = self.old.level + n }) }
        ensures stop { IfErr result (λ s. enter_stop self.old n ≡ Some s) }
        ensures err { IfErr result (λ s. self.new ≡ self.old) }
    {
        if u64::from(self.level) + u64::from(n) > u64::from(self.bound) {
            return Err(Stop::Depth);
        }
        self.level += n;
        Ok(())
    }

    /// Leaves levels that were entered, but none that a walk entered.
    pub(crate) fn leave(&mut self, n: u32)
        requires { n + length self.old.walk ≤ self.old.level }
        ensures { self.new ≡ record self.old { level = self.old.level - n } }
    {
        self.level -= n;
    }

    /// The levels that are entered.
    pub(crate) fn level(&self) -> u32
        ensures level { result ≡ self.now.level }
        ensures levels { AreLevels self.now }
    {
        self.level
    }

    /// Enters a level and keeps three words. After a stop nothing is changed.
    pub(crate) fn push(&mut self, a: u64, b: u64, c: u64) -> Result<(), Stop>
        ensures ok { OnOk result (enter_stop self.old 1 ≡ None) }
        ensures entered { OnOk result (self.new ≡ record self.old { level = self.old.level + 1; walk = (a, b, c) ∷ self.old.walk }) }
        ensures below { levels_below self.new ≡ levels_below self.old }
        ensures steady { OnOk result ((base : ℕ) → base ≤ length self.old.walk → IsSteady base self.old self.new) }
        ensures above { OnOk result ((base : ℕ) → base ≤ length self.old.walk → kept_above base self.new ≡ (a, b, c) ∷ kept_above base self.old) }
        ensures stop { IfErr result (λ s. enter_stop self.old 1 ≡ Some s) }
        ensures err { IfErr result (λ s. self.new ≡ self.old) }
    {
        if self.level >= self.bound {
            return Err(Stop::Depth);
        }
        let at = 3 * self.kept as usize;
        self.words.set(at, a);
        self.words.set(at + 1, b);
        self.words.set(at + 2, c);
        self.kept += 1;
        self.level += 1;
        Ok(())
    }

    /// Gives the three newest words back, and leaves their level.
    pub(crate) fn pop(&mut self) -> (u64, u64, u64)
        requires { 1 ≤ length self.old.walk }
        ensures popped { self.old.walk ≡ result ∷ self.new.walk }
        ensures within { self.old.level ≤ self.old.bound }
        ensures entered { 1 ≤ self.old.level }
        ensures below { levels_below self.new ≡ levels_below self.old }
        ensures left { self.new ≡ record self.old { level = self.old.level - 1; walk = self.new.walk } }
    {
        self.kept -= 1;
        self.level -= 1;
        let at = 3 * self.kept as usize;
        (
            self.words.get(at),
            self.words.get(at + 1),
            self.words.get(at + 2),
        )
    }

    /// How many threes are kept.
    pub(crate) fn kept(&self) -> u32
        ensures { result ≡ length self.now.walk }
    {
        self.kept
    }

    /// Sets the levels aside, and counts from 0.
    pub(crate) fn set_aside(&mut self) -> u32
        requires { self.old.walk ≡ [] }
        ensures kept { result ≡ self.old.level }
        ensures levels { self.new ≡ record self.old { level = 0; aside = Some self.old.level } }
    {
        let level = self.level;
        self.aside = Some(level);
        self.level = 0;
        level
    }

    /// Brings back the levels that were set aside, and drops what walks still keep.
    pub(crate) fn rejoin(&mut self, level: u32)
        requires { self.old.aside ≡ Some level }
        ensures { self.new ≡ record self.old { level = level; walk = []; aside = None } }
    {
        self.level = level;
        self.kept = 0;
        self.aside = None;
    }
}
