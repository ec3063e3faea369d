//! The values that variables have below all their bindings.
ghost use Rattle.std.specs.Prelude.{◌≡◌, ◌↔◌, ◌<◌, cond, length, take, true, IsTrue, None, Some, MatchOption};
ghost use Rattle.std.specs.Option.{ForSome};
ghost use Rattle.rl_cells.specs.Cell.{is_live};
ghost use Rattle.rl_syms.specs.Table.{is_id};
ghost use Rattle.rl_syms.specs.Contents.{value_of};
ghost use Rattle.rl_meaning.specs.State.{State};
ghost use Rattle.rl_meaning.specs.Symbols.{symbol_at, with_top};
ghost use Rattle.rl_state.specs.ShownState.{number_in, option_value_in};
ghost use Rattle.rl_state.specs.Worlds.{IsWorld, ObjectsAlone, WorldGrows};
ghost use Rattle.rl_stack.specs.Saving.{BindsIt, HidesFrom, IsOldestOf, NoneBinds, SetsHidden};
ghost use Rattle.rl_stack.specs.ShowsStack.{IsStackLive, ShowsStack, StandsIn};

use crate::saved::Saved;
use crate::stack::Stack;
use rl_state::{cell, set_cell};
use rl_syms::laws::identifiers_are_numbered;
use rl_tags::Val;
use rl_world::World;

impl Stack {
    /// The value that a variable has below all its bindings, None where it has none there.
    pub fn top(&self, w: &World, id: Val) -> Option<Val>
        requires world { IsWorld w.now }
        requires live { IsStackLive w.now.cells.cells self.now }
        requires id { IsTrue (is_id w.now.cells.cells id) }
        ensures means { (s : State) → ShowsStack w.now self.now s → (symbol_at s (number_in w.now.cells.cells id)).top ≡ option_value_in w.now.cells.cells result }
        ensures live { ForSome result (λ v. IsTrue (is_live w.now.cells.cells v)) }
    {
        identifiers_are_numbered();
        let mut value = cell(w, id);
        let mut k = 0;
        while k < self.depth() {
            value = hidden_from(self.saved_at(k), id, value);
            k += 1;
        }
        value
    }

    /// Gives a variable that value, and leaves its bindings.
    pub fn set_top(&mut self, w: &mut World, id: Val, v: Val)
        requires world { IsWorld w.old }
        requires live { IsStackLive w.old.cells.cells self.old }
        requires id { IsTrue (is_id w.old.cells.cells id) }
        requires v_live { IsTrue (is_live w.old.cells.cells v) }
        ensures shows { (s : State) → ShowsStack w.old self.old s → ShowsStack w.new self.new (with_top (number_in w.old.cells.cells id) (value_of w.old.cells.cells v) s) }
        ensures hides { SetsHidden self.old self.new }
        ensures stands { StandsIn w.old self.old → StandsIn w.new self.new }
        ensures live { IsStackLive w.new.cells.cells self.new }
        ensures grows { WorldGrows w.old w.new }
        ensures rest { ObjectsAlone w.old w.new }
    {
        identifiers_are_numbered();
        match self.oldest(id) {
            Some(k) => self.set_hid(k, Some(v)),
            None => set_cell(w, id, Some(v)),
        }
    }

    /// The oldest binding of a variable, counted from the newest of all, None where it is not bound.
    fn oldest(&self, id: Val) -> Option<u64>
        ensures { MatchOption result (NoneBinds id self.now.saved) (λ k. IsOldestOf id k self.now.saved) }
    {
        let mut found = None;
        let mut k = 0;
        while k < self.depth() {
            let here = binds(self.saved_at(k), id);
            found = found_or(here, k, found);
            k += 1;
        }
        found
    }
}

/// What a variable has below a binding or mark, where it has `value` above it.
fn hidden_from(x: Saved, id: Val, value: Option<Val>) -> Option<Val>
    ensures { HidesFrom id value x result }
{
    match x {
        Saved::Binding(bound, _local, hid, _levels) => { if bound == id { hid } else { value } }
        Saved::Mark(_f) => value,
    }
}

/// This place, where it was found here.
fn found_or(here: bool, k: u64, found: Option<u64>) -> Option<u64>
    ensures { result ≡ cond here (Some k) found }
{
    if here { Some(k) } else { found }
}

/// Whether this is a binding of the variable.
fn binds(x: Saved, id: Val) -> bool
    ensures { IsTrue result ↔ BindsIt id x }
{
    match x {
        Saved::Binding(bound, _local, _hid, _levels) => bound == id,
        Saved::Mark(_f) => false,
    }
}
