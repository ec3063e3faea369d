//! Bindings of variables: the value cell has the newest value, the stack what that hid.
ghost use Rattle.std.specs.Prelude.{◌≡◌, ◌≢◌, ◌↔◌, ◌+◌, ◌-◌, ◌*◌, ◌<◌, ◌≤◌, drop, take, length, true, IsTrue, None, Some, MatchOption};
ghost use Rattle.std.specs.Option.{ForSome};
ghost use Rattle.rl_tree.specs.Value.{Id};
ghost use Rattle.rl_cells.specs.Cell.{is_live};
ghost use Rattle.rl_syms.specs.Table.{is_id};
ghost use Rattle.rl_syms.specs.Contents.{value_of};
ghost use Rattle.rl_meaning.specs.State.{State};
ghost use Rattle.rl_meaning.specs.Variables.{nearest, variable, with_binding, with_mark, with_oldest, with_value};
ghost use Rattle.rl_meaning.specs.Errors.{fail, unbound};
ghost use Rattle.rl_state.specs.ShownState.{number_in};
ghost use Rattle.rl_state.specs.Worlds.{IsWorld, ObjectsAlone, WorldGrows};
ghost use Rattle.rl_stack.specs.Saving.{SavesOne, UndoesNewest};
ghost use Rattle.rl_stack.specs.ShowsStack.{GivesVariable, IsStackLive, IsVariable, ShowsStack, StandsIn, mark_shown, scope_kept, scope_saved};
ghost use Rattle.rl_stack.specs.StackState.{levels_of_frames, levels_of_saved};

use crate::saved::Saved;
use crate::stack::Stack;
use rl_state::{cell, set_cell, shallower};
use rl_syms::laws::identifiers_are_numbered;
use rl_tags::Val;
use rl_tree::VarKind;
use rl_world::World;

impl Stack {
    /// Binds a variable of which the form keeps this kind, within the levels that were entered for it; its undoing leaves
    /// `levels`. EMSG!* is never bound.
    pub fn bind(&mut self, w: &mut World, id: Val, k: VarKind, v: Val, levels: u32)
        requires world { IsWorld w.old }
        requires stands { StandsIn w.old self.old }
        requires live { IsStackLive w.old.cells.cells self.old }
        requires id { IsVariable w.old.cells.cells id }
        requires v_live { IsTrue (is_live w.old.cells.cells v) }
        requires room { length self.old.saved < 16 * w.old.levels.level + 16 }
        requires entered { levels + levels_of_frames self.old.frames + levels_of_saved self.old.saved + length w.old.levels.walk ≤ w.old.levels.level }
        ensures shows { (s : State) → ShowsStack w.old self.old s → ShowsStack w.new self.new (with_binding (number_in w.old.cells.cells id) (scope_kept k) (value_of w.old.cells.cells v) s) }
        ensures saves { SavesOne levels self.old self.new }
        ensures stands { StandsIn w.new self.new }
        ensures live { IsStackLive w.new.cells.cells self.new }
        ensures grows { WorldGrows w.old w.new }
        ensures rest { ObjectsAlone w.old w.new }
    {
        identifiers_are_numbered();
        let hid = cell(w, id);
        let local = is_local(k);
        self.save_binding(id, local, hid, levels);
        set_cell(w, id, Some(v));
    }

    /// A function, by its pointer, an EVAL, an APPLY or an ERRORSET begins.
    pub fn mark(&mut self, w: &World, f: Option<Val>)
        requires world { IsWorld w.now }
        requires stands { StandsIn w.now self.old }
        requires live { IsStackLive w.now.cells.cells self.old }
        requires f_live { ForSome f (λ v. IsTrue (is_live w.now.cells.cells v)) }
        requires room { length self.old.saved < 16 * w.now.levels.level + 16 }
        ensures shows { (s : State) → ShowsStack w.now self.old s → ShowsStack w.now self.new (with_mark (mark_shown w.now.cells.cells f) s) }
        ensures saves { SavesOne 0 self.old self.new }
        ensures stands { StandsIn w.now self.new }
        ensures live { IsStackLive w.now.cells.cells self.new }
    {
        self.save_mark(f);
    }

    /// Sets a variable: its newest binding, or its value below all.
    pub fn assign(&self, w: &mut World, id: Val, v: Val)
        requires world { IsWorld w.old }
        requires live { IsStackLive w.old.cells.cells self.now }
        requires id { IsTrue (is_id w.old.cells.cells id) }
        requires v_live { IsTrue (is_live w.old.cells.cells v) }
        ensures shows { (s : State) → ShowsStack w.old self.now s → ShowsStack w.new self.now (with_value (nearest (number_in w.old.cells.cells id) s) (number_in w.old.cells.cells id) (value_of w.old.cells.cells v) s) }
        ensures live { IsStackLive w.new.cells.cells self.now }
        ensures grows { WorldGrows w.old w.new }
        ensures rest { ObjectsAlone w.old w.new }
    {
        identifiers_are_numbered();
        set_cell(w, id, Some(v));
    }

    /// The value of a variable, None where it has none.
    pub fn lookup(&self, w: &World, id: Val) -> Option<Val>
        requires world { IsWorld w.now }
        requires id { IsTrue (is_id w.now.cells.cells id) }
        ensures means { (s : State) → ShowsStack w.now self.now s → MatchOption result (variable (number_in w.now.cells.cells id) s ≡ fail unbound (Id (number_in w.now.cells.cells id)) s) (λ v. GivesVariable (number_in w.now.cells.cells id) (value_of w.now.cells.cells v) s) }
        ensures live { ForSome result (λ v. IsTrue (is_live w.now.cells.cells v)) }
    {
        cell(w, id)
    }

    /// Undoes the newest bindings and marks until there are no more than `depth`, and leaves the levels kept with them.
    pub fn unbind_to(&mut self, w: &mut World, depth: u64)
        requires world { IsWorld w.old }
        requires stands { StandsIn w.old self.old }
        requires live { IsStackLive w.old.cells.cells self.old }
        ensures shows { (s : State) → ShowsStack w.old self.old s → ShowsStack w.new self.new (with_oldest depth s) }
        ensures undoes { UndoesNewest (length self.old.saved - depth) w.old w.new self.old self.new }
    {
        while self.depth() > depth {
            self.unbind_one(w);
        }
    }

    /// Undoes the newest binding or mark, if there is one.
    fn unbind_one(&mut self, w: &mut World)
        requires world { IsWorld w.old }
        requires stands { StandsIn w.old self.old }
        requires live { IsStackLive w.old.cells.cells self.old }
        ensures { UndoesNewest 1 w.old w.new self.old self.new }
    {
        match self.unsave() {
            Some(x) => match x {
                Saved::Binding(id, _local, hid, levels) => {
                    set_cell(w, id, hid);
                    shallower(w, levels);
                }
                Saved::Mark(_f) => {}
            },
            None => {}
        }
    }
}

/// Whether a binding of a variable of this kind is local.
fn is_local(k: VarKind) -> bool
    ensures { scope_saved result ≡ scope_kept k }
{
    match k {
        VarKind::Plain => true,
        VarKind::Fluid => false,
        VarKind::Global => false,
    }
}
