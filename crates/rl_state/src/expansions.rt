//! Expansions of macros: turns and cells are those of the outermost open one.
ghost use Rattle.std.specs.Prelude.{◌≡◌, ◌+◌, ◌<◌, ◌^◌, IsTrue, None, is_some};
ghost use Rattle.rl_syms.specs.Table.{is_id};
ghost use Rattle.rl_world.specs.Counts.{begun, expansion_ended};
ghost use Rattle.rl_meaning.specs.State.{State};
ghost use Rattle.rl_meaning.specs.Evaluation.{with_expansion, without_expansion};
ghost use Rattle.rl_state.specs.ShownState.{ShowsState, number_in};
ghost use Rattle.rl_state.specs.Worlds.{IsWorld, WorldGrows};

use rl_tags::Val;
use rl_world::World;
use rl_world::laws::bounds_are_kept;

/// Opens an expansion of this macro, in a run.
pub fn begin_expansion(w: &mut World, name: Val)
    requires world { IsWorld w.old }
    requires run { w.old.counts.opening ≡ None }
    requires id { IsTrue (is_id w.old.cells.cells name) }
    requires few { w.old.counts.open_count + 1 < 2 ^ 32 }
    ensures shows { (s : State) → ShowsState w.old s → ShowsState w.new (with_expansion (number_in w.old.cells.cells name) s) }
    ensures grows { WorldGrows w.old w.new }
    ensures begun { w.new ≡ record w.old { counts = begun w.old.counts name } }
{
    bounds_are_kept();
    w.begin_expansion(name);
}

/// Ends the newest open expansion.
pub fn end_expansion(w: &mut World)
    requires world { IsWorld w.old }
    requires open { 0 < w.old.counts.open_count }
    ensures shows { (s : State) → ShowsState w.old s → ShowsState w.new (without_expansion s) }
    ensures grows { WorldGrows w.old w.new }
    ensures ended { w.new ≡ record w.old { counts = expansion_ended w.old.counts } }
{
    bounds_are_kept();
    w.end_expansion();
}

/// Whether an expansion is open.
pub fn in_expansion(w: &World) -> bool
    ensures { (s : State) → ShowsState w.now s → is_some s.counts.expansion ≡ result }
{
    w.in_expansion()
}
