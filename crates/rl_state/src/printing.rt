//! Printing, in the words of the definition.
ghost use Rattle.std.specs.Prelude.{◌≡◌, IsTrue, List, OnOk, ℕ};
ghost use Rattle.rl_cells.specs.Cell.{is_live};
ghost use Rattle.rl_syms.specs.Contents.{value_of};
ghost use Rattle.rl_tree.specs.Atoms.{Prin1, Prin2};
ghost use Rattle.rl_world.specs.Writing.{ChangesOutObject, WriteFaults};
ghost use Rattle.rl_meaning.specs.State.{State};
ghost use Rattle.rl_meaning.specs.Printing.{printing};
ghost use Rattle.rl_state.specs.Descents.{levels_shown};
ghost use Rattle.rl_state.specs.Prints.{PrintsAs};
ghost use Rattle.rl_state.specs.Ties.{TakesNothing, Ties, ToldAtStart, told_in};
ghost use Rattle.rl_state.specs.Worlds.{IsWorld, PrintsAlone, WorldGrows};

use crate::laws::cells_are_known;
use rl_io::{Files, Io, Sink, Source};
use rl_syms::laws::names_are_numbered;
use rl_tags::Val;
use rl_world::laws::counts_are_taken;
use rl_world::{Stop, World};

/// Prints a value as PRIN1 does.
pub fn print1<I: Source, O: Sink, N: Sink, F: Files>(
    w: &mut World,
    v: Val,
    io: &mut Io<'_, I, O, N, F>,
) -> Result<(), Stop>
    requires world { IsWorld w.old }
    requires live { IsTrue (is_live w.old.cells.cells v) }
    ensures means { (at : ToldAtStart) (coming : List ℕ) (s : State) → Ties at (told_in O.contents N.contents I.left w.old io.old) coming s → PrintsAs at (printing Prin1 (levels_shown w.old) (value_of w.old.cells.cells v) s) (value_of w.old.cells.cells v) result (told_in O.contents N.contents I.left w.new io.new) coming }
    ensures untaken { TakesNothing (told_in O.contents N.contents I.left w.old io.old) (told_in O.contents N.contents I.left w.new io.new) }
    ensures faults { WriteFaults result (O.faults io.old.out.now) (O.faults io.new.out.now) w.new.output.waiting }
    ensures grows { WorldGrows w.old w.new }
    ensures alone { PrintsAlone w.old w.new }
    ensures levels { OnOk result (w.new.levels ≡ w.old.levels) }
    ensures rest { ChangesOutObject io.old io.new }
{
    counts_are_taken();
    cells_are_known();
    names_are_numbered();
    let printed = rl_print::print1(w, v, io);
    w.level();
    match printed {
        Ok(()) => Ok(()),
        Err(why) => Err(why),
    }
}

/// Prints a value as PRIN2 does.
pub fn print2<I: Source, O: Sink, N: Sink, F: Files>(
    w: &mut World,
    v: Val,
    io: &mut Io<'_, I, O, N, F>,
) -> Result<(), Stop>
    requires world { IsWorld w.old }
    requires live { IsTrue (is_live w.old.cells.cells v) }
    ensures means { (at : ToldAtStart) (coming : List ℕ) (s : State) → Ties at (told_in O.contents N.contents I.left w.old io.old) coming s → PrintsAs at (printing Prin2 (levels_shown w.old) (value_of w.old.cells.cells v) s) (value_of w.old.cells.cells v) result (told_in O.contents N.contents I.left w.new io.new) coming }
    ensures untaken { TakesNothing (told_in O.contents N.contents I.left w.old io.old) (told_in O.contents N.contents I.left w.new io.new) }
    ensures faults { WriteFaults result (O.faults io.old.out.now) (O.faults io.new.out.now) w.new.output.waiting }
    ensures grows { WorldGrows w.old w.new }
    ensures alone { PrintsAlone w.old w.new }
    ensures levels { OnOk result (w.new.levels ≡ w.old.levels) }
    ensures rest { ChangesOutObject io.old io.new }
{
    counts_are_taken();
    cells_are_known();
    names_are_numbered();
    let printed = rl_print::print2(w, v, io);
    w.level();
    match printed {
        Ok(()) => Ok(()),
        Err(why) => Err(why),
    }
}
