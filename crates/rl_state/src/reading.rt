//! Reading, in the words of the definition.
ghost use Rattle.std.specs.Prelude.{[], ◌≡◌, ◌≢◌, ℕ, Err, IfOk, IsTrue, List, false, true};
ghost use Rattle.rl_io.specs.Faults.{Rose};
ghost use Rattle.rl_cells.specs.Cell.{is_live};
ghost use Rattle.rl_syms.specs.Contents.{value_of};
ghost use Rattle.rl_syms.specs.Functions.{KeepsHeldFunctions};
ghost use Rattle.rl_world.specs.Counts.{TakesTurnsAndCells};
ghost use Rattle.rl_world.specs.Input.{with_back};
ghost use Rattle.rl_meaning.specs.Input.{End, Form};
ghost use Rattle.rl_world.specs.declared.stop.Stop.{Stop};
ghost use Rattle.rl_world.specs.declared.stop.Stop.TheVariants as stop;
ghost use Rattle.rl_read.specs.Given.{is_fault};
ghost use Rattle.rl_read.specs.Reads.{KeepsByReading, NotStopped};
ghost use Rattle.rl_read.specs.declared.read.ReadFault.TheVariants as fault;
ghost use Rattle.rl_state.specs.Descents.{levels_shown};
ghost use Rattle.rl_state.specs.Ending.{stop_in};
ghost use Rattle.rl_state.specs.ReadsAs.{KeepsNotesAndFiles, ReadsNone, ReadsTo, ReadsUntil};
ghost use Rattle.rl_meaning.specs.State.{State};
ghost use Rattle.rl_state.specs.Ties.{LeavesFronts, TakesInput, Ties, ToldAtStart, told_in};
ghost use Rattle.rl_state.specs.Worlds.{IsWorld, WorldGrows};

use crate::laws::cells_are_known;
use rl_io::{Files, Io, Sink, Source};
use rl_read::{ReadFault, read_form};
use rl_syms::laws::names_are_identifiers;
use rl_tags::Val;
use rl_world::World;

/// Reads one form of the input.
///
/// # Errors
/// `End` where only blanks and comments are left; `Syntax` with the place of the byte with which no spelling goes on; `Stop`
/// where a turn, a level or cells are wanting, or the input or the output fails.
pub fn read<I: Source, O: Sink, N: Sink, F: Files>(
    w: &mut World,
    io: &mut Io<'_, I, O, N, F>,
) -> Result<Val, ReadFault>
    requires world { IsWorld w.old }
    ensures form { IfOk result (λ v. TakesInput (told_in O.contents N.contents I.left w.old io.old) (told_in O.contents N.contents I.left w.new io.new) (λ at rest s. ReadsTo (levels_shown w.old) (Form (value_of w.new.cells.cells v) (with_back w.new.input.back rest)) (with_back w.new.input.back rest) (told_in O.contents N.contents I.left w.new io.new) at rest s)) }
    ensures end { result ≡ Err fault.End → TakesInput (told_in O.contents N.contents I.left w.old io.old) (told_in O.contents N.contents I.left w.new io.new) (λ at rest s. ReadsTo (levels_shown w.old) End [] (told_in O.contents N.contents I.left w.new io.new) at rest s) }
    ensures syntax { (k : ℕ) → result ≡ Err (fault.Syntax k) → TakesInput (told_in O.contents N.contents I.left w.old io.old) (told_in O.contents N.contents I.left w.new io.new) (λ at rest s. ReadsNone (levels_shown w.old) k (with_back w.new.input.back rest) (told_in O.contents N.contents I.left w.new io.new) at rest s) }
    ensures stop { (why : Stop) → result ≡ Err (fault.Stop why) → is_fault why ≡ false → TakesInput (told_in O.contents N.contents I.left w.old io.old) (told_in O.contents N.contents I.left w.new io.new) (λ at rest s. ReadsUntil (levels_shown w.old) (stop_in w.new.cells.cells why) (told_in O.contents N.contents I.left w.new io.new) at s) }
    ensures cut { (why : Stop) → result ≡ Err (fault.Stop why) → is_fault why ≡ true → (at : ToldAtStart) (coming : List ℕ) (s : State) → Ties at (told_in O.contents N.contents I.left w.old io.old) coming s → LeavesFronts at (told_in O.contents N.contents I.left w.new io.new) s }
    ensures read_failed { result ≡ Err (fault.Stop stop.Read) → Rose (I.faults io.old.input.now) (I.faults io.new.input.now) }
    ensures write_failed { result ≡ Err (fault.Stop stop.Write) → Rose (O.faults io.old.out.now) (O.faults io.new.out.now) }
    ensures steady_input { result ≢ Err (fault.Stop stop.Read) → I.faults io.new.input.now ≡ I.faults io.old.input.now }
    ensures steady_out { result ≢ Err (fault.Stop stop.Write) → O.faults io.new.out.now ≡ O.faults io.old.out.now }
    ensures keeps { KeepsByReading w.old w.new }
    ensures counts { TakesTurnsAndCells w.old.counts w.new.counts }
    ensures functions { KeepsHeldFunctions w.old.cells.cells w.new.cells.cells }
    ensures grows { WorldGrows w.old w.new }
    ensures levels { NotStopped result → w.new.levels ≡ w.old.levels }
    ensures rest { KeepsNotesAndFiles io.old io.new }
    ensures live { IfOk result (λ v. IsTrue (is_live w.new.cells.cells v)) }
{
    cells_are_known();
    names_are_identifiers();
    w.cells.is_closed();
    let form = read_form(w, io);
    w.level();
    w.cells.is_bounded();
    match form {
        Ok(v) => Ok(v),
        Err(why) => Err(why),
    }
}
