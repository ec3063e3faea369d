//! Bytes that go out and come in, in the words of the definition.
ghost use Rattle.std.specs.Prelude.{◌≡◌, ◌⊎◌, ◌∷◌, ℕ, List, IfOk, IfErr, [], None, Some, Option, ◌≤◌, ◌<◌, ◌-◌, ◌^◌};
ghost use Rattle.rl_io.specs.Faults.{Rose};
ghost use Rattle.rl_meaning.specs.State.{State};
ghost use Rattle.rl_meaning.specs.Printing.{print_mark};
ghost use Rattle.rl_world.specs.Input.{given_after};
ghost use Rattle.rl_world.specs.declared.stop.Stop.TheVariants as stop;
ghost use Rattle.rl_world.specs.Writing.{ChangesNotesAlone, ChangesOutAlone, EmptiesBuffersAlone, FlushFaults, OnlyWriteFaults};
ghost use Rattle.rl_state.specs.Ties.{ChangesInputAlone, EndsTied, GivesNext, LeavesFronts, PrintsTied, SeesNext, TakesInput, TakesNothing, TakingFaults, Ties, ToldAtStart, and_told, given_back, told_in, with_noted};
ghost use Rattle.rl_state.specs.Worlds.{IsWorld, WorldGrows};

use rl_io::{Files, Io, Sink, Source};
use rl_world::{Stop, World};

/// Prints a byte.
pub fn put_byte<I: Source, O: Sink, N: Sink, F: Files>(
    w: &mut World,
    b: u8,
    io: &mut Io<'_, I, O, N, F>,
) -> Result<(), Stop>
    ensures means { (at : ToldAtStart) (coming : List ℕ) (s : State) → Ties at (told_in O.contents N.contents I.left w.old io.old) coming s → PrintsTied at result (told_in O.contents N.contents I.left w.new io.new) coming (print_mark (b ∷ []) s) }
    ensures untaken { TakesNothing (told_in O.contents N.contents I.left w.old io.old) (told_in O.contents N.contents I.left w.new io.new) }
    ensures stop { IfErr result (λ why. (why ≡ stop.Write) × Rose (O.faults io.old.out.now) (O.faults io.new.out.now)) }
    ensures faults { OnlyWriteFaults result (O.faults io.old.out.now) (O.faults io.new.out.now) w.new.output.waiting }
    ensures grows { IsWorld w.old → WorldGrows w.old w.new }
    ensures rest { ChangesOutAlone w.old w.new io.old io.new }
{
    match w.put_byte(b, io) {
        Ok(()) => Ok(()),
        Err(why) => Err(why),
    }
}

/// Adds a byte to the notes.
pub fn note_byte<I: Source, O: Sink, N: Sink, F: Files>(
    w: &mut World,
    b: u8,
    io: &mut Io<'_, I, O, N, F>,
) -> Result<(), Stop>
    ensures means { (at : ToldAtStart) (coming : List ℕ) (s : State) → Ties at (told_in O.contents N.contents I.left w.old io.old) coming s → PrintsTied at result (told_in O.contents N.contents I.left w.new io.new) coming (with_noted (b ∷ []) s) }
    ensures untaken { TakesNothing (told_in O.contents N.contents I.left w.old io.old) (told_in O.contents N.contents I.left w.new io.new) }
    ensures stop { IfErr result (λ why. (why ≡ stop.Write) × Rose (N.faults io.old.notes.now) (N.faults io.new.notes.now)) }
    ensures faults { OnlyWriteFaults result (N.faults io.old.notes.now) (N.faults io.new.notes.now) w.new.notes }
    ensures grows { IsWorld w.old → WorldGrows w.old w.new }
    ensures rest { ChangesNotesAlone w.old w.new io.old io.new }
{
    match w.note_byte(b, io) {
        Ok(()) => Ok(()),
        Err(why) => Err(why),
    }
}

/// Writes all that waits, of output and notes.
pub fn flush<I: Source, O: Sink, N: Sink, F: Files>(
    w: &mut World,
    io: &mut Io<'_, I, O, N, F>,
) -> Result<(), Stop>
    ensures means { (at : ToldAtStart) (coming : List ℕ) (s : State) → Ties at (told_in O.contents N.contents I.left w.old io.old) coming s → PrintsTied at result (told_in O.contents N.contents I.left w.new io.new) coming s }
    ensures empty { w.new.output.waiting ≡ [] }
    ensures noted { w.new.notes ≡ [] }
    ensures untaken { TakesNothing (told_in O.contents N.contents I.left w.old io.old) (told_in O.contents N.contents I.left w.new io.new) }
    ensures stop { IfErr result (λ why. (why ≡ stop.Write) × (Rose (O.faults io.old.out.now) (O.faults io.new.out.now) ⊎ Rose (N.faults io.old.notes.now) (N.faults io.new.notes.now))) }
    ensures faults { FlushFaults result (O.faults io.old.out.now) (O.faults io.new.out.now) (N.faults io.old.notes.now) (N.faults io.new.notes.now) }
    ensures grows { IsWorld w.old → WorldGrows w.old w.new }
    ensures rest { EmptiesBuffersAlone w.old w.new io.old io.new }
{
    match w.flush(io) {
        Ok(()) => Ok(()),
        Err(why) => Err(why),
    }
}

/// The next byte of the input, or None where there is none.
pub fn next_byte<I: Source, O: Sink, N: Sink, F: Files>(
    w: &mut World,
    io: &mut Io<'_, I, O, N, F>,
) -> Result<Option<u8>, Stop>
    ensures means { IfOk result (λ b. TakesInput (told_in O.contents N.contents I.left w.old io.old) (told_in O.contents N.contents I.left w.new io.new) (EndsTied (GivesNext b) (told_in O.contents N.contents I.left w.new io.new))) }
    ensures back { IfOk result (λ b. (w.new.input.back ≡ None) × (w.new.input.given ≡ given_after b w.old.input.given)) }
    ensures cut { IfErr result (λ why. (at : ToldAtStart) (coming : List ℕ) (s : State) → Ties at (told_in O.contents N.contents I.left w.old io.old) coming s → LeavesFronts at (told_in O.contents N.contents I.left w.new io.new) s) }
    ensures stop { IfErr result (λ why. ((why ≡ stop.Write) × Rose (O.faults io.old.out.now) (O.faults io.new.out.now)) ⊎ ((why ≡ stop.Read) × Rose (I.faults io.old.input.now) (I.faults io.new.input.now))) }
    ensures faults { TakingFaults result (O.faults io.old.out.now) (O.faults io.new.out.now) (I.faults io.old.input.now) (I.faults io.new.input.now) }
    ensures grows { IsWorld w.old → WorldGrows w.old w.new }
    ensures rest { ChangesInputAlone w.old w.new io.old io.new }
{
    match w.input_byte(io) {
        Ok(b) => Ok(b),
        Err(why) => Err(why),
    }
}

/// Puts back the byte that was given last.
pub fn put_back(w: &mut World, b: u8)
    requires none_back { w.old.input.back ≡ None }
    requires given { 1 ≤ w.old.input.given }
    ensures means { (at : ToldAtStart) (o : Option (List ℕ)) (n : Option (List ℕ)) (i : Option (List ℕ)) (coming : List ℕ) (s : State) → Ties at (and_told w.old o n i) coming s → Ties at (and_told w.new o n i) coming (given_back b s) }
    ensures grows { IsWorld w.old → WorldGrows w.old w.new }
    ensures rest { w.new ≡ record w.old { input = record w.old.input { back = Some b; given = w.old.input.given - 1 } } }
{
    w.input_back(b);
}

/// The next byte of the input, which stays there.
pub fn peek<I: Source, O: Sink, N: Sink, F: Files>(
    w: &mut World,
    io: &mut Io<'_, I, O, N, F>,
) -> Result<Option<u8>, Stop>
    requires few { w.old.input.given < 2 ^ 64 - 1 }
    ensures means { IfOk result (λ b. TakesInput (told_in O.contents N.contents I.left w.old io.old) (told_in O.contents N.contents I.left w.new io.new) (EndsTied (SeesNext b) (told_in O.contents N.contents I.left w.new io.new))) }
    ensures cut { IfErr result (λ why. (at : ToldAtStart) (coming : List ℕ) (s : State) → Ties at (told_in O.contents N.contents I.left w.old io.old) coming s → LeavesFronts at (told_in O.contents N.contents I.left w.new io.new) s) }
    ensures stop { IfErr result (λ why. ((why ≡ stop.Write) × Rose (O.faults io.old.out.now) (O.faults io.new.out.now)) ⊎ ((why ≡ stop.Read) × Rose (I.faults io.old.input.now) (I.faults io.new.input.now))) }
    ensures faults { TakingFaults result (O.faults io.old.out.now) (O.faults io.new.out.now) (I.faults io.old.input.now) (I.faults io.new.input.now) }
    ensures grows { IsWorld w.old → WorldGrows w.old w.new }
    ensures rest { ChangesInputAlone w.old w.new io.old io.new }
{
    match next_byte(w, io) {
        Ok(Some(b)) => {
            put_back(w, b);
            Ok(Some(b))
        }
        Ok(None) => Ok(None),
        Err(why) => Err(why),
    }
}
