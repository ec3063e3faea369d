//! What comes in and goes out.
ghost use Rattle.std.specs.Prelude.{◌≡◌, ◌≢◌, ◌⊎◌, ◌∷◌, ◌++◌, None, Some, true, false, [], Err, OnOk, OnErr, IfOk, IfErr, IfSome};
ghost use Rattle.rl_io.specs.Faults.{Rose};
ghost use Rattle.rl_io.specs.Told.{WhereTold};
ghost use Rattle.rl_world.specs.Input.{Gives, ended_after, given_after, to_come};
ghost use Rattle.rl_tree.specs.Printing.{column_with};
ghost use Rattle.rl_world.specs.Waiting.{GoesOut, FrontGoesOut};
ghost use Rattle.rl_world.specs.Writing.{ChangesNotesAlone, ChangesOutAlone, EmptiesBuffersAlone, FlushFaults, OnlyWriteFaults};
ghost use Rattle.rl_world.specs.declared.stop.Stop.TheVariants as stop;

use crate::stop::Stop;
use crate::world::World;
use rl_io::{Files, Io, Sink, Source};

impl World {
    /// Prints a byte, and writes what waits when it is 4,096 bytes. After `Stop::Write` a front of what waited, with the byte,
    /// may have been written, and none waits.
    pub fn put_byte<I: Source, O: Sink, N: Sink, F: Files>(
        &mut self,
        b: u8,
        io: &mut Io<'_, I, O, N, F>,
    ) -> Result<(), Stop>
        ensures ok { OnOk result (GoesOut (O.contents io.old.out.now) self.old.output.waiting (O.contents io.new.out.now) self.new.output.waiting (b ∷ [])) }
        ensures front { OnErr result (FrontGoesOut (O.contents io.old.out.now) (O.contents io.new.out.now) (self.old.output.waiting ++ b ∷ [])) }
        ensures column { self.new.output.column ≡ column_with self.old.output.column b }
        ensures faults { OnlyWriteFaults result (O.faults io.old.out.now) (O.faults io.new.out.now) self.new.output.waiting }
        ensures outside { ChangesOutAlone self.old self.new io.old io.new }
    {
        match self.output.put(b, io.out) {
            Ok(()) => Ok(()),
            Err(_) => Err(Stop::Write),
        }
    }

    /// Adds a byte to the notes, and writes those that wait when they are 4,096 bytes. After `Stop::Write` a front of them may
    /// have been written, and none waits.
    pub fn note_byte<I: Source, O: Sink, N: Sink, F: Files>(
        &mut self,
        b: u8,
        io: &mut Io<'_, I, O, N, F>,
    ) -> Result<(), Stop>
        ensures ok { OnOk result (GoesOut (N.contents io.old.notes.now) self.old.notes (N.contents io.new.notes.now) self.new.notes (b ∷ [])) }
        ensures front { OnErr result (FrontGoesOut (N.contents io.old.notes.now) (N.contents io.new.notes.now) (self.old.notes ++ b ∷ [])) }
        ensures faults { OnlyWriteFaults result (N.faults io.old.notes.now) (N.faults io.new.notes.now) self.new.notes }
        ensures outside { ChangesNotesAlone self.old self.new io.old io.new }
    {
        match self.notes.put(b, io.notes) {
            Ok(()) => Ok(()),
            Err(_) => Err(Stop::Write),
        }
    }

    /// Writes what waits: first what was printed, and then the notes, also where the first write failed. After `Stop::Write` a
    /// front of each may have been written, and none waits.
    pub fn flush<I: Source, O: Sink, N: Sink, F: Files>(
        &mut self,
        io: &mut Io<'_, I, O, N, F>,
    ) -> Result<(), Stop>
        ensures printed { OnOk result (GoesOut (O.contents io.old.out.now) self.old.output.waiting (O.contents io.new.out.now) [] []) }
        ensures noted { OnOk result (GoesOut (N.contents io.old.notes.now) self.old.notes (N.contents io.new.notes.now) [] []) }
        ensures printed_front { FrontGoesOut (O.contents io.old.out.now) (O.contents io.new.out.now) self.old.output.waiting }
        ensures noted_front { FrontGoesOut (N.contents io.old.notes.now) (N.contents io.new.notes.now) self.old.notes }
        ensures faults { FlushFaults result (O.faults io.old.out.now) (O.faults io.new.out.now) (N.faults io.old.notes.now) (N.faults io.new.notes.now) }
        ensures outside { EmptiesBuffersAlone self.old self.new io.old io.new }
    {
        let printed = self.output.flush(io.out);
        let noted = self.notes.flush(io.notes);
        if printed.is_ok() && noted.is_ok() {
            Ok(())
        } else {
            Err(Stop::Write)
        }
    }

    /// Writes what was printed and waits, and takes the next byte of the input, None where there is none, and from then on. A
    /// byte that was put back is taken without a read. After `Stop::Write` a front of what waited may have been written, none
    /// waits, and the input is as before; after `Stop::Read` all that waited is written, and the place in the input is as
    /// before.
    pub fn input_byte<I: Source, O: Sink, N: Sink, F: Files>(
        &mut self,
        io: &mut Io<'_, I, O, N, F>,
    ) -> Result<Option<u8>, Stop>
        ensures comes { IfOk result (λ b. WhereTold (I.left io.old.input.now) (I.left io.new.input.now) (λ before now. Gives (to_come self.old.input before) (to_come self.new.input now) b)) }
        ensures gives { IfOk result (λ b. self.old.input.back ≡ None → self.old.input.ended ≡ false → WhereTold (I.left io.old.input.now) (I.left io.new.input.now) (λ before now. Gives before now b)) }
        ensures at_end { IfOk result (λ b. self.old.input.back ≡ None → self.old.input.ended ≡ true → b ≡ None) }
        ensures unread_back { IfSome self.old.input.back (λ c. io.new.input.now ≡ io.old.input.now) }
        ensures unread_end { self.old.input.ended ≡ true → io.new.input.now ≡ io.old.input.now }
        ensures back { IfOk result (λ b. IfSome self.old.input.back (λ c. b ≡ Some c)) }
        ensures place { IfOk result (λ b. self.new.input ≡ record { back = None; given = given_after b self.old.input.given; ended = ended_after b self.old.input.ended }) }
        ensures printed { result ≢ Err stop.Write → GoesOut (O.contents io.old.out.now) self.old.output.waiting (O.contents io.new.out.now) [] [] }
        ensures printed_front { FrontGoesOut (O.contents io.old.out.now) (O.contents io.new.out.now) self.old.output.waiting }
        ensures stop { IfErr result (λ s. (s ≡ stop.Write) ⊎ (s ≡ stop.Read)) }
        ensures err { OnErr result (self.new.input ≡ self.old.input) }
        ensures write_failed { result ≡ Err stop.Write → Rose (O.faults io.old.out.now) (O.faults io.new.out.now) }
        ensures read_failed { result ≡ Err stop.Read → Rose (I.faults io.old.input.now) (I.faults io.new.input.now) }
        ensures steady_out { result ≢ Err stop.Write → O.faults io.new.out.now ≡ O.faults io.old.out.now }
        ensures steady_input { result ≢ Err stop.Read → I.faults io.new.input.now ≡ I.faults io.old.input.now }
        ensures unread { result ≡ Err stop.Write → io.new.input.now ≡ io.old.input.now }
        ensures world { self.new ≡ record self.old { output = record self.old.output { waiting = [] }; input = self.new.input } }
        ensures rest { io.new ≡ record io.old { input = io.new.input; out = io.new.out } }
        ensures same_input { io.new.input.ghost_name ≡ io.old.input.ghost_name }
        ensures same_out { io.new.out.ghost_name ≡ io.old.out.ghost_name }
    {
        if self.output.flush(io.out).is_err() {
            return Err(Stop::Write);
        }
        match self.input.next(io.input) {
            Ok(b) => Ok(b),
            Err(_) => Err(Stop::Read),
        }
    }
}
