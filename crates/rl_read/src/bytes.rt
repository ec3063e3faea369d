//! Texts, byte by byte.
ghost use Rattle.std.specs.Borrow.{GName, MutBor};
ghost use Rattle.std.specs.Prelude.{◌≡◌, ◌≢◌, ◌<◌, ◌≤◌, ◌-◌, ◌+◌, ◌∷◌, ◌++◌, ◌⊎◌, ℕ, Bool, true, false, List, [], Option, Some, None, Err, length, drop, slice_get, option_map, IfOk, IfErr, OnErr, IsSome, IsErr};
ghost use Rattle.rl_io.specs.Faults.{Rose};
ghost use Rattle.rl_io.specs.Told.{WhereTold};
ghost use Rattle.rl_world.specs.Input.{Gives, Input, with_back};
ghost use Rattle.rl_world.specs.Counts.{tick_stop, ticked};
ghost use Rattle.rl_world.specs.declared.stop.Stop.{Stop};
ghost use Rattle.rl_world.specs.declared.stop.Stop.TheVariants as stop;
ghost use Rattle.rl_read.specs.Given.{FrontIsLeft, HasGiven, IsGiven, WantsTurn, is_fault, unread_slice};
ghost use Rattle.rl_read.specs.Taken.{TakesBytes, Unread};

use rl_io::{Files, Io, Sink, Source};
use rl_world::{Stop, World};
use std::marker::Model;

/// A text that gives its bytes one by one and takes the last one back.
///
/// Its source may tell which bytes are left, and once it has ended nothing comes of it. Its bytes take turns, or none does
/// and reading changes nothing of the world. What is unread rests on the text and on the world's place in the input alone.
pub trait Bytes {
    /// Whether each byte that is given takes a turn.
    ghost takes_turns: { Self → Bool };

    /// The byte that was put back, and where the source stands.
    ghost unread: { Self → Input → Unread };

    /// A number that each byte lowers, where bytes take no turns.
    ghost number: { Self → Input → ℕ };

    /// What is printed, where it is told: what the sink holds, and then these bytes, which wait.
    ghost printed: { Self → List ℕ → Option (List ℕ) };

    /// The count of failed reads.
    ghost reads: { Self → ℕ };

    /// The count of failed writes.
    ghost writes: { Self → ℕ };

    /// The type of what reading leaves as it is.
    ghost Kept: { Type 0 };

    /// What reading leaves as it is.
    ghost kept: { Self → Self.Kept };

    /// This byte may be put back.
    ghost may_put: { Self → Input → ℕ → Type 0 };

    /// The next byte; None exactly where none is left. It takes a turn, where bytes take turns. After a stop the counts are as before, and after a failed write a front of what is printed is left.
    fn next(&mut self, w: &mut World) -> Result<Option<u8>, Stop>
        ensures gives { IfOk result (λ b. TakesBytes (unread self.old w.old.input) (unread self.new w.new.input) (λ before now. Gives before now b)) }
        ensures turn { IfOk result (λ b. IsGiven (takes_turns self.old) w.old w.new b) }
        ensures stop { IfErr result (λ s. WantsTurn (takes_turns self.old) (unread self.old w.old.input) (unread self.new w.new.input) w.old w.new s ⊎ (is_fault s ≡ true)) }
        ensures lower { IfOk result (λ b. IsSome b → takes_turns self.old ≡ false → number self.new w.new.input < number self.old w.old.input) }
        ensures put { IfOk result (λ b. HasGiven (may_put self.new w.new.input) b) }
        ensures printed { result ≢ Err stop.Write → WhereTold (printed self.old w.old.output.waiting) (printed self.new w.new.output.waiting) (λ before now. now ≡ before) }
        ensures cut { result ≡ Err stop.Write → WhereTold (printed self.old w.old.output.waiting) (printed self.new w.new.output.waiting) FrontIsLeft }
        ensures read_failed { result ≡ Err stop.Read → Rose (reads self.old) (reads self.new) }
        ensures write_failed { result ≡ Err stop.Write → Rose (writes self.old) (writes self.new) }
        ensures steady_reads { result ≢ Err stop.Read → reads self.new ≡ reads self.old }
        ensures steady_writes { result ≢ Err stop.Write → writes self.new ≡ writes self.old }
        ensures same { takes_turns self.new ≡ takes_turns self.old }
        ensures kept { kept self.new ≡ kept self.old }
        ensures world { w.new ≡ record w.old { counts = w.new.counts; output = record w.old.output { waiting = w.new.output.waiting }; input = w.new.input } }
        ensures err { OnErr result (w.new.counts ≡ w.old.counts) }
        ensures leaves { takes_turns self.old ≡ false → w.new ≡ w.old };

    /// Puts back the byte that was given last.
    fn back(&mut self, w: &mut World, b: u8)
        requires { may_put self.old w.old.input b }
        ensures back { TakesBytes (unread self.old w.old.input) (unread self.new w.new.input) (λ before now. now ≡ b ∷ before) }
        ensures printed { WhereTold (printed self.old w.old.output.waiting) (printed self.new w.new.output.waiting) (λ before now. now ≡ before) }
        ensures steady_reads { reads self.new ≡ reads self.old }
        ensures steady_writes { writes self.new ≡ writes self.old }
        ensures same { takes_turns self.new ≡ takes_turns self.old }
        ensures kept { kept self.new ≡ kept self.old }
        ensures world { w.new ≡ record w.old { input = w.new.input } }
        ensures leaves { takes_turns self.old ≡ false → w.new ≡ w.old };
}

/// The bytes of a slice. They take no turns. A contract sees all of them, how many were given, and the one that was put back.
#[derive(Drop)]
pub struct SliceBytes<'a> {
    bytes: &'a [u8],
    at: usize,
    returned: Option<u8>,
}

impl<'a> Model for SliceBytes<'a> {
    ghost use Rattle.std.specs.Prelude.{◌≤◌, length, IfSome};
    ghost use Rattle.rl_read.specs.Given.{Slice};

    ghost Value = { Slice };

    ghost view = { λ a. record { bytes = a.bytes.now; at = a.at; returned = a.returned } };

    ghost invariant = { λ a. record { within : a.at ≤ length a.bytes.now; given : IfSome a.returned (λ b. 1 ≤ a.at) } };
}

impl<'a> SliceBytes<'a> {
    /// All bytes of the slice.
    pub fn new(bytes: &'a [u8]) -> SliceBytes<'a>
        ensures { result ≡ record { bytes = bytes.now; at = 0; returned = None } }
    {
        SliceBytes {
            bytes,
            at: 0,
            returned: None,
        }
    }
}

impl Bytes for SliceBytes<'_> {
    ghost takes_turns = { λ _. false };

    ghost unread = { λ s _. unread_slice s };

    ghost number = { λ s _. length (with_back s.returned (drop s.at s.bytes)) };

    ghost printed = { λ _ waiting. Some waiting };

    ghost reads = { λ _. 0 };

    ghost writes = { λ _. 0 };

    ghost Kept = { List ℕ };

    ghost kept = { λ s. s.bytes };

    ghost may_put = { λ s _ _. (s.returned ≡ None) × (1 ≤ s.at) };

    fn next(&mut self, _w: &mut World) -> Result<Option<u8>, Stop> {
        if let Some(b) = self.returned {
            self.returned = None;
            return Ok(Some(b));
        }
        if self.at == self.bytes.len() {
            return Ok(None);
        }
        let b = self.bytes[self.at];
        self.at += 1;
        Ok(Some(b))
    }

    fn back(&mut self, _w: &mut World, b: u8) {
        self.returned = Some(b);
    }
}

/// The bytes of the input. Each that is given takes a turn. The notes, the files, and the references to all four objects stay.
impl<I: Source, O: Sink, N: Sink, F: Files> Bytes for Io<'_, I, O, N, F> {
    ghost takes_turns = { λ _. true };

    ghost unread = { λ io input. record { returned = input.back; given = input.given; ended = input.ended; left = I.left io.input.now } };

    ghost number = { λ _ _. 0 };

    ghost printed = { λ io waiting. option_map (λ bytes. bytes ++ waiting) (O.contents io.out.now) };

    ghost reads = { λ io. I.faults io.input.now };

    ghost writes = { λ io. O.faults io.out.now };

    ghost Kept = { GName × GName × MutBor N × MutBor F };

    ghost kept = { λ io. (io.input.ghost_name, io.out.ghost_name, io.notes, io.files) };

    ghost may_put = { λ _ input b. (input.back ≡ None) × (1 ≤ input.given) };

    fn next(&mut self, w: &mut World) -> Result<Option<u8>, Stop> {
        let b = match w.input_byte(self) {
            Ok(b) => b,
            Err(s) => return Err(s),
        };
        if b.is_some() {
            if let Err(s) = w.tick() {
                return Err(s);
            }
        }
        Ok(b)
    }

    fn back(&mut self, w: &mut World, b: u8) {
        w.input_back(b);
    }
}
