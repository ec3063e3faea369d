//! The place in the input.
ghost use Rattle.std.specs.Prelude.{◌≡◌, ◌-◌, ◌^◌, ◌≤◌, min, None, Some, true, false, IfOk, IfSome, OnErr, OnOk};
ghost use Rattle.rl_io.specs.Faults.{Rose};
ghost use Rattle.rl_io.specs.Told.{WhereTold};
ghost use Rattle.rl_world.specs.Input.{Gives, ended_after, given_after, to_come};

use rl_io::{Failed, Source};
use std::marker::Model;

/// The largest number of bytes that is told.
const MOST_TAKEN: u64 = (1 << 59) - 1;

/// A byte that was put back, how many bytes were given and not put back, and whether the source has ended: a terminal may
/// go on after its end, and then its further bytes are none of the input.
#[derive(Drop)]
pub struct Input {
    back: Option<u8>,
    given: u64,
    ended: bool,
}

impl Model for Input {
    ghost use Rattle.rl_world.specs.Input.{Input};

    ghost Value = { Input };

    ghost view = { λ a. record { back = a.back; given = a.given; ended = a.ended } };
}

impl Input {
    pub(crate) fn new() -> Input
        ensures { result ≡ record { back = None; given = 0; ended = false } }
    {
        Input {
            back: None,
            given: 0,
            ended: false,
        }
    }

    /// The next byte: the one that was put back, or the first of the source; None where there is none, and from then on.
    /// After `Failed` the place is as before.
    pub(crate) fn next<S: Source>(&mut self, source: &mut S) -> Result<Option<u8>, Failed>
        ensures comes { IfOk result (λ b. WhereTold (S.left source.old) (S.left source.new) (λ before now. Gives (to_come self.old before) (to_come self.new now) b)) }
        ensures gives { IfOk result (λ b. self.old.back ≡ None → self.old.ended ≡ false → WhereTold (S.left source.old) (S.left source.new) (λ before now. Gives before now b)) }
        ensures at_end { IfOk result (λ b. self.old.back ≡ None → self.old.ended ≡ true → b ≡ None) }
        ensures unread_back { IfSome self.old.back (λ c. source.new ≡ source.old) }
        ensures unread_end { self.old.ended ≡ true → source.new ≡ source.old }
        ensures back { IfOk result (λ b. IfSome self.old.back (λ c. b ≡ Some c)) }
        ensures place { IfOk result (λ b. self.new ≡ record { back = None; given = given_after b self.old.given; ended = ended_after b self.old.ended }) }
        ensures err { OnErr result (self.new ≡ self.old) }
        ensures none_back { OnErr result (self.old.back ≡ None) }
        ensures steady { OnOk result (S.faults source.new ≡ S.faults source.old) }
        ensures failed { OnErr result (Rose (S.faults source.old) (S.faults source.new)) }
    {
        let next = match self.back {
            Some(b) => Some(b),
            None => { if self.ended { None } else { first_of(source)? } }
        };
        self.back = None;
        match next {
            Some(_) => self.given = self.given.saturating_add(1),
            None => self.ended = true,
        }
        Ok(next)
    }

    /// Puts back the byte that was given last.
    pub(crate) fn put_back(&mut self, b: u8)
        requires none_back { self.old.back ≡ None }
        requires given { 1 ≤ self.old.given }
        ensures { self.new ≡ record { back = Some b; given = self.old.given - 1; ended = self.old.ended } }
    {
        self.back = Some(b);
        self.given -= 1;
    }

    /// How many bytes were given and not put back, or 2^59 - 1 where they are more.
    pub(crate) fn taken(&self) -> u64
        ensures { result ≡ min self.now.given (2 ^ 59 - 1) }
    {
        self.given.min(MOST_TAKEN)
    }
}

/// The first byte of a source, or None at its end.
fn first_of<S: Source>(source: &mut S) -> Result<Option<u8>, Failed>
    ensures gives { IfOk result (λ b. WhereTold (S.left source.old) (S.left source.new) (λ before now. Gives before now b)) }
    ensures steady { OnOk result (S.faults source.new ≡ S.faults source.old) }
    ensures failed { OnErr result (Rose (S.faults source.old) (S.faults source.new)) }
{
    let mut byte = [0];
    let n = source.read(&mut byte)?;
    Ok(if n == 0 { None } else { Some(byte[0]) })
}
