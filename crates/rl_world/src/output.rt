//! What is printed: the bytes that wait, the column, and the line length.
ghost use Rattle.std.specs.Prelude.{◌≡◌, ◌≤◌, [], ◌∷◌, ◌++◌, OnOk, OnErr};
ghost use Rattle.rl_io.specs.Faults.{Rose};
ghost use Rattle.rl_tree.specs.Printing.{column_with};
ghost use Rattle.rl_world.specs.Waiting.{GoesOut, FrontGoesOut};

use crate::buffer::Buffer;
use rl_io::{Failed, Sink};
use std::marker::Model;

/// The line length at opening.
const LINE_LENGTH: u64 = 80;

/// The largest column.
const LAST_COLUMN: u64 = (1 << 59) - 1;

/// The bytes that wait, the bytes since the last end of line, and how long a line may be. A contract sees these.
#[derive(Drop)]
pub struct Output {
    buffer: Buffer,
    column: u64,
    line_length: u64,
}

impl Model for Output {
    ghost use Rattle.std.specs.Prelude.{◌≤◌, ◌-◌, ◌^◌};
    ghost use Rattle.rl_world.specs.Output.{Output};

    ghost Value = { Output };

    ghost view = { λ a. record { waiting = a.buffer; column = a.column; line_length = a.line_length } };

    ghost invariant = { λ a. a.column ≤ 2 ^ 59 - 1 };
}

impl Output {
    pub(crate) fn new() -> Output
        ensures { result ≡ record { waiting = []; column = 0; line_length = 80 } }
    {
        Output {
            buffer: Buffer::new(),
            column: 0,
            line_length: LINE_LENGTH,
        }
    }

    /// Prints a byte. After `Failed` a front of what waited, with the byte, may have been written, and none waits.
    pub(crate) fn put<S: Sink>(&mut self, b: u8, sink: &mut S) -> Result<(), Failed>
        ensures ok { OnOk result (GoesOut (S.contents sink.old) self.old.waiting (S.contents sink.new) self.new.waiting (b ∷ [])) }
        ensures front { OnErr result (FrontGoesOut (S.contents sink.old) (S.contents sink.new) (self.old.waiting ++ b ∷ [])) }
        ensures dropped { OnErr result (self.new.waiting ≡ []) }
        ensures page { self.new ≡ record self.old { waiting = self.new.waiting; column = column_with self.old.column b } }
        ensures steady { OnOk result (S.faults sink.new ≡ S.faults sink.old) }
        ensures failed { OnErr result (Rose (S.faults sink.old) (S.faults sink.new)) }
    {
        self.column = if b == b'\n' {
            0
        } else {
            (self.column + 1).min(LAST_COLUMN)
        };
        self.buffer.put(b, sink)
    }

    /// Writes all that waits. After `Failed` a front of it may have been written, and none waits.
    pub(crate) fn flush<S: Sink>(&mut self, sink: &mut S) -> Result<(), Failed>
        ensures ok { OnOk result (GoesOut (S.contents sink.old) self.old.waiting (S.contents sink.new) self.new.waiting []) }
        ensures front { FrontGoesOut (S.contents sink.old) (S.contents sink.new) self.old.waiting }
        ensures empty { self.new ≡ record self.old { waiting = [] } }
        ensures steady { OnOk result (S.faults sink.new ≡ S.faults sink.old) }
        ensures failed { OnErr result (Rose (S.faults sink.old) (S.faults sink.new)) }
    {
        self.buffer.flush(sink)
    }

    /// The bytes since the last end of line, or 2^59 - 1 where they are more.
    pub(crate) fn column(&self) -> u64
        ensures { result ≡ self.now.column }
    {
        self.column
    }

    /// How long a line may be.
    pub(crate) fn line_length(&self) -> u64
        ensures { result ≡ self.now.line_length }
    {
        self.line_length
    }

    /// Makes this the line length.
    pub(crate) fn set_line_length(&mut self, n: u64)
        requires some { 1 ≤ n }
        requires bounded { n ≤ 1000000 }
        ensures { self.new ≡ record self.old { line_length = n } }
    {
        self.line_length = n;
    }
}
