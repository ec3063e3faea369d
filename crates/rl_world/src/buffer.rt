//! Bytes that wait to be written.
ghost use Rattle.std.specs.Prelude.{◌≡◌, [], ◌∷◌, ◌++◌, OnOk, OnErr};
ghost use Rattle.rl_io.specs.Faults.{Rose};
ghost use Rattle.rl_world.specs.Waiting.{GoesOut, FrontGoesOut};

use arrayvec::ArrayVec;
use rl_io::{Failed, Sink};
use std::marker::Model;

/// Bytes that wait to be written, fewer than 4,096. A contract sees them.
#[derive(Drop)]
pub struct Buffer {
    bytes: ArrayVec<u8, 4096>,
}

impl Model for Buffer {
    ghost use Rattle.std.specs.Prelude.{List, ℕ, ◌<◌};
    ghost use Rattle.arrayvec.specs.ArrayVec.{array_vec_len};

    ghost Value = { List ℕ };

    ghost view = { λ a. a.bytes.items };

    ghost invariant = { λ a. array_vec_len a.bytes < 4096 };
}

impl Buffer {
    pub(crate) fn new() -> Buffer
        ensures { result ≡ [] }
    {
        Buffer {
            bytes: ArrayVec::new(),
        }
    }

    /// Adds a byte, and writes all when they are 4,096. After `Failed` a front of them may have been written, and none waits.
    pub(crate) fn put<S: Sink>(&mut self, b: u8, sink: &mut S) -> Result<(), Failed>
        ensures ok { OnOk result (GoesOut (S.contents sink.old) self.old (S.contents sink.new) self.new (b ∷ [])) }
        ensures front { OnErr result (FrontGoesOut (S.contents sink.old) (S.contents sink.new) (self.old ++ b ∷ [])) }
        ensures dropped { OnErr result (self.new ≡ []) }
        ensures steady { OnOk result (S.faults sink.new ≡ S.faults sink.old) }
        ensures failed { OnErr result (Rose (S.faults sink.old) (S.faults sink.new)) }
    {
        self.bytes.push(b);
        if self.bytes.len() < 4096 {
            return Ok(());
        }
        let written = sink.write(self.bytes.as_slice());
        self.bytes.clear();
        written
    }

    /// Writes all that waits. After `Failed` a front of it may have been written, and none waits.
    pub(crate) fn flush<S: Sink>(&mut self, sink: &mut S) -> Result<(), Failed>
        ensures ok { OnOk result (GoesOut (S.contents sink.old) self.old (S.contents sink.new) self.new []) }
        ensures front { FrontGoesOut (S.contents sink.old) (S.contents sink.new) self.old }
        ensures empty { self.new ≡ [] }
        ensures steady { OnOk result (S.faults sink.new ≡ S.faults sink.old) }
        ensures failed { OnErr result (Rose (S.faults sink.old) (S.faults sink.new)) }
    {
        if self.bytes.is_empty() {
            return Ok(());
        }
        let written = sink.write(self.bytes.as_slice());
        self.bytes.clear();
        written
    }
}
