//! What has begun, innermost first.

ghost use Rattle.std.specs.Prelude.{◌≡◌, ◌<◌, [], ◌∷◌, length, IfSome, IfNone};
ghost use Rattle.rl_parse.specs.Frames.{nested_in};

use crate::frame::Frame;
use arrayvec::ArrayVec;
use std::marker::Model;

/// Frames, and how many are unfinished in an operand of the innermost. A contract sees the frames, the innermost first.
#[derive(Drop)]
pub(crate) struct Stack {
    frames: ArrayVec<Frame, 2240>,
    nested: u16,
}

impl Model for Stack {
    ghost use Rattle.std.specs.Prelude.{◌≡◌, List, reverse};
    ghost use Rattle.rl_parse.specs.declared.frame.Frame.{Frame};
    ghost use Rattle.rl_parse.specs.Frames.{nested_in};

    ghost Value = { List Frame };

    ghost view = { λ a. reverse a.frames.items };

    ghost invariant = { λ a. a.nested ≡ nested_in (reverse a.frames.items) };
}

impl Stack {
    /// Nothing has begun.
    pub(crate) fn new() -> Stack
        ensures { result ≡ [] }
    {
        Stack {
            frames: ArrayVec::new(),
            nested: 1,
        }
    }

    /// One more has begun.
    pub(crate) fn push(&mut self, frame: Frame)
        requires { length self.old < 2240 }
        ensures { self.new ≡ frame ∷ self.old }
    {
        self.frames.push(frame);
        match frame {
            Frame::Side(_) => {}
            _ => self.nested += 1,
        }
    }

    /// Takes off the innermost.
    pub(crate) fn pop(&mut self) -> Option<Frame>
        ensures some { IfSome result (λ frame. self.old ≡ frame ∷ self.new) }
        ensures none { IfNone result (self.old ≡ []) }
        ensures empty { IfNone result (self.new ≡ []) }
        ensures room { length self.new < 2240 }
    {
        // No more than there is room for.
        let _frames = self.frames.as_slice();
        let frame = self.frames.pop()?;
        match frame {
            Frame::Side(_) => {}
            _ => self.nested -= 1,
        }
        Some(frame)
    }

    /// How many are unfinished in an operand of the innermost.
    pub(crate) fn nested(&self) -> u16
        ensures { result ≡ nested_in self.now }
    {
        self.nested
    }
}
