//! What has begun in a quoted spelling and is not whole yet.

ghost use Rattle.std.specs.Prelude.{◌≡◌, ◌<◌, ◌≤◌, List, [], ◌∷◌, length, IfOk, IfSome, IfNone};

use rl_io::OutOfMemory;
use std::alloc::Global;
use std::marker::Model;

/// The most bytes of a text, and so the most parts: a quoted spelling begins at most one with each byte.
const LONGEST: usize = 1_048_577;

/// A quote, a vector, or a list: one that has no element yet, has some, has its dot, or has what stands behind its dot.
#[derive(Clone, Copy)]
pub enum Part {
    Quote,
    Vector,
    Begun,
    Going,
    Dotted,
    Shut,
}

/// Parts, in memory that is taken once, at `new`. A contract sees them, the innermost first.
#[derive(Drop)]
pub struct Nest {
    parts: Vec<Part>,
}

impl Model for Nest {
    ghost use Rattle.std.specs.Prelude.{◌≤◌, List, reverse, vec_capacity};
    ghost use Rattle.rl_lex.specs.declared.nest.Part.{Part};

    ghost Value = { List Part };

    ghost view = { λ a. reverse a.parts.items };

    ghost invariant = { λ a. 1048577 ≤ vec_capacity a.parts };
}

impl Nest {
    /// Room for all that a text can begin. `OutOfMemory` if there is no memory for it.
    pub fn new(alloc: Global) -> Result<Nest, OutOfMemory>
        ensures { IfOk result (λ nest. nest ≡ []) }
    {
        Ok(Nest {
            parts: Vec::with_capacity(alloc, LONGEST)?,
        })
    }

    /// Nothing has begun.
    pub(crate) fn clear(&mut self)
        ensures { self.new ≡ [] }
    {
        self.parts.clear();
    }

    /// A part begins.
    pub(crate) fn push(&mut self, part: Part)
        requires { length self.old < 1048577 }
        ensures { self.new ≡ part ∷ self.old }
    {
        self.parts.push_reserved(part);
    }

    /// Takes off the innermost part.
    pub(crate) fn pop(&mut self) -> Option<Part>
        ensures some { IfSome result (λ part. self.old ≡ part ∷ self.new) }
        ensures none { IfNone result (self.old ≡ []) }
        ensures empty { IfNone result (self.new ≡ []) }
    {
        self.parts.pop()
    }
}
