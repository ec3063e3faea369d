//! The list of cells as proofs know it. It takes no memory, and its methods do nothing at run time.
ghost use Rattle.std.specs.Prelude.{◌≡◌, List, []};
ghost use Rattle.std.specs.Borrow.{ftrue};
ghost use Rattle.rl_cells.specs.Cell.{Cell};

use rl_tags::{Tag, Val};
use std::marker::Model;

#[derive(Drop)]
pub(crate) struct Objects {
    pub ghost cells: { List Cell },
}

impl Model for Objects {
    ghost also_owns = { λ _. ftrue };
}

/// What a call does to the cells.
#[derive(Clone, Copy, Drop)]
pub(crate) enum Change<'a> {
    Pair(Val, Val),
    Str(&'a [u8]),
    Vector(u32),
    SetCar(usize, Val),
    SetCdr(usize, Val),
    Put(usize, usize, Val),
    Big(i128),
    Block(Tag, u32),
    SetWord(usize, usize, u64),
    Cut(usize),
}

impl Objects {
    ghost use Rattle.rl_cells.specs.Changed.{changed};

    pub(crate) fn new() -> Objects
        ensures { result.cells ≡ [] }
    {
        Objects {}
    }

    #[inline(always)]
    pub(crate) fn then(&self, _change: &Change<'_>) -> Objects
        ensures { result.cells ≡ changed self.now.cells _change.now }
    {
        Objects {}
    }
}
