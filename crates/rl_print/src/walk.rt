//! Where printing stands.

use rl_tags::Val;

/// What waits behind an element: the rest of its list; or a vector, the place that comes next, and whether `)` stands behind
/// its end.
#[derive(Clone, Copy)]
pub(crate) enum Cursor {
    Rest(Val),
    Places(Val, u64, bool),
}

/// What is printed next: an element and what waits behind it, or what waits.
#[derive(Clone, Copy)]
pub(crate) enum State {
    Element(Val, Cursor),
    Next(Cursor),
}

/// What is printed at once: a mark, an atom, or a dot, an atom and `)`.
#[derive(Clone, Copy)]
pub(crate) enum Piece<'a> {
    Mark(&'a [u8]),
    Atom(Val),
    Dotted(Val),
}
