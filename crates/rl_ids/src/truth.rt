//! T and NIL.
ghost use Rattle.std.specs.Prelude.{◌≡◌, IsTrue};
ghost use Rattle.rl_cells.specs.Cell.{is_live};
ghost use Rattle.rl_meaning.specs.Symbols.{truth};
ghost use Rattle.rl_state.specs.Worlds.{IsWorld};
ghost use Rattle.rl_syms.specs.Contents.{value_of};

use rl_tags::{NIL, T, Val};
use rl_world::World;

/// T where it holds, NIL where it does not.
pub(crate) fn truth(w: &World, holds: bool) -> Val
    requires { IsWorld w.now }
    ensures means { value_of w.now.cells.cells result ≡ truth holds }
    ensures live { IsTrue (is_live w.now.cells.cells result) }
{
    if holds { T } else { NIL }
}
