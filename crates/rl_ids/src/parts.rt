//! Parts of pairs, where what is no pair has none.
ghost use Rattle.std.specs.Prelude.{◌≡◌, IsTrue};
ghost use Rattle.std.specs.Option.{ForSome};
ghost use Rattle.rl_cells.specs.Cell.{is_live};
ghost use Rattle.rl_meaning.specs.Constants.{changing};
ghost use Rattle.rl_meaning.specs.Lists.{cdr_set};
ghost use Rattle.rl_meaning.specs.Properties.{value_at};
ghost use Rattle.rl_meaning.specs.State.{State};
ghost use Rattle.rl_meaning.specs.Symbols.{car_at, cdr_at};
ghost use Rattle.rl_state.specs.Ending.{IsShownBeside};
ghost use Rattle.rl_state.specs.ShownState.{ShowsState, option_value_in};
ghost use Rattle.rl_state.specs.Worlds.{IsWorld, ObjectsAlone, WorldGrows};
ghost use Rattle.rl_syms.specs.Contents.{value_of};

use rl_state::laws::steps_follow;
use rl_state::{parts, set_cdr};
use rl_tags::{NIL, Val};
use rl_world::World;

/// The car of a pair, NIL of any other value.
pub(crate) fn car_or_nil(w: &World, v: Val) -> Val
    requires world { IsWorld w.now }
    requires live { IsTrue (is_live w.now.cells.cells v) }
    ensures means { (s : State) → ShowsState w.now s → value_of w.now.cells.cells result ≡ car_at s (value_of w.now.cells.cells v) }
    ensures live { IsTrue (is_live w.now.cells.cells result) }
{
    match parts(w, v) {
        Some(p) => p.0,
        None => NIL,
    }
}

/// The cdr of a pair, NIL of any other value.
pub(crate) fn cdr_or_nil(w: &World, v: Val) -> Val
    requires world { IsWorld w.now }
    requires live { IsTrue (is_live w.now.cells.cells v) }
    ensures means { (s : State) → ShowsState w.now s → value_of w.now.cells.cells result ≡ cdr_at s (value_of w.now.cells.cells v) }
    ensures live { IsTrue (is_live w.now.cells.cells result) }
{
    match parts(w, v) {
        Some(p) => p.1,
        None => NIL,
    }
}

/// The value of the property that this pair of a property list holds, NIL of none.
pub(crate) fn property_value(w: &World, pair: Option<Val>) -> Val
    requires world { IsWorld w.now }
    requires live { ForSome pair (λ v. IsTrue (is_live w.now.cells.cells v)) }
    ensures means { (s : State) → ShowsState w.now s → value_of w.now.cells.cells result ≡ value_at s (option_value_in w.now.cells.cells pair) }
    ensures live { IsTrue (is_live w.now.cells.cells result) }
{
    match pair {
        Some(v) => cdr_or_nil(w, car_or_nil(w, v)),
        None => NIL,
    }
}

/// Makes `d` the cdr of a pair, and is noted as a change of it.
pub(crate) fn change_cdr(w: &mut World, p: Val, d: Val)
    requires world { IsWorld w.old }
    requires p_live { IsTrue (is_live w.old.cells.cells p) }
    requires d_live { IsTrue (is_live w.old.cells.cells d) }
    ensures means { (s : State) → ShowsState w.old s → IsShownBeside w.new s (changing (value_of w.old.cells.cells p) (cdr_set (value_of w.old.cells.cells p) (value_of w.old.cells.cells d) s)) }
    ensures grows { WorldGrows w.old w.new }
    ensures rest { ObjectsAlone w.old w.new }
{
    steps_follow();
    match parts(w, p) {
        Some(_parts) => set_cdr(w, p, d),
        None => {}
    }
}
