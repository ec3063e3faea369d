//! The values that variables have.
ghost use Rattle.std.specs.Prelude.{◌≡◌, IsTrue};
ghost use Rattle.rl_cells.specs.Cell.{is_live};
ghost use Rattle.rl_meaning.specs.State.{State};
ghost use Rattle.rl_syms.specs.Table.{is_id};
ghost use Rattle.rl_state.specs.ShownState.{number_in};
ghost use Rattle.rl_state.specs.ShownState.{ShowsState, option_value_in, value_seen};
ghost use Rattle.rl_state.specs.Worlds.{IsWorld, WorldGrows, ObjectsAlone, SeenOtherwise};
ghost use Rattle.std.specs.Option.{ForSome};

use rl_syms::laws::{functions_stand, identifiers_are_numbered};
use rl_tags::Val;
use rl_world::World;
use rl_world::laws::counts_are_taken;

/// Gives a value cell another value, or none: in the definition a binding, the end of one, or a setting.
pub fn set_cell(w: &mut World, id: Val, v: Option<Val>)
    requires world { IsWorld w.old }
    requires id { IsTrue (is_id w.old.cells.cells id) }
    requires v_live { ForSome v (λ x. IsTrue (is_live w.old.cells.cells x)) }
    ensures shows { (s t : State) → ShowsState w.old s → SeenOtherwise (number_in w.old.cells.cells id) (option_value_in w.old.cells.cells v) s t → ShowsState w.new t }
    ensures grows { WorldGrows w.old w.new }
    ensures rest { ObjectsAlone w.old w.new }
{
    counts_are_taken();
    functions_stand();
    identifiers_are_numbered();
    w.syms.set_value(&mut w.cells, id, v);
}

/// The value that a variable has.
pub fn cell(w: &World, id: Val) -> Option<Val>
    requires world { IsWorld w.now }
    requires id { IsTrue (is_id w.now.cells.cells id) }
    ensures seen { (s : State) → ShowsState w.now s → value_seen s (number_in w.now.cells.cells id) ≡ option_value_in w.now.cells.cells result }
    ensures live { ForSome result (λ v. IsTrue (is_live w.now.cells.cells v)) }
{
    w.syms.value(&w.cells, id)
}
