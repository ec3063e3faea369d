//! Laws of what a world means. A law is the contract of a function that does nothing.
ghost use Rattle.rl_state.specs.Worlds.{WorldDetermines};
ghost use Rattle.rl_state.specs.StateOfWorld.{WorldIsShown};
ghost use Rattle.rl_state.specs.StepLaws.{ObjectsAreShown, StepsFollow};
ghost use Rattle.std.specs.Prelude.{ℕ, List};
ghost use Rattle.rl_meaning.specs.State.{State};
ghost use Rattle.rl_state.specs.Ties.{EachWorldTies, ToldAtStart};
ghost use Rattle.rl_state.specs.TiesLaws.{OutputGrows, RunsAreTied, TakingsCompose};
ghost use Rattle.rl_state.specs.CellLaws.{AreCellLaws};

use rl_cells::laws::objects_are_added;
use rl_read::laws::names_are_found;
use rl_syms::laws::{
    functions_stand, identifiers_are_numbered, meaning_of_change, meaning_of_making,
    meaning_of_naming, meaning_of_reading, names_enter, others_leave_identifiers, table_is_kept,
};
use rl_world::laws::{bounds_are_kept, counts_are_taken, room_is_enough};
use std::marker::Brand;

/// What is known of cells.
pub(crate) fn cells_are_known()
    ensures { AreCellLaws }
{
    table_is_kept();
    others_leave_identifiers();
    meaning_of_making();
    meaning_of_change();
    meaning_of_reading();
    identifiers_are_numbered();
    names_enter();
    meaning_of_naming();
    objects_are_added();
    bounds_are_kept();
    room_is_enough();
    names_are_found();
    functions_stand();
}

/// A world determines a state but for what is beside it.
pub fn a_world_determines_a_state()
    ensures { WorldDetermines }
{
    identifiers_are_numbered();
}

/// Each world shows a state.
pub fn a_world_shows_a_state()
    ensures { WorldIsShown }
{
    identifiers_are_numbered();
}

/// What one call after another keeps, and that what is watched is not shown.
pub fn steps_follow()
    ensures { StepsFollow }
{
    counts_are_taken();
}

/// What a state has at a pair and at a vector of a world that shows it.
pub fn objects_are_shown()
    ensures { ObjectsAreShown }
{
    meaning_of_reading();
}

/// Each world has a state to which it ties, whatever is to come.
pub fn a_world_is_tied()
    ensures { EachWorldTies }
{
    identifiers_are_numbered();
}

/// A call that takes input, as laws speak of it: how its states are related, and what is meant behind it. A caller picks it.
pub trait Taking {
    ghost relates: { State → State → Type 0 };

    ghost behind: { ToldAtStart → List ℕ → State → Type 0 };
}

impl Taking for Brand {
    ghost relates = { λ s t. Unit {0} };

    ghost behind = { λ at rest s. Unit {0} };
}

/// Calls that take input, one after the other, take both.
pub fn takings_compose<T: Taking>()
    ensures { TakingsCompose T.relates T.behind }
{}

/// What stood where a write failed is a front of all that is printed, or noted, in the end.
pub fn output_grows()
    ensures { OutputGrows }
{}

/// A whole run: which bytes it took, and what it printed and noted for them, also where the objects tell nothing.
pub fn runs_are_tied<T: Taking>()
    ensures { RunsAreTied T.relates }
{
    identifiers_are_numbered();
}
