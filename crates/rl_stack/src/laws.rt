//! Laws of what a world and a stack show. A law is the contract of a function that does nothing.
ghost use Rattle.rl_stack.specs.StackLaws.{EmptyStackShows, StackDetermines, StackStays, StackedStays, WatchedIsHidden};

use rl_state::laws::{a_world_determines_a_state, a_world_shows_a_state};
use rl_syms::laws::identifiers_are_numbered;

/// A world and a stack determine a state but for what is beside both.
pub fn a_stack_determines_a_state()
    ensures { StackDetermines }
{
    a_world_determines_a_state();
    identifiers_are_numbered();
}

/// Each world shows a state with a stack on which nothing is bound.
pub fn an_empty_stack_shows_a_state()
    ensures { EmptyStackShows }
{
    a_world_shows_a_state();
}

/// Calls that leave the bindings leave the stack shown.
pub fn a_stack_stays()
    ensures { StackStays }
{}

/// What is watched, held forms and their code are no part of what is shown.
pub fn what_is_watched_is_hidden()
    ensures { WatchedIsHidden }
{}

/// Values that wait, places, slots and registers leave what is shown, and are live with what they hold.
pub fn what_is_stacked_stays()
    ensures { StackedStays }
{}
