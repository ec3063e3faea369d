//! System errors.
ghost use Rattle.std.specs.Prelude.{◌≡◌, ◌≤◌, IsTrue, pos};
ghost use Rattle.rl_cells.specs.Cell.{is_live};
ghost use Rattle.rl_meaning.specs.State.{State};
ghost use Rattle.rl_meaning.specs.Symbols.{message_id, with_top};
ghost use Rattle.rl_syms.specs.Contents.{value_of};
ghost use Rattle.rl_state.specs.ShownState.{ShowsState};
ghost use Rattle.rl_state.specs.Worlds.{IsWorld, WorldGrows, ObjectsAlone};
ghost use Rattle.rl_state.specs.Ending.{IsAnswerLive, MeansAnswer};
ghost use Rattle.rl_meaning.specs.Errors.{fail as failing};
ghost use Rattle.rl_tags.specs.Tagged.{Number};

use crate::objects::pair;
use rl_syms::laws::{functions_stand, identifiers_are_numbered};
use rl_tags::{EMSG_STAR, NIL, Val};
use rl_world::laws::counts_are_taken;
use rl_world::{NStep, World};

/// Makes this the message of an error.
fn set_message(w: &mut World, v: Val)
    requires world { IsWorld w.old }
    requires v_live { IsTrue (is_live w.old.cells.cells v) }
    ensures shows { (s : State) → ShowsState w.old s → ShowsState w.new (with_top message_id (value_of w.old.cells.cells v) s) }
    ensures grows { WorldGrows w.old w.new }
    ensures rest { ObjectsAlone w.old w.new }
{
    counts_are_taken();
    functions_stand();
    identifiers_are_numbered();
    w.syms.set_value(&mut w.cells, EMSG_STAR, Some(v));
}

/// The number of an error.
fn number(n: u8) -> Val
    ensures { result ≡ Number (pos n) }
{
    Val::small(i64::from(n))
}

/// A system error.
pub fn fail(w: &mut World, n: u8, culprit: Val) -> NStep
    requires world { IsWorld w.old }
    requires some { 10 ≤ n }
    requires few { n ≤ 23 }
    requires culprit_live { IsTrue (is_live w.old.cells.cells culprit) }
    ensures means { (s : State) → ShowsState w.old s → MeansAnswer s (failing n (value_of w.old.cells.cells culprit) s) result w.new }
    ensures live { IsAnswerLive w.new.cells.cells result }
    ensures grows { WorldGrows w.old w.new }
    ensures rest { ObjectsAlone w.old w.new }
{
    counts_are_taken();
    let text = w.error_text(n);
    let rest = match pair(w, text, NIL) {
        Ok(v) => v,
        Err(why) => return NStep::Stop(why),
    };
    let message = match pair(w, culprit, rest) {
        Ok(v) => v,
        Err(why) => return NStep::Stop(why),
    };
    set_message(w, message);
    NStep::Error(number(n), message)
}
