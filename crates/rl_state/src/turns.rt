//! Turns.
ghost use Rattle.std.specs.Prelude.{◌≡◌, OnErr, OnOk, ◌+◌};
ghost use Rattle.rl_meaning.specs.State.{State};
ghost use Rattle.rl_meaning.specs.Outcome.{Done, turn as taking};
ghost use Rattle.rl_state.specs.ShownState.{ShowsState};
ghost use Rattle.rl_state.specs.Worlds.{IsWorld, ObjectsAlone, WorldGrows};
ghost use Rattle.rl_state.specs.Ending.{MeansDone};
ghost use Rattle.rl_world.specs.Counts.{count_turns_left, ticked};

use rl_world::laws::{bounds_are_kept, counts_are_taken};
use rl_world::{Stop, World};

/// Takes a turn.
pub fn turn(w: &mut World) -> Result<(), Stop>
    requires world { IsWorld w.old }
    ensures means { (s : State) → ShowsState w.old s → MeansDone s (taking s (λ t. Done tt t)) result w.new }
    ensures taken { OnOk result (w.new ≡ record w.old { counts = ticked w.old.counts }) }
    ensures err { OnErr result (w.new ≡ w.old) }
    ensures falls { OnOk result (count_turns_left w.old.counts ≡ count_turns_left w.new.counts + 1) }
    ensures grows { WorldGrows w.old w.new }
    ensures rest { ObjectsAlone w.old w.new }
{
    counts_are_taken();
    bounds_are_kept();
    match w.tick() {
        Ok(()) => Ok(()),
        Err(why) => Err(why),
    }
}
