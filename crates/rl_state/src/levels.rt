//! Levels of nesting.
ghost use Rattle.std.specs.Prelude.{◌≡◌, ◌≤◌, ◌∷◌, ◌+◌, ◌-◌, length, OnOk, OnErr};
ghost use Rattle.rl_meaning.specs.State.{State};
ghost use Rattle.rl_meaning.specs.Outcome.{Done, deeper as entering};
ghost use Rattle.rl_state.specs.ShownState.{ShowsState};
ghost use Rattle.rl_state.specs.Worlds.{IsWorld, WorldGrows};
ghost use Rattle.rl_state.specs.Descents.{MeansLevels, levels_shown};

use rl_world::{Stop, World};

/// Enters levels. After a stop the world is as before.
pub fn deeper(w: &mut World, n: u32) -> Result<(), Stop>
    requires world { IsWorld w.old }
    ensures means { (s : State) → ShowsState w.old s → MeansLevels s (entering n (levels_shown w.old) s (λ l. Done l s)) result w.new }
    ensures grows { WorldGrows w.old w.new }
    ensures entered { OnOk result (w.new ≡ record w.old { levels = record w.old.levels { level = w.old.levels.level + n } }) }
    ensures err { OnErr result (w.new ≡ w.old) }
{
    match w.enter_level(n) {
        Ok(()) => Ok(()),
        Err(why) => Err(why),
    }
}

/// Leaves levels that were entered, but none that a walk entered.
pub fn shallower(w: &mut World, n: u32)
    requires world { IsWorld w.old }
    requires entered { n + length w.old.levels.walk ≤ w.old.levels.level }
    ensures shows { (s : State) → ShowsState w.old s → ShowsState w.new s }
    ensures grows { WorldGrows w.old w.new }
    ensures left { w.new ≡ record w.old { levels = record w.old.levels { level = w.old.levels.level - n } } }
{
    w.leave_level(n);
}

/// Enters a level and keeps three words of a walk. After a stop the world is as before.
pub fn walk_push(w: &mut World, a: u64, b: u64, c: u64) -> Result<(), Stop>
    requires world { IsWorld w.old }
    ensures means { (s : State) → ShowsState w.old s → MeansLevels s (entering 1 (levels_shown w.old) s (λ l. Done l s)) result w.new }
    ensures grows { WorldGrows w.old w.new }
    ensures kept { OnOk result (w.new ≡ record w.old { levels = record w.old.levels { level = w.old.levels.level + 1; walk = (a, b, c) ∷ w.old.levels.walk } }) }
    ensures err { OnErr result (w.new ≡ w.old) }
{
    match w.walk_push(a, b, c) {
        Ok(()) => Ok(()),
        Err(why) => Err(why),
    }
}

/// Gives the three newest words of a walk back, and leaves their level.
pub fn walk_pop(w: &mut World) -> (u64, u64, u64)
    requires world { IsWorld w.old }
    requires some { 1 ≤ length w.old.levels.walk }
    ensures shows { (s : State) → ShowsState w.old s → ShowsState w.new s }
    ensures grows { WorldGrows w.old w.new }
    ensures popped { w.old.levels.walk ≡ result ∷ w.new.levels.walk }
    ensures left { w.new ≡ record w.old { levels = record w.old.levels { level = w.old.levels.level - 1; walk = w.new.levels.walk } } }
    ensures entered { 1 ≤ w.old.levels.level }
{
    w.walk_pop()
}
