//! Frames that take levels of a world.
ghost use Rattle.std.specs.Prelude.{◌≡◌, ◌+◌, ◌-◌, ◌*◌, ◌≤◌, [], ◌∷◌, drop, replicate, OnOk, OnErr};
ghost use Rattle.rl_tags.specs.Ids.{nil_id};
ghost use Rattle.rl_meaning.specs.State.{State};
ghost use Rattle.rl_meaning.specs.Outcome.{Done, deeper as entering};
ghost use Rattle.rl_state.specs.Descents.{MeansLevels, levels_shown};
ghost use Rattle.rl_state.specs.ShownState.{ShowsState};
ghost use Rattle.rl_state.specs.Worlds.{IsWorld, WorldGrows};
ghost use Rattle.rl_stack.specs.ShowsStack.{IsStackLive, ShowsStack, StandsIn};
ghost use Rattle.rl_stack.specs.StackState.{HasFrame, NewestFits, OnNewest};

use crate::stack::Stack;
use rl_state::{deeper, shallower};
use rl_world::{Stop, World};

impl Stack {
    /// Enters levels and adds a frame, with slots NIL and place 0. After a stop all is as before.
    pub fn push_frame(
        &mut self,
        w: &mut World,
        levels: u32,
        slots: u32,
        owner: u64,
    ) -> Result<(), Stop>
        requires world { IsWorld w.old }
        requires stands { StandsIn w.old self.old }
        requires fits { slots + 4 ≤ 64 * levels }
        requires newest { NewestFits self.old.frames }
        ensures means { (s : State) → ShowsState w.old s → MeansLevels s (entering levels (levels_shown w.old) s (λ l. Done l s)) result w.new }
        ensures shows { (s : State) → ShowsStack w.old self.old s → ShowsStack w.new self.new s }
        ensures pushed { OnOk result (self.new ≡ record self.old { frames = record { levels = levels; owner = owner; place = 0; slots = replicate slots nil_id; waiting = [] } ∷ self.old.frames }) }
        ensures entered { OnOk result (w.new ≡ record w.old { levels = record w.old.levels { level = w.old.levels.level + levels } }) }
        ensures err { OnErr result (self.new ≡ self.old) }
        ensures err_world { OnErr result (w.new ≡ w.old) }
        ensures stands { StandsIn w.new self.new }
        ensures live { IsStackLive w.old.cells.cells self.old → IsStackLive w.new.cells.cells self.new }
        ensures grows { WorldGrows w.old w.new }
    {
        match deeper(w, levels) {
            Ok(()) => {
                self.add_frame(levels, slots, owner);
                Ok(())
            }
            Err(why) => Err(why),
        }
    }

    /// Takes the newest frame away, and leaves its levels.
    pub fn pop_frame(&mut self, w: &mut World)
        requires world { IsWorld w.old }
        requires stands { StandsIn w.old self.old }
        requires frame { HasFrame self.old.frames }
        ensures shows { (s : State) → ShowsStack w.old self.old s → ShowsStack w.new self.new s }
        ensures popped { self.new ≡ record self.old { frames = drop 1 self.old.frames } }
        ensures left { OnNewest self.old.frames (λ f. w.new ≡ record w.old { levels = record w.old.levels { level = w.old.levels.level - f.levels } }) }
        ensures stands { StandsIn w.new self.new }
        ensures live { IsStackLive w.old.cells.cells self.old → IsStackLive w.new.cells.cells self.new }
        ensures grows { WorldGrows w.old w.new }
    {
        let levels = self.take_frame();
        shallower(w, levels);
    }
}
