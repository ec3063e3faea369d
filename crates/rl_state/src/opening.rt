//! Opening: the world as it begins, and as a run begins.
ghost use Rattle.std.specs.Prelude.{◌≡◌, ◌≤◌, ◌<◌, ◌↔◌, ◌-◌, ◌^◌, ℕ, List, None, Some, IfOk, [], false, length};
ghost use Rattle.rl_tags.specs.Opening.{names_at_opening, place_of};
ghost use Rattle.rl_tags.specs.Tagged.{IdAt};
ghost use Rattle.rl_syms.specs.Made.{IsOpening};
ghost use Rattle.rl_syms.specs.Opened.{IsOpened, made_name};
ghost use Rattle.rl_syms.specs.Table.{IsNamed};
ghost use Rattle.rl_world.specs.Counts.{counts_at_opening};
ghost use Rattle.rl_world.specs.OpeningCells.{AreOpeningCells};
ghost use Rattle.rl_meaning.specs.State.{State, Files};
ghost use Rattle.rl_meaning.specs.Run.{Limits as RunLimits, started};
ghost use Rattle.rl_state.specs.BareStates.{IsUnset};
ghost use Rattle.rl_state.specs.ShownState.{ShowsState};
ghost use Rattle.rl_state.specs.Worlds.{HasNumber, IsWorld, WorldGrows};

use crate::laws::cells_are_known;
use rl_io::OutOfMemory;
use rl_syms::laws::names_are_identifiers;
use rl_world::laws::bounds_are_kept;
use rl_world::{Limits, World};
use std::alloc::Global;

/// A world in opening, with these bounds: the identifiers of opening, each with its number, and the texts of errors; nothing
/// else. `OutOfMemory` if there is no memory for it.
pub fn open(alloc: Global, limits: Limits) -> Result<World, OutOfMemory>
    requires cells { limits.cells ≤ 64000000 }
    requires nest { limits.nest ≤ 500000 }
    requires turns { limits.turns ≤ 2 ^ 59 - 1 }
    ensures world { IfOk result (λ w. IsWorld w) }
    ensures shown { IfOk result (λ w. (s : State) → ShowsState w s ↔ IsUnset s) }
    ensures opening { IfOk result (λ w. IsOpening w.cells limits.cells) }
    ensures names { IfOk result (λ w. (i : ℕ) → i < length names_at_opening → IsNamed w.cells.cells w.syms.head (made_name i) (IdAt (place_of i))) }
    ensures numbers { IfOk result (λ w. (i : ℕ) → i < length names_at_opening → HasNumber w.cells.cells (IdAt (place_of i)) i) }
    ensures opened { IfOk result (λ w. IsOpened w.cells.cells w.syms.head) }
    ensures exact { IfOk result (λ w. AreOpeningCells w.cells.cells w.texts w.syms.head) }
    ensures made { IfOk result (λ w. w.syms.made ≡ 0) }
    ensures counts { IfOk result (λ w. w.counts ≡ counts_at_opening limits.turns limits.cells) }
    ensures levels { IfOk result (λ w. w.levels ≡ record { bound = limits.nest; level = 0; walk = []; aside = None }) }
    ensures output { IfOk result (λ w. w.output ≡ record { waiting = []; column = 0; line_length = 80 }) }
    ensures notes { IfOk result (λ w. w.notes ≡ []) }
    ensures input { IfOk result (λ w. w.input ≡ record { back = None; given = 0; ended = false }) }
{
    cells_are_known();
    names_are_identifiers();
    match World::open(alloc, limits) {
        Ok(w) => Ok(w),
        Err(e) => Err(e),
    }
}

/// Ends opening: a run begins, with the bounds that were given to `open`.
pub fn opened(w: &mut World)
    requires world { IsWorld w.old }
    requires opening { w.old.cells.count ≡ None }
    ensures shows { (s : State) (limits : RunLimits) (files : Files) (input : List ℕ) → limits.turns ≡ w.old.counts.bound → limits.cells ≡ Some w.old.counts.cells_bound → ShowsState w.old s → ShowsState w.new (started limits files input s) }
    ensures grows { WorldGrows w.old w.new }
    ensures ended { w.new ≡ record w.old { cells = record w.old.cells { count = Some 0 }; counts = record w.old.counts { opening = None } } }
{
    bounds_are_kept();
    w.opened();
}
