//! Lines of the output: how far the last one has come, and how long they may be.
ghost use Rattle.std.specs.Prelude.{◌≡◌, ◌≤◌, ℕ, List, Option};
ghost use Rattle.rl_meaning.specs.State.{State};
ghost use Rattle.rl_state.specs.ShownState.{ShowsState};
ghost use Rattle.rl_state.specs.Ties.{Ties, ToldAtStart, and_told, with_lines};
ghost use Rattle.rl_state.specs.Worlds.{IsWorld, WorldGrows};

use rl_world::World;

/// The bytes printed since the last end of line.
pub fn column(w: &World) -> u64
    ensures { (s : State) → ShowsState w.now s → s.outside.column ≡ result }
{
    w.column()
}

/// How long a line may be, in bytes.
pub fn line_length(w: &World) -> u64
    ensures { (s : State) → ShowsState w.now s → s.outside.line_length ≡ result }
{
    w.line_length()
}

/// Makes this the line length.
pub fn set_line_length(w: &mut World, n: u64)
    requires some { 1 ≤ n }
    requires bounded { n ≤ 1000000 }
    ensures means { (at : ToldAtStart) (o : Option (List ℕ)) (m : Option (List ℕ)) (i : Option (List ℕ)) (coming : List ℕ) (s : State) → Ties at (and_told w.old o m i) coming s → Ties at (and_told w.new o m i) coming (with_lines n s) }
    ensures grows { IsWorld w.old → WorldGrows w.old w.new }
    ensures rest { w.new ≡ record w.old { output = record w.old.output { line_length = n } } }
{
    w.set_line_length(n);
}
