//! Held functions: blocks of words, which states do not see.
ghost use Rattle.std.specs.Prelude.{◌≡◌, ◌+◌, ◌/◌, ◌<◌, ◌≤◌, IfOk, IsTrue, OnErr, length, replicate, slice_index};
ghost use Rattle.rl_tags.specs.declared.Tag.TheVariants as tag;
ghost use Rattle.rl_cells.specs.Cell.{BlockCell, cost_of, is_live, is_live_word, words_of};
ghost use Rattle.rl_syms.specs.Functions.{ChangesFunction, GainsFunction, is_held_function};
ghost use Rattle.rl_world.specs.Counts.{TakesTurnsAndCells};
ghost use Rattle.rl_meaning.specs.State.{State};
ghost use Rattle.rl_meaning.specs.Outcome.{Done, room};
ghost use Rattle.rl_state.specs.ShownState.{ShowsState};
ghost use Rattle.rl_state.specs.Worlds.{IsWorld, WorldGrows};
ghost use Rattle.rl_state.specs.Ending.{MeansUnseen};

use crate::laws::cells_are_known;
use rl_tags::{Tag, Val};
use rl_world::laws::counts_are_taken;
use rl_world::{Stop, World};

/// A new held function of this many words, each 0, which takes a cell for each two words begun. After a stop the world is as
/// before.
pub fn function(w: &mut World, words: u32) -> Result<Val, Stop>
    requires world { IsWorld w.old }
    requires some { 1 ≤ words }
    requires short { words ≤ 2147483648 }
    ensures means { (s : State) → ShowsState w.old s → MeansUnseen s (room ((words + 1) / 2) s (λ t. Done tt t)) result w.new }
    ensures gains { IfOk result (λ f. GainsFunction w.old.cells.cells w.new.cells.cells (replicate words 0) f) }
    ensures live { IfOk result (λ f. IsTrue (is_live w.new.cells.cells f)) }
    ensures err { OnErr result (w.new ≡ w.old) }
    ensures grows { WorldGrows w.old w.new }
    ensures rest { w.new ≡ record w.old { cells = w.new.cells; counts = w.new.counts } }
    ensures counts { TakesTurnsAndCells w.old.counts w.new.counts }
{
    counts_are_taken();
    let _places = w.cells.places();
    match w.room(function_cost(words)) {
        Ok(()) => {
            cells_are_known();
            Ok(w.cells.block(Tag::Fun, words).unwrap())
        }
        Err(why) => Err(why),
    }
}

/// The cells of a held function.
fn function_cost(words: u32) -> u32
    requires { words ≤ 2147483648 }
    ensures { result ≡ cost_of (BlockCell tag.Fun (replicate words 0)) }
{
    (words + 1) / 2
}

/// The word `i` of a held function.
pub fn word(w: &World, f: Val, i: u32) -> u64
    requires function { IsTrue (is_held_function w.now.cells.cells f) }
    requires within { i < length (words_of w.now.cells.cells f) }
    ensures word { result ≡ slice_index (words_of w.now.cells.cells f) i }
    ensures live { IsTrue (is_live_word w.now.cells.cells result) }
{
    w.cells.word(f, i)
}

/// Makes `word`, which stands for a live value or for none, the word `i` of a held function.
pub fn set_word(w: &mut World, f: Val, i: u32, word: u64)
    requires world { IsWorld w.old }
    requires function { IsTrue (is_held_function w.old.cells.cells f) }
    requires within { i < length (words_of w.old.cells.cells f) }
    requires word_live { IsTrue (is_live_word w.old.cells.cells word) }
    ensures shows { (s : State) → ShowsState w.old s → ShowsState w.new s }
    ensures changes { ChangesFunction w.old.cells.cells w.new.cells.cells f i word }
    ensures grows { WorldGrows w.old w.new }
    ensures rest { w.new ≡ record w.old { cells = record w.old.cells { cells = w.new.cells.cells } } }
{
    cells_are_known();
    w.cells.set_word(f, i, word);
}
