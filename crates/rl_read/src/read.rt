//! One form is read.
ghost use Rattle.std.specs.Prelude.{◌≡◌, ◌≢◌, ◌≤◌, ℕ, Bool, true, false, List, [], length, Err, IsErr, IsTrue, IfOk};
ghost use Rattle.rl_io.specs.Faults.{Rose};
ghost use Rattle.rl_io.specs.Told.{WhereTold};
ghost use Rattle.rl_cells.specs.Cell.{is_live};
ghost use Rattle.rl_text.specs.Reader as reader;
ghost use Rattle.rl_text.specs.Reader.{NoneLeft, Read, Refused, Stopped, read_by};
ghost use Rattle.rl_world.specs.declared.stop.Stop.{Stop};
ghost use Rattle.rl_world.specs.declared.stop.Stop.TheVariants as stop;
ghost use Rattle.rl_read.specs.Taken.{TakesBytes};
ghost use Rattle.rl_read.specs.Given.{FrontIsLeft, is_counted, is_fault};
ghost use Rattle.rl_read.specs.Stock.{Stock, in_stock, stock_of};
ghost use Rattle.rl_read.specs.Calls.{ChangesLevels};
ghost use Rattle.rl_read.specs.Frames.{CanMake, IsReadyToRead, frames_in};
ghost use Rattle.rl_read.specs.Steps.{IsMode, may_end, mode_of, word_atom};
ghost use Rattle.rl_read.specs.ReadingKeepsCells.{LeavesWhatStood};
ghost use Rattle.rl_read.specs.Reads.{EndsText, IsRefusedText, IsStoppedText, KeepsByReading, NotStopped, ended_between};
ghost use Rattle.rl_read.specs.declared.read.ReadFault.TheVariants as fault;

use crate::bytes::Bytes;
use crate::frames::{Group, leave};
use crate::laws::reading_keeps_cells;
use crate::step::{Ended, Step, read_byte, word_ended};
use crate::word::{Mode, Word};
use rl_tags::Val;
use rl_world::laws::{bounds_are_kept, counts_are_taken};
use rl_world::{Stop, World};

/// Why no form is read.
#[derive(Clone, Copy, Debug, PartialEq, Eq)]
pub enum ReadFault {
    /// So many bytes stand before the first one with which no spelling goes on, or before the end of a text that ends in a
    /// spelling; or 2^64 - 1 where they are more.
    Syntax(u64),
    /// Only blanks and comments stand before the end.
    End,
    /// The run stops.
    Stop(Stop),
}

/// Reads one form of Lisp text, and what stands before it of blanks and comments.
///
/// Atoms are made as their spelling ends, a pair as each element ends, and the elements of a vector first as a list; each
/// asks for room. A list, a vector or a quote that is an element, or is quoted, takes a level until it ends. Where the
/// text's bytes take turns, each byte that is given takes one, also the one that is looked at behind the form and put back.
///
/// # Errors
/// `Syntax` at the first byte with which no spelling goes on, or at the end inside a spelling; `End` where only blanks and
/// comments are left; `Stop` where a turn, a level or room is wanting, or the text fails.
pub fn read_form<T: Bytes>(w: &mut World, text: &mut T) -> Result<Val, ReadFault>
    requires { CanMake w.old }
    ensures ok { IfOk result (λ v. TakesBytes (T.unread text.old w.old.input) (T.unread text.new w.new.input) (λ before now. read_by (in_stock (T.takes_turns text.old)) (stock_of w.old) before ≡ Read v (stock_of w.new) now)) }
    ensures syntax { (k : ℕ) → result ≡ Err (fault.Syntax k) → TakesBytes (T.unread text.old w.old.input) (T.unread text.new w.new.input) (λ before now. IsRefusedText (T.takes_turns text.old) w.old w.new before now k) }
    ensures end { result ≡ Err fault.End → TakesBytes (T.unread text.old w.old.input) (T.unread text.new w.new.input) (λ before now. (now ≡ []) × (read_by (in_stock (T.takes_turns text.old)) (stock_of w.old) before ≡ NoneLeft (stock_of w.new))) }
    ensures stop { (s : Stop) → result ≡ Err (fault.Stop s) → is_fault s ≡ false → TakesBytes (T.unread text.old w.old.input) (T.unread text.new w.new.input) (λ before now. IsStoppedText (T.takes_turns text.old) w.old w.new before now s) }
    ensures counted { (s : Stop) → result ≡ Err (fault.Stop s) → is_fault s ≡ false → is_counted s ≡ true }
    ensures printed { result ≢ Err (fault.Stop stop.Write) → WhereTold (T.printed text.old w.old.output.waiting) (T.printed text.new w.new.output.waiting) (λ before now. now ≡ before) }
    ensures cut { result ≡ Err (fault.Stop stop.Write) → WhereTold (T.printed text.old w.old.output.waiting) (T.printed text.new w.new.output.waiting) FrontIsLeft }
    ensures read_failed { result ≡ Err (fault.Stop stop.Read) → Rose (T.reads text.old) (T.reads text.new) }
    ensures write_failed { result ≡ Err (fault.Stop stop.Write) → Rose (T.writes text.old) (T.writes text.new) }
    ensures steady_reads { result ≢ Err (fault.Stop stop.Read) → T.reads text.new ≡ T.reads text.old }
    ensures steady_writes { result ≢ Err (fault.Stop stop.Write) → T.writes text.new ≡ T.writes text.old }
    ensures kept { T.kept text.new ≡ T.kept text.old }
    ensures live { IfOk result (λ v. IsTrue (is_live w.new.cells.cells v)) }
    ensures able { CanMake w.new }
    ensures levels { NotStopped result → w.new.levels ≡ w.old.levels }
    ensures keeps { KeepsByReading w.old w.new }
    ensures stands { LeavesWhatStood (stock_of w.old) (stock_of w.new) }
{
    bounds_are_kept();
    counts_are_taken();
    reading_keeps_cells();
    let base = w.walk_len();
    let mut word = Word::new();
    let mut mode = Mode::Gap;
    let mut group = Group::Root;
    let mut k = 0u64;
    loop {
        let b = match text.next(w) {
            Ok(Some(b)) => b,
            Ok(None) => return at_end(w, mode, group, &word, base, k),
            Err(s) => return Err(ReadFault::Stop(s)),
        };
        let step = match read_byte(w, b, mode, group, &mut word, base) {
            Ok(step) => step,
            Err(s) => return Err(ReadFault::Stop(s)),
        };
        match step {
            Step::Goes(next, inside) => {
                mode = next;
                group = inside;
            }
            Step::Done(v, used) => {
                if !used {
                    text.back(w, b);
                }
                return Ok(v);
            }
            Step::Refuses => return refused(w, base, k),
        }
        k = k.saturating_add(1);
    }
}

/// The text is refused, and all levels are left.
fn refused(w: &mut World, base: u64, k: u64) -> Result<Val, ReadFault>
    requires { base ≤ length w.old.levels.walk }
    ensures syntax { result ≡ Err (fault.Syntax k) }
    ensures left { length w.new.levels.walk ≡ base }
    ensures levels { ChangesLevels base w.old w.new }
{
    leave(w, base);
    Err(ReadFault::Syntax(k))
}

/// The text ends.
fn at_end(
    w: &mut World,
    mode: Mode,
    group: Group,
    word: &Word,
    base: u64,
    k: u64,
) -> Result<Val, ReadFault>
    requires ready { IsReadyToRead base w.old group }
    requires word { IsMode mode word.now.items }
    ensures { EndsText base w.old w.new (λ t. reader.at_end (in_stock t) (mode_of mode word.now.items) (frames_in base w.old group) (stock_of w.old)) k result }
{
    match mode {
        Mode::Gap | Mode::Comment => gap_at_end(w, group, base, k),
        Mode::Escape | Mode::Text => refused(w, base, k),
        _ => word_at_end(w, mode, group, word, base, k),
    }
}

/// The text ends between spellings.
fn gap_at_end(w: &mut World, group: Group, base: u64, k: u64) -> Result<Val, ReadFault>
    requires ready { IsReadyToRead base w.old group }
    ensures ends { EndsText base w.old w.new (λ t. ended_between (frames_in base w.old group) (stock_of w.old)) k result }
    ensures none { IsErr result }
    ensures stop { (s : Stop) → result ≢ Err (fault.Stop s) }
    ensures levels { ChangesLevels base w.old w.new }
{
    match group {
        Group::Root => Err(ReadFault::End),
        _ => refused(w, base, k),
    }
}

/// The text ends with a word.
fn word_at_end(
    w: &mut World,
    mode: Mode,
    group: Group,
    word: &Word,
    base: u64,
    k: u64,
) -> Result<Val, ReadFault>
    requires ready { IsReadyToRead base w.old group }
    requires word { IsMode mode word.now.items }
    requires may_end { may_end mode ≡ true }
    ensures ends { EndsText base w.old w.new (λ t. reader.ends_after (reader.atom_ended (in_stock t) (word_atom mode word.now.items) (frames_in base w.old group) (stock_of w.old))) k result }
    ensures some { result ≢ Err fault.End }
{
    let ended = match word_ended(w, mode, group, word, base) {
        Ok(ended) => ended,
        Err(s) => return Err(ReadFault::Stop(s)),
    };
    match ended {
        Ended::Whole(v) => Ok(v),
        Ended::Inside(_) => refused(w, base, k),
    }
}
