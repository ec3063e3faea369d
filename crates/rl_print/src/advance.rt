//! One step of printing: what it does to turns, levels and the walk, and what is to be printed.
ghost use Rattle.std.specs.Prelude.{◌≡◌, ◌+◌, ◌-◌, ◌*◌, ◌%◌, ◌≤◌, ◌<◌, ◌∷◌, ◌==◌, if◌then◌else◌, [], ℕ, List, None, Some, length, IsTrue, IfOk, IfErr, OnOk};
ghost use Rattle.rl_cells.specs.Cell.{Cell, is_live, is_pair, is_vector, vector_of};
ghost use Rattle.rl_syms.specs.Table.{IsTable};
ghost use Rattle.rl_tree.specs.Atoms as atoms;
ghost use Rattle.rl_tree.specs.Printing.{Ending, NoTurn, Progress, TooDeep};
ghost use Rattle.rl_world.specs.Counts.{ticked};
ghost use Rattle.rl_print.specs.AtomText.{is_atom, style_of};
ghost use Rattle.rl_print.specs.Counted.{IsStop, IsTicked};
ghost use Rattle.rl_print.specs.Walk.{IsCursor, IsKeptByPrinting, IsNext, IsPiece, IsReadyToPrint, IsState, all_printed, continued, kept_place, levels_left, walk_meaning, walk_place_in, progress_in_world, setting_in_world, shown, state_weight, stopped, waiting_places, Advances, BeginsPrinting, EndsPrinting, FailsToBegin, IsWorldOf};
ghost use Rattle.rl_world.specs.declared.stop.Stop.TheVariants as stop;
ghost use Rattle.rl_print.specs.declared.walk.Cursor.TheVariants as cursor;
ghost use Rattle.rl_print.specs.declared.walk.State.TheVariants as state;
ghost use Rattle.rl_world.specs.Walks.{IsSteady};
ghost use Rattle.rl_world.specs.Counts.{count_turns_left};

use crate::atom::Style;
use crate::walk::{Cursor, Piece, State};
use rl_syms::laws::{identifiers_are_numbered, meaning_of_reading};
use rl_tags::{NIL, Tag, Val};
use rl_world::{Stop, World};

/// Takes a turn.
fn turn(w: &mut World) -> Result<(), Stop>
    ensures taken { OnOk result (count_turns_left w.old.counts ≡ count_turns_left w.new.counts + 1) }
    ensures ticked { IsTicked w.old.counts w.new.counts }
    ensures world { w.new ≡ record w.old { counts = w.new.counts } }
    ensures none { IfErr result (λ s. count_turns_left w.old.counts ≡ 0) }
    ensures stop { IfErr result (λ s. IsStop w.old.counts NoTurn s) }
    ensures err { IfErr result (λ s. w.new ≡ w.old) }
{
    w.tick()
}

/// Enters a level and keeps what waits behind an element.
fn push(w: &mut World, c: Cursor) -> Result<(), Stop>
    requires cursor { IsCursor w.old.cells.cells c }
    ensures places { OnOk result ((base : ℕ) → IsReadyToPrint w.old base → waiting_places w.new base ≡ walk_place_in w.old.cells.cells c ∷ waiting_places w.old base) }
    ensures levels { OnOk result (levels_left w.old ≡ levels_left w.new + 1) }
    ensures kept { OnOk result (length w.new.levels.walk ≡ length w.old.levels.walk + 1) }
    ensures ready { (base : ℕ) → IsReadyToPrint w.old base → IsReadyToPrint w.new base }
    ensures steady { (base : ℕ) → IsReadyToPrint w.old base → IsSteady base w.old.levels w.new.levels }
    ensures world { w.new ≡ record w.old { levels = w.new.levels } }
    ensures none { IfErr result (λ s. levels_left w.old ≡ 0) }
    ensures stop { IfErr result (λ s. s ≡ stop.Depth) }
    ensures err { IfErr result (λ s. w.new ≡ w.old) }
{
    let (kind, word, i) = words_of(c);
    match w.walk_push(kind, word, i) {
        Ok(()) => Ok(()),
        Err(s) => Err(s),
    }
}

/// The three words that keep what waits.
fn words_of(c: Cursor) -> (u64, u64, u64)
    ensures place { (cells : List Cell) → kept_place cells result ≡ walk_place_in cells c }
    ensures kept { (cells : List Cell) → IsCursor cells c → IsKeptByPrinting cells result }
{
    match c {
        Cursor::Rest(d) => (0, d.word(), 0),
        Cursor::Places(v, i, dotted) => (if dotted { 2 } else { 1 }, v.word(), i),
    }
}

/// What three words keep.
fn cursor_of(kind: u64, word: u64, i: u64) -> Cursor
    requires tagged { word % 16 ≤ 6 }
    requires kind { kind ≤ 2 }
    ensures place { (cells : List Cell) → walk_place_in cells result ≡ kept_place cells (kind, word, i) }
    ensures cursor { (cells : List Cell) → IsKeptByPrinting cells (kind, word, i) → IsCursor cells result }
{
    let v = Val::read(word).unwrap();
    match kind {
        0 => Cursor::Rest(v),
        1 => Cursor::Places(v, i, false),
        _ => Cursor::Places(v, i, true),
    }
}

/// What waits comes next, and its level is left; or nothing waits.
fn pop(w: &mut World, base: u64) -> Option<State>
    requires ready { IsReadyToPrint w.old base }
    ensures next { IsNext w.new base result }
    ensures means { (style : atoms.Style) (p : Progress) → continued style w.new base result p ≡ all_printed (setting_in_world style w.old) (waiting_places w.old base) (levels_left w.old + 1) p }
    ensures fewer { 4 * length w.new.levels.walk + state_weight result ≤ 4 * length w.old.levels.walk }
    ensures ready { IsReadyToPrint w.new base }
    ensures steady { IsSteady base w.old.levels w.new.levels }
    ensures world { w.new ≡ record w.old { levels = w.new.levels } }
{
    if w.walk_len() == base {
        return None;
    }
    let (kind, word, i) = w.walk_pop();
    Some(State::Next(cursor_of(kind, word, i)))
}

/// What is to be printed at once, and what comes next.
pub(crate) type Step = (Piece<'static>, Option<State>);

/// An element that is a pair: `(`, and its CAR, behind which the rest waits.
fn pair_element(w: &mut World, v: Val, outer: Cursor) -> Result<Step, Stop>
    requires pair { IsTrue (is_pair w.old.cells.cells v) }
    requires outer { IsCursor w.old.cells.cells outer }
    ensures ok { (base : ℕ) → IsReadyToPrint w.old base → IfOk result (λ r. Advances base w.old w.new (Some (state.Element v outer)) r.0 r.1) }
    ensures err { (base : ℕ) → IsReadyToPrint w.old base → IfErr result (λ s. EndsPrinting base w.old w.new (Some (state.Element v outer)) s) }
    ensures world { (base : ℕ) → IsReadyToPrint w.old base → IsWorldOf base w.old w.new }
{
    meaning_of_reading();
    if let Err(s) = turn(w) {
        return Err(s);
    }
    if let Err(s) = push(w, outer) {
        return Err(s);
    }
    let car = w.cells.car(v);
    let cdr = w.cells.cdr(v);
    Ok((
        Piece::Mark(b"("),
        Some(State::Element(car, Cursor::Rest(cdr))),
    ))
}

/// An element that is a vector: `[`, and its first place.
fn vector_element(w: &mut World, v: Val, outer: Cursor) -> Result<Step, Stop>
    requires vector { IsTrue (is_vector w.old.cells.cells v) }
    requires outer { IsCursor w.old.cells.cells outer }
    ensures ok { (base : ℕ) → IsReadyToPrint w.old base → IfOk result (λ r. Advances base w.old w.new (Some (state.Element v outer)) r.0 r.1) }
    ensures err { (base : ℕ) → IsReadyToPrint w.old base → IfErr result (λ s. EndsPrinting base w.old w.new (Some (state.Element v outer)) s) }
    ensures world { (base : ℕ) → IsReadyToPrint w.old base → IsWorldOf base w.old w.new }
{
    meaning_of_reading();
    if let Err(s) = push(w, outer) {
        return Err(s);
    }
    Ok((
        Piece::Mark(b"["),
        Some(State::Next(Cursor::Places(v, 0, false))),
    ))
}

/// An element: an atom, or a descent into a pair or a vector.
fn element(w: &mut World, v: Val, outer: Cursor) -> Result<Step, Stop>
    requires live { IsTrue (is_live w.old.cells.cells v) }
    requires outer { IsCursor w.old.cells.cells outer }
    ensures ok { (base : ℕ) → IsReadyToPrint w.old base → IfOk result (λ r. Advances base w.old w.new (Some (state.Element v outer)) r.0 r.1) }
    ensures err { (base : ℕ) → IsReadyToPrint w.old base → IfErr result (λ s. EndsPrinting base w.old w.new (Some (state.Element v outer)) s) }
    ensures world { (base : ℕ) → IsReadyToPrint w.old base → IsWorldOf base w.old w.new }
{
    match v.tag() {
        Tag::Pair => pair_element(w, v, outer),
        Tag::Vector => vector_element(w, v, outer),
        _ => Ok((Piece::Atom(v), Some(State::Next(outer)))),
    }
}

/// The rest of a list that is a pair: a blank, and its CAR, behind which the rest waits.
fn pair_rest(w: &mut World, d: Val) -> Result<Step, Stop>
    requires pair { IsTrue (is_pair w.old.cells.cells d) }
    ensures ok { (base : ℕ) → IsReadyToPrint w.old base → IfOk result (λ r. Advances base w.old w.new (Some (state.Next (cursor.Rest d))) r.0 r.1) }
    ensures err { (base : ℕ) → IsReadyToPrint w.old base → IfErr result (λ s. EndsPrinting base w.old w.new (Some (state.Next (cursor.Rest d))) s) }
    ensures world { (base : ℕ) → IsReadyToPrint w.old base → IsWorldOf base w.old w.new }
{
    meaning_of_reading();
    if let Err(s) = turn(w) {
        return Err(s);
    }
    let car = w.cells.car(d);
    let cdr = w.cells.cdr(d);
    Ok((
        Piece::Mark(b" "),
        Some(State::Element(car, Cursor::Rest(cdr))),
    ))
}

/// The rest of a list: its end, an element more, or what stands behind a dot.
fn rest(w: &mut World, d: Val, base: u64) -> Result<Step, Stop>
    requires ready { IsReadyToPrint w.old base }
    requires live { IsTrue (is_live w.old.cells.cells d) }
    ensures ok { IfOk result (λ r. Advances base w.old w.new (Some (state.Next (cursor.Rest d))) r.0 r.1) }
    ensures err { IfErr result (λ s. EndsPrinting base w.old w.new (Some (state.Next (cursor.Rest d))) s) }
    ensures world { IsWorldOf base w.old w.new }
{
    meaning_of_reading();
    identifiers_are_numbered();
    if d == NIL {
        return Ok((Piece::Mark(b")"), pop(w, base)));
    }
    match d.tag() {
        Tag::Pair => pair_rest(w, d),
        Tag::Vector => Ok((
            Piece::Mark(b" . ["),
            Some(State::Next(Cursor::Places(d, 0, true))),
        )),
        _ => Ok((Piece::Dotted(d), pop(w, base))),
    }
}

/// The places of a vector from one on: its end, or a place and those behind it.
fn places(w: &mut World, v: Val, i: u64, dotted: bool, base: u64) -> Result<Step, Stop>
    requires ready { IsReadyToPrint w.old base }
    requires place { IsCursor w.old.cells.cells (cursor.Places v i dotted) }
    ensures ok { IfOk result (λ r. Advances base w.old w.new (Some (state.Next (cursor.Places v i dotted))) r.0 r.1) }
    ensures err { IfErr result (λ s. EndsPrinting base w.old w.new (Some (state.Next (cursor.Places v i dotted))) s) }
    ensures world { IsWorldOf base w.old w.new }
{
    if i == u64::from(w.cells.vector_len(v)) {
        return Ok((Piece::Mark(end_mark(dotted)), pop(w, base)));
    }
    if let Err(s) = turn(w) {
        return Err(s);
    }
    let x = w.cells.get(v, i as u32);
    Ok((
        Piece::Mark(mark_before(i)),
        Some(State::Element(x, Cursor::Places(v, i + 1, dotted))),
    ))
}

/// The end of a vector, and that of the list behind whose dot it stands.
fn end_mark(dotted: bool) -> &'static [u8]
    ensures { result.now ≡ (if dotted then 93 ∷ 41 ∷ [] else 93 ∷ []) }
{
    if dotted { b"])" } else { b"]" }
}

/// What stands before the place `i`.
fn mark_before(i: u64) -> &'static [u8]
    ensures { result.now ≡ (if i == 0 then [] else 32 ∷ []) }
{
    if i == 0 { b"" } else { b" " }
}

/// One step of the walk.
pub(crate) fn advance(w: &mut World, at: State, base: u64) -> Result<Step, Stop>
    requires ready { IsReadyToPrint w.old base }
    requires state { IsState w.old.cells.cells at }
    ensures ok { IfOk result (λ r. Advances base w.old w.new (Some at) r.0 r.1) }
    ensures err { IfErr result (λ s. EndsPrinting base w.old w.new (Some at) s) }
    ensures world { IsWorldOf base w.old w.new }
{
    match at {
        State::Element(v, outer) => element(w, v, outer),
        State::Next(c) => next(w, c, base),
    }
}

/// What waits: the rest of a list, or the places of a vector.
fn next(w: &mut World, c: Cursor, base: u64) -> Result<Step, Stop>
    requires ready { IsReadyToPrint w.old base }
    requires cursor { IsCursor w.old.cells.cells c }
    ensures ok { IfOk result (λ r. Advances base w.old w.new (Some (state.Next c)) r.0 r.1) }
    ensures err { IfErr result (λ s. EndsPrinting base w.old w.new (Some (state.Next c)) s) }
    ensures world { IsWorldOf base w.old w.new }
{
    match c {
        Cursor::Rest(d) => rest(w, d, base),
        Cursor::Places(v, i, dotted) => places(w, v, i, dotted, base),
    }
}

/// The value at the root, which is no descent: an atom, or a pair or a vector.
pub(crate) fn begin(w: &mut World, v: Val) -> Result<Step, Stop>
    requires table { IsTable w.old.cells.cells w.old.syms.head }
    requires live { IsTrue (is_live w.old.cells.cells v) }
    ensures ok { IfOk result (λ r. BeginsPrinting (length w.old.levels.walk) w.old w.new v r.0 r.1) }
    ensures err { IfErr result (λ s. FailsToBegin w.old w.new v s) }
    ensures world { IsWorldOf (length w.old.levels.walk) w.old w.new }
{
    meaning_of_reading();
    match v.tag() {
        Tag::Pair => begin_pair(w, v),
        Tag::Vector => Ok((
            Piece::Mark(b"["),
            Some(State::Next(Cursor::Places(v, 0, false))),
        )),
        _ => Ok((Piece::Atom(v), None)),
    }
}

/// A pair at the root.
fn begin_pair(w: &mut World, v: Val) -> Result<Step, Stop>
    requires table { IsTable w.old.cells.cells w.old.syms.head }
    requires pair { IsTrue (is_pair w.old.cells.cells v) }
    ensures ok { IfOk result (λ r. BeginsPrinting (length w.old.levels.walk) w.old w.new v r.0 r.1) }
    ensures err { IfErr result (λ s. FailsToBegin w.old w.new v s) }
    ensures world { IsWorldOf (length w.old.levels.walk) w.old w.new }
{
    meaning_of_reading();
    if let Err(s) = turn(w) {
        return Err(s);
    }
    let car = w.cells.car(v);
    let cdr = w.cells.cdr(v);
    Ok((
        Piece::Mark(b"("),
        Some(State::Element(car, Cursor::Rest(cdr))),
    ))
}
