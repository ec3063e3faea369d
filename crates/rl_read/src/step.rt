//! One byte of a text.
ghost use Rattle.std.specs.Prelude.{◌≡◌, ◌≢◌, ◌≤◌, ◌<◌, ◌+◌, ◌-◌, ◌*◌, ℕ, true, false, List, [], ◌∷◌, ◌++◌, Ok, Some, length, IsTrue};
ghost use Rattle.rl_tags.specs.Tagged.{Number, Tagged};
ghost use Rattle.rl_cells.specs.Cell.{is_live};
ghost use Rattle.rl_tree.specs.Bytes.{is_digit};
ghost use Rattle.rl_text.specs.Reader as reader;
ghost use Rattle.rl_text.specs.Byte as byte;
ghost use Rattle.rl_text.specs.ByteClass.{mark_of};
ghost use Rattle.rl_text.specs.Word as word;
ghost use Rattle.rl_text.specs.Maker.{Has};
ghost use Rattle.rl_world.specs.declared.world.World.{World};
ghost use Rattle.rl_world.specs.declared.stop.Stop.{Stop};
ghost use Rattle.rl_read.specs.Stock.{PairChain, Stock, stock_of};
ghost use Rattle.rl_read.specs.Calls.{EndsElement, MakesNoObject, OfReader, TakesStep};
ghost use Rattle.rl_read.specs.Frames.{CanMake, IsChain, IsGroup, IsMaking, IsReadyToRead, chain_of, frames_around, frames_in, is_quote_group, vector_in_group};
ghost use Rattle.rl_read.specs.Steps.{IsAtom, IsMode, IsNumber, IsStep, atom_meant, inner_ended, is_digits_mode, is_text_mode, may_end, mode_of, opens_at, step_of, word_atom};
ghost use Rattle.rl_read.specs.declared.frames.Group.TheVariants as rl_group;
ghost use Rattle.rl_read.specs.declared.frames.Phase.TheVariants as rl_phase;
ghost use Rattle.rl_read.specs.declared.word.Mode.TheVariants as mode;

use crate::frames::{Chain, Group, Opening, Phase, admits, around, begin, first_of};
use crate::make::{Atom, end_with, extended, make_atom, quoted, vector};
use crate::word::{LONGEST_NAME, LONGEST_TEXT, Mode, Word};
use rl_tags::{NIL, Val};
use rl_text::bytes::{Class, Mark, class_of, is_name_byte, raised};
use rl_world::{Stop, World};

/// 2^59, the greatest number after `-`.
const LEAST: u64 = 576_460_752_303_423_488;

/// What a byte does: reading goes on; the text has ended, with this byte or before it; or this byte has no place.
#[derive(Clone, Copy)]
pub(crate) enum Step {
    Goes(Mode, Group),
    Done(Val, bool),
    Refuses,
}

/// After an element: the whole text has ended with it, or it goes on.
#[derive(Clone, Copy)]
pub(crate) enum Ended {
    Whole(Val),
    Inside(Group),
}

/// An element has ended.
pub(crate) fn value_ended(w: &mut World, v: Val, group: Group, base: u64) -> Result<Ended, Stop>
    requires ready { IsReadyToRead base w.old group }
    requires live { IsTrue (is_live w.old.cells.cells v) }
    ensures { EndsElement base w.old group w.new (λ m fs k. reader.value_ended m v fs k) result }
{
    let mut v = v;
    let mut group = group;
    while is_quote(&group) {
        v = match quoted(w, v) {
            Ok(q) => q,
            Err(s) => return Err(s),
        };
        group = around(w, &group, base);
    }
    in_place(w, v, group)
}

/// Whether an element of this is quoted.
fn is_quote(group: &Group) -> bool
    ensures { result ≡ is_quote_group group.now }
{
    match group {
        Group::Quote | Group::QuoteBehind(_, _) => true,
        _ => false,
    }
}

/// An element has ended in a list or a vector, behind a dot, or with the text.
fn in_place(w: &mut World, v: Val, group: Group) -> Result<Ended, Stop>
    requires able { CanMake w.old }
    requires group { IsGroup w.old.cells.cells group }
    requires place { is_quote_group group ≡ false }
    requires live { IsTrue (is_live w.old.cells.cells v) }
    ensures ends { (base : ℕ) → IsReadyToRead base w.old group → EndsElement base w.old group w.new (λ m fs k. reader.value_ended m v fs k) result }
    ensures making { IsMaking w.old w.new }
{
    match group {
        Group::Vector(c) => match extended(w, &c, v) {
            Ok(c) => Ok(Ended::Inside(Group::Vector(c))),
            Err(s) => Err(s),
        },
        Group::VectorBehind(c, l, owed) => match extended(w, &c, v) {
            Ok(c) => Ok(Ended::Inside(Group::VectorBehind(c, l, owed))),
            Err(s) => Err(s),
        },
        Group::List(l, owed, phase) => in_list(w, v, l, owed, phase),
        _ => Ok(Ended::Whole(v)),
    }
}

/// An element of a list has ended, or what stands behind its dot.
fn in_list(w: &mut World, v: Val, l: Chain, owed: u32, phase: Phase) -> Result<Ended, Stop>
    requires able { CanMake w.old }
    requires group { IsGroup w.old.cells.cells (rl_group.List l owed phase) }
    requires live { IsTrue (is_live w.old.cells.cells v) }
    ensures ends { (base : ℕ) → IsReadyToRead base w.old (rl_group.List l owed phase) → EndsElement base w.old (rl_group.List l owed phase) w.new (λ m fs k. reader.value_ended m v fs k) result }
    ensures making { IsMaking w.old w.new }
{
    match phase {
        Phase::Dotted => {
            end_with(w, &l, v);
            Ok(Ended::Inside(Group::List(l, owed, Phase::Shut)))
        }
        _ => match extended(w, &l, v) {
            Ok(l) => Ok(Ended::Inside(Group::List(l, owed, Phase::Going))),
            Err(s) => Err(s),
        },
    }
}

/// A list, a vector or a quote has ended with this byte.
fn bracket_ended(w: &mut World, v: Val, group: &Group, base: u64) -> Result<Step, Stop>
    requires ready { IsReadyToRead base w.old group.now }
    requires inside { group.now ≢ rl_group.Root }
    requires live { IsTrue (is_live w.old.cells.cells v) }
    ensures { TakesStep base w.old group.now w.new [] (λ m _ k. reader.goes_after (reader.value_ended m v (frames_around base w.old group.now) (reader.left m (frames_around base w.old group.now) k))) result }
{
    let outer = around(w, group, base);
    match value_ended(w, v, outer, base) {
        Ok(ended) => Ok(goes_after(ended)),
        Err(s) => Err(s),
    }
}

/// An element has ended with this byte.
fn goes_after(ended: Ended) -> Step
    ensures { (base : ℕ) (old new : World) (outer : Group) (bytes : List ℕ) (element : OfReader (reader.Ended Stock Tagged PairChain Stop)) → EndsElement base old outer new element (Ok ended) → TakesStep base old outer new bytes (λ m fs k. reader.goes_after (element m fs k)) (Ok result) }
{
    match ended {
        Ended::Whole(v) => Step::Done(v, true),
        Ended::Inside(group) => Step::Goes(Mode::Gap, group),
    }
}

/// `)`.
fn close_list(w: &mut World, group: &Group, base: u64) -> Result<Step, Stop>
    requires ready { IsReadyToRead base w.old group.now }
    ensures { TakesStep base w.old group.now w.new [] (λ m fs k. reader.close_list m fs k) result }
{
    match group {
        Group::List(l, owed, phase) => close_at(w, l, *owed, phase, group, base),
        _ => Ok(Step::Refuses),
    }
}

fn close_at(
    w: &mut World,
    l: &Chain,
    owed: u32,
    phase: &Phase,
    group: &Group,
    base: u64,
) -> Result<Step, Stop>
    requires ready { IsReadyToRead base w.old group.now }
    requires list { group.now ≡ rl_group.List l.now owed phase.now }
    ensures { TakesStep base w.old group.now w.new [] (λ m fs k. reader.close_list m fs k) result }
{
    match phase {
        Phase::Dotted => Ok(Step::Refuses),
        _ => close_level(w, l, owed, phase, group, base),
    }
}

/// `)` where nothing is wanting behind a dot: the list ends, or the one that stands behind a dot in it.
fn close_level(
    w: &mut World,
    l: &Chain,
    owed: u32,
    phase: &Phase,
    group: &Group,
    base: u64,
) -> Result<Step, Stop>
    requires ready { IsReadyToRead base w.old group.now }
    requires list { group.now ≡ rl_group.List l.now owed phase.now }
    requires undotted { phase.now ≢ rl_phase.Dotted }
    ensures { TakesStep base w.old group.now w.new [] (λ m fs k. reader.close_list m fs k) result }
{
    if owed == 0 {
        bracket_ended(w, first_of(l), group, base)
    } else {
        end_inner(w, l, phase);
        Ok(Step::Goes(Mode::Gap, Group::List(*l, owed - 1, Phase::Shut)))
    }
}

/// A list that stands behind a dot ends: with NIL, but where it has had its own dot.
fn end_inner(w: &mut World, l: &Chain, phase: &Phase)
    requires able { CanMake w.old }
    requires chain { IsChain w.old.cells.cells l.now }
    ensures ended { inner_ended phase.now (chain_of l.now) (stock_of w.old) ≡ Has (chain_of l.now) (stock_of w.new) }
    ensures none { MakesNoObject w.old w.new }
{
    match phase {
        Phase::Shut => {}
        _ => end_with(w, l, NIL),
    }
}

/// `]`.
fn close_vector(w: &mut World, group: &Group, base: u64) -> Result<Step, Stop>
    requires ready { IsReadyToRead base w.old group.now }
    ensures { TakesStep base w.old group.now w.new [] (λ m fs k. reader.close_vector m fs k) result }
{
    match group {
        Group::Vector(c) => vector_closed(w, c, group, base),
        Group::VectorBehind(c, _, _) => vector_closed(w, c, group, base),
        _ => Ok(Step::Refuses),
    }
}

fn vector_closed(w: &mut World, c: &Chain, group: &Group, base: u64) -> Result<Step, Stop>
    requires ready { IsReadyToRead base w.old group.now }
    requires vector { vector_in_group group.now ≡ Some c.now }
    ensures { TakesStep base w.old group.now w.new [] (λ m fs k. reader.close_vector m fs k) result }
{
    let v = match vector(w, c) {
        Ok(v) => v,
        Err(s) => return Err(s),
    };
    bracket_ended(w, v, group, base)
}

/// `.`.
fn dot(group: &Group) -> Step
    ensures { (base : ℕ) (w : World) → IsReadyToRead base w group.now → TakesStep base w group.now w [] (λ m fs k. reader.dot m fs k) (Ok result) }
{
    match group {
        Group::List(l, owed, phase) => match phase {
            Phase::Going => Step::Goes(Mode::Gap, Group::List(*l, *owed, Phase::Dotted)),
            _ => Step::Refuses,
        },
        _ => Step::Refuses,
    }
}

fn at_mark(w: &mut World, mark: Mark, group: &Group, base: u64) -> Result<Step, Stop>
    requires ready { IsReadyToRead base w.old group.now }
    ensures { TakesStep base w.old group.now w.new [] (λ m fs k. reader.at_mark m (mark_of mark) fs k) result }
{
    match mark {
        Mark::Close => close_list(w, group, base),
        Mark::CloseVector => close_vector(w, group, base),
        Mark::Dot => Ok(dot(group)),
        Mark::Open => opens(w, Opening::List, group),
        Mark::OpenVector => opens(w, Opening::Vector, group),
        Mark::Quote => opens(w, Opening::Quote, group),
    }
}

/// `(`, `[` or `'`.
fn opens(w: &mut World, opening: Opening, group: &Group) -> Result<Step, Stop>
    requires able { CanMake w.old }
    requires group { IsGroup w.old.cells.cells group.now }
    ensures { (base : ℕ) → IsReadyToRead base w.old group.now → TakesStep base w.old group.now w.new [] (λ m fs k. opens_at m opening fs k) result }
{
    if !admits(group) {
        return Ok(Step::Refuses);
    }
    match begin(w, opening, group) {
        Ok(group) => Ok(Step::Goes(Mode::Gap, group)),
        Err(s) => Err(s),
    }
}

/// A word begins.
fn in_word(mode: Mode, group: Group) -> Step
    ensures { (base : ℕ) (w : World) (bytes : List ℕ) → IsReadyToRead base w group → IsMode mode bytes → TakesStep base w group w bytes (λ m fs k. reader.in_word (mode_of mode bytes) fs k) (Ok result) }
{
    if admits(&group) {
        Step::Goes(mode, group)
    } else {
        Step::Refuses
    }
}

/// A byte in a gap. The word that comes begins anew.
fn at_gap(w: &mut World, b: u8, group: Group, word: &mut Word, base: u64) -> Result<Step, Stop>
    requires ready { IsReadyToRead base w.old group }
    ensures { TakesStep base w.old group w.new word.new.items (λ m fs k. reader.at_gap m b fs k) result }
{
    word.clear();
    match class_of(b) {
        Class::Blank => Ok(Step::Goes(Mode::Gap, group)),
        Class::Percent => Ok(Step::Goes(Mode::Comment, group)),
        Class::Marks(mark) => at_mark(w, mark, &group, base),
        Class::Text => Ok(in_word(Mode::Text, group)),
        Class::Escape => Ok(in_word(Mode::Escape, group)),
        Class::Letter => {
            word.push(raised(b));
            Ok(in_word(Mode::Name, group))
        }
        Class::Digit => Ok(in_word(Mode::Number(false, u64::from(b - 48)), group)),
        Class::Sign => Ok(in_word(Mode::Sign(b), group)),
        Class::Special => at_special(w, b, group, base),
        Class::Nothing => Ok(Step::Refuses),
    }
}

/// One special is an identifier.
fn at_special(w: &mut World, b: u8, group: Group, base: u64) -> Result<Step, Stop>
    requires ready { IsReadyToRead base w.old group }
    ensures { TakesStep base w.old group w.new [] (λ m fs k. reader.at_class m byte.Special b fs k) result }
{
    if !admits(&group) {
        return Ok(Step::Refuses);
    }
    match atom_ended(w, Atom::Identifier(&[b]), group, base) {
        Ok(ended) => Ok(goes_after(ended)),
        Err(s) => Err(s),
    }
}

/// An atom has ended.
fn atom_ended(w: &mut World, a: Atom<'_>, group: Group, base: u64) -> Result<Ended, Stop>
    requires ready { IsReadyToRead base w.old group }
    requires atom { IsAtom a }
    ensures { EndsElement base w.old group w.new (λ m fs k. reader.atom_ended m (atom_meant a.entry) fs k) result }
{
    match make_atom(w, a) {
        Ok(v) => value_ended(w, v, group, base),
        Err(s) => Err(s),
    }
}

/// The word ends here.
pub(crate) fn word_ended(
    w: &mut World,
    mode: Mode,
    group: Group,
    word: &Word,
    base: u64,
) -> Result<Ended, Stop>
    requires ready { IsReadyToRead base w.old group }
    requires word { IsMode mode word.now.items }
    requires may_end { may_end mode ≡ true }
    ensures { EndsElement base w.old group w.new (λ m fs k. reader.atom_ended m (word_atom mode word.now.items) fs k) result }
{
    match mode {
        Mode::Sign(c) => atom_ended(w, Atom::Identifier(&[c]), group, base),
        Mode::Number(minus, n) => number_ended(w, minus, n, group, base),
        Mode::Name => atom_ended(w, Atom::Identifier(word.as_slice()), group, base),
        _ => atom_ended(w, Atom::Text(word.as_slice()), group, base),
    }
}

/// A number ends here.
fn number_ended(w: &mut World, minus: bool, n: u64, group: Group, base: u64) -> Result<Ended, Stop>
    requires ready { IsReadyToRead base w.old group }
    requires number { IsNumber minus n }
    ensures { EndsElement base w.old group w.new (λ m fs k. reader.atom_ended m (word.Integer (word.signed minus n)) fs k) result }
{
    value_ended(w, number(minus, n), group, base)
}

/// The value of a number, after `-` or without it.
fn number(minus: bool, n: u64) -> Val
    requires { IsNumber minus n }
    ensures { result ≡ Number (word.signed minus n) }
{
    if minus {
        Val::small(0 - n as i64)
    } else {
        Val::small(n as i64)
    }
}

/// A byte before which a word has ended.
fn before(
    w: &mut World,
    b: u8,
    mode: Mode,
    group: Group,
    word: &mut Word,
    base: u64,
) -> Result<Step, Stop>
    requires ready { IsReadyToRead base w.old group }
    requires word { IsMode mode word.old.items }
    requires may_end { may_end mode ≡ true }
    ensures { TakesStep base w.old group w.new word.new.items (λ m fs k. reader.atom_before m (word_atom mode word.old.items) b fs k) result }
{
    let ended = match word_ended(w, mode, group, word, base) {
        Ok(ended) => ended,
        Err(s) => return Err(s),
    };
    match ended {
        Ended::Whole(v) => Ok(Step::Done(v, false)),
        Ended::Inside(group) => at_gap(w, b, group, word, base),
    }
}

/// A byte of a name or a string that has at most so many.
fn grown(word: &mut Word, most: usize, b: u8, mode: Mode, group: Group) -> Step
    requires { most ≤ 65535 }
    ensures { (base : ℕ) (w : World) → IsReadyToRead base w group → (length word.old.items < most → IsMode mode (word.old.items ++ b ∷ [])) → TakesStep base w group w word.new.items (λ m fs k. reader.grown_to most word.old.items (mode_of mode (word.old.items ++ b ∷ [])) fs k) (Ok result) }
{
    if word.len() >= most {
        return Step::Refuses;
    }
    word.push(b);
    Step::Goes(mode, group)
}

/// A byte in a name or behind it.
fn in_name(w: &mut World, b: u8, group: Group, word: &mut Word, base: u64) -> Result<Step, Stop>
    requires ready { IsReadyToRead base w.old group }
    requires word { IsMode mode.Name word.old.items }
    ensures { TakesStep base w.old group w.new word.new.items (λ m fs k. reader.reader_step m (reader.InName word.old.items) b fs k) result }
{
    if is_name_byte(b) {
        return Ok(grown(word, LONGEST_NAME, raised(b), Mode::Name, group));
    }
    if b != b'!' {
        return before(w, b, Mode::Name, group, word, base);
    }
    if word.len() >= LONGEST_NAME {
        return Ok(Step::Refuses);
    }
    Ok(Step::Goes(Mode::Escape, group))
}

/// A digit in a number, which stays in its range.
fn in_number(minus: bool, n: u64, b: u8, group: Group) -> Step
    requires number { IsNumber minus n }
    requires digit { is_digit b ≡ true }
    ensures step { (base : ℕ) (w : World) (bytes : List ℕ) → reader.in_number minus (10 * n + (b - 48)) (frames_in base w group) (stock_of w) ≡ step_of base w bytes result }
    ensures ready { (base : ℕ) (w : World) (bytes : List ℕ) → IsReadyToRead base w group → IsStep base w bytes result }
{
    let n = 10 * n + u64::from(b - 48);
    if n > LEAST || (!minus && n == LEAST) {
        return Step::Refuses;
    }
    Step::Goes(Mode::Number(minus, n), group)
}

/// A byte in a string, or behind a `"` in it.
fn in_text(
    w: &mut World,
    b: u8,
    mode: Mode,
    group: Group,
    word: &mut Word,
    base: u64,
) -> Result<Step, Stop>
    requires ready { IsReadyToRead base w.old group }
    requires word { IsMode mode word.old.items }
    requires text { is_text_mode mode ≡ true }
    ensures { TakesStep base w.old group w.new word.new.items (λ m fs k. reader.reader_step m (mode_of mode word.old.items) b fs k) result }
{
    match mode {
        Mode::Text => {
            if b == b'"' {
                return Ok(Step::Goes(Mode::Quote, group));
            }
            Ok(grown(word, LONGEST_TEXT, b, Mode::Text, group))
        }
        _ => {
            if b == b'"' {
                return Ok(grown(word, LONGEST_TEXT, b, Mode::Text, group));
            }
            before(w, b, Mode::Quote, group, word, base)
        }
    }
}

/// A byte behind a sign, or in a number.
fn in_digits(
    w: &mut World,
    b: u8,
    mode: Mode,
    group: Group,
    word: &mut Word,
    base: u64,
) -> Result<Step, Stop>
    requires ready { IsReadyToRead base w.old group }
    requires word { IsMode mode word.old.items }
    requires digits { is_digits_mode mode ≡ true }
    ensures { TakesStep base w.old group w.new word.new.items (λ m fs k. reader.reader_step m (mode_of mode word.old.items) b fs k) result }
{
    if !b.is_ascii_digit() {
        return before(w, b, mode, group, word, base);
    }
    match mode {
        Mode::Number(minus, n) => Ok(in_number(minus, n, b, group)),
        Mode::Sign(c) => Ok(Step::Goes(Mode::Number(c == b'-', u64::from(b - 48)), group)),
        _ => Ok(Step::Refuses),
    }
}

/// What a byte does.
pub(crate) fn read_byte(
    w: &mut World,
    b: u8,
    mode: Mode,
    group: Group,
    word: &mut Word,
    base: u64,
) -> Result<Step, Stop>
    requires ready { IsReadyToRead base w.old group }
    requires word { IsMode mode word.old.items }
    ensures { TakesStep base w.old group w.new word.new.items (λ m fs k. reader.reader_step m (mode_of mode word.old.items) b fs k) result }
{
    match mode {
        Mode::Gap => at_gap(w, b, group, word, base),
        Mode::Comment => Ok(in_comment(b, group)),
        Mode::Name => in_name(w, b, group, word, base),
        Mode::Escape => {
            word.push(b);
            Ok(Step::Goes(Mode::Name, group))
        }
        Mode::Sign(_) | Mode::Number(_, _) => in_digits(w, b, mode, group, word, base),
        Mode::Text | Mode::Quote => in_text(w, b, mode, group, word, base),
    }
}

/// A comment ends with its line.
fn in_comment(b: u8, group: Group) -> Step
    ensures { (base : ℕ) (w : World) (bytes : List ℕ) → IsReadyToRead base w group → TakesStep base w group w bytes (λ m fs k. reader.reader_step m reader.Comment b fs k) (Ok result) }
{
    if b == b'\n' {
        Step::Goes(Mode::Gap, group)
    } else {
        Step::Goes(Mode::Comment, group)
    }
}
