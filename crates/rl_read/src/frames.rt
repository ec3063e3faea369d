//! What has begun and is not whole yet: the newest part beside the loop, the others in the world's walk.
ghost use Rattle.std.specs.Prelude.{◌≡◌, ◌≢◌, ◌*◌, ◌/◌, ◌<◌, ◌≤◌, ◌^◌, ℕ, Bool, List, ◌∷◌, length, true, IfErr};
ghost use Rattle.std.specs.List.{AllByRecursion};
ghost use Rattle.rl_cells.specs.Cell.{Cell};
ghost use Rattle.rl_text.specs.Reader.{ReaderFrame, Goes, Gap, left};
ghost use Rattle.rl_text.specs.Reader as reader;
ghost use Rattle.rl_read.specs.Given.{is_counted};
ghost use Rattle.rl_read.specs.Stock.{in_stock, stock_of};
ghost use Rattle.rl_read.specs.Stock as stock;
ghost use Rattle.rl_read.specs.Frames.{CanMake, IsChain, IsGroup, IsKeptByReading, IsReadyToRead, chain_in, chain_of, frame_of, frames_around, frames_in, frames_kept, frames_of, group_admits, group_in, is_inner_group, kind_of_phase, opening_frame, weight_of_group};
ghost use Rattle.rl_read.specs.Calls.{BeginsGroup, ChangesLevels};
ghost use Rattle.rl_read.specs.declared.frames.Group.TheVariants as rl_group;
ghost use Rattle.rl_read.specs.declared.frames.Phase.TheVariants as phase;
ghost use Rattle.rl_world.specs.Walks.{kept_above};

use rl_tags::{NIL, Tag, Val};
use rl_world::{Stop, World};

/// The pairs of a list that is not whole yet: the first and the last of them.
#[derive(Clone, Copy)]
pub(crate) enum Chain {
    Empty,
    Pairs(Val, Val),
}

/// How far a list is: it has no element yet; it has some; its dot has come; what stands behind its dot has come.
#[derive(Clone, Copy)]
pub(crate) enum Phase {
    Begun,
    Going,
    Dotted,
    Shut,
}

/// What a level has begun. A list behind a dot goes on with the list around it, and so many `)` more end them; a vector or a
/// quote behind a dot takes no level, so it stands with its list.
#[derive(Clone, Copy)]
pub(crate) enum Group {
    Root,
    Quote,
    Vector(Chain),
    List(Chain, u32, Phase),
    QuoteBehind(Chain, u32),
    VectorBehind(Chain, Chain, u32),
}

/// What begins with `(`, `[` or `'`.
#[derive(Clone, Copy)]
pub(crate) enum Opening {
    List,
    Vector,
    Quote,
}

/// The places of a chain in one word; 0 for a chain without pairs.
fn packed(w: &World, chain: &Chain) -> u64
    requires { IsChain w.now.cells.cells chain.now }
    ensures { chain_in result ≡ chain.now }
{
    let places = u64::from(w.cells.places());
    match chain {
        Chain::Empty => 0,
        Chain::Pairs(first, last) => {
            // Places are below 2^32, so that two of them fit.
            prove!(first.index() < places && last.index() < places);
            first.index() * 4_294_967_296 + last.index() + 1
        }
    }
}

/// The chain of a word.
fn unpacked(word: u64) -> Chain
    ensures { result ≡ chain_in word }
{
    if word == 0 {
        return Chain::Empty;
    }
    let first = Val::at(Tag::Pair, (word - 1) / 4_294_967_296);
    let last = Val::at(Tag::Pair, (word - 1) % 4_294_967_296);
    Chain::Pairs(first, last)
}

/// The three words that keep a group.
fn words_of(w: &World, group: &Group) -> (u64, u64, u64)
    requires { IsGroup w.now.cells.cells group.now }
    ensures group { group_in result ≡ group.now }
    ensures owed { result.0 / 16 < 2 ^ 32 }
{
    match group {
        Group::Root => (0, 0, 0),
        Group::Quote => (1, 0, 0),
        Group::Vector(v) => (2, 0, packed(w, v)),
        Group::List(l, owed, phase) => {
            (kind_of_list(phase) + 16 * u64::from(*owed), packed(w, l), 0)
        }
        Group::QuoteBehind(l, owed) => (7 + 16 * u64::from(*owed), packed(w, l), 0),
        Group::VectorBehind(v, l, owed) => {
            (8 + 16 * u64::from(*owed), packed(w, l), packed(w, v))
        }
    }
}

fn kind_of_list(phase: &Phase) -> u64
    ensures { result ≡ kind_of_phase phase.now }
{
    match phase {
        Phase::Begun => 3,
        Phase::Going => 4,
        Phase::Dotted => 5,
        Phase::Shut => 6,
    }
}

/// The group of three words.
fn group_of(a: u64, b: u64, c: u64) -> Group
    requires { a / 16 < 2 ^ 32 }
    ensures { result ≡ group_in (a, b, c) }
{
    let owed = (a / 16) as u32;
    match a % 16 {
        0 => Group::Root,
        1 => Group::Quote,
        2 => Group::Vector(unpacked(c)),
        3 => Group::List(unpacked(b), owed, Phase::Begun),
        4 => Group::List(unpacked(b), owed, Phase::Going),
        5 => Group::List(unpacked(b), owed, Phase::Dotted),
        6 => Group::List(unpacked(b), owed, Phase::Shut),
        7 => Group::QuoteBehind(unpacked(b), owed),
        _ => Group::VectorBehind(unpacked(c), unpacked(b), owed),
    }
}

/// The first pair of a chain, or NIL.
pub(crate) fn first_of(chain: &Chain) -> Val
    ensures { result ≡ stock.first_of_chain (chain_of chain.now) }
{
    match chain {
        Chain::Empty => NIL,
        Chain::Pairs(first, _) => *first,
    }
}

/// Whether a spelling may stand here.
pub(crate) fn admits(group: &Group) -> bool
    ensures { result ≡ group_admits group.now }
{
    match group {
        Group::List(_, _, phase) => match phase {
            Phase::Shut => false,
            _ => true,
        },
        _ => true,
    }
}

/// A list, a vector or a quote begins: as an element it enters a level, behind a dot it stands with its list.
pub(crate) fn begin(w: &mut World, opening: Opening, outer: &Group) -> Result<Group, Stop>
    requires { IsGroup w.old.cells.cells outer.now }
    ensures begins { (base : ℕ) → IsReadyToRead base w.old outer.now → BeginsGroup base w.old outer.now w.new opening result }
    ensures counted { IfErr result (λ s. is_counted s ≡ true) }
    ensures world { w.new ≡ record w.old { levels = w.new.levels } }
{
    match outer {
        Group::Root => Ok(begun(opening)),
        Group::List(l, owed, phase) => match phase {
            Phase::Dotted => Ok(behind(w, opening, l, *owed)),
            _ => keep(w, opening, outer),
        },
        _ => keep(w, opening, outer),
    }
}

/// What begins as an element.
fn begun(opening: Opening) -> Group
    ensures frames { (fs : List (ReaderFrame stock.PairChain)) → frames_of result fs ≡ frame_of opening ∷ fs }
    ensures group { (cells : List Cell) → IsGroup cells result }
    ensures inside { result ≢ rl_group.Root }
{
    match opening {
        Opening::List => Group::List(Chain::Empty, 0, Phase::Begun),
        Opening::Vector => Group::Vector(Chain::Empty),
        Opening::Quote => Group::Quote,
    }
}

/// What begins behind the dot of a list.
fn behind(w: &World, opening: Opening, l: &Chain, owed: u32) -> Group
    requires { IsGroup w.now.cells.cells (rl_group.List l.now owed phase.Dotted) }
    ensures opened { (t : Bool) (fs : List (ReaderFrame stock.PairChain)) (k : stock.Stock) → opening_frame (in_stock t) opening (frames_of (rl_group.List l.now owed phase.Dotted) fs) k ≡ Goes Gap (frames_of result fs) k }
    ensures group { IsGroup w.now.cells.cells result }
    ensures inside { result ≢ rl_group.Root }
{
    let places = w.cells.places();
    match opening {
        Opening::List => {
            prove!(owed < places);
            Group::List(*l, owed + 1, Phase::Begun)
        }
        Opening::Vector => Group::VectorBehind(Chain::Empty, *l, owed),
        Opening::Quote => Group::QuoteBehind(*l, owed),
    }
}

/// Enters a level, and keeps what is around it.
fn keep(w: &mut World, opening: Opening, outer: &Group) -> Result<Group, Stop>
    requires group { IsGroup w.old.cells.cells outer.now }
    requires inner { is_inner_group outer.now ≡ true }
    ensures begins { (base : ℕ) → IsReadyToRead base w.old outer.now → BeginsGroup base w.old outer.now w.new opening result }
    ensures counted { IfErr result (λ s. is_counted s ≡ true) }
    ensures world { w.new ≡ record w.old { levels = w.new.levels } }
{
    let (a, b, c) = words_of(w, outer);
    match w.walk_push(a, b, c) {
        Ok(()) => Ok(begun(opening)),
        Err(s) => Err(s),
    }
}

/// What is around a group that has ended; its level is left.
pub(crate) fn around(w: &mut World, group: &Group, base: u64) -> Group
    requires ready { IsReadyToRead base w.old group.now }
    requires inside { group.now ≢ rl_group.Root }
    ensures frames { frames_in base w.new result ≡ frames_around base w.old group.now }
    ensures left { (t : Bool) → stock_of w.new ≡ left (in_stock t) (frames_around base w.old group.now) (stock_of w.old) }
    ensures less { weight_of_group w.new result < weight_of_group w.old group.now }
    ensures ready { IsReadyToRead base w.new result }
    ensures levels { ChangesLevels base w.old w.new }
{
    match group {
        Group::QuoteBehind(l, owed) => Group::List(*l, *owed, Phase::Dotted),
        Group::VectorBehind(_, l, owed) => Group::List(*l, *owed, Phase::Dotted),
        _ => outer(w, base),
    }
}

/// The group that was kept last, or none where nothing was kept.
fn outer(w: &mut World, base: u64) -> Group
    requires able { CanMake w.old }
    requires above { base ≤ length w.old.levels.walk }
    requires kept { AllByRecursion (IsKeptByReading w.old.cells.cells) (kept_above base w.old.levels) }
    ensures frames { frames_in base w.new result ≡ frames_kept (kept_above base w.old.levels) }
    ensures left { (t : Bool) → stock_of w.new ≡ left (in_stock t) (frames_kept (kept_above base w.old.levels)) (stock_of w.old) }
    ensures less { weight_of_group w.new result ≤ 3 * length w.old.levels.walk }
    ensures ready { IsReadyToRead base w.new result }
    ensures levels { ChangesLevels base w.old w.new }
{
    if w.walk_len() == base {
        return Group::Root;
    }
    let (a, b, c) = w.walk_pop();
    group_of(a, b, c)
}

/// Leaves all levels that were entered.
pub(crate) fn leave(w: &mut World, base: u64)
    requires { base ≤ length w.old.levels.walk }
    ensures left { length w.new.levels.walk ≡ base }
    ensures levels { ChangesLevels base w.old w.new }
{
    while w.walk_len() > base {
        w.walk_pop();
    }
}
