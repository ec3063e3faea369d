//! Natives on pairs: CONS, CAR, CDR and what is composed of them, RPLACA and RPLACD.
ghost use Rattle.std.specs.Prelude.{◌≡◌, IsTrue, IfOk, IfErr, None, [], ◌∷◌, if◌then◌else◌};
ghost use Rattle.rl_cells.specs.Cell.{is_live};
ghost use Rattle.rl_meaning.specs.State.{State};
ghost use Rattle.rl_meaning.specs.Names.{Cons, Part, Rplaca, Rplacd};
ghost use Rattle.rl_meaning.specs.Natives.{native};
ghost use Rattle.rl_syms.specs.Contents.{value_of};
ghost use Rattle.rl_state.specs.ShownState.{ShowsState};
ghost use Rattle.rl_state.specs.Worlds.{IsWorld, WorldGrows, ObjectsAlone};
ghost use Rattle.rl_state.specs.Ending.{IsAnswerLive, MeansAnswer};
ghost use Rattle.rl_meaning.specs.Lists.{part as reaching};
ghost use Rattle.rl_std.specs.Paths.{ReachesPart, is_car, letters_left, letters_of};

use rl_state::laws::steps_follow;
use rl_state::{fail, pair, parts, set_car, set_cdr};
use rl_tags::Val;
use rl_world::{NStep, World};

/// A part of a pair: its CAR or its CDR.
#[derive(Clone, Copy)]
pub enum Letter {
    A,
    D,
}

/// One to four letters of a name from CAR to CDDDDR, the one next to R first.
#[derive(Clone, Copy)]
pub enum Path {
    One(Letter),
    Two(Letter, Letter),
    Three(Letter, Letter, Letter),
    Four(Letter, Letter, Letter, Letter),
}

/// CONS, as a native.
pub fn cons(w: &mut World, a: Val, d: Val) -> NStep
    requires world { IsWorld w.old }
    requires a_live { IsTrue (is_live w.old.cells.cells a) }
    requires d_live { IsTrue (is_live w.old.cells.cells d) }
    ensures means { (s : State) → ShowsState w.old s → MeansAnswer s (native Cons None (value_of w.old.cells.cells a ∷ value_of w.old.cells.cells d ∷ []) s) result w.new }
    ensures live { IsAnswerLive w.new.cells.cells result }
    ensures grows { WorldGrows w.old w.new }
    ensures rest { ObjectsAlone w.old w.new }
{
    match pair(w, a, d) {
        Ok(v) => NStep::Done(v),
        Err(why) => NStep::Stop(why),
    }
}

/// The first letter, and those behind it.
fn first_letter(path: Path) -> (Letter, Option<Path>)
    ensures { letters_of path ≡ is_car result.0 ∷ letters_left result.1 }
{
    match path {
        Path::One(a) => (a, None),
        Path::Two(a, b) => (a, Some(Path::One(b))),
        Path::Three(a, b, c) => (a, Some(Path::Two(b, c))),
        Path::Four(a, b, c, d) => (a, Some(Path::Three(b, c, d))),
    }
}

/// The part of a value along a path, or the atom of which a part is asked for.
fn reached(w: &World, path: Path, v: Val) -> Result<Val, Val>
    requires { IsTrue (is_live w.now.cells.cells v) }
    ensures means { (s : State) → ShowsState w.now s → ReachesPart s (reaching (letters_of path) (value_of w.now.cells.cells v) s) result w.now }
    ensures live { IfOk result (λ p. IsTrue (is_live w.now.cells.cells p)) }
    ensures culprit_live { IfErr result (λ p. IsTrue (is_live w.now.cells.cells p)) }
{
    steps_follow();
    let mut left = Some(path);
    let mut at = v;
    while let Some(here) = left {
        let (letter, rest) = first_letter(here);
        let Some(p) = parts(w, at) else {
            return Err(at);
        };
        at = side(letter, p);
        left = rest;
    }
    Ok(at)
}

/// CAR, CDR and all that is composed of two to four of them, as natives.
pub fn part(w: &mut World, path: Path, v: Val) -> NStep
    requires world { IsWorld w.old }
    requires v_live { IsTrue (is_live w.old.cells.cells v) }
    ensures means { (s : State) → ShowsState w.old s → MeansAnswer s (native (Part (letters_of path)) None (value_of w.old.cells.cells v ∷ []) s) result w.new }
    ensures live { IsAnswerLive w.new.cells.cells result }
    ensures grows { WorldGrows w.old w.new }
    ensures rest { ObjectsAlone w.old w.new }
{
    steps_follow();
    match reached(w, path, v) {
        Ok(p) => NStep::Done(p),
        Err(atom) => fail(w, 13, atom),
    }
}

/// One of two parts.
fn side(letter: Letter, p: (Val, Val)) -> Val
    ensures { result ≡ (if is_car letter then p.0 else p.1) }
{
    match letter {
        Letter::A => p.0,
        Letter::D => p.1,
    }
}

/// RPLACA, as a native.
pub fn rplaca(w: &mut World, u: Val, v: Val) -> NStep
    requires world { IsWorld w.old }
    requires u_live { IsTrue (is_live w.old.cells.cells u) }
    requires v_live { IsTrue (is_live w.old.cells.cells v) }
    ensures means { (s : State) → ShowsState w.old s → MeansAnswer s (native Rplaca None (value_of w.old.cells.cells u ∷ value_of w.old.cells.cells v ∷ []) s) result w.new }
    ensures live { IsAnswerLive w.new.cells.cells result }
    ensures grows { WorldGrows w.old w.new }
    ensures rest { ObjectsAlone w.old w.new }
{
    steps_follow();
    match parts(w, u) {
        Some(_p) => {
            set_car(w, u, v);
            NStep::Done(u)
        }
        None => fail(w, 13, u),
    }
}

/// RPLACD, as a native.
pub fn rplacd(w: &mut World, u: Val, v: Val) -> NStep
    requires world { IsWorld w.old }
    requires u_live { IsTrue (is_live w.old.cells.cells u) }
    requires v_live { IsTrue (is_live w.old.cells.cells v) }
    ensures means { (s : State) → ShowsState w.old s → MeansAnswer s (native Rplacd None (value_of w.old.cells.cells u ∷ value_of w.old.cells.cells v ∷ []) s) result w.new }
    ensures live { IsAnswerLive w.new.cells.cells result }
    ensures grows { WorldGrows w.old w.new }
    ensures rest { ObjectsAlone w.old w.new }
{
    steps_follow();
    match parts(w, u) {
        Some(_p) => {
            set_cdr(w, u, v);
            NStep::Done(u)
        }
        None => fail(w, 13, u),
    }
}
