//! Natives that walk along a list: LENGTH, REVERSE, APPEND and NCONC. Each pair takes its turn as it is reached.
ghost use Rattle.std.specs.Prelude.{◌≡◌, ◌≤◌, IsTrue, IfOk, ◌-◌, ◌^◌, pos, None, [], ◌∷◌};
ghost use Rattle.rl_cells.specs.Cell.{is_live};
ghost use Rattle.rl_meaning.specs.State.{State};
ghost use Rattle.rl_meaning.specs.Names.{Append, Length, Nconc, Reverse};
ghost use Rattle.rl_meaning.specs.Natives.{native};
ghost use Rattle.rl_meaning.specs.Lists.{list_ended, list_extended};
ghost use Rattle.rl_syms.specs.Contents.{value_of};
ghost use Rattle.rl_state.specs.ShownState.{ShowsState};
ghost use Rattle.rl_state.specs.Worlds.{IsWorld, WorldGrows, ObjectsAlone};
ghost use Rattle.rl_state.specs.Ending.{IsAnswerLive, MeansAnswer};
ghost use Rattle.rl_std.specs.Chains.{IsListChain, MeansChain, list_chain_in};
ghost use Rattle.rl_tags.specs.Tagged.{Number};
ghost use Rattle.rl_world.specs.declared.stop.NStep.TheVariants as step;

use rl_meaning::laws::walks_are_unbounded;
use rl_state::laws::{objects_are_shown, steps_follow};
use rl_state::{pair, parts, set_cdr, turn};
use rl_tags::{NIL, Val};
use rl_world::laws::counts_are_taken;
use rl_world::{NStep, Stop, World};
use std::marker::Brand;

/// A small integer.
fn count(n: u64) -> Val
    requires { n ≤ 2 ^ 59 - 1 }
    ensures { result ≡ Number (pos n) }
{
    Val::small(n as i64)
}

/// LENGTH, as a native.
pub fn length(w: &mut World, u: Val) -> NStep
    requires world { IsWorld w.old }
    requires u_live { IsTrue (is_live w.old.cells.cells u) }
    ensures means { (s : State) → ShowsState w.old s → MeansAnswer s (native Length None (value_of w.old.cells.cells u ∷ []) s) result w.new }
    ensures live { IsAnswerLive w.new.cells.cells result }
    ensures grows { WorldGrows w.old w.new }
    ensures rest { ObjectsAlone w.old w.new }
{
    steps_follow();
    walks_are_unbounded::<Brand>();
    let mut n: u64 = 0;
    let mut at = u;
    while let Some(p) = parts(w, at) {
        if let Err(why) = turn(w) {
            return NStep::Stop(why);
        }
        n += 1;
        at = p.1;
    }
    NStep::Done(count(n))
}

/// REVERSE, as a native.
pub fn reverse(w: &mut World, u: Val) -> NStep
    requires world { IsWorld w.old }
    requires u_live { IsTrue (is_live w.old.cells.cells u) }
    ensures means { (s : State) → ShowsState w.old s → MeansAnswer s (native Reverse None (value_of w.old.cells.cells u ∷ []) s) result w.new }
    ensures live { IsAnswerLive w.new.cells.cells result }
    ensures grows { WorldGrows w.old w.new }
    ensures rest { ObjectsAlone w.old w.new }
{
    steps_follow();
    walks_are_unbounded::<Brand>();
    let mut list = NIL;
    let mut at = u;
    while let Some(p) = parts(w, at) {
        if let Err(why) = turn(w) {
            return NStep::Stop(why);
        }
        match pair(w, p.0, list) {
            Ok(v) => list = v,
            Err(why) => return NStep::Stop(why),
        }
        at = p.1;
    }
    NStep::Done(list)
}

/// A list with one more element behind the others, by its first and its last pair.
fn extended(w: &mut World, chain: Option<(Val, Val)>, x: Val) -> Result<Option<(Val, Val)>, Stop>
    requires world { IsWorld w.old }
    requires chain { IsListChain w.old.cells.cells chain }
    requires x_live { IsTrue (is_live w.old.cells.cells x) }
    ensures means { (s : State) → ShowsState w.old s → MeansChain s (list_extended (list_chain_in w.old.cells.cells chain) (value_of w.old.cells.cells x) s) result w.new }
    ensures chain { IfOk result (λ c. IsListChain w.new.cells.cells c) }
    ensures grows { WorldGrows w.old w.new }
    ensures rest { ObjectsAlone w.old w.new }
{
    steps_follow();
    objects_are_shown();
    match pair(w, x, NIL) {
        Ok(p) => match chain {
            Some(c) => {
                set_cdr(w, c.1, p);
                Ok(Some((c.0, p)))
            }
            None => Ok(Some((p, p))),
        },
        Err(why) => Err(why),
    }
}

/// The list, with this behind its last element.
fn ended(w: &mut World, chain: Option<(Val, Val)>, v: Val) -> Val
    requires world { IsWorld w.old }
    requires chain { IsListChain w.old.cells.cells chain }
    requires v_live { IsTrue (is_live w.old.cells.cells v) }
    ensures means { (s : State) → ShowsState w.old s → MeansAnswer s (list_ended (list_chain_in w.old.cells.cells chain) (value_of w.old.cells.cells v) s) (step.Done result) w.new }
    ensures live { IsTrue (is_live w.new.cells.cells result) }
    ensures grows { WorldGrows w.old w.new }
    ensures rest { ObjectsAlone w.old w.new }
{
    steps_follow();
    objects_are_shown();
    match chain {
        Some(c) => {
            set_cdr(w, c.1, v);
            c.0
        }
        None => v,
    }
}

/// APPEND, as a native: each pair of `u` is copied as it is reached.
pub fn append(w: &mut World, u: Val, v: Val) -> NStep
    requires world { IsWorld w.old }
    requires u_live { IsTrue (is_live w.old.cells.cells u) }
    requires v_live { IsTrue (is_live w.old.cells.cells v) }
    ensures means { (s : State) → ShowsState w.old s → MeansAnswer s (native Append None (value_of w.old.cells.cells u ∷ value_of w.old.cells.cells v ∷ []) s) result w.new }
    ensures live { IsAnswerLive w.new.cells.cells result }
    ensures grows { WorldGrows w.old w.new }
    ensures rest { ObjectsAlone w.old w.new }
{
    steps_follow();
    walks_are_unbounded::<Brand>();
    let mut chain = None;
    let mut at = u;
    while let Some(p) = parts(w, at) {
        if let Err(why) = turn(w) {
            return NStep::Stop(why);
        }
        match extended(w, chain, p.0) {
            Ok(longer) => chain = longer,
            Err(why) => return NStep::Stop(why),
        }
        at = p.1;
    }
    NStep::Done(ended(w, chain, v))
}

/// NCONC, as a native.
pub fn nconc(w: &mut World, u: Val, v: Val) -> NStep
    requires world { IsWorld w.old }
    requires u_live { IsTrue (is_live w.old.cells.cells u) }
    requires v_live { IsTrue (is_live w.old.cells.cells v) }
    ensures means { (s : State) → ShowsState w.old s → MeansAnswer s (native Nconc None (value_of w.old.cells.cells u ∷ value_of w.old.cells.cells v ∷ []) s) result w.new }
    ensures live { IsAnswerLive w.new.cells.cells result }
    ensures grows { WorldGrows w.old w.new }
    ensures rest { ObjectsAlone w.old w.new }
{
    steps_follow();
    objects_are_shown();
    walks_are_unbounded::<Brand>();
    let mut last = None;
    let mut at = u;
    while let Some(p) = parts(w, at) {
        if let Err(why) = turn(w) {
            return NStep::Stop(why);
        }
        last = Some(at);
        at = p.1;
    }
    match last {
        Some(p) => {
            set_cdr(w, p, v);
            NStep::Done(u)
        }
        None => NStep::Done(v),
    }
}
