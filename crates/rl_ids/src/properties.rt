//! Properties: GET, PUT and REMPROP, and FLAGP.
ghost use Rattle.std.specs.Prelude.{◌≡◌, ◌∷◌, IsTrue, List, None, []};
ghost use Rattle.std.specs.Option.{ForSome};
ghost use Rattle.rl_cells.specs.Cell.{Cell, is_live};
ghost use Rattle.rl_meaning.specs.Names.{Flagp, Get, Put, Remprop};
ghost use Rattle.rl_meaning.specs.Natives.{native};
ghost use Rattle.rl_meaning.specs.Outcome.{then_do};
ghost use Rattle.rl_meaning.specs.Properties.{is_property, is_there, look_for, properties, put_at as putting_at};
ghost use Rattle.rl_meaning.specs.State.{State};
ghost use Rattle.rl_state.specs.Ending.{IsAnswerLive, MeansAnswer};
ghost use Rattle.rl_state.specs.ShownState.{ShowsState, number_in, option_value_in};
ghost use Rattle.rl_state.specs.Worlds.{IsWorld, ObjectsAlone, WorldGrows};
ghost use Rattle.rl_syms.specs.Contents.{value_of};
ghost use Rattle.rl_syms.specs.Table.{is_id};

use crate::elements::{Wanted, add_first, look_for, take_out};
use crate::parts::{car_or_nil, change_cdr, property_value};
use crate::truth::truth;
use rl_state::laws::steps_follow;
use rl_state::{fail, pair, properties};
use rl_tags::{NIL, Tag, Val};
use rl_world::{NStep, World};

/// GET, as a native.
pub fn get(w: &mut World, u: Val, p: Val) -> NStep
    requires world { IsWorld w.old }
    requires u_live { IsTrue (is_live w.old.cells.cells u) }
    requires p_live { IsTrue (is_live w.old.cells.cells p) }
    ensures means { (s : State) → ShowsState w.old s → MeansAnswer s (native Get None (value_of w.old.cells.cells u ∷ value_of w.old.cells.cells p ∷ []) s) result w.new }
    ensures live { IsAnswerLive w.new.cells.cells result }
    ensures grows { WorldGrows w.old w.new }
    ensures rest { ObjectsAlone w.old w.new }
{
    steps_follow();
    match u.tag() {
        Tag::Id => {
            let list = properties(w, u);
            match look_for(w, Wanted::Property, p, list) {
                Ok(place) => NStep::Done(property_value(w, place.at)),
                Err(why) => NStep::Stop(why),
            }
        }
        _ => NStep::Done(NIL),
    }
}

/// Whether there is one.
fn is_there(at: Option<Val>) -> bool
    ensures { (cells : List Cell) → is_there (option_value_in cells at) ≡ result }
{
    match at {
        Some(_here) => true,
        None => false,
    }
}

/// FLAGP, as a native.
pub fn flagp(w: &mut World, u: Val, p: Val) -> NStep
    requires world { IsWorld w.old }
    requires u_live { IsTrue (is_live w.old.cells.cells u) }
    requires p_live { IsTrue (is_live w.old.cells.cells p) }
    ensures means { (s : State) → ShowsState w.old s → MeansAnswer s (native Flagp None (value_of w.old.cells.cells u ∷ value_of w.old.cells.cells p ∷ []) s) result w.new }
    ensures live { IsAnswerLive w.new.cells.cells result }
    ensures grows { WorldGrows w.old w.new }
    ensures rest { ObjectsAlone w.old w.new }
{
    steps_follow();
    match u.tag() {
        Tag::Id => {
            let list = properties(w, u);
            match look_for(w, Wanted::Flag, p, list) {
                Ok(place) => NStep::Done(truth(w, is_there(place.at))),
                Err(why) => NStep::Stop(why),
            }
        }
        _ => NStep::Done(NIL),
    }
}

/// PUT, as a native.
pub fn put(w: &mut World, u: Val, p: Val, x: Val) -> NStep
    requires world { IsWorld w.old }
    requires u_live { IsTrue (is_live w.old.cells.cells u) }
    requires p_live { IsTrue (is_live w.old.cells.cells p) }
    requires x_live { IsTrue (is_live w.old.cells.cells x) }
    ensures means { (s : State) → ShowsState w.old s → MeansAnswer s (native Put None (value_of w.old.cells.cells u ∷ value_of w.old.cells.cells p ∷ value_of w.old.cells.cells x ∷ []) s) result w.new }
    ensures live { IsAnswerLive w.new.cells.cells result }
    ensures grows { WorldGrows w.old w.new }
    ensures rest { ObjectsAlone w.old w.new }
{
    match u.tag() {
        Tag::Id => match p.tag() {
            Tag::Id => put_property(w, u, p, x),
            _ => fail(w, 13, p),
        },
        _ => fail(w, 13, u),
    }
}

/// PUT where both are identifiers.
fn put_property(w: &mut World, u: Val, p: Val, x: Val) -> NStep
    requires world { IsWorld w.old }
    requires id { IsTrue (is_id w.old.cells.cells u) }
    requires p_live { IsTrue (is_live w.old.cells.cells p) }
    requires x_live { IsTrue (is_live w.old.cells.cells x) }
    ensures means { (s : State) → ShowsState w.old s → MeansAnswer s (then_do (look_for (is_property (value_of w.old.cells.cells p)) (properties s (number_in w.old.cells.cells u)) s) (λ place s. putting_at (number_in w.old.cells.cells u) (value_of w.old.cells.cells p) (value_of w.old.cells.cells x) place.at s)) result w.new }
    ensures live { IsAnswerLive w.new.cells.cells result }
    ensures grows { WorldGrows w.old w.new }
    ensures rest { ObjectsAlone w.old w.new }
{
    steps_follow();
    let list = properties(w, u);
    match look_for(w, Wanted::Property, p, list) {
        Ok(place) => put_at(w, u, p, x, place.at),
        Err(why) => NStep::Stop(why),
    }
}

/// Gives an identifier a property, where it was looked for: in the place of its former value, or before the other properties.
fn put_at(w: &mut World, u: Val, p: Val, x: Val, at: Option<Val>) -> NStep
    requires world { IsWorld w.old }
    requires id { IsTrue (is_id w.old.cells.cells u) }
    requires p_live { IsTrue (is_live w.old.cells.cells p) }
    requires x_live { IsTrue (is_live w.old.cells.cells x) }
    requires at_live { ForSome at (λ v. IsTrue (is_live w.old.cells.cells v)) }
    ensures means { (s : State) → ShowsState w.old s → MeansAnswer s (putting_at (number_in w.old.cells.cells u) (value_of w.old.cells.cells p) (value_of w.old.cells.cells x) (option_value_in w.old.cells.cells at) s) result w.new }
    ensures live { IsAnswerLive w.new.cells.cells result }
    ensures grows { WorldGrows w.old w.new }
    ensures rest { ObjectsAlone w.old w.new }
{
    match at {
        Some(here) => {
            let property = car_or_nil(w, here);
            change_cdr(w, property, x);
            NStep::Done(x)
        }
        None => add_property(w, u, p, x),
    }
}

/// Gives an identifier a new property.
fn add_property(w: &mut World, u: Val, p: Val, x: Val) -> NStep
    requires world { IsWorld w.old }
    requires id { IsTrue (is_id w.old.cells.cells u) }
    requires p_live { IsTrue (is_live w.old.cells.cells p) }
    requires x_live { IsTrue (is_live w.old.cells.cells x) }
    ensures means { (s : State) → ShowsState w.old s → MeansAnswer s (putting_at (number_in w.old.cells.cells u) (value_of w.old.cells.cells p) (value_of w.old.cells.cells x) None s) result w.new }
    ensures live { IsAnswerLive w.new.cells.cells result }
    ensures grows { WorldGrows w.old w.new }
    ensures rest { ObjectsAlone w.old w.new }
{
    steps_follow();
    match pair(w, p, x) {
        Ok(property) => match add_first(w, u, property) {
            Ok(()) => NStep::Done(x),
            Err(why) => NStep::Stop(why),
        },
        Err(why) => NStep::Stop(why),
    }
}

/// REMPROP, as a native.
pub fn remprop(w: &mut World, u: Val, p: Val) -> NStep
    requires world { IsWorld w.old }
    requires u_live { IsTrue (is_live w.old.cells.cells u) }
    requires p_live { IsTrue (is_live w.old.cells.cells p) }
    ensures means { (s : State) → ShowsState w.old s → MeansAnswer s (native Remprop None (value_of w.old.cells.cells u ∷ value_of w.old.cells.cells p ∷ []) s) result w.new }
    ensures live { IsAnswerLive w.new.cells.cells result }
    ensures grows { WorldGrows w.old w.new }
    ensures rest { ObjectsAlone w.old w.new }
{
    steps_follow();
    match u.tag() {
        Tag::Id => {
            let list = properties(w, u);
            match look_for(w, Wanted::Property, p, list) {
                Ok(place) => {
                    let former = property_value(w, place.at);
                    take_out(w, u, place);
                    NStep::Done(former)
                }
                Err(why) => NStep::Stop(why),
            }
        }
        _ => NStep::Done(NIL),
    }
}
