//! Elements of property lists: where one is looked for, and how one is added and taken out.
ghost use Rattle.std.specs.Prelude.{◌≡◌, IfOk, IsTrue};
ghost use Rattle.std.specs.Option.{ForSome};
ghost use Rattle.rl_cells.specs.Cell.{is_live};
ghost use Rattle.rl_meaning.specs.State.{State};
ghost use Rattle.rl_meaning.specs.Properties.{add_first as adding_first, look_for as looking_for, taken_out, without};
ghost use Rattle.rl_state.specs.Ending.{IsShownBeside, MeansDone};
ghost use Rattle.rl_state.specs.ShownState.{ShowsState, number_in, option_value_in};
ghost use Rattle.rl_state.specs.Worlds.{IsWorld, ObjectsAlone, WorldGrows};
ghost use Rattle.rl_syms.specs.Contents.{value_of};
ghost use Rattle.rl_syms.specs.Table.{is_id};
ghost use Rattle.rl_ids.specs.Elements.{MeansPlace, passes, place_shown};

use crate::parts::{cdr_or_nil, change_cdr};
use crate::same::same;
use rl_meaning::laws::walks_are_unbounded;
use rl_state::laws::steps_follow;
use rl_state::{pair, parts, properties, set_properties, turn};
use rl_tags::Val;
use rl_world::{Stop, World};
use std::marker::Brand;

/// What is looked for on a property list: a property, by the car of an element that is a pair, or a flag, an element itself.
#[derive(Clone, Copy)]
pub(crate) enum Wanted {
    Property,
    Flag,
}

/// Where an element was looked for: the pair whose element it is and the pair before that, where there are such.
#[derive(Clone, Copy)]
pub(crate) struct Sought {
    pub before: Option<Val>,
    pub at: Option<Val>,
}

/// Whether an element is the one that is looked for.
fn is_wanted(w: &World, wanted: Wanted, p: Val, x: Val) -> bool
    requires p_live { IsTrue (is_live w.now.cells.cells p) }
    requires x_live { IsTrue (is_live w.now.cells.cells x) }
    ensures { (s : State) → ShowsState w.now s → passes wanted (value_of w.now.cells.cells p) s (value_of w.now.cells.cells x) ≡ result }
{
    match wanted {
        Wanted::Property => match parts(w, x) {
            Some(property) => same(w, property.0, p),
            None => false,
        },
        Wanted::Flag => same(w, x, p),
    }
}

/// Looks along a property list for the first element that is wanted; each pair that is looked at takes a turn.
pub(crate) fn look_for(w: &mut World, wanted: Wanted, p: Val, list: Val) -> Result<Sought, Stop>
    requires world { IsWorld w.old }
    requires p_live { IsTrue (is_live w.old.cells.cells p) }
    requires list_live { IsTrue (is_live w.old.cells.cells list) }
    ensures means { (s : State) → ShowsState w.old s → MeansPlace s (looking_for (passes wanted (value_of w.old.cells.cells p)) (value_of w.old.cells.cells list) s) result w.new }
    ensures before { IfOk result (λ r. ForSome r.before (λ v. IsTrue (is_live w.new.cells.cells v))) }
    ensures at { IfOk result (λ r. ForSome r.at (λ v. IsTrue (is_live w.new.cells.cells v))) }
    ensures alone { w.new ≡ record w.old { counts = w.new.counts } }
    ensures grows { WorldGrows w.old w.new }
    ensures rest { ObjectsAlone w.old w.new }
{
    steps_follow();
    walks_are_unbounded::<Brand>();
    let mut before = None;
    let mut at = list;
    while let Some(here) = parts(w, at) {
        if let Err(why) = turn(w) {
            return Err(why);
        }
        if is_wanted(w, wanted, p, here.0) {
            return Ok(Sought {
                before,
                at: Some(at),
            });
        }
        before = Some(at);
        at = here.1;
    }
    Ok(Sought { before, at: None })
}

/// Puts an element before those of the property list of an identifier. After a stop the objects are as before.
pub(crate) fn add_first(w: &mut World, id: Val, x: Val) -> Result<(), Stop>
    requires world { IsWorld w.old }
    requires id { IsTrue (is_id w.old.cells.cells id) }
    requires x_live { IsTrue (is_live w.old.cells.cells x) }
    ensures means { (s : State) → ShowsState w.old s → MeansDone s (adding_first (number_in w.old.cells.cells id) (value_of w.old.cells.cells x) s) result w.new }
    ensures grows { WorldGrows w.old w.new }
    ensures rest { ObjectsAlone w.old w.new }
{
    steps_follow();
    let rest = properties(w, id);
    match pair(w, x, rest) {
        Ok(list) => {
            set_properties(w, id, list);
            Ok(())
        }
        Err(why) => Err(why),
    }
}

/// Takes the element that was found out of the property list of an identifier, where one was found.
pub(crate) fn take_out(w: &mut World, id: Val, place: Sought)
    requires world { IsWorld w.old }
    requires id { IsTrue (is_id w.old.cells.cells id) }
    requires before { ForSome place.before (λ v. IsTrue (is_live w.old.cells.cells v)) }
    requires at { ForSome place.at (λ v. IsTrue (is_live w.old.cells.cells v)) }
    ensures means { (s : State) → ShowsState w.old s → IsShownBeside w.new s (without (number_in w.old.cells.cells id) (place_shown w.old.cells.cells place) s) }
    ensures grows { WorldGrows w.old w.new }
    ensures rest { ObjectsAlone w.old w.new }
{
    steps_follow();
    match place.at {
        Some(here) => unlink(w, id, place.before, here),
        None => {}
    }
}

/// Takes the element of the pair `here` out of the property list of an identifier, in which it stands behind `before`.
fn unlink(w: &mut World, id: Val, before: Option<Val>, here: Val)
    requires world { IsWorld w.old }
    requires id { IsTrue (is_id w.old.cells.cells id) }
    requires before { ForSome before (λ v. IsTrue (is_live w.old.cells.cells v)) }
    requires here { IsTrue (is_live w.old.cells.cells here) }
    ensures means { (s : State) → ShowsState w.old s → IsShownBeside w.new s (taken_out (number_in w.old.cells.cells id) (option_value_in w.old.cells.cells before) (value_of w.old.cells.cells here) s) }
    ensures grows { WorldGrows w.old w.new }
    ensures rest { ObjectsAlone w.old w.new }
{
    steps_follow();
    let rest = cdr_or_nil(w, here);
    match before {
        Some(last) => change_cdr(w, last, rest),
        None => set_properties(w, id, rest),
    }
}
