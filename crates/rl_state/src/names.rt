//! Identifiers by their names.
ghost use Rattle.std.specs.Prelude.{◌≡◌, ◌≤◌, IfOk, IsTrue, false, length};
ghost use Rattle.rl_cells.specs.Cell.{is_live};
ghost use Rattle.rl_syms.specs.Made.{id_cost};
ghost use Rattle.rl_syms.specs.Table.{IsFree, is_id};
ghost use Rattle.rl_meaning.specs.State.{State};
ghost use Rattle.rl_meaning.specs.Atoms.{gensym as making};
ghost use Rattle.rl_meaning.specs.Outcome.{made_symbol};
ghost use Rattle.rl_meaning.specs.Symbols.{interned, named_from, new_symbol, or_nil};
ghost use Rattle.rl_syms.specs.Contents.{value_of};
ghost use Rattle.rl_state.specs.ShownState.{ShowsState};
ghost use Rattle.rl_state.specs.Worlds.{IsWorld, ObjectsAlone, WorldGrows};
ghost use Rattle.rl_state.specs.Ending.{MeansValue};

use crate::laws::cells_are_known;
use rl_syms::laws::{identifiers_are_numbered, names_are_identifiers};
use rl_tags::{NIL, Val};
use rl_world::laws::counts_are_taken;
use rl_world::{Stop, World};

/// The interned identifier of this name, or NIL where there is none. It makes nothing.
pub fn identifier_or_nil(w: &World, name: &[u8]) -> Val
    requires { IsWorld w.now }
    ensures means { (s : State) → ShowsState w.now s → or_nil (named_from 0 name.now s.symbols) ≡ value_of w.now.cells.cells result }
    ensures live { IsTrue (is_live w.now.cells.cells result) }
{
    identifiers_are_numbered();
    names_are_identifiers();
    match w.syms.find(&w.cells, name) {
        Some(id) => id,
        None => NIL,
    }
}

/// The interned identifier of this name of 1 to 255 bytes; where there is none yet it is made. After a stop the objects are
/// as before.
pub fn identifier(w: &mut World, name: &[u8]) -> Result<Val, Stop>
    requires world { IsWorld w.old }
    requires some { 1 ≤ length name.now }
    requires short { length name.now ≤ 255 }
    ensures means { (s : State) → ShowsState w.old s → MeansValue s (interned name.now s) result w.new }
    ensures live { IfOk result (λ v. IsTrue (is_live w.new.cells.cells v)) }
    ensures id { IfOk result (λ v. IsTrue (is_id w.new.cells.cells v)) }
    ensures grows { WorldGrows w.old w.new }
    ensures rest { ObjectsAlone w.old w.new }
{
    counts_are_taken();
    identifiers_are_numbered();
    names_are_identifiers();
    match w.syms.find(&w.cells, name) {
        Some(id) => Ok(id),
        None => enter(w, name),
    }
}

/// A new identifier of this name of 1 to 255 bytes that is not interned. After a stop the objects are as before.
pub fn symbol(w: &mut World, name: &[u8]) -> Result<Val, Stop>
    requires world { IsWorld w.old }
    requires some { 1 ≤ length name.now }
    requires short { length name.now ≤ 255 }
    ensures means { (s : State) → ShowsState w.old s → MeansValue s (made_symbol (new_symbol name.now false) s) result w.new }
    ensures live { IfOk result (λ v. IsTrue (is_live w.new.cells.cells v)) }
    ensures id { IfOk result (λ v. IsTrue (is_id w.new.cells.cells v)) }
    ensures grows { WorldGrows w.old w.new }
    ensures rest { ObjectsAlone w.old w.new }
{
    counts_are_taken();
    cells_are_known();
    names_are_identifiers();
    match w.room(identifier_cost(name)) {
        Ok(()) => {
            w.cells.is_closed();
            Ok(w.syms.loose(&mut w.cells, name).unwrap())
        }
        Err(why) => Err(why),
    }
}

/// A new identifier that is not interned, with the next of the names G0001, G0002 and so on. After a stop the objects are
/// as before.
pub fn gensym(w: &mut World) -> Result<Val, Stop>
    requires { IsWorld w.old }
    ensures means { (s : State) → ShowsState w.old s → MeansValue s (making s) result w.new }
    ensures live { IfOk result (λ v. IsTrue (is_live w.new.cells.cells v)) }
    ensures id { IfOk result (λ v. IsTrue (is_id w.new.cells.cells v)) }
    ensures grows { WorldGrows w.old w.new }
    ensures rest { ObjectsAlone w.old w.new }
{
    counts_are_taken();
    cells_are_known();
    names_are_identifiers();
    // There are fewer identifiers than cells, so the name is one of 16 bytes at most, and takes two cells.
    let _places = w.cells.places();
    match w.room(5) {
        Ok(()) => {
            w.cells.is_closed();
            Ok(w.syms.gensym(&mut w.cells).unwrap())
        }
        Err(why) => Err(why),
    }
}

/// The cells of an identifier of this name.
fn identifier_cost(name: &[u8]) -> u32
    requires { length name.now ≤ 255 }
    ensures { result ≡ id_cost name.now }
{
    1 + (name.len() as u32 + 15) / 16 + 3
}

/// A new identifier of a name that no interned one has.
fn enter(w: &mut World, name: &[u8]) -> Result<Val, Stop>
    requires world { IsWorld w.old }
    requires some { 1 ≤ length name.now }
    requires short { length name.now ≤ 255 }
    requires free { IsFree w.old.cells.cells w.old.syms.head name.now }
    ensures means { (s : State) → ShowsState w.old s → MeansValue s (interned name.now s) result w.new }
    ensures live { IfOk result (λ v. IsTrue (is_live w.new.cells.cells v)) }
    ensures id { IfOk result (λ v. IsTrue (is_id w.new.cells.cells v)) }
    ensures grows { WorldGrows w.old w.new }
    ensures rest { ObjectsAlone w.old w.new }
{
    counts_are_taken();
    cells_are_known();
    match w.room(identifier_cost(name)) {
        Ok(()) => {
            w.cells.is_closed();
            Ok(w.syms.intern(&mut w.cells, name).unwrap())
        }
        Err(why) => Err(why),
    }
}
