//! Pairs, strings and vectors: they are made, taken apart and changed.
ghost use Rattle.std.specs.Prelude.{◌≡◌, ◌<◌, ◌≤◌, ◌≤ℤ◌, IsTrue, IfOk, List, OnSome, Some, length, negsuc, option_map, pos, replicate, slice_get, slice_set};
ghost use Rattle.std.specs.Option.{ForSome};
ghost use Rattle.rl_tags.specs.Ids.{nil_id};
ghost use Rattle.rl_tree.specs.Value.{Value, Int, Pair, Vector};
ghost use Rattle.rl_cells.specs.Cell.{Cell, StrCell, VectorCell, cost_of, is_live, is_pair, is_vector, vector_of};
ghost use Rattle.rl_meaning.specs.State.{State};
ghost use Rattle.rl_meaning.specs.Outcome.{made_pair, made_string};
ghost use Rattle.rl_meaning.specs.Atoms.{made_places};
ghost use Rattle.rl_meaning.specs.Symbols.{pair_at, vector_at};
ghost use Rattle.rl_meaning.specs.Copying.{with_object};
ghost use Rattle.rl_syms.specs.Contents.{value_of};
ghost use Rattle.rl_state.specs.ShownState.{ShowsState};
ghost use Rattle.rl_state.specs.Worlds.{IsWorld, ObjectsAlone, WorldGrows};
ghost use Rattle.rl_state.specs.Ending.{MeansValue, parts_in};

use crate::laws::cells_are_known;
use rl_tags::{Tag, Val};
use rl_world::laws::counts_are_taken;
use rl_world::{Stop, World};

/// An integer of 60 bits.
pub fn integer(n: i64) -> Val
    requires low { negsuc 576460752303423487 ≤ℤ n }
    requires high { n ≤ℤ pos 576460752303423487 }
    ensures means { (cells : List Cell) → value_of cells result ≡ Int n }
    ensures live { (cells : List Cell) → IsTrue (is_live cells result) }
{
    Val::small(n)
}

/// A new pair. After a stop the objects are as before.
pub fn pair(w: &mut World, a: Val, d: Val) -> Result<Val, Stop>
    requires world { IsWorld w.old }
    requires a_live { IsTrue (is_live w.old.cells.cells a) }
    requires d_live { IsTrue (is_live w.old.cells.cells d) }
    ensures means { (s : State) → ShowsState w.old s → MeansValue s (made_pair (value_of w.old.cells.cells a) (value_of w.old.cells.cells d) s) result w.new }
    ensures live { IfOk result (λ v. IsTrue (is_live w.new.cells.cells v)) }
    ensures pair { IfOk result (λ v. IsTrue (is_pair w.new.cells.cells v)) }
    ensures grows { WorldGrows w.old w.new }
    ensures rest { ObjectsAlone w.old w.new }
{
    counts_are_taken();
    match w.room(1) {
        Ok(()) => {
            cells_are_known();
            Ok(w.cells.cons(a, d).unwrap())
        }
        Err(why) => Err(why),
    }
}

/// The cells of a string.
fn string_cost(bytes: &[u8]) -> u32
    requires { length bytes.now ≤ 65535 }
    ensures { result ≡ cost_of (StrCell bytes.now) }
{
    1 + (bytes.len() as u32 + 15) / 16
}

/// A new string of these bytes. After a stop the objects are as before.
pub fn string(w: &mut World, bytes: &[u8]) -> Result<Val, Stop>
    requires world { IsWorld w.old }
    requires short { length bytes.now ≤ 65535 }
    ensures means { (s : State) → ShowsState w.old s → MeansValue s (made_string bytes.now s) result w.new }
    ensures live { IfOk result (λ v. IsTrue (is_live w.new.cells.cells v)) }
    ensures grows { WorldGrows w.old w.new }
    ensures rest { ObjectsAlone w.old w.new }
{
    counts_are_taken();
    match w.room(string_cost(bytes)) {
        Ok(()) => {
            cells_are_known();
            Ok(w.cells.string(bytes).unwrap())
        }
        Err(why) => Err(why),
    }
}

/// The cells of a vector.
fn vector_cost(places: u32) -> u32
    requires { places ≤ 2147483648 }
    ensures { result ≡ cost_of (VectorCell (replicate places nil_id)) }
{
    1 + (places + 1) / 2
}

/// A new vector of this many places, each of them NIL. After a stop the objects are as before.
pub fn vector(w: &mut World, places: u32) -> Result<Val, Stop>
    requires world { IsWorld w.old }
    requires short { places ≤ 2147483648 }
    ensures means { (s : State) → ShowsState w.old s → MeansValue s (made_places places s) result w.new }
    ensures live { IfOk result (λ v. IsTrue (is_live w.new.cells.cells v)) }
    ensures grows { WorldGrows w.old w.new }
    ensures rest { ObjectsAlone w.old w.new }
{
    counts_are_taken();
    match w.room(vector_cost(places)) {
        Ok(()) => {
            cells_are_known();
            Ok(w.cells.vector(places).unwrap())
        }
        Err(why) => Err(why),
    }
}

/// The car and the cdr of a pair, or None of any other value.
pub fn parts(w: &World, v: Val) -> Option<(Val, Val)>
    requires { IsTrue (is_live w.now.cells.cells v) }
    ensures means { (s : State) → ShowsState w.now s → pair_at s (value_of w.now.cells.cells v) ≡ parts_in w.now.cells.cells result }
    ensures pair { OnSome result (IsTrue (is_pair w.now.cells.cells v)) }
    ensures live { ForSome result (λ p. IsTrue (is_live w.now.cells.cells p.0) × IsTrue (is_live w.now.cells.cells p.1)) }
{
    cells_are_known();
    match v.tag() {
        Tag::Pair => Some((w.cells.car(v), w.cells.cdr(v))),
        _ => None,
    }
}

/// Makes this the car of a pair.
pub fn set_car(w: &mut World, p: Val, v: Val)
    requires world { IsWorld w.old }
    requires pair { IsTrue (is_pair w.old.cells.cells p) }
    requires v_live { IsTrue (is_live w.old.cells.cells v) }
    ensures shows { (s : State) (a d : Value) → ShowsState w.old s → pair_at s (value_of w.old.cells.cells p) ≡ Some (a, d) → ShowsState w.new (with_object (value_of w.old.cells.cells p) (Pair (value_of w.old.cells.cells v) d) s) }
    ensures grows { WorldGrows w.old w.new }
    ensures rest { ObjectsAlone w.old w.new }
{
    counts_are_taken();
    cells_are_known();
    w.cells.set_car(p, v);
}

/// Makes this the cdr of a pair.
pub fn set_cdr(w: &mut World, p: Val, v: Val)
    requires world { IsWorld w.old }
    requires pair { IsTrue (is_pair w.old.cells.cells p) }
    requires v_live { IsTrue (is_live w.old.cells.cells v) }
    ensures shows { (s : State) (a d : Value) → ShowsState w.old s → pair_at s (value_of w.old.cells.cells p) ≡ Some (a, d) → ShowsState w.new (with_object (value_of w.old.cells.cells p) (Pair a (value_of w.old.cells.cells v)) s) }
    ensures grows { WorldGrows w.old w.new }
    ensures rest { ObjectsAlone w.old w.new }
{
    counts_are_taken();
    cells_are_known();
    w.cells.set_cdr(p, v);
}

/// How many places a vector has, or None of any other value.
pub fn places(w: &World, v: Val) -> Option<u32>
    requires { IsTrue (is_live w.now.cells.cells v) }
    ensures means { (s : State) → ShowsState w.now s → option_map length (vector_at s (value_of w.now.cells.cells v)) ≡ result }
    ensures vector { OnSome result (IsTrue (is_vector w.now.cells.cells v)) }
    ensures many { ForSome result (λ n. n ≡ length (vector_of w.now.cells.cells v)) }
{
    cells_are_known();
    match v.tag() {
        Tag::Vector => Some(w.cells.vector_len(v)),
        _ => None,
    }
}

/// The value at a place of a vector.
pub fn place(w: &World, v: Val, i: u32) -> Val
    requires vector { IsTrue (is_vector w.now.cells.cells v) }
    requires within { i < length (vector_of w.now.cells.cells v) }
    ensures means { (s : State) (xs : List Value) → ShowsState w.now s → vector_at s (value_of w.now.cells.cells v) ≡ Some xs → slice_get xs i ≡ Some (value_of w.now.cells.cells result) }
    ensures live { IsTrue (is_live w.now.cells.cells result) }
{
    cells_are_known();
    w.cells.get(v, i)
}

/// Makes this the value at a place of a vector.
pub fn set_place(w: &mut World, v: Val, i: u32, x: Val)
    requires world { IsWorld w.old }
    requires vector { IsTrue (is_vector w.old.cells.cells v) }
    requires within { i < length (vector_of w.old.cells.cells v) }
    requires x_live { IsTrue (is_live w.old.cells.cells x) }
    ensures shows { (s : State) (xs : List Value) → ShowsState w.old s → vector_at s (value_of w.old.cells.cells v) ≡ Some xs → ShowsState w.new (with_object (value_of w.old.cells.cells v) (Vector (slice_set xs i (value_of w.old.cells.cells x))) s) }
    ensures grows { WorldGrows w.old w.new }
    ensures rest { ObjectsAlone w.old w.new }
{
    counts_are_taken();
    cells_are_known();
    w.cells.put(v, i, x);
}
