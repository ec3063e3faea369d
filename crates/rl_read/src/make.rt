//! What a text makes: each object asks for room first.
ghost use Rattle.std.specs.Prelude.{◌≡◌, ◌+◌, ◌≤◌, ◌^◌, None, length, IsTrue, IfOk};
ghost use Rattle.rl_tags.specs.Tagged.{StrAt};
ghost use Rattle.rl_cells.specs.Cell.{StrCell, VectorCell, changed_at, is_live, is_pair, is_vector, vector_of};
ghost use Rattle.rl_syms.specs.Table.{IsFree};
ghost use Rattle.rl_text.specs.Maker.{Has};
ghost use Rattle.rl_read.specs.Stock.{atom_made, elements_from, chain_ended, chain_hung, identifier_at, identifier_made, object_made, pair_made, quote_made, stock_of, vector_made};
ghost use Rattle.rl_read.specs.Stock as stock;
ghost use Rattle.rl_read.specs.Calls.{Makes, MakesNoObject, MakesObject};
ghost use Rattle.rl_read.specs.Frames.{CanMake, IsChain, chain_of};
ghost use Rattle.rl_read.specs.Steps.{IsAtom, atom_meant};

use crate::frames::{Chain, first_of};
use crate::laws::making_is_kept;
use rl_cells::laws::objects_are_added;
use rl_tags::{NIL, Tag, Val};
use rl_world::{Stop, World};

/// A name or a string that is spelled.
#[derive(Clone, Copy)]
pub(crate) enum Atom<'a> {
    Identifier(&'a [u8]),
    Text(&'a [u8]),
}

/// The most places of a vector.
const MOST_PLACES: u32 = 2_147_483_648;

pub(crate) fn pair(w: &mut World, car: Val, cdr: Val) -> Result<Val, Stop>
    requires able { CanMake w.old }
    requires car { IsTrue (is_live w.old.cells.cells car) }
    requires cdr { IsTrue (is_live w.old.cells.cells cdr) }
    ensures made { MakesObject is_pair w.old w.new (λ k. pair_made car cdr k) result }
    ensures longer { IfOk result (λ v. length w.old.cells.cells + 1 ≤ length w.new.cells.cells) }
{
    making_is_kept();
    if let Err(s) = w.room(1) {
        return Err(s);
    }
    Ok(w.cells.cons(car, cdr).unwrap())
}

fn string(w: &mut World, bytes: &[u8]) -> Result<Val, Stop>
    requires able { CanMake w.old }
    requires short { length bytes.now ≤ 65535 }
    ensures { MakesObject is_live w.old w.new (λ k. object_made (λ n. StrAt n) (StrCell bytes.now) k) result }
{
    making_is_kept();
    let cost = 1 + (bytes.len() as u32 + 15) / 16;
    if let Err(s) = w.room(cost) {
        return Err(s);
    }
    Ok(w.cells.string(bytes).unwrap())
}

/// The interned identifier of a name, which is made where there is none.
fn identifier(w: &mut World, name: &[u8]) -> Result<Val, Stop>
    requires able { CanMake w.old }
    requires some { 1 ≤ length name.now }
    requires short { length name.now ≤ 255 }
    ensures { MakesObject is_live w.old w.new (λ k. identifier_made name.now k) result }
{
    if let Some(id) = w.syms.find(&w.cells, name) {
        return Ok(id);
    }
    new_identifier(w, name)
}

/// A new interned identifier of a name that none has.
fn new_identifier(w: &mut World, name: &[u8]) -> Result<Val, Stop>
    requires able { CanMake w.old }
    requires some { 1 ≤ length name.now }
    requires short { length name.now ≤ 255 }
    requires free { IsFree w.old.cells.cells w.old.syms.head name.now }
    ensures { MakesObject is_live w.old w.new (λ k. identifier_at None name.now k) result }
{
    making_is_kept();
    let cost = 4 + (name.len() as u32 + 15) / 16;
    if let Err(s) = w.room(cost) {
        return Err(s);
    }
    Ok(w.syms.intern(&mut w.cells, name).unwrap())
}

pub(crate) fn make_atom(w: &mut World, a: Atom<'_>) -> Result<Val, Stop>
    requires able { CanMake w.old }
    requires atom { IsAtom a }
    ensures { MakesObject is_live w.old w.new (λ k. atom_made (atom_meant a.entry) k) result }
{
    match a {
        Atom::Identifier(name) => identifier(w, name),
        Atom::Text(bytes) => string(w, bytes),
    }
}

/// The list with one element more.
pub(crate) fn extended(w: &mut World, chain: &Chain, v: Val) -> Result<Chain, Stop>
    requires able { CanMake w.old }
    requires chain { IsChain w.old.cells.cells chain.now }
    requires live { IsTrue (is_live w.old.cells.cells v) }
    ensures made { Makes w.old w.new (λ c. chain_of c) (λ c. IsChain w.new.cells.cells c) (λ k. stock.chain_extended (chain_of chain.now) v k) result }
    ensures longer { IfOk result (λ c. length w.old.cells.cells + 1 ≤ length w.new.cells.cells) }
{
    let p = match pair(w, v, NIL) {
        Ok(p) => p,
        Err(s) => return Err(s),
    };
    Ok(hang(w, chain, p))
}

/// The list with a new pair at its end.
fn hang(w: &mut World, chain: &Chain, p: Val) -> Chain
    requires able { CanMake w.old }
    requires chain { IsChain w.old.cells.cells chain.now }
    requires pair { IsTrue (is_pair w.old.cells.cells p) }
    ensures hung { chain_hung (chain_of chain.now) p (stock_of w.old) ≡ Has (chain_of result) (stock_of w.new) }
    ensures chain { IsChain w.new.cells.cells result }
    ensures none { MakesNoObject w.old w.new }
{
    match chain {
        Chain::Empty => Chain::Pairs(p, p),
        Chain::Pairs(first, last) => {
            set_cdr(w, *last, p);
            Chain::Pairs(*first, p)
        }
    }
}

fn set_cdr(w: &mut World, p: Val, v: Val)
    requires able { CanMake w.old }
    requires pair { IsTrue (is_pair w.old.cells.cells p) }
    requires live { IsTrue (is_live w.old.cells.cells v) }
    ensures stock { stock_of w.new ≡ stock.stock_with_cdr p v (stock_of w.old) }
    ensures none { MakesNoObject w.old w.new }
{
    making_is_kept();
    w.cells.set_cdr(p, v);
}

/// The list with what stands behind its dot.
pub(crate) fn end_with(w: &mut World, chain: &Chain, v: Val)
    requires able { CanMake w.old }
    requires chain { IsChain w.old.cells.cells chain.now }
    requires live { IsTrue (is_live w.old.cells.cells v) }
    ensures ended { chain_ended (chain_of chain.now) v (stock_of w.old) ≡ Has (chain_of chain.now) (stock_of w.new) }
    ensures none { MakesNoObject w.old w.new }
{
    match chain {
        Chain::Empty => {}
        Chain::Pairs(_, last) => set_cdr(w, *last, v),
    }
}

/// How many elements a list has, at most one more than a vector has places.
fn count(w: &World, list: Val) -> u32
    requires { IsTrue (is_live w.now.cells.cells list) }
    ensures { result ≡ length (elements_from (2 ^ 31 + 1) w.now.cells.cells list) }
{
    let mut at = list;
    let mut n = 0;
    while n <= MOST_PLACES && at.tag() == Tag::Pair {
        at = w.cells.cdr(at);
        n += 1;
    }
    n
}

/// Puts the elements of a list into a new vector of as many places.
fn fill(w: &mut World, v: Val, list: Val, n: u32)
    requires able { CanMake w.old }
    requires vector { IsTrue (is_vector w.old.cells.cells v) }
    requires places { length (vector_of w.old.cells.cells v) ≡ n }
    requires list { IsTrue (is_live w.old.cells.cells list) }
    requires elements { length (elements_from n w.old.cells.cells list) ≡ n }
    ensures filled { w.new ≡ record w.old { cells = record w.old.cells { cells = changed_at w.old.cells.cells v (VectorCell (elements_from n w.old.cells.cells list)) } } }
    ensures none { MakesNoObject w.old w.new }
{
    making_is_kept();
    let mut at = list;
    for i in 0..n {
        let x = w.cells.car(at);
        w.cells.put(v, i, x);
        at = w.cells.cdr(at);
    }
}

/// The vector of the elements of a list.
pub(crate) fn vector(w: &mut World, chain: &Chain) -> Result<Val, Stop>
    requires able { CanMake w.old }
    requires chain { IsChain w.old.cells.cells chain.now }
    ensures { MakesObject is_live w.old w.new (λ k. vector_made (chain_of chain.now) k) result }
{
    making_is_kept();
    objects_are_added();
    let list = first_of(chain);
    let n = count(w, list);
    if n > MOST_PLACES {
        return Err(Stop::Cells);
    }
    if let Err(s) = w.room(1 + (n + 1) / 2) {
        return Err(s);
    }
    let v = w.cells.vector(n).unwrap();
    fill(w, v, list, n);
    Ok(v)
}

/// `(QUOTE e)`: the pair of e is made first.
pub(crate) fn quoted(w: &mut World, e: Val) -> Result<Val, Stop>
    requires able { CanMake w.old }
    requires live { IsTrue (is_live w.old.cells.cells e) }
    ensures { MakesObject is_live w.old w.new (λ k. quote_made e k) result }
{
    let quote = match identifier(w, b"QUOTE") {
        Ok(id) => id,
        Err(s) => return Err(s),
    };
    let p = match pair(w, e, NIL) {
        Ok(p) => p,
        Err(s) => return Err(s),
    };
    pair(w, quote, p)
}
