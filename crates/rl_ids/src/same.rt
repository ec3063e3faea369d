//! EQ.
ghost use Rattle.std.specs.Prelude.{◌≡◌, ◌↔◌, IsTrue};
ghost use Rattle.std.specs.Str.{bytes_eq};
ghost use Rattle.rl_cells.specs.Cell.{bytes_of, is_live, is_str};
ghost use Rattle.rl_meaning.specs.Symbols.{same};
ghost use Rattle.rl_syms.specs.Contents.{value_of};
ghost use Rattle.rl_tree.specs.Value.{Int, Str};

use rl_syms::laws::{functions_are_numbered, identifiers_are_numbered};
use rl_tags::{Tag, Val};
use rl_world::World;

/// Whether two values are EQ: strings and integers by what they hold, and all others where they are the same one.
pub(crate) fn same(w: &World, u: Val, v: Val) -> bool
    requires u_live { IsTrue (is_live w.now.cells.cells u) }
    requires v_live { IsTrue (is_live w.now.cells.cells v) }
    ensures { result ≡ same (value_of w.now.cells.cells u) (value_of w.now.cells.cells v) }
{
    identifiers_are_numbered();
    functions_are_numbered();
    match u.tag() {
        Tag::Int => same_integer(w, u.number() as i128, v),
        Tag::Big => same_integer(w, w.cells.big_value(u), v),
        Tag::Str => same_string(w, u, v),
        _ => is_same(u, v),
    }
}

/// Whether two words are the same.
fn is_same(u: Val, v: Val) -> bool
    ensures { IsTrue result ↔ (u ≡ v) }
{
    u == v
}

/// Whether a value is this integer.
fn same_integer(w: &World, n: i128, v: Val) -> bool
    requires { IsTrue (is_live w.now.cells.cells v) }
    ensures { result ≡ same (Int n) (value_of w.now.cells.cells v) }
{
    match v.tag() {
        Tag::Int => n == v.number() as i128,
        Tag::Big => n == w.cells.big_value(v),
        _ => false,
    }
}

/// Whether a value is a string with the bytes of this one.
fn same_string(w: &World, u: Val, v: Val) -> bool
    requires string { IsTrue (is_str w.now.cells.cells u) }
    requires live { IsTrue (is_live w.now.cells.cells v) }
    ensures { result ≡ same (Str (bytes_of w.now.cells.cells u)) (value_of w.now.cells.cells v) }
{
    match v.tag() {
        Tag::Str => same_bytes(w, u, v),
        _ => false,
    }
}

/// Whether two strings have the same bytes.
fn same_bytes(w: &World, u: Val, v: Val) -> bool
    requires u_string { IsTrue (is_str w.now.cells.cells u) }
    requires v_string { IsTrue (is_str w.now.cells.cells v) }
    ensures { result ≡ bytes_eq (bytes_of w.now.cells.cells u) (bytes_of w.now.cells.cells v) }
{
    let long = w.cells.string_len(u);
    if long != w.cells.string_len(v) {
        return false;
    }
    for i in 0..long {
        if w.cells.string_byte(u, i) != w.cells.string_byte(v, i) {
            return false;
        }
    }
    true
}
