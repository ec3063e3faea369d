//! What identifiers have: names, property lists, definitions and kinds.
ghost use Rattle.std.specs.Prelude.{◌≡◌, IsTrue};
ghost use Rattle.std.specs.Option.{ForSome};
ghost use Rattle.rl_cells.specs.Cell.{bytes_of, is_live, is_str};
ghost use Rattle.rl_syms.specs.Table.{is_id, is_pointer};
ghost use Rattle.rl_syms.specs.Contents.{value_of};
ghost use Rattle.rl_meaning.specs.State.{State};
ghost use Rattle.rl_meaning.specs.Symbols.{symbol_at, with_symbol};
ghost use Rattle.rl_state.specs.ShownState.{ShowsState, definition_in, number_in};
ghost use Rattle.rl_state.specs.Worlds.{IsWorld, ObjectsAlone, WorldGrows};

use rl_syms::laws::{functions_stand, identifiers_are_numbered};
use rl_tags::Val;
use rl_tree::{Kind, VarKind};
use rl_world::World;
use rl_world::laws::counts_are_taken;

/// The name of an identifier, as a string.
pub fn name(w: &World, id: Val) -> Val
    requires world { IsWorld w.now }
    requires id { IsTrue (is_id w.now.cells.cells id) }
    ensures means { (s : State) → ShowsState w.now s → (symbol_at s (number_in w.now.cells.cells id)).name ≡ bytes_of w.now.cells.cells result }
    ensures string { IsTrue (is_str w.now.cells.cells result) }
{
    w.syms.name(&w.cells, id)
}

/// Its property list.
pub fn properties(w: &World, id: Val) -> Val
    requires world { IsWorld w.now }
    requires id { IsTrue (is_id w.now.cells.cells id) }
    ensures means { (s : State) → ShowsState w.now s → (symbol_at s (number_in w.now.cells.cells id)).properties ≡ value_of w.now.cells.cells result }
    ensures live { IsTrue (is_live w.now.cells.cells result) }
{
    w.syms.plist(&w.cells, id)
}

/// Its definition, None where it has none: a kind and a function pointer.
pub fn definition(w: &World, id: Val) -> Option<(Kind, Val)>
    requires world { IsWorld w.now }
    requires id { IsTrue (is_id w.now.cells.cells id) }
    ensures means { (s : State) → ShowsState w.now s → (symbol_at s (number_in w.now.cells.cells id)).definition ≡ definition_in w.now.cells.cells result }
    ensures live { ForSome result (λ p. IsTrue (is_live w.now.cells.cells p.1)) }
    ensures pointer { ForSome result (λ p. IsTrue (is_pointer p.1)) }
{
    w.syms.function(&w.cells, id)
}

/// How it is declared.
pub fn kind(w: &World, id: Val) -> VarKind
    requires world { IsWorld w.now }
    requires id { IsTrue (is_id w.now.cells.cells id) }
    ensures { (s : State) → ShowsState w.now s → (symbol_at s (number_in w.now.cells.cells id)).kind ≡ result }
{
    w.syms.kind(&w.cells, id)
}

/// Gives it a property list.
pub fn set_properties(w: &mut World, id: Val, v: Val)
    requires world { IsWorld w.old }
    requires id { IsTrue (is_id w.old.cells.cells id) }
    requires v_live { IsTrue (is_live w.old.cells.cells v) }
    ensures shows { (s : State) → ShowsState w.old s → ShowsState w.new (with_symbol (number_in w.old.cells.cells id) (record (symbol_at s (number_in w.old.cells.cells id)) { properties = value_of w.old.cells.cells v }) s) }
    ensures grows { WorldGrows w.old w.new }
    ensures rest { ObjectsAlone w.old w.new }
{
    counts_are_taken();
    functions_stand();
    identifiers_are_numbered();
    w.syms.set_plist(&mut w.cells, id, v);
}

/// Gives it a definition, a kind and a function pointer, or takes its definition away.
pub fn set_definition(w: &mut World, id: Val, d: Option<(Kind, Val)>)
    requires world { IsWorld w.old }
    requires id { IsTrue (is_id w.old.cells.cells id) }
    requires d_live { ForSome d (λ p. IsTrue (is_live w.old.cells.cells p.1)) }
    requires pointer { ForSome d (λ p. IsTrue (is_pointer p.1)) }
    ensures shows { (s : State) → ShowsState w.old s → ShowsState w.new (with_symbol (number_in w.old.cells.cells id) (record (symbol_at s (number_in w.old.cells.cells id)) { definition = definition_in w.old.cells.cells d }) s) }
    ensures grows { WorldGrows w.old w.new }
    ensures rest { ObjectsAlone w.old w.new }
{
    counts_are_taken();
    functions_stand();
    identifiers_are_numbered();
    w.syms.set_function(&mut w.cells, id, d);
}

/// Declares it.
pub fn set_kind(w: &mut World, id: Val, k: VarKind)
    requires world { IsWorld w.old }
    requires id { IsTrue (is_id w.old.cells.cells id) }
    ensures shows { (s : State) → ShowsState w.old s → ShowsState w.new (with_symbol (number_in w.old.cells.cells id) (record (symbol_at s (number_in w.old.cells.cells id)) { kind = k }) s) }
    ensures grows { WorldGrows w.old w.new }
    ensures rest { ObjectsAlone w.old w.new }
{
    counts_are_taken();
    functions_stand();
    identifiers_are_numbered();
    w.syms.set_kind(&mut w.cells, id, k);
}
