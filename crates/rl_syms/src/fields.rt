//! What an identifier has: its name, value, property list, definition and declared kind.
ghost use Rattle.std.specs.Prelude.{◌≡◌, ◌≢◌, ◌≤◌, ◌<◌, ◌%◌, ℕ, IsTrue, IsSome, length, slice_set, true, Some, List};
ghost use Rattle.std.specs.Option.{ForSome};
ghost use Rattle.rl_tags.specs.Tagged.{Tagged, index_of};
ghost use Rattle.rl_cells.specs.Cell.{cell_at, is_live, is_live_word, is_str, bytes_of, words_in};
ghost use Rattle.rl_syms.specs.Table.{IsTable, IsNamed, held_in, is_id, is_pointer, kind_in_word, var_kind_in, symbol_in_cells, of_kind, word_in};
ghost use Rattle.rl_syms.specs.Frame.{KeepsMeaning, Sets};

use crate::Syms;
use crate::made::{NOTHING, word_for};
use rl_cells::Cells;
use rl_tags::Val;
use rl_tree::{Kind, VarKind};

impl Syms {
    /// An identifier's name: a string of 1 to 255 bytes.
    pub fn name(&self, c: &Cells, id: Val) -> Val
        requires table { IsTable c.now.cells self.now.head }
        requires id { IsTrue (is_id c.now.cells id) }
        ensures name { result ≡ (symbol_in_cells c.now.cells (index_of id)).name }
        ensures string { IsTrue (is_str c.now.cells result) }
        ensures some { 1 ≤ length (bytes_of c.now.cells result) }
        ensures short { length (bytes_of c.now.cells result) ≤ 255 }
    {
        self.held(c, id, 0).unwrap()
    }

    /// Its value, None where it has none.
    pub fn value(&self, c: &Cells, id: Val) -> Option<Val>
        requires table { IsTable c.now.cells self.now.head }
        requires id { IsTrue (is_id c.now.cells id) }
        ensures value { result ≡ (symbol_in_cells c.now.cells (index_of id)).value }
        ensures live { ForSome result (λ v. IsTrue (is_live c.now.cells v)) }
    {
        self.held(c, id, 1)
    }

    /// Its property list.
    pub fn plist(&self, c: &Cells, id: Val) -> Val
        requires table { IsTable c.now.cells self.now.head }
        requires id { IsTrue (is_id c.now.cells id) }
        ensures plist { result ≡ (symbol_in_cells c.now.cells (index_of id)).plist }
        ensures live { IsTrue (is_live c.now.cells result) }
    {
        self.held(c, id, 2).unwrap()
    }

    /// Its definition, None where it has none. It is a function pointer.
    pub fn function(&self, c: &Cells, id: Val) -> Option<(Kind, Val)>
        requires table { IsTable c.now.cells self.now.head }
        requires id { IsTrue (is_id c.now.cells id) }
        ensures definition { result ≡ (symbol_in_cells c.now.cells (index_of id)).definition }
        ensures live { ForSome result (λ p. IsTrue (is_live c.now.cells p.1)) }
        ensures pointer { ForSome result (λ p. IsTrue (is_pointer p.1)) }
    {
        let kind = kind_of(self.word(c, id, 4));
        match self.held(c, id, 3) {
            Some(f) => Some((kind, f)),
            None => None,
        }
    }

    /// How it is declared.
    pub fn kind(&self, c: &Cells, id: Val) -> VarKind
        requires table { IsTable c.now.cells self.now.head }
        requires id { IsTrue (is_id c.now.cells id) }
        ensures { result ≡ (symbol_in_cells c.now.cells (index_of id)).kind }
    {
        var_kind_of(self.word(c, id, 4))
    }

    /// Gives it a value, or takes its value away.
    pub fn set_value(&mut self, c: &mut Cells, id: Val, v: Option<Val>)
        requires table { IsTable c.old.cells self.old.head }
        requires id { IsTrue (is_id c.old.cells id) }
        requires live { ForSome v (λ x. IsTrue (is_live c.old.cells x)) }
        ensures sets { Sets c.old.cells c.new.cells id (record (symbol_in_cells c.old.cells (index_of id)) { value = v }) }
        ensures store { c.new ≡ record c.old { cells = c.new.cells } }
        ensures table { IsTable c.new.cells self.new.head }
        ensures keeps { (bytes : List ℕ) (other : Tagged) → IsNamed c.old.cells self.old.head bytes other → IsNamed c.new.cells self.new.head bytes other }
        ensures same { self.new ≡ self.old }
    {
        self.set_field(c, id, 1, word_for(v));
    }

    /// Gives it a property list.
    pub fn set_plist(&mut self, c: &mut Cells, id: Val, v: Val)
        requires table { IsTable c.old.cells self.old.head }
        requires id { IsTrue (is_id c.old.cells id) }
        requires live { IsTrue (is_live c.old.cells v) }
        ensures sets { Sets c.old.cells c.new.cells id (record (symbol_in_cells c.old.cells (index_of id)) { plist = v }) }
        ensures store { c.new ≡ record c.old { cells = c.new.cells } }
        ensures table { IsTable c.new.cells self.new.head }
        ensures keeps { (bytes : List ℕ) (other : Tagged) → IsNamed c.old.cells self.old.head bytes other → IsNamed c.new.cells self.new.head bytes other }
        ensures same { self.new ≡ self.old }
    {
        self.set_field(c, id, 2, word_for(Some(v)));
    }

    /// Gives it a definition, which is a function pointer, or takes its definition away.
    pub fn set_function(&mut self, c: &mut Cells, id: Val, f: Option<(Kind, Val)>)
        requires table { IsTable c.old.cells self.old.head }
        requires id { IsTrue (is_id c.old.cells id) }
        requires live { ForSome f (λ p. IsTrue (is_live c.old.cells p.1)) }
        requires pointer { ForSome f (λ p. IsTrue (is_pointer p.1)) }
        ensures sets { Sets c.old.cells c.new.cells id (record (symbol_in_cells c.old.cells (index_of id)) { definition = f }) }
        ensures store { c.new ≡ record c.old { cells = c.new.cells } }
        ensures table { IsTable c.new.cells self.new.head }
        ensures keeps { (bytes : List ℕ) (other : Tagged) → IsNamed c.old.cells self.old.head bytes other → IsNamed c.new.cells self.new.head bytes other }
        ensures same { self.new ≡ self.old }
    {
        match f {
            Some(definition) => self.define(c, id, definition.0, definition.1),
            None => self.set_field(c, id, 3, NOTHING),
        }
    }

    /// Declares it.
    pub fn set_kind(&mut self, c: &mut Cells, id: Val, k: VarKind)
        requires table { IsTable c.old.cells self.old.head }
        requires id { IsTrue (is_id c.old.cells id) }
        ensures sets { Sets c.old.cells c.new.cells id (record (symbol_in_cells c.old.cells (index_of id)) { kind = k }) }
        ensures store { c.new ≡ record c.old { cells = c.new.cells } }
        ensures table { IsTable c.new.cells self.new.head }
        ensures keeps { (bytes : List ℕ) (other : Tagged) → IsNamed c.old.cells self.old.head bytes other → IsNamed c.new.cells self.new.head bytes other }
        ensures same { self.new ≡ self.old }
    {
        let kinds = kinds_word(kind_of(self.word(c, id, 4)), k);
        self.set_field(c, id, 4, kinds);
    }

    fn define(&self, c: &mut Cells, id: Val, kind: Kind, pointer: Val)
        requires table { IsTable c.old.cells self.now.head }
        requires id { IsTrue (is_id c.old.cells id) }
        requires live { IsTrue (is_live c.old.cells pointer) }
        requires pointer { IsTrue (is_pointer pointer) }
        ensures sets { Sets c.old.cells c.new.cells id (record (symbol_in_cells c.old.cells (index_of id)) { definition = Some (kind, pointer) }) }
        ensures store { c.new ≡ record c.old { cells = c.new.cells } }
        ensures keeps { (bytes : List ℕ) (other : Tagged) → IsNamed c.old.cells self.now.head bytes other → IsNamed c.new.cells self.now.head bytes other }
        ensures table { IsTable c.new.cells self.now.head }
    {
        let kinds = kinds_word(kind, var_kind_of(self.word(c, id, 4)));
        self.set_field(c, id, 4, kinds);
        self.set_field(c, id, 3, word_for(Some(pointer)));
    }

    fn word(&self, c: &Cells, id: Val, i: u32) -> u64
        requires table { IsTable c.now.cells self.now.head }
        requires id { IsTrue (is_id c.now.cells id) }
        requires within { i < 6 }
        ensures word { result ≡ word_in c.now.cells (index_of id) i }
        ensures live { IsTrue (is_live_word c.now.cells result) }
    {
        c.word(id, i)
    }

    fn held(&self, c: &Cells, id: Val, i: u32) -> Option<Val>
        requires table { IsTable c.now.cells self.now.head }
        requires id { IsTrue (is_id c.now.cells id) }
        requires within { i < 6 }
        ensures value { result ≡ held_in (word_in c.now.cells (index_of id) i) }
        ensures live { ForSome result (λ v. IsTrue (is_live c.now.cells v)) }
    {
        Val::read(self.word(c, id, i))
    }

    /// Sets a word that is neither the name nor the link of the chain.
    fn set_field(&self, c: &mut Cells, id: Val, i: u32, word: u64)
        requires table { IsTable c.old.cells self.now.head }
        requires id { IsTrue (is_id c.old.cells id) }
        requires some { 0 < i }
        requires within { i < 5 }
        requires word_live { IsTrue (is_live_word c.old.cells word) }
        requires plist { i ≡ 2 → IsSome (held_in word) }
        requires pointer { i ≡ 3 → ForSome (held_in word) (λ f. IsTrue (is_pointer f)) }
        ensures words { words_in (cell_at c.new.cells (index_of id)) ≡ slice_set (words_in (cell_at c.old.cells (index_of id))) i word }
        ensures others { (k : ℕ) → k ≢ index_of id → cell_at c.new.cells k ≡ cell_at c.old.cells k }
        ensures live { (v : Tagged) → is_live c.old.cells v ≡ true → is_live c.new.cells v ≡ true }
        ensures store { c.new ≡ record c.old { cells = c.new.cells } }
        ensures keeps { (bytes : List ℕ) (other : Tagged) → IsNamed c.old.cells self.now.head bytes other → IsNamed c.new.cells self.now.head bytes other }
        ensures table { IsTable c.new.cells self.now.head }
        ensures ids { (v : Tagged) → is_id c.old.cells v ≡ true → is_id c.new.cells v ≡ true }
        ensures rest { KeepsMeaning c.old.cells c.new.cells }
    {
        rl_cells::laws::objects_are_changed();
        c.set_word(id, i, word);
    }
}

/// The kind of a definition, in the word of the two kinds.
fn kind_of(word: u64) -> Kind
    ensures { result ≡ kind_in_word word }
{
    match word / 64 {
        0 => Kind::Expr,
        1 => Kind::Fexpr,
        _ => Kind::Macro,
    }
}

/// The declared kind, in the word of the two kinds.
fn var_kind_of(word: u64) -> VarKind
    ensures { result ≡ var_kind_in word }
{
    match word / 16 % 4 {
        0 => VarKind::Plain,
        1 => VarKind::Fluid,
        _ => VarKind::Global,
    }
}

/// The word of the two kinds. It is tagged as a small integer.
fn kinds_word(kind: Kind, declared: VarKind) -> u64
    ensures kind { kind_in_word result ≡ kind }
    ensures declared { var_kind_in result ≡ declared }
    ensures number { result % 16 ≡ 0 }
{
    let above = match kind {
        Kind::Expr => 0,
        Kind::Fexpr => 64,
        Kind::Macro => 128,
    };
    let below = match declared {
        VarKind::Plain => 0,
        VarKind::Fluid => 16,
        VarKind::Global => 32,
    };
    above + below
}
