//! The chain of interned identifiers.
ghost use Rattle.std.specs.Prelude.{◌≡◌, ◌↔◌, IsTrue, MatchOption, ◌≤◌, ◌⊎◌, length, false, IfOk, OnOk, OnErr, is_ok, None, List, ℕ};
ghost use Rattle.std.specs.Option.{ForSome};
ghost use Rattle.rl_tags.specs.Tagged.{Tagged};
ghost use Rattle.rl_cells.specs.Cell.{is_live, is_str, bytes_of, has_room};
ghost use Rattle.rl_syms.specs.Table.{IsTable, IsNamed, IsFree, IsInterned, is_id, nil_value};
ghost use Rattle.rl_syms.specs.Made.{Finds, Enters, IsOpening, id_cost, new_id, with_id};
ghost use Rattle.rl_syms.specs.Frame.{Adds};

use crate::made::{identifier, nil};
use rl_cells::{Cells, Full};
use rl_tags::Val;

/// The table of names: where the chain of interned identifiers begins, and the number of the name that `gensym` made last.
#[derive(Drop)]
pub struct Syms {
    pub head: Option<Val>,
    pub made: u64,
}

/// Whether a string has these bytes.
fn has_bytes(c: &Cells, s: Val, bytes: &[u8]) -> bool
    requires string { IsTrue (is_str c.now.cells s) }
    ensures { IsTrue result ↔ (bytes_of c.now.cells s ≡ bytes.now) }
{
    let n = c.string_len(s);
    if n as usize != bytes.len() {
        return false;
    }
    for i in 0..n {
        if c.string_byte(s, i) != bytes[i as usize] {
            return false;
        }
    }
    true
}

impl Syms {
    /// The interned identifier of this name; None exactly where there is none. It makes nothing.
    pub fn find(&self, c: &Cells, name: &[u8]) -> Option<Val>
        requires { IsTable c.now.cells self.now.head }
        ensures id { ForSome result (λ v. IsTrue (is_id c.now.cells v)) }
        ensures live { ForSome result (λ v. IsTrue (is_live c.now.cells v)) }
        ensures found { MatchOption result (IsFree c.now.cells self.now.head name.now) (λ v. IsNamed c.now.cells self.now.head name.now v) }
    {
        let mut at = self.head;
        while let Some(id) = at {
            let text = Val::read(c.word(id, 0)).unwrap();
            if has_bytes(c, text, name) {
                return Some(id);
            }
            at = Val::read(c.word(id, 5));
        }
        None
    }

    /// Whether an identifier is interned.
    pub fn interned(&self, c: &Cells, id: Val) -> bool
        requires table { IsTable c.now.cells self.now.head }
        requires id { IsTrue (is_id c.now.cells id) }
        ensures { IsTrue result ↔ IsInterned c.now.cells self.now.head id }
    {
        let mut at = self.head;
        while let Some(other) = at {
            if other.index() == id.index() {
                return true;
            }
            at = Val::read(c.word(other, 5));
        }
        false
    }

    /// The interned identifier of this name of 1 to 255 bytes: equal names give one identifier. Where there is none yet it
    /// is made, with NIL as its property list, and takes 3 cells and those of its name as a string. `Full`, and everything
    /// is as before, exactly where these pass the cells.
    pub fn intern(&mut self, c: &mut Cells, name: &[u8]) -> Result<Val, Full>
        requires table { IsTable c.old.cells self.old.head }
        requires some { 1 ≤ length name.now }
        requires short { length name.now ≤ 255 }
        ensures ok { IfOk result (λ v. Finds c.old c.new self.old.head self.new.head name.now v ⊎ Enters c.old c.new self.old.head self.new.head name.now v) }
        ensures no_room { OnErr result (has_room c.old (id_cost name.now) ≡ false) }
        ensures unknown { OnErr result (IsFree c.old.cells self.old.head name.now) }
        ensures err { OnErr result (c.new ≡ c.old) }
        ensures err_head { OnErr result (self.new.head ≡ self.old.head) }
        ensures made { self.new.made ≡ self.old.made }
        ensures table { IsTable c.new.cells self.new.head }
        ensures named { IfOk result (λ v. IsNamed c.new.cells self.new.head name.now v) }
        ensures id { IfOk result (λ v. IsTrue (is_id c.new.cells v)) }
        ensures live { IfOk result (λ v. IsTrue (is_live c.new.cells v)) }
        ensures keeps { (bytes : List ℕ) (id : Tagged) → IsNamed c.old.cells self.old.head bytes id → IsNamed c.new.cells self.new.head bytes id }
        ensures opening { (bound : ℕ) → IsOpening c.old bound → IsOpening c.new bound }
        ensures adds { Adds c.old.cells c.new.cells }
    {
        match self.find(c, name) {
            Some(id) => Ok(id),
            None => self.enter(c, name),
        }
    }

    /// A new identifier before the others, with a name that none of them has.
    fn enter(&mut self, c: &mut Cells, name: &[u8]) -> Result<Val, Full>
        requires table { IsTable c.old.cells self.old.head }
        requires free { IsFree c.old.cells self.old.head name.now }
        requires some { 1 ≤ length name.now }
        requires short { length name.now ≤ 255 }
        ensures ok { IfOk result (λ v. Enters c.old c.new self.old.head self.new.head name.now v) }
        ensures no_room { OnErr result (has_room c.old (id_cost name.now) ≡ false) }
        ensures err { OnErr result (c.new ≡ c.old) }
        ensures err_head { OnErr result (self.new.head ≡ self.old.head) }
        ensures made { self.new.made ≡ self.old.made }
        ensures table { IsTable c.new.cells self.new.head }
        ensures named { IfOk result (λ v. IsNamed c.new.cells self.new.head name.now v) }
        ensures id { IfOk result (λ v. IsTrue (is_id c.new.cells v)) }
        ensures live { IfOk result (λ v. IsTrue (is_live c.new.cells v)) }
        ensures keeps { (bytes : List ℕ) (id : Tagged) → IsNamed c.old.cells self.old.head bytes id → IsNamed c.new.cells self.new.head bytes id }
        ensures opening { (bound : ℕ) → IsOpening c.old bound → IsOpening c.new bound }
        ensures adds { Adds c.old.cells c.new.cells }
    {
        rl_cells::laws::objects_are_added();
        let id = identifier(c, name, nil(), self.head)?;
        self.head = Some(id);
        Ok(id)
    }

    /// A new identifier of this name of 1 to 255 bytes that is not interned. `Full`, and everything is as before, exactly
    /// where 3 cells and those of its name pass the cells.
    pub fn loose(&mut self, c: &mut Cells, name: &[u8]) -> Result<Val, Full>
        requires table { IsTable c.old.cells self.old.head }
        requires some { 1 ≤ length name.now }
        requires short { length name.now ≤ 255 }
        ensures full { is_ok result ≡ has_room c.old (id_cost name.now) }
        ensures place { IfOk result (λ v. v ≡ new_id c.old name.now) }
        ensures ok { OnOk result (c.new ≡ with_id c.old name.now nil_value None) }
        ensures err { OnErr result (c.new ≡ c.old) }
        ensures same { self.new ≡ self.old }
        ensures table { IsTable c.new.cells self.new.head }
        ensures id { IfOk result (λ v. IsTrue (is_id c.new.cells v)) }
        ensures live { IfOk result (λ v. IsTrue (is_live c.new.cells v)) }
        ensures keeps { (bytes : List ℕ) (id : Tagged) → IsNamed c.old.cells self.old.head bytes id → IsNamed c.new.cells self.new.head bytes id }
        ensures adds { Adds c.old.cells c.new.cells }
    {
        rl_cells::laws::objects_are_added();
        let id = identifier(c, name, nil(), None)?;
        Ok(id)
    }
}
