//! The identifiers that opening makes.
ghost use Rattle.std.specs.Prelude.{◌≡◌, ◌+◌, ◌*◌, ◌<◌, ◌≤◌, ◌∷◌, ◌⊎◌, ℕ, [], List, None, length, IsTrue, IsOk, IfOk, OnOk};
ghost use Rattle.rl_tags.specs.Tagged.{Tagged, IdAt};
ghost use Rattle.rl_tags.specs.Opening.{name_at, names_at_opening, place_of};
ghost use Rattle.rl_cells.specs.Cell.{has_room};
ghost use Rattle.rl_syms.specs.Table.{IsTable, IsNamed, nil_value};
ghost use Rattle.rl_syms.specs.Made.{IsOpening, Finds, Enters, new_id, with_id};
ghost use Rattle.rl_syms.specs.Opened.{IsOpened, IsOpeningName, HasFirst};

use crate::Syms;
use crate::made::identifier;
use rl_cells::Cells;
use rl_io::OutOfMemory;
use rl_tags::{OPENING_NAMES, Val, opening_name};
use std::alloc::Global;

impl Syms {
    /// The table of names, with the identifiers that opening makes, in cells that nothing was taken from: the names that
    /// have a constant, in their order, and behind them those names of one byte that are not among them, from 0 to 255.
    /// Each is at its place, so that each that has a constant is that value, and is the identifier of its number. They have
    /// neither value nor definition, and NIL as their property list. Nothing else is made. It takes 2,110 cells, five for
    /// each name, and no memory, so it never fails.
    pub fn open(_alloc: Global, c: &mut Cells) -> Result<Syms, OutOfMemory>
        requires empty { c.old.cells ≡ [] }
        requires opening { IsOpening c.old c.old.bound }
        ensures ok { IsOk result }
        ensures table { IfOk result (λ s. IsTable c.new.cells s.head) }
        ensures first { IfOk result (λ s. HasFirst (length names_at_opening) c.new s.head) }
        ensures names { IfOk result (λ s. (i : ℕ) → i < OPENING_NAMES → IsNamed c.new.cells s.head (name_at i) (IdAt (place_of i))) }
        ensures bytes { IfOk result (λ s. (b : ℕ) → b < 256 → (id : Tagged) × IsNamed c.new.cells s.head (b ∷ []) id) }
        ensures made { IfOk result (λ s. s.made ≡ 0) }
        ensures opening { OnOk result (IsOpening c.new c.old.bound) }
        ensures opened { IfOk result (λ s. IsOpened c.new.cells s.head) }
        ensures long { length c.new.cells ≡ 2110 }
    {
        rl_cells::laws::objects_are_added();
        let id = first(c);
        let mut syms = Syms {
            head: Some(id),
            made: 0,
        };
        syms.constants(c);
        syms.letters(c);
        Ok(syms)
    }

    /// Interns the names that have a constant, behind NIL, each at its place.
    fn constants(&mut self, c: &mut Cells)
        requires table { IsTable c.old.cells self.old.head }
        requires opening { IsOpening c.old c.old.bound }
        requires opened { IsOpened c.old.cells self.old.head }
        requires first { HasFirst 1 c.old self.old.head }
        ensures table { IsTable c.new.cells self.new.head }
        ensures opening { IsOpening c.new c.old.bound }
        ensures opened { IsOpened c.new.cells self.new.head }
        ensures first { HasFirst OPENING_NAMES c.new self.new.head }
        ensures made { self.new.made ≡ self.old.made }
    {
        rl_cells::laws::objects_are_added();
        for number in 1..OPENING_NAMES {
            self.intern_short(c, opening_name(number));
        }
    }

    /// Interns the names of one byte, behind those.
    fn letters(&mut self, c: &mut Cells)
        requires table { IsTable c.old.cells self.old.head }
        requires opening { IsOpening c.old c.old.bound }
        requires opened { IsOpened c.old.cells self.old.head }
        requires first { HasFirst OPENING_NAMES c.old self.old.head }
        ensures table { IsTable c.new.cells self.new.head }
        ensures first { HasFirst (length names_at_opening) c.new self.new.head }
        ensures opening { IsOpening c.new c.old.bound }
        ensures opened { IsOpened c.new.cells self.new.head }
        ensures made { self.new.made ≡ self.old.made }
    {
        rl_cells::laws::objects_are_added();
        for byte in 0..256u32 {
            self.intern_short(c, &[byte as u8]);
        }
    }

    /// Interns a name of 1 to 16 bytes, which takes five cells at most, where there is room for them.
    fn intern_short(&mut self, c: &mut Cells, name: &[u8]) -> Val
        requires table { IsTable c.old.cells self.old.head }
        requires some { 1 ≤ length name.now }
        requires short { length name.now ≤ 16 }
        requires room { IsTrue (has_room c.old 5) }
        requires opened { IsOpened c.old.cells self.old.head }
        requires known { IsOpeningName name.now }
        ensures ok { Finds c.old c.new self.old.head self.new.head name.now result ⊎ Enters c.old c.new self.old.head self.new.head name.now result }
        ensures table { IsTable c.new.cells self.new.head }
        ensures named { IsNamed c.new.cells self.new.head name.now result }
        ensures keeps { (bytes : List ℕ) (id : Tagged) → IsNamed c.old.cells self.old.head bytes id → IsNamed c.new.cells self.new.head bytes id }
        ensures long { length c.new.cells ≤ length c.old.cells + 5 }
        ensures opening { (bound : ℕ) → IsOpening c.old bound → IsOpening c.new bound }
        ensures opened { IsOpened c.new.cells self.new.head }
        ensures made { self.new.made ≡ self.old.made }
    {
        rl_cells::laws::objects_are_added();
        self.intern(c, name).unwrap()
    }
}

/// Makes NIL, which is its own property list.
fn first(c: &mut Cells) -> Val
    requires empty { c.old.cells ≡ [] }
    requires opening { IsOpening c.old c.old.bound }
    ensures place { result ≡ new_id c.old (name_at 0) }
    ensures ok { c.new ≡ with_id c.old (name_at 0) nil_value None }
{
    rl_cells::laws::objects_are_added();
    let id = identifier(c, opening_name(0), Val::small(0), None).unwrap();
    c.set_word(id, 2, id.word());
    id
}
