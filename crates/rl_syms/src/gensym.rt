//! Identifiers with names that are made up: G0001, G0002 and so on.
ghost use Rattle.std.specs.Prelude.{◌≡◌, ◌<◌, ◌≤◌, ◌+◌, ◌∷◌, ℕ, IsTrue, List, length, take, slice_index, IfOk, OnOk, OnErr};
ghost use Rattle.rl_tags.specs.Tagged.{Tagged};
ghost use Rattle.rl_cells.specs.Cell.{is_live};
ghost use Rattle.rl_syms.specs.Table.{IsTable, IsNamed, is_id};
ghost use Rattle.rl_syms.specs.Frame.{Adds};
ghost use Rattle.rl_syms.specs.Gensym.{IsWidth, LacksGensym, MakesGensym, digits, next_number};

use crate::Syms;
use rl_cells::{Cells, Full};
use rl_tags::Val;

impl Syms {
    /// A new identifier that is not interned, with the next of the names G0001, G0002 and so on; from number 2^64 - 1 on
    /// the name stays the same, and only the identifiers differ. `Full`, and everything is as before, exactly where 3 cells
    /// and those of its name pass the cells.
    pub fn gensym(&mut self, c: &mut Cells) -> Result<Val, Full>
        requires table { IsTable c.old.cells self.old.head }
        ensures ok { IfOk result (λ v. MakesGensym c.old c.new (next_number self.old.made) v) }
        ensures no_room { OnErr result (LacksGensym c.old (next_number self.old.made)) }
        ensures err { OnErr result (c.new ≡ c.old) }
        ensures counted { OnOk result (self.new.made ≡ next_number self.old.made) }
        ensures uncounted { OnErr result (self.new.made ≡ self.old.made) }
        ensures head { self.new.head ≡ self.old.head }
        ensures table { IsTable c.new.cells self.new.head }
        ensures id { IfOk result (λ v. IsTrue (is_id c.new.cells v)) }
        ensures live { IfOk result (λ v. IsTrue (is_live c.new.cells v)) }
        ensures keeps { (bytes : List ℕ) (id : Tagged) → IsNamed c.old.cells self.old.head bytes id → IsNamed c.new.cells self.new.head bytes id }
        ensures adds { Adds c.old.cells c.new.cells }
    {
        let number = self.made.saturating_add(1);
        let mut name = [b'G'; 21];
        let places = width(number);
        write_digits(&mut name, places, number);
        let id = self.loose(c, &name[..places + 1])?;
        self.made = number;
        Ok(id)
    }
}

/// The digits of a number, four at least.
fn width(n: u64) -> usize
    ensures { IsWidth result n }
{
    let mut limit: u128 = 10_000;
    for places in 4..20 {
        if u128::from(n) < limit {
            return places;
        }
        limit *= 10;
    }
    20
}

/// Writes the last `places` digits of a number behind the first byte.
fn write_digits(name: &mut [u8], places: usize, n: u64)
    requires { places < length name.old }
    ensures { take (places + 1) name.new ≡ slice_index name.old 0 ∷ digits places n }
{
    let mut rest = n;
    for i in 0..places {
        name[places - i] = b'0' + (rest % 10) as u8;
        rest /= 10;
    }
}
