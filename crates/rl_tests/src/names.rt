//! The table of names.

use rl_cells::Cells;
use rl_syms::Syms;
use rl_tags::{NIL, OPENING_NAMES, T, Val, opening_id, opening_name};
use rl_tree::VarKind;
use std::alloc::Global;
use std::marker::Model;
use std::test::Fail;

/// A table of names as it is after opening, and the identifier whose fields are looked at. A contract sees no more than that
/// calls may be made.
#[derive(Drop)]
struct Bench {
    cells: Cells,
    syms: Syms,
    id: Val,
}

impl Model for Bench {
    ghost use Rattle.std.specs.Prelude.{ℕ, IsTrue};
    ghost use Rattle.rl_syms.specs.Table.{IsTable, is_id};

    ghost Value = { ℕ };

    ghost view = { λ b. 0 };

    ghost invariant = { λ b. IsTable b.cells.cells b.syms.head × IsTrue (is_id b.cells.cells b.id) };
}

impl Bench {
    /// Opening, and this many cells after it. NIL is looked at.
    fn new(alloc: Global, cells: u16) -> Result<Bench, Fail> {
        let mut cells = Cells::new(alloc, u32::from(cells))?;
        let syms = Syms::open(alloc, &mut cells)?;
        cells.settle();
        match syms.find(&cells, b"NIL") {
            Some(id) => Ok(Bench { cells, syms, id }),
            None => Err("no NIL")?,
        }
    }

    fn used(&self) -> u32 {
        self.cells.used()
    }

    fn find(&self, name: &[u8]) -> Option<Val> {
        self.syms.find(&self.cells, name)
    }

    /// Interns a name and looks at its identifier.
    fn intern(&mut self, name: &[u8]) -> Option<Val> {
        if name.is_empty() || name.len() > 255 {
            return None;
        }
        match self.syms.intern(&mut self.cells, name) {
            Ok(id) => {
                self.id = id;
                Some(id)
            }
            Err(_) => None,
        }
    }

    /// Makes an identifier that is not interned, and looks at it.
    fn loose(&mut self, name: &[u8]) -> Option<Val> {
        if name.is_empty() || name.len() > 255 {
            return None;
        }
        match self.syms.loose(&mut self.cells, name) {
            Ok(id) => {
                self.id = id;
                Some(id)
            }
            Err(_) => None,
        }
    }

    /// Makes up a name, and looks at its identifier.
    fn gensym(&mut self) -> Option<Val> {
        match self.syms.gensym(&mut self.cells) {
            Ok(id) => {
                self.id = id;
                Some(id)
            }
            Err(_) => None,
        }
    }

    /// How many bytes the name has, and whether it is interned.
    fn naming(&self) -> (u32, bool) {
        let name = self.syms.name(&self.cells, self.id);
        let interned = self.syms.interned(&self.cells, self.id);
        (self.cells.string_len(name), interned)
    }

    /// The value, the property list, whether there is a definition, and the kind.
    fn fields(&self) -> (Option<Val>, Val, bool, VarKind) {
        let value = self.syms.value(&self.cells, self.id);
        let plist = self.syms.plist(&self.cells, self.id);
        let function = self.syms.function(&self.cells, self.id);
        let kind = self.syms.kind(&self.cells, self.id);
        (value, plist, function.is_some(), kind)
    }

    fn set_value(&mut self, n: i32) {
        self.syms
            .set_value(&mut self.cells, self.id, Some(Val::small(i64::from(n))));
    }

    fn set_plist(&mut self, n: i32) {
        self.syms
            .set_plist(&mut self.cells, self.id, Val::small(i64::from(n)));
    }

    fn set_kind(&mut self, kind: VarKind) {
        self.syms.set_kind(&mut self.cells, self.id, kind);
    }

    fn undefine(&mut self) {
        self.syms.set_function(&mut self.cells, self.id, None);
    }
}

/// The name of two lower-case letters of a number below 200.
fn pair_name(number: u8) -> [u8; 2] {
    [b'a' + number / 20, b'a' + number % 20]
}

/// The first of the names of opening that is not found at its place.
fn first_misplaced(bench: &Bench) -> Option<usize> {
    for number in 0..OPENING_NAMES {
        if bench.find(opening_name(number)) != Some(opening_id(number)) {
            return Some(number);
        }
    }
    None
}

/// The first byte that is no name.
fn first_missing(bench: &Bench) -> Option<u8> {
    for byte in 0..=255u8 {
        if bench.find(&[byte]).is_none() {
            return Some(byte);
        }
    }
    None
}

#[test]
fn opening_makes_the_constants(rt: HostRuntime) -> Result<(), Fail> {
    let bench = Bench::new(rt.alloc(), 1_000)?;
    assert_eq!(rt; first_misplaced(&bench), None);
    assert_eq!(rt; first_missing(&bench), None);
    assert_eq!(rt; bench.find(b"NIL"), Some(NIL));
    assert_eq!(rt; bench.find(b"T"), Some(T));
    assert_eq!(rt; bench.find(b"nil"), None);
    assert_eq!(rt; bench.find(b""), None);
    Ok(())
}

/// The first of 200 names that is not made, each in five cells.
fn first_unmade(bench: &mut Bench) -> Option<u8> {
    for number in 0..200 {
        let made = bench.intern(&pair_name(number));
        if made.is_none() || bench.used() != 5 * (u32::from(number) + 1) {
            return Some(number);
        }
    }
    None
}

#[test]
fn names_of_two_letters_fill_the_cells(rt: HostRuntime) -> Result<(), Fail> {
    let mut bench = Bench::new(rt.alloc(), 1_000)?;
    assert_eq!(rt; first_unmade(&mut bench), None);
    let first = bench.find(b"aa");
    assert!(rt; first.is_some());
    assert_eq!(rt; (bench.intern(b"ka"), bench.used()), (None, 1_000));
    assert_eq!(rt; (bench.intern(b"aa"), bench.used()), (first, 1_000));
    Ok(())
}

/// Makes an identifier that is not interned, and then one of the same name that is: whether the first was made, whether it is
/// found before the second, whether both are one, and the cells that are used then.
fn loose_and_interned(bench: &mut Bench) -> (bool, bool, bool, u32) {
    let loose = bench.loose(b"ab");
    let found = bench.find(b"ab");
    let interned = bench.intern(b"ab");
    (
        loose.is_some(),
        found.is_some(),
        interned == loose,
        bench.used(),
    )
}

#[test]
fn a_loose_identifier_is_not_found(rt: HostRuntime) -> Result<(), Fail> {
    let mut bench = Bench::new(rt.alloc(), 1_000)?;
    let told = loose_and_interned(&mut bench);
    assert_eq!(rt; told, (true, false, false, 10));
    assert!(rt; bench.gensym().is_some());
    assert_eq!(rt; bench.naming(), (5, false));
    Ok(())
}

/// Sets the next field.
fn set_field(bench: &mut Bench, step: u8) {
    match step {
        1 => bench.set_value(1),
        2 => bench.set_plist(2),
        3 => bench.set_kind(VarKind::Global),
        _ => bench.undefine(),
    }
}

/// The fields after so many steps.
fn fields_after(step: u8) -> (Option<Val>, Val, bool, VarKind) {
    let value = if step < 1 { None } else { Some(Val::small(1)) };
    let plist = if step < 2 { NIL } else { Val::small(2) };
    let kind = if step < 3 {
        VarKind::Plain
    } else {
        VarKind::Global
    };
    (value, plist, false, kind)
}

/// The first step after which a field is not as it should be.
fn first_wrong_field(bench: &mut Bench) -> Option<u8> {
    for step in 0..5 {
        set_field(bench, step);
        if bench.fields() != fields_after(step) {
            return Some(step);
        }
    }
    None
}

#[test]
fn each_field_is_set_alone(rt: HostRuntime) -> Result<(), Fail> {
    let mut bench = Bench::new(rt.alloc(), 1_000)?;
    let id = bench.intern(b"ID");
    assert_eq!(rt; first_wrong_field(&mut bench), None);
    assert_eq!(rt; bench.find(b"ID"), id);
    assert_eq!(rt; bench.naming(), (2, true));
    Ok(())
}
