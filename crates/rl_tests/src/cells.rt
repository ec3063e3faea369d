//! The store of objects.
ghost use Rattle.std.specs.Prelude.{◌≡◌, [], None, IfOk, IsTrue};
ghost use Rattle.rl_tags.specs.Ids.{nil_id};
ghost use Rattle.rl_tags.specs.Tagged.{Tagged};
ghost use Rattle.rl_cells.specs.Cell.{is_live};

use rl_cells::{Cells, Full};
use rl_tags::{NIL, Tag, Val};
use std::alloc::Global;
use std::marker::Model;
use std::test::Fail;

/// What the cells are taken for.
#[derive(Clone, Copy)]
enum Stage {
    Opening,
    Run,
    Spare,
}

/// The bound on a run, what is filled after one pair of opening, how many pairs fit, and how many cells count then.
type FillRow = (u16, Stage, u32, u32);

const FILLS: &[FillRow] = &[
    (1000, Stage::Run, 1000, 1000),
    (2, Stage::Run, 2, 2),
    (2, Stage::Opening, 65535, 0),
    (1, Stage::Spare, 1_000_000, 0),
];

/// A string, how many bytes it has, its last byte, and the cells that are taken then.
type StringRow = (&'static [u8], u32, u8, u32);

const STRINGS: &[StringRow] = &[
    (b"", 0, 0, 1),
    (b"fifteen letters", 15, b's', 3),
    (b"sixteen letters.", 16, b'.', 5),
    (b"seventeen letters", 17, b's', 8),
];

/// The places of a vector, and the cells that are taken then.
type VectorRow = (u32, u32);

const VECTORS: &[VectorRow] = &[(0, 1), (1, 3), (2, 5)];

/// Makes pairs until the store is full. How many.
fn fill(cells: &mut Cells) -> u32 {
    for made in 0..2_000_000u32 {
        if cells.cons(Val::small(5), Val::small(6)).is_err() {
            return made;
        }
    }
    2_000_000
}

/// How many pairs fit, how many more then, and how many cells count.
fn filled(alloc: Global, bound: u16, stage: Stage) -> Result<(u32, u32, u32), Fail> {
    let mut cells = Cells::new(alloc, u32::from(bound))?;
    let _pair = cells.cons(Val::small(5), Val::small(6))?;
    match stage {
        Stage::Opening => {}
        Stage::Run => cells.settle(),
        Stage::Spare => {
            cells.settle();
            let _mark = cells.spare_begin();
        }
    }
    let made = fill(&mut cells);
    Ok((made, fill(&mut cells), cells.used()))
}

/// The car of a pair, and -1 for any other value.
fn first(cells: &Cells, v: Val) -> Val
    requires { IsTrue (is_live cells.now.cells v) }
    ensures { IsTrue (is_live cells.now.cells result) }
{
    match v.tag() {
        Tag::Pair => cells.car(v),
        _ => Val::small(-1),
    }
}

/// The cdr of a pair, and -1 for any other value.
fn rest(cells: &Cells, v: Val) -> Val
    requires { IsTrue (is_live cells.now.cells v) }
    ensures { IsTrue (is_live cells.now.cells result) }
{
    match v.tag() {
        Tag::Pair => cells.cdr(v),
        _ => Val::small(-1),
    }
}

/// Makes `v` the car of a pair, and leaves any other value as it is.
#[tactic(auto, using(rl_cells::proofs::Kept::pair_keeps_live))]
fn change(cells: &mut Cells, p: Val, v: Val)
    requires pair_live { IsTrue (is_live cells.old.cells p) }
    requires value_live { IsTrue (is_live cells.old.cells v) }
    ensures { (x : Tagged) → IsTrue (is_live cells.old.cells x) → IsTrue (is_live cells.new.cells x) }
{
    match p.tag() {
        Tag::Pair => cells.set_car(p, v),
        _ => {}
    }
}

/// Makes a pair of spare cells and gives it back. Its place, if there was room.
#[tactic(auto, using(rl_cells::proofs::Cut::released_all))]
fn make_and_release(cells: &mut Cells) -> Option<u64>
    requires { cells.old.mark ≡ None }
    ensures { cells.new.cells ≡ cells.old.cells }
{
    let mark = cells.spare_begin();
    let made = match cells.cons(Val::small(1), Val::small(2)) {
        Ok(pair) => Some(pair.index()),
        Err(Full) => None,
    };
    cells.release(mark);
    made
}

/// A store that has NIL.
#[derive(Drop)]
struct Bench {
    cells: Cells,
}

impl Model for Bench {
    ghost use Rattle.std.specs.Prelude.{ℕ, IsTrue};
    ghost use Rattle.rl_tags.specs.Ids.{nil_id};
    ghost use Rattle.rl_cells.specs.Cell.{is_live};

    ghost Value = { ℕ };

    ghost view = { λ b. 0 };

    ghost invariant = { λ b. IsTrue (is_live b.cells.cells nil_id) };
}

/// Makes NIL behind its name, the first objects of opening.
fn make_nil(cells: &mut Cells) -> Result<(), Full>
    requires empty { cells.old.cells ≡ [] }
    requires opening { cells.old.count ≡ None }
    ensures live { IfOk result (λ _. IsTrue (is_live cells.new.cells nil_id)) }
    ensures opening { cells.new.count ≡ None }
{
    let _name = cells.string(b"sixteen letters.")?;
    let _nil = cells.block(Tag::Id, 6)?;
    Ok(())
}

impl Bench {
    /// NIL, made in opening, and this many cells after it.
    fn new(alloc: Global, cells: u16) -> Result<Bench, Fail> {
        let mut cells = Cells::new(alloc, u32::from(cells))?;
        make_nil(&mut cells)?;
        cells.settle();
        Ok(Bench { cells })
    }

    fn used(&self) -> u32 {
        self.cells.used()
    }

    /// Makes a string of at most 65,535 bytes. How many it has, and the last of them or 0.
    fn string(&mut self, bytes: &[u8]) -> Option<(u32, u8)> {
        if bytes.len() > 65535 {
            return None;
        }
        match self.cells.string(bytes) {
            Ok(v) => {
                let long = self.cells.string_len(v);
                if long > 0 {
                    Some((long, self.cells.string_byte(v, long - 1)))
                } else {
                    Some((0, 0))
                }
            }
            Err(Full) => None,
        }
    }

    /// Makes a vector of at most 1,000 places. How many it has, and what is at the last, or else -1.
    fn vector(&mut self, places: u32) -> Option<(u32, Val)> {
        if places > 1000 {
            return None;
        }
        match self.cells.vector(places) {
            Ok(v) => {
                let long = self.cells.vector_len(v);
                if long > 0 {
                    Some((long, self.cells.get(v, long - 1)))
                } else {
                    Some((0, Val::small(-1)))
                }
            }
            Err(Full) => None,
        }
    }

    /// Makes a vector of two places and puts 5 into the second. What it holds then.
    fn put_second(&mut self) -> Option<(Val, Val)> {
        match self.cells.vector(2) {
            Ok(v) => {
                self.cells.put(v, 1, Val::small(5));
                Some((self.cells.get(v, 0), self.cells.get(v, 1)))
            }
            Err(Full) => None,
        }
    }
}

/// The first row that fails.
fn first_wrong_fill(alloc: Global, rows: &[FillRow]) -> Result<Option<usize>, Fail> {
    for (i, row) in rows.iter().enumerate() {
        if filled(alloc, row.0, row.1)? != (row.2, 0, row.3) {
            return Ok(Some(i));
        }
    }
    Ok(None)
}

#[test]
fn pairs_fill_the_store(rt: HostRuntime) -> Result<(), Fail> {
    assert_eq!(rt; first_wrong_fill(rt.alloc(), FILLS)?, None);
    Ok(())
}

/// The first row that fails.
fn first_wrong_string(bench: &mut Bench, rows: &[StringRow]) -> Option<usize> {
    for (i, (bytes, long, last, used)) in rows.iter().enumerate() {
        if bench.string(bytes) != Some((*long, *last)) || bench.used() != *used {
            return Some(i);
        }
    }
    None
}

#[test]
fn strings_take_a_cell_for_16_bytes(rt: HostRuntime) -> Result<(), Fail> {
    let bytes = vec![in rt.alloc(); 7; 65535]?;
    let mut bench = Bench::new(rt.alloc(), 4105)?;
    assert_eq!(rt; first_wrong_string(&mut bench, STRINGS), None);
    assert_eq!(rt; bench.string(&bytes), Some((65535, 7)));
    assert_eq!(rt; bench.used(), 4105);
    assert_eq!(rt; bench.string(b""), None);
    Ok(())
}

/// The first row that fails.
fn first_wrong_vector(bench: &mut Bench, rows: &[VectorRow]) -> Option<usize> {
    for (i, (places, used)) in rows.iter().enumerate() {
        let last = if *places > 0 { NIL } else { Val::small(-1) };
        if bench.vector(*places) != Some((*places, last)) || bench.used() != *used {
            return Some(i);
        }
    }
    None
}

#[test]
fn vectors_take_a_cell_for_two_places(rt: HostRuntime) -> Result<(), Fail> {
    let mut bench = Bench::new(rt.alloc(), 7)?;
    assert_eq!(rt; first_wrong_vector(&mut bench, VECTORS), None);
    assert_eq!(rt; bench.put_second(), Some((NIL, Val::small(5))));
    assert_eq!(rt; bench.vector(0), None);
    Ok(())
}

/// What two pairs tell of a third that they share, whose car became 7.
fn told_by_two(cells: &mut Cells) -> Result<(Val, Val), Full> {
    let named = cells.cons(Val::small(1), Val::small(2))?;
    let one = cells.cons(named, Val::small(3))?;
    let other = cells.cons(Val::small(4), named)?;
    change(cells, named, Val::small(7));
    let by_one = first(cells, one);
    let by_other = rest(cells, other);
    Ok((first(cells, by_one), first(cells, by_other)))
}

#[test]
fn two_pairs_see_the_change_of_a_third(rt: HostRuntime) -> Result<(), Fail> {
    let mut cells = Cells::new(rt.alloc(), 1000)?;
    let told = told_by_two(&mut cells);
    assert_eq!(rt; told, Ok((Val::small(7), Val::small(7))));
    Ok(())
}

/// Makes a pair after one that is kept, gives it back and makes another: the place of the pair that was given back, the cells
/// that are used then, the car of what is kept, and the place of the last pair.
fn released(cells: &mut Cells) -> Result<(Option<u64>, u32, Val, u64), Full>
    requires { cells.old.mark ≡ None }
{
    let kept = cells.cons(Val::small(5), Val::small(6))?;
    let place = make_and_release(cells);
    let used = cells.used();
    let car = first(cells, kept);
    let next = cells.cons(Val::small(7), Val::small(8))?;
    Ok((place, used, car, next.index()))
}

#[test]
fn release_gives_back_what_came_after_the_mark(rt: HostRuntime) -> Result<(), Fail> {
    let mut cells = Cells::new(rt.alloc(), 1000)?;
    cells.settle();
    let told = released(&mut cells);
    assert_eq!(rt; told, Ok((Some(1), 1, Val::small(5), 1)));
    Ok(())
}
