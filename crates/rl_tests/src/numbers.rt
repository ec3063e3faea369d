//! Whole numbers as values.
ghost use Rattle.std.specs.Prelude.{IsTrue};
ghost use Rattle.rl_num.specs.Number.{is_integer_value};

use rl_cells::Cells;
use rl_num::{NumFault, decimal, make, value};
use rl_tags::Val;
use std::test::Fail;

/// An integer, its decimal text, and the cells that it takes.
type Row = (i128, &'static [u8], u32);

/// Integers at the ends of 60 and of 128 bits.
const ROWS: &[Row] = &[
    (0, b"0", 0),
    (-1, b"-1", 0),
    (576_460_752_303_423_487, b"576460752303423487", 0),
    (576_460_752_303_423_488, b"576460752303423488", 1),
    (-576_460_752_303_423_488, b"-576460752303423488", 0),
    (-576_460_752_303_423_489, b"-576460752303423489", 1),
    (i128::MAX, b"170141183460469231731687303715884105727", 1),
    (i128::MIN, b"-170141183460469231731687303715884105728", 1),
];

/// Whether the decimal text of an integer is this.
fn is_written(cells: &Cells, v: Val, want: &[u8]) -> bool
    requires { IsTrue (is_integer_value cells.now.cells v) }
{
    let mut text = [0; 40];
    let length = decimal(cells, v, &mut text);
    &text[..length] == want
}

/// Whether an integer is made and written as its row says.
fn is_made(cells: &mut Cells, row: &Row) -> bool {
    match make(cells, row.0) {
        Ok(v) => {
            value(cells, v) == row.0 && cells.used() == row.2 && is_written(cells, v, row.1)
        }
        Err(_) => false,
    }
}

/// The same, in cells with room for one integer.
fn holds(rt: &HostRuntime, row: &Row) -> Result<bool, Fail> {
    let mut cells = Cells::new(rt.alloc(), 1)?;
    cells.settle();
    Ok(is_made(&mut cells, row))
}

/// The first row that fails.
fn first_wrong(rt: &HostRuntime, rows: &[Row]) -> Result<Option<usize>, Fail> {
    for (i, row) in rows.iter().enumerate() {
        if !holds(rt, row)? {
            return Ok(Some(i));
        }
    }
    Ok(None)
}

#[test]
fn integers_are_made_and_written(rt: HostRuntime) -> Result<(), Fail> {
    assert_eq!(rt; first_wrong(&rt, ROWS)?, None);
    Ok(())
}

#[test]
fn a_wide_integer_wants_a_cell(rt: HostRuntime) -> Result<(), Fail> {
    let mut cells = Cells::new(rt.alloc(), 0)?;
    cells.settle();
    assert_eq!(rt; make(&mut cells, 1 << 59).err(), Some(NumFault::Full));
    assert!(rt; make(&mut cells, 1).is_ok());
    Ok(())
}
