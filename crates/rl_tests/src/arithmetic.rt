//! Arithmetic on integers in cells: rows at both ends of the range, and of each fault.
ghost use Rattle.std.specs.Prelude.{IsTrue, IfOk};
ghost use Rattle.rl_num.specs.Number.{is_integer_value};

use rl_cells::Cells;
use rl_num::{NumFault, less, make, minus, plus, power, quotient, remainder, times, value};
use rl_tags::Val;
use std::test::Fail;

#[derive(Clone, Copy)]
enum Operation {
    Plus,
    Minus,
    Times,
    Quotient,
    Remainder,
    Power,
}

use Operation::{Minus, Plus, Power, Quotient, Remainder, Times};

/// The largest integer, 2^59 - 1, and the smallest, -(2^59).
const GREATEST: i128 = 576_460_752_303_423_487;

const LEAST: i128 = -576_460_752_303_423_488;

/// An operation, two integers, and what it answers of them.
type Row = (Operation, i128, i128, Result<i128, NumFault>);

const ROWS: &[Row] = &[
    (Plus, 2, 3, Ok(5)),
    (Plus, GREATEST, LEAST, Ok(-1)),
    (Plus, 576_460_752_303_423_486, 1, Ok(GREATEST)),
    (Plus, GREATEST, 1, Err(NumFault::Overflow)),
    (Plus, LEAST, -1, Err(NumFault::Overflow)),
    (Plus, 576_460_752_303_423_488, -1, Ok(GREATEST)),
    (Minus, 2, 3, Ok(-1)),
    (Minus, -1, GREATEST, Ok(LEAST)),
    (Minus, LEAST, 1, Err(NumFault::Overflow)),
    (Minus, 0, LEAST, Err(NumFault::Overflow)),
    (Minus, 0, GREATEST, Ok(-576_460_752_303_423_487)),
    (Times, -4, 5, Ok(-20)),
    (Times, LEAST, 0, Ok(0)),
    (Times, LEAST, -1, Err(NumFault::Overflow)),
    (Times, GREATEST, -1, Ok(-576_460_752_303_423_487)),
    (Times, 536_870_912, 1_073_741_824, Err(NumFault::Overflow)),
    (Times, -536_870_912, 1_073_741_824, Ok(LEAST)),
    (Times, GREATEST, GREATEST, Err(NumFault::Overflow)),
    (Quotient, 7, 2, Ok(3)),
    (Quotient, -7, 2, Ok(-3)),
    (Quotient, 7, -2, Ok(-3)),
    (Quotient, -7, -2, Ok(3)),
    (Quotient, LEAST, 1, Ok(LEAST)),
    (Quotient, LEAST, -1, Err(NumFault::Overflow)),
    (Quotient, 1, 0, Err(NumFault::ZeroDivisor)),
    (Quotient, 0, 0, Err(NumFault::ZeroDivisor)),
    (Remainder, 7, 2, Ok(1)),
    (Remainder, -7, 2, Ok(-1)),
    (Remainder, 7, -2, Ok(1)),
    (Remainder, -7, -2, Ok(-1)),
    (Remainder, -6, 3, Ok(0)),
    (Remainder, LEAST, -1, Ok(0)),
    (Remainder, GREATEST, LEAST, Ok(GREATEST)),
    (Remainder, LEAST, 0, Err(NumFault::ZeroDivisor)),
    (Power, 5, 0, Ok(1)),
    (Power, 0, 0, Ok(1)),
    (Power, 0, 1, Ok(0)),
    (Power, 0, GREATEST, Ok(0)),
    (Power, 1, GREATEST, Ok(1)),
    (Power, -1, GREATEST, Ok(-1)),
    (Power, -1, 576_460_752_303_423_486, Ok(1)),
    (Power, 2, 58, Ok(288_230_376_151_711_744)),
    (Power, 2, 59, Err(NumFault::Overflow)),
    (Power, -2, 59, Ok(LEAST)),
    (Power, -2, 60, Err(NumFault::Overflow)),
    (Power, 2, 62, Err(NumFault::Overflow)),
    (Power, -2, 63, Err(NumFault::Overflow)),
    (Power, -2, 127, Err(NumFault::Overflow)),
    (Power, 2, GREATEST, Err(NumFault::Overflow)),
    (Power, 7, 21, Ok(558_545_864_083_284_007)),
    (Power, 7, 22, Err(NumFault::Overflow)),
    (Power, -3, 37, Ok(-450_283_905_890_997_363)),
    (Power, 2, -1, Err(NumFault::BadExponent)),
    (Power, 0, LEAST, Err(NumFault::BadExponent)),
];

fn operated(c: &mut Cells, operation: Operation, a: Val, b: Val) -> Result<Val, NumFault>
    requires left { IsTrue (is_integer_value c.old.cells a) }
    requires right { IsTrue (is_integer_value c.old.cells b) }
    ensures integer { IfOk result (λ v. IsTrue (is_integer_value c.new.cells v)) }
{
    match operation {
        Operation::Plus => plus(c, a, b),
        Operation::Minus => minus(c, a, b),
        Operation::Times => times(c, a, b),
        Operation::Quotient => quotient(c, a, b),
        Operation::Remainder => remainder(c, a, b),
        Operation::Power => power(c, a, b),
    }
}

/// What an operation answers of two integers, in cells with room for the first.
fn answer(cells: &mut Cells, operation: Operation, m: i128, n: i128) -> Result<i128, NumFault> {
    let a = make(cells, m)?;
    let b = make(cells, n)?;
    let v = operated(cells, operation, a, b)?;
    Ok(value(cells, v))
}

/// Whether an operation answers as its row says, in cells with room for one integer.
fn answers(rt: &HostRuntime, row: &Row) -> Result<bool, Fail> {
    let mut cells = Cells::new(rt.alloc(), 1)?;
    cells.settle();
    Ok(answer(&mut cells, row.0, row.1, row.2) == row.3)
}

/// The first row that fails.
fn first_wrong(rt: &HostRuntime, rows: &[Row]) -> Result<Option<usize>, Fail> {
    for (i, row) in rows.iter().enumerate() {
        if !answers(rt, row)? {
            return Ok(Some(i));
        }
    }
    Ok(None)
}

#[test]
fn operations_answer(rt: HostRuntime) -> Result<(), Fail> {
    assert_eq!(rt; first_wrong(&rt, ROWS)?, None);
    Ok(())
}

/// Two integers, and whether the first is less.
type Ordered = (i128, i128, bool);

const ORDERED: &[Ordered] = &[
    (LEAST, GREATEST, true),
    (GREATEST, LEAST, false),
    (-1, 0, true),
    (0, -1, false),
    (-2, -1, true),
    (1, 1, false),
    (GREATEST, 576_460_752_303_423_488, true),
];

fn is_less(cells: &mut Cells, m: i128, n: i128) -> Result<bool, NumFault> {
    let a = make(cells, m)?;
    let b = make(cells, n)?;
    Ok(less(cells, a, b))
}

/// Whether two integers are ordered as their row says, in cells with room for one.
fn are_ordered(rt: &HostRuntime, row: &Ordered) -> Result<bool, Fail> {
    let mut cells = Cells::new(rt.alloc(), 1)?;
    cells.settle();
    Ok(is_less(&mut cells, row.0, row.1) == Ok(row.2))
}

/// The first row that fails.
fn first_wrong_order(rt: &HostRuntime, rows: &[Ordered]) -> Result<Option<usize>, Fail> {
    for (i, row) in rows.iter().enumerate() {
        if !are_ordered(rt, row)? {
            return Ok(Some(i));
        }
    }
    Ok(None)
}

#[test]
fn integers_are_ordered(rt: HostRuntime) -> Result<(), Fail> {
    assert_eq!(rt; first_wrong_order(&rt, ORDERED)?, None);
    Ok(())
}
