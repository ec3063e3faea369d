//! Exact operations on integers. A result out of range is refused, and never wraps.
ghost use Rattle.std.specs.Prelude.{◌≡◌, ◌≤ℤ◌, pos, ◌+ℤ◌, ◌-ℤ◌, ◌*ℤ◌, int_div, int_rem, int_lt, Some, None, FitsSigned, IsTrue, IfOk, IfErr, OnOk, OnErr};
ghost use Rattle.std.specs.Int.{w128};
ghost use Rattle.std.specs.Option.{SomeIff};
ghost use Rattle.rl_cells.specs.Cell.{is_live};
ghost use Rattle.rl_num.specs.Arithmetic.{division_fault, integer_power, power_fault, range_fault};
ghost use Rattle.rl_num.specs.Number.{IsMadeInteger, integer_of, is_integer_value};

use crate::number::{NumFault, make, value};
use rl_cells::Cells;
use rl_tags::Val;

/// The largest integer: 2^59 - 1.
const GREATEST: i128 = 576_460_752_303_423_487;

/// The smallest: -(2^59).
const LEAST: i128 = -1 - GREATEST;

/// The value of an exact result. `Overflow` exactly where it is out of range, and else `Full` exactly where it wants a cell
/// and none is left; then everything is as before.
fn make_exact(c: &mut Cells, n: i128) -> Result<Val, NumFault>
    ensures ok { IfOk result (λ v. IsMadeInteger c.old c.new n v) }
    ensures possible { OnOk result (range_fault c.old n ≡ None) }
    ensures fault { IfErr result (λ f. range_fault c.old n ≡ Some f) }
    ensures err { OnErr result (c.new ≡ c.old) }
    ensures integer { IfOk result (λ v. IsTrue (is_integer_value c.new.cells v)) }
    ensures value { IfOk result (λ v. integer_of c.new.cells v ≡ n) }
    ensures live { IfOk result (λ v. IsTrue (is_live c.new.cells v)) }
{
    if n < LEAST || n > GREATEST {
        return Err(NumFault::Overflow);
    }
    make(c, n)
}

/// The sum of two integers. `Overflow` exactly where it is out of range, and else `Full` exactly where it wants a cell and
/// none is left; then everything is as before.
pub fn plus(c: &mut Cells, a: Val, b: Val) -> Result<Val, NumFault>
    requires left { IsTrue (is_integer_value c.old.cells a) }
    requires right { IsTrue (is_integer_value c.old.cells b) }
    ensures ok { IfOk result (λ v. IsMadeInteger c.old c.new (integer_of c.old.cells a +ℤ integer_of c.old.cells b) v) }
    ensures possible { OnOk result (range_fault c.old (integer_of c.old.cells a +ℤ integer_of c.old.cells b) ≡ None) }
    ensures fault { IfErr result (λ f. range_fault c.old (integer_of c.old.cells a +ℤ integer_of c.old.cells b) ≡ Some f) }
    ensures err { OnErr result (c.new ≡ c.old) }
    ensures integer { IfOk result (λ v. IsTrue (is_integer_value c.new.cells v)) }
    ensures value { IfOk result (λ v. integer_of c.new.cells v ≡ integer_of c.old.cells a +ℤ integer_of c.old.cells b) }
    ensures live { IfOk result (λ v. IsTrue (is_live c.new.cells v)) }
{
    match value(c, a).checked_add(value(c, b)) {
        Some(n) => make_exact(c, n),
        None => Err(NumFault::Overflow),
    }
}

/// The integer `a` less `b`. The faults are those of `plus`.
pub fn minus(c: &mut Cells, a: Val, b: Val) -> Result<Val, NumFault>
    requires left { IsTrue (is_integer_value c.old.cells a) }
    requires right { IsTrue (is_integer_value c.old.cells b) }
    ensures ok { IfOk result (λ v. IsMadeInteger c.old c.new (integer_of c.old.cells a -ℤ integer_of c.old.cells b) v) }
    ensures possible { OnOk result (range_fault c.old (integer_of c.old.cells a -ℤ integer_of c.old.cells b) ≡ None) }
    ensures fault { IfErr result (λ f. range_fault c.old (integer_of c.old.cells a -ℤ integer_of c.old.cells b) ≡ Some f) }
    ensures err { OnErr result (c.new ≡ c.old) }
    ensures integer { IfOk result (λ v. IsTrue (is_integer_value c.new.cells v)) }
    ensures value { IfOk result (λ v. integer_of c.new.cells v ≡ integer_of c.old.cells a -ℤ integer_of c.old.cells b) }
    ensures live { IfOk result (λ v. IsTrue (is_live c.new.cells v)) }
{
    match value(c, a).checked_sub(value(c, b)) {
        Some(n) => make_exact(c, n),
        None => Err(NumFault::Overflow),
    }
}

/// The product of two integers. The faults are those of `plus`.
pub fn times(c: &mut Cells, a: Val, b: Val) -> Result<Val, NumFault>
    requires left { IsTrue (is_integer_value c.old.cells a) }
    requires right { IsTrue (is_integer_value c.old.cells b) }
    ensures ok { IfOk result (λ v. IsMadeInteger c.old c.new (integer_of c.old.cells a *ℤ integer_of c.old.cells b) v) }
    ensures possible { OnOk result (range_fault c.old (integer_of c.old.cells a *ℤ integer_of c.old.cells b) ≡ None) }
    ensures fault { IfErr result (λ f. range_fault c.old (integer_of c.old.cells a *ℤ integer_of c.old.cells b) ≡ Some f) }
    ensures err { OnErr result (c.new ≡ c.old) }
    ensures integer { IfOk result (λ v. IsTrue (is_integer_value c.new.cells v)) }
    ensures value { IfOk result (λ v. integer_of c.new.cells v ≡ integer_of c.old.cells a *ℤ integer_of c.old.cells b) }
    ensures live { IfOk result (λ v. IsTrue (is_live c.new.cells v)) }
{
    match value(c, a).checked_mul(value(c, b)) {
        Some(n) => make_exact(c, n),
        None => Err(NumFault::Overflow),
    }
}

/// The quotient of `a` by `b`, taken toward 0. `ZeroDivisor` exactly where `b` is 0, and else the faults of `plus`.
pub fn quotient(c: &mut Cells, a: Val, b: Val) -> Result<Val, NumFault>
    requires left { IsTrue (is_integer_value c.old.cells a) }
    requires right { IsTrue (is_integer_value c.old.cells b) }
    ensures ok { IfOk result (λ v. IsMadeInteger c.old c.new (int_div (integer_of c.old.cells a) (integer_of c.old.cells b)) v) }
    ensures possible { OnOk result (division_fault c.old (integer_of c.old.cells b) (int_div (integer_of c.old.cells a) (integer_of c.old.cells b)) ≡ None) }
    ensures fault { IfErr result (λ f. division_fault c.old (integer_of c.old.cells b) (int_div (integer_of c.old.cells a) (integer_of c.old.cells b)) ≡ Some f) }
    ensures err { OnErr result (c.new ≡ c.old) }
    ensures integer { IfOk result (λ v. IsTrue (is_integer_value c.new.cells v)) }
    ensures value { IfOk result (λ v. integer_of c.new.cells v ≡ int_div (integer_of c.old.cells a) (integer_of c.old.cells b)) }
    ensures live { IfOk result (λ v. IsTrue (is_live c.new.cells v)) }
{
    let divisor = value(c, b);
    if divisor == 0 {
        return Err(NumFault::ZeroDivisor);
    }
    match value(c, a).checked_div(divisor) {
        Some(n) => make_exact(c, n),
        None => Err(NumFault::Overflow),
    }
}

/// What the quotient of `a` by `b` leaves: 0, or an integer of the sign of `a`. The faults are those of `quotient`.
pub fn remainder(c: &mut Cells, a: Val, b: Val) -> Result<Val, NumFault>
    requires left { IsTrue (is_integer_value c.old.cells a) }
    requires right { IsTrue (is_integer_value c.old.cells b) }
    ensures ok { IfOk result (λ v. IsMadeInteger c.old c.new (int_rem (integer_of c.old.cells a) (integer_of c.old.cells b)) v) }
    ensures possible { OnOk result (division_fault c.old (integer_of c.old.cells b) (int_rem (integer_of c.old.cells a) (integer_of c.old.cells b)) ≡ None) }
    ensures fault { IfErr result (λ f. division_fault c.old (integer_of c.old.cells b) (int_rem (integer_of c.old.cells a) (integer_of c.old.cells b)) ≡ Some f) }
    ensures err { OnErr result (c.new ≡ c.old) }
    ensures integer { IfOk result (λ v. IsTrue (is_integer_value c.new.cells v)) }
    ensures value { IfOk result (λ v. integer_of c.new.cells v ≡ int_rem (integer_of c.old.cells a) (integer_of c.old.cells b)) }
    ensures live { IfOk result (λ v. IsTrue (is_live c.new.cells v)) }
{
    let divisor = value(c, b);
    if divisor == 0 {
        return Err(NumFault::ZeroDivisor);
    }
    make_exact(c, value(c, a).wrapping_rem(divisor))
}

/// `base` to the power `exponent`, or None exactly where that is outside 128 bits. A power with an exponent from 128 on is
/// outside, or its base is 0, 1 or -1 and only whether the exponent is odd tells, so a lower exponent serves as well.
fn raised(base: i128, exponent: i128) -> Option<i128>
    requires { pos 0 ≤ℤ exponent }
    ensures { SomeIff result (FitsSigned w128 (integer_power base exponent)) (integer_power base exponent) }
{
    let exponent = exponent.unsigned_abs();
    if exponent < 128 {
        base.checked_pow(exponent as u32)
    } else {
        base.checked_pow(128 + (exponent % 2) as u32)
    }
}

/// `a` to the power `b`, where 0 to the power 0 is 1. `BadExponent` exactly where `b` is negative, and else the faults of
/// `plus`.
pub fn power(c: &mut Cells, a: Val, b: Val) -> Result<Val, NumFault>
    requires left { IsTrue (is_integer_value c.old.cells a) }
    requires right { IsTrue (is_integer_value c.old.cells b) }
    ensures ok { IfOk result (λ v. IsMadeInteger c.old c.new (integer_power (integer_of c.old.cells a) (integer_of c.old.cells b)) v) }
    ensures possible { OnOk result (power_fault c.old (integer_of c.old.cells a) (integer_of c.old.cells b) ≡ None) }
    ensures fault { IfErr result (λ f. power_fault c.old (integer_of c.old.cells a) (integer_of c.old.cells b) ≡ Some f) }
    ensures err { OnErr result (c.new ≡ c.old) }
    ensures integer { IfOk result (λ v. IsTrue (is_integer_value c.new.cells v)) }
    ensures value { IfOk result (λ v. integer_of c.new.cells v ≡ integer_power (integer_of c.old.cells a) (integer_of c.old.cells b)) }
    ensures live { IfOk result (λ v. IsTrue (is_live c.new.cells v)) }
{
    let exponent = value(c, b);
    if exponent < 0 {
        return Err(NumFault::BadExponent);
    }
    match raised(value(c, a), exponent) {
        Some(n) => make_exact(c, n),
        None => Err(NumFault::Overflow),
    }
}

/// Whether the integer `a` is less than `b`.
pub fn less(c: &Cells, a: Val, b: Val) -> bool
    requires left { IsTrue (is_integer_value c.now.cells a) }
    requires right { IsTrue (is_integer_value c.now.cells b) }
    ensures { result ≡ int_lt (integer_of c.now.cells a) (integer_of c.now.cells b) }
{
    value(c, a) < value(c, b)
}
