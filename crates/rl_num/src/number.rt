//! Integers as values: a small one is a word of its own, and one outside 60 bits stands in a cell.
ghost use Rattle.std.specs.Prelude.{◌≡◌, ◌≤◌, ℕ, IsTrue, IfOk, IfErr, OnErr, take, slice_index};
ghost use Rattle.std.specs.Fmt.{signed_decimal};
ghost use Rattle.rl_cells.specs.Cell.{is_live};
ghost use Rattle.rl_num.specs.Number.{IsFull, IsMadeInteger, integer_of, is_integer_value};
ghost use Rattle.rl_num.specs.declared.number.NumFault.TheVariants as fault;

use itoa::Buffer;
use rl_cells::{Cells, Full};
use rl_tags::{Tag, Val};

/// The largest integer that is small: 2^59 - 1.
const LARGEST: i128 = 576_460_752_303_423_487;

/// The smallest: -(2^59).
const SMALLEST: i128 = -576_460_752_303_423_488;

/// Why an operation gives no integer.
#[derive(Clone, Copy, Debug, PartialEq, Eq)]
pub enum NumFault {
    /// The exact result is out of range.
    Overflow,
    /// The divisor is 0.
    ZeroDivisor,
    /// The exponent is negative.
    BadExponent,
    /// There is no cell left for the result.
    Full,
}

/// The integer that a value is.
pub fn value(c: &Cells, a: Val) -> i128
    requires { IsTrue (is_integer_value c.now.cells a) }
    ensures { result ≡ integer_of c.now.cells a }
{
    match a.tag() {
        Tag::Big => c.big_value(a),
        _ => i128::from(a.number()),
    }
}

/// The value of an integer. A small one makes nothing; one outside 60 bits takes a cell. `Full`, and everything is as before,
/// exactly where it wants a cell and none is left.
pub fn make(c: &mut Cells, n: i128) -> Result<Val, NumFault>
    ensures ok { IfOk result (λ v. IsMadeInteger c.old c.new n v) }
    ensures no_room { OnErr result (IsFull c.old n) }
    ensures fault { IfErr result (λ f. f ≡ fault.Full) }
    ensures err { OnErr result (c.new ≡ c.old) }
    ensures integer { IfOk result (λ v. IsTrue (is_integer_value c.new.cells v)) }
    ensures value { IfOk result (λ v. integer_of c.new.cells v ≡ n) }
    ensures live { IfOk result (λ v. IsTrue (is_live c.new.cells v)) }
{
    if n >= SMALLEST && n <= LARGEST {
        return Ok(Val::small(n as i64));
    }
    match c.big(n) {
        Ok(v) => Ok(v),
        Err(Full) => Err(NumFault::Full),
    }
}

/// Writes the decimal text of an integer, with `-` where it is negative, at the front of `buf`, and leaves the bytes behind
/// it. The answer is its length.
pub fn decimal(c: &Cells, a: Val, buf: &mut [u8; 40]) -> usize
    requires { IsTrue (is_integer_value c.now.cells a) }
    ensures text { take result buf.new ≡ signed_decimal (integer_of c.now.cells a) }
    ensures fits { result ≤ 40 }
    ensures rest { (i : ℕ) → result ≤ i → slice_index buf.new i ≡ slice_index buf.old i }
{
    let mut buffer = Buffer::new();
    let text = buffer.format(value(c, a)).as_bytes();
    buf[..text.len()].copy_from_slice(text);
    text.len()
}
