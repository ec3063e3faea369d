//! Quoted spellings: where one ends.

ghost use Rattle.std.specs.Prelude.{◌≡◌, ◌<◌, ◌≤◌, ◌+◌, ◌^◌, List, length, slice_index, true, Some, None, if◌then◌else◌};
ghost use Rattle.rl_text.specs.Byte.{class_of};
ghost use Rattle.rl_text.specs.Byte as byte;
ghost use Rattle.rl_text.specs.Reader.{ReaderFrame, at_mark};
ghost use Rattle.rl_text.specs.Reading.{Items, plain};
ghost use Rattle.rl_text.specs.ByteClass.{mark_of};
ghost use Rattle.rl_lex.specs.Parts.{ArePartsOf, IsBehind, IsMoved, IsMovedByMark, IsQuotedScan, IsWordScan, is_opening, is_word_class, opening_mark, parts_admit, parts_behind};

use crate::atom::{Scan, digits_end, name_end, text_end};
use crate::gap::comment_end;
use crate::nest::{Nest, Part};
use rl_text::bytes::{Class, Mark, class_of};

/// A byte or a word in a quoted spelling: the spelling goes on behind it, has ended, or does not go on with the byte at
/// this place.
#[derive(Clone, Copy)]
pub(crate) enum Moved {
    Goes(usize),
    Ends(usize),
    Bad(usize),
}

/// Whether a spelling may stand here.
fn admits(nest: &mut Nest) -> bool
    requires { length nest.old ≤ 1048577 }
    ensures admits { result ≡ parts_admit nest.old }
    ensures same { result ≡ true → nest.new ≡ nest.old }
    ensures fewer { length nest.new ≤ length nest.old }
{
    if let Some(part) = nest.pop() {
        if let Part::Shut = part {
            return false;
        }
        nest.push(part);
    }
    true
}

/// An element ends; whether all has ended with it.
fn has_ended(nest: &mut Nest) -> bool
    requires { length nest.old ≤ 1048577 }
    ensures behind { parts_behind nest.old ≡ (if result then None else Some nest.new) }
    ensures fewer { length nest.new ≤ length nest.old }
{
    while let Some(part) = nest.pop() {
        match part {
            Part::Quote => {}
            Part::Vector => {
                nest.push(Part::Vector);
                return false;
            }
            Part::Dotted => {
                nest.push(Part::Shut);
                return false;
            }
            _ => {
                nest.push(Part::Going);
                return false;
            }
        }
    }
    true
}

/// An element ends before `to`.
fn behind(nest: &mut Nest, to: usize) -> Moved
    requires { length nest.old ≤ 1048577 }
    ensures behind { IsBehind nest.old nest.new to result }
    ensures fewer { length nest.new ≤ length nest.old }
{
    if has_ended(nest) {
        Moved::Ends(to)
    } else {
        Moved::Goes(to)
    }
}

/// `(`, `[` or `'` at `at`.
fn opens(nest: &mut Nest, at: usize, part: Part) -> Moved
    requires small { length nest.old < 1048577 }
    requires fits { at < 2 ^ 63 }
    requires opening { is_opening part ≡ true }
    ensures moved { (fs : List (ReaderFrame Items)) → ArePartsOf nest.old fs → IsMovedByMark at nest.new result (at_mark plain (opening_mark part) fs tt) }
    ensures one { length nest.new ≤ length nest.old + 1 }
{
    if !admits(nest) {
        return Moved::Bad(at);
    }
    nest.push(part);
    Moved::Goes(at + 1)
}

/// `.` at `at`.
fn dots(nest: &mut Nest, at: usize) -> Moved
    requires small { length nest.old ≤ 1048577 }
    requires fits { at < 2 ^ 63 }
    ensures moved { (fs : List (ReaderFrame Items)) → ArePartsOf nest.old fs → IsMovedByMark at nest.new result (at_mark plain byte.Dot fs tt) }
    ensures one { length nest.new ≤ length nest.old + 1 }
{
    match nest.pop() {
        Some(Part::Going) => {
            nest.push(Part::Dotted);
            Moved::Goes(at + 1)
        }
        _ => Moved::Bad(at),
    }
}

/// `)` at `at`.
fn closes_list(nest: &mut Nest, at: usize) -> Moved
    requires small { length nest.old ≤ 1048577 }
    requires fits { at < 2 ^ 63 }
    ensures moved { (fs : List (ReaderFrame Items)) → ArePartsOf nest.old fs → IsMovedByMark at nest.new result (at_mark plain byte.Close fs tt) }
    ensures one { length nest.new ≤ length nest.old + 1 }
{
    match nest.pop() {
        Some(Part::Begun) => behind(nest, at + 1),
        Some(Part::Going) => behind(nest, at + 1),
        Some(Part::Shut) => behind(nest, at + 1),
        _ => Moved::Bad(at),
    }
}

/// `]` at `at`.
fn closes_vector(nest: &mut Nest, at: usize) -> Moved
    requires small { length nest.old ≤ 1048577 }
    requires fits { at < 2 ^ 63 }
    ensures moved { (fs : List (ReaderFrame Items)) → ArePartsOf nest.old fs → IsMovedByMark at nest.new result (at_mark plain byte.CloseVector fs tt) }
    ensures one { length nest.new ≤ length nest.old + 1 }
{
    match nest.pop() {
        Some(Part::Vector) => behind(nest, at + 1),
        _ => Moved::Bad(at),
    }
}

/// A mark at `at`.
fn at_mark(nest: &mut Nest, at: usize, mark: Mark) -> Moved
    requires small { length nest.old < 1048577 }
    requires fits { at < 2 ^ 63 }
    ensures moved { (fs : List (ReaderFrame Items)) → ArePartsOf nest.old fs → IsMovedByMark at nest.new result (at_mark plain (mark_of mark) fs tt) }
    ensures one { length nest.new ≤ length nest.old + 1 }
{
    match mark {
        Mark::Open => opens(nest, at, Part::Begun),
        Mark::OpenVector => opens(nest, at, Part::Vector),
        Mark::Quote => opens(nest, at, Part::Quote),
        Mark::Close => closes_list(nest, at),
        Mark::CloseVector => closes_vector(nest, at),
        Mark::Dot => dots(nest, at),
    }
}

/// Where the integer or the identifier of one byte ends that begins with `+` or `-` at `at`.
fn signed_end(bytes: &[u8], at: usize) -> Scan
    requires here { at < length bytes.now }
    requires begins { class_of (slice_index bytes.now at) ≡ byte.Sign }
    ensures { IsWordScan bytes.now at result }
{
    let next = at + 1;
    if next < bytes.len() && bytes[next].is_ascii_digit() {
        digits_end(bytes, next, bytes[at] == b'-')
    } else {
        Scan::Ends(next)
    }
}

/// A word at `at`, which ends so.
fn word_moves(bytes: &[u8], at: usize, nest: &mut Nest, scan: Scan) -> Moved
    requires here { at < length bytes.now }
    requires small { length nest.old ≤ 1048577 }
    requires begins { is_word_class (class_of (slice_index bytes.now at)) ≡ true }
    requires scan { IsWordScan bytes.now at scan }
    ensures moved { (fs : List (ReaderFrame Items)) → ArePartsOf nest.old fs → IsMoved bytes.now at nest.new fs result }
    ensures one { length nest.new ≤ length nest.old + 1 }
{
    if !admits(nest) {
        return Moved::Bad(at);
    }
    match scan {
        Scan::Ends(to) => behind(nest, to),
        Scan::Bad(k) => Moved::Bad(k),
    }
}

/// What stands at `at`.
fn element(bytes: &[u8], at: usize, nest: &mut Nest) -> Moved
    requires here { at < length bytes.now }
    requires small { length nest.old < 1048577 }
    ensures moved { (fs : List (ReaderFrame Items)) → ArePartsOf nest.old fs → IsMoved bytes.now at nest.new fs result }
    ensures one { length nest.new ≤ length nest.old + 1 }
{
    match class_of(bytes[at]) {
        Class::Blank => Moved::Goes(at + 1),
        Class::Percent => Moved::Goes(comment_end(bytes, at + 1)),
        Class::Marks(mark) => at_mark(nest, at, mark),
        Class::Letter | Class::Escape => word_moves(bytes, at, nest, name_end(bytes, at)),
        Class::Text => word_moves(bytes, at, nest, text_end(bytes, at)),
        Class::Digit => word_moves(bytes, at, nest, digits_end(bytes, at, false)),
        Class::Sign => word_moves(bytes, at, nest, signed_end(bytes, at)),
        Class::Special => word_moves(bytes, at, nest, Scan::Ends(at + 1)),
        Class::Nothing => Moved::Bad(at),
    }
}

/// Where the spelling ends before which a `'` stands at `at`.
pub(crate) fn quoted_end(bytes: &[u8], at: usize, nest: &mut Nest) -> Scan
    requires here { at < length bytes.now }
    requires short { length bytes.now ≤ 1048577 }
    ensures { IsQuotedScan bytes.now at result }
{
    nest.clear();
    nest.push(Part::Quote);
    let mut i = at + 1;
    while i < bytes.len() {
        match element(bytes, i, nest) {
            Moved::Goes(to) => i = to,
            Moved::Ends(to) => return Scan::Ends(to),
            Moved::Bad(k) => return Scan::Bad(k),
        }
    }
    Scan::Bad(i)
}
