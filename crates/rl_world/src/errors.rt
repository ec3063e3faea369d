//! The texts of system errors, as strings that opening makes.
ghost use Rattle.std.specs.Prelude.{◌≡◌, ◌+◌, ◌*◌, ◌<◌, ◌≤◌, ◌++◌, [], length, slice_index_or, IsTrue};
ghost use Rattle.rl_tags.specs.Tagged.{StrAt};
ghost use Rattle.rl_cells.specs.Cell.{StrCell, bytes_of, is_str, placed};
ghost use Rattle.rl_syms.specs.Frame.{KeepsIdentifiers};
ghost use Rattle.rl_syms.specs.Made.{IsOpening};
ghost use Rattle.rl_tree.specs.ErrorTexts.{error_texts};
ghost use Rattle.rl_world.specs.Errors.{AddsTexts, AreTexts};
ghost use Rattle.rl_world.specs.OpeningCells.{strings_named, with_strings};

use rl_cells::Cells;
use rl_cells::laws::objects_are_added;
use rl_syms::laws::others_leave_identifiers;
use rl_tags::Val;

/// How many system errors there are, from number 10 on.
pub(crate) const ERRORS: usize = 14;

/// The text of the error of this number less 10.
#[tactic(auto, unfolding(rl_tree::specs::ErrorTexts::error_texts))]
fn text_bytes(i: usize) -> &'static [u8]
    requires { i < 14 }
    ensures { result.now ≡ slice_index_or error_texts i [] }
{
    match i {
        0 => b"is unbound",
        1 => b"is not defined",
        2 => b"has a wrong number of arguments",
        3 => b"is of a wrong type",
        4 => b"is out of range",
        5 => b"overflows",
        6 => b"has a zero divisor",
        7 => b"is misplaced",
        8 => b"is badly formed",
        9 => b"may not be bound or set",
        10 => b"is a system name",
        11 => b"cannot be written",
        12 => b"cannot be loaded",
        _ => b"is the byte where the text is unreadable",
    }
}

/// The strings of all texts, one after another, in cells that opening has just begun to take.
pub(crate) fn make_texts(c: &mut Cells) -> [Val; ERRORS]
    requires opening { IsOpening c.old c.old.bound }
    requires long { length c.old.cells ≤ 2115 }
    ensures texts { AreTexts c.new.cells result 14 }
    ensures keeps { KeepsIdentifiers c.old.cells c.new.cells }
    ensures strings { AddsTexts c.old.cells c.new.cells }
    ensures made { c.new.cells ≡ with_strings error_texts c.old.cells }
    ensures named { result ≡ strings_named error_texts c.old.cells }
    ensures long { length c.new.cells ≡ length c.old.cells + 35 }
    ensures opening { IsOpening c.new c.old.bound }
{
    objects_are_added();
    let mut texts = [Val::small(0); ERRORS];
    for i in 0..ERRORS {
        texts[i] = make_text(c, i);
    }
    texts
}

/// The string of one text.
#[tactic(auto, unfolding(rl_tree::specs::ErrorTexts::error_texts))]
fn make_text(c: &mut Cells, i: usize) -> Val
    requires error { i < 14 }
    requires opening { IsOpening c.old c.old.bound }
    requires long { length c.old.cells ≤ 2115 + 4 * i }
    ensures string { IsTrue (is_str c.new.cells result) }
    ensures text { bytes_of c.new.cells result ≡ slice_index_or error_texts i [] }
    ensures keeps { KeepsIdentifiers c.old.cells c.new.cells }
    ensures strings { AddsTexts c.old.cells c.new.cells }
    ensures made { c.new.cells ≡ c.old.cells ++ placed (StrCell (slice_index_or error_texts i [])) }
    ensures named { result ≡ StrAt (length c.old.cells) }
    ensures opening { IsOpening c.new c.old.bound }
    ensures long { length c.new.cells ≤ 2115 + 4 * (i + 1) }
{
    objects_are_added();
    others_leave_identifiers();
    c.string(text_bytes(i)).unwrap()
}
