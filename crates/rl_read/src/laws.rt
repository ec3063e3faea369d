//! Laws of reading in a world. A law is the contract of a function that does nothing.
ghost use Rattle.rl_read.specs.ReadingKeepsCells.{ReadingKeepsCells};
ghost use Rattle.rl_read.specs.Laws.{AreMakingLaws, MeansDatum, NamesAreFound, OpenedWorldsMake, PairsAreData, ReadsData, ReadsText};

use rl_cells::laws::{objects_are_added, objects_are_changed};
use rl_syms::laws::{
    identifiers_are_numbered, meaning_of_reading, names_are_identifiers, names_are_numbered,
    names_enter, others_leave_identifiers, table_is_kept,
};
use rl_text::laws::{
    blank_text_has_none, related_makers_end_related, unreadable_at_first_byte,
    what_a_maker_keeps_stands, what_is_found_is_spelled,
};
use rl_world::laws::{bounds_are_kept, counts_are_taken, room_is_enough};
use std::marker::Brand;

/// What is read in a world is what Lisp text says: a form is read only where the bytes begin with a spelling, and what is
/// left follows it; none is found only where nothing but blanks and comments is there; and bytes are refused only at the
/// first of them with which no spelling goes on, or at their end inside a spelling.
pub fn reading_is_of_text()
    ensures { ReadsText }
{
    what_is_found_is_spelled();
    blank_text_has_none();
    unreadable_at_first_byte();
    related_makers_end_related::<Brand>();
}

/// A value in cells that is a datum means that datum, in the store that the cells mean.
pub fn data_are_stored()
    ensures { MeansDatum }
{
    meaning_of_reading();
    identifiers_are_numbered();
    names_are_numbered();
}

/// A new pair of data is the pair of them and leaves all other data, and the parts of a pair that is a datum are the parts
/// of that datum.
pub fn pairs_are_data()
    ensures { PairsAreData }
{
    objects_are_added();
    table_is_kept();
    others_leave_identifiers();
}

/// A value that was read is the datum that the text spells: names stay a table, and what was a datum before is the same
/// datum.
pub fn what_is_read_is_the_datum()
    ensures { ReadsData }
{
    what_is_found_is_spelled();
    related_makers_end_related::<Brand>();
    objects_are_added();
    objects_are_changed();
    table_is_kept();
    others_leave_identifiers();
    names_enter();
    names_are_identifiers();
}

/// After `World::open` and `World::opened` the world is one in which what is made counts, as `read_form` asks.
pub fn opened_worlds_make()
    ensures { OpenedWorldsMake }
{
    bounds_are_kept();
}

/// What making rests on: names stay a table, the bounds of counts and of cells agree, and where there is room the cells have it.
pub(crate) fn making_is_kept()
    ensures { AreMakingLaws }
{
    table_is_kept();
    others_leave_identifiers();
    bounds_are_kept();
    room_is_enough();
}

/// Reading leaves the cells that stood as they were, and of the counts takes turns and cells alone: however the text ends, also
/// where it is refused or reading stops, and behind each byte of it.
pub fn reading_keeps_cells()
    ensures { ReadingKeepsCells }
{
    counts_are_taken();
    what_a_maker_keeps_stands::<Brand>();
}

/// The name that reading looks for among identifiers is found where one has it, and only there.
pub fn names_are_found()
    ensures { NamesAreFound }
{}
