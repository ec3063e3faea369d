//! Laws of the table, and of what cells mean. A law is the contract of a function that does nothing.
ghost use Rattle.rl_syms.specs.Functions.{FunctionsStand};
ghost use Rattle.rl_syms.specs.Numbers.{FunctionsAreNumbered, IdentifiersAreNumbered, NamesAreNumbered, ObjectsAreNumbered};
ghost use Rattle.rl_syms.specs.Readings.{MeantByAnyReading, NamingMeans};
ghost use Rattle.rl_syms.specs.Laws.{AreIdentifiers, ChangesMeaning, IsDistinct, IsKept, MakesMeaning, IsRead, KeepNames, LeaveIdentifiers, NamesEnter, ReleaseKeepsTable};

use rl_cells::laws::{objects_are_added, objects_are_changed};

/// What makes or changes other objects alone keeps the table, its names and no others, and what its identifiers have.
pub fn table_is_kept()
    ensures { IsKept }
{}

/// Pairs, vectors, strings, wide integers and held functions leave identifiers as they were, where they are made and where
/// they are changed; so the law above speaks of each of these calls of the cells.
pub fn others_leave_identifiers()
    ensures { LeaveIdentifiers }
{
    objects_are_added();
    objects_are_changed();
}

/// What makes or changes another object leaves held functions: each has the words that it had, at its place, and none begins
/// elsewhere; so it lives, and means what it meant. A new function, and a new word of one, leave all others.
pub fn functions_stand()
    ensures { FunctionsStand }
{
    objects_are_added();
}

/// The table stays as what was made past a place is released, where its chain begins before the place, NIL stands before it,
/// and what stands before it names nothing behind it.
pub fn release_keeps_table()
    ensures { ReleaseKeepsTable }
{}

/// Identifiers keep their names as objects are added.
pub fn names_stay()
    ensures { KeepNames }
{}

/// A new identifier before the others, with a name of 1 to 255 bytes that none of them has, gives the table that name:
/// names that were interned stay so, and so does all that stood.
pub fn names_enter()
    ensures { NamesEnter }
{
    objects_are_added();
}

/// What has a name is an identifier.
pub fn names_are_identifiers()
    ensures { AreIdentifiers }
{}

/// Equal names are one interned identifier.
pub fn names_are_distinct()
    ensures { IsDistinct }
{}

/// A new pair or vector of cells is what CONS or MKVECT makes of the store that they mean, a new string, wide
/// integer or block leaves it, and what lives means what it meant.
pub fn meaning_of_making()
    ensures { MakesMeaning }
{}

/// A change of a pair or a vector is RPLACA, RPLACD or PUTV on the store that cells mean, a change of a block leaves it,
/// and every value means what it meant.
pub fn meaning_of_change()
    ensures { ChangesMeaning }
{}

/// A pair or a vector of cells refers to the object of its number in the store that they mean: the pair of what its car
/// and cdr mean, or the vector of what its values mean.
pub fn meaning_of_reading()
    ensures { IsRead }
{}

/// What making and changing objects does to the store, for any reading of the values in them.
pub fn meaning_by_any_reading()
    ensures { MeantByAnyReading }
{}

/// Identifiers are numbered by their making: the number of the one at a place is that of those before it, so numbers grow
/// with places, each below their count is that of one identifier, and what is added leaves them.
pub fn identifiers_are_numbered()
    ensures { IdentifiersAreNumbered }
{}

/// Held functions are numbered by their making likewise.
pub fn functions_are_numbered()
    ensures { FunctionsAreNumbered }
{}

/// Pairs and vectors are numbered by their making likewise, both together: so equal references are one object.
pub fn objects_are_numbered()
    ensures { ObjectsAreNumbered }
{}

/// An identifier has the name of its number.
pub fn names_are_numbered()
    ensures { NamesAreNumbered }
{}

/// A new identifier has the next number. It is blank, and all else means what it meant.
pub fn meaning_of_naming()
    ensures { NamingMeans }
{
    objects_are_added();
}
