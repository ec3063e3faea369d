//! Laws of Lisp text. A law is the contract of a function that does nothing.
ghost use Rattle.rl_text.specs.Keeping.{KeptAlongText, MakerKeeps, nothing_kept};
ghost use Rattle.rl_text.specs.Makers.{EndRelated, MakerRelations, unrelated};
ghost use Rattle.rl_text.specs.Laws.{FindsNone, FindsSpelled, PrintsData, RefusesFirst, SpellsOnce};

use std::marker::Brand;

/// A datum is found exactly where the bytes begin with a spelling of it, and what is left is what follows that spelling.
pub fn what_is_found_is_spelled()
    ensures { FindsSpelled }
{}

/// Bytes begin with a spelling of one datum, and it takes so many of them; or with none.
pub fn text_spells_once()
    ensures { SpellsOnce }
{}

/// Nothing is found exactly where nothing but blanks and comments is there.
pub fn blank_text_has_none()
    ensures { FindsNone }
{}

/// Bytes are unreadable exactly at the first of them with which no spelling goes on, or at their end inside a spelling.
pub fn unreadable_at_first_byte()
    ensures { RefusesFirst }
{}

/// Where a value in a store is a datum, what is printed of it is the text of that datum where printing ends whole, and a
/// front of that text where a turn or a level is wanting.
pub fn printing_is_of_data()
    ensures { PrintsData }
{}

/// What relates two makers, under names that grow: a caller picks it. It may rest on a number, or whatever else `Given` is.
pub trait RelatedMakers {
    ghost Given: { Type 0 };

    ghost Names: { Type 0 };

    ghost FirstState: { Type 0 };

    ghost FirstValue: { Type 0 };

    ghost FirstList: { Type 0 };

    ghost FirstWant: { Type 0 };

    ghost SecondState: { Type 0 };

    ghost SecondValue: { Type 0 };

    ghost SecondList: { Type 0 };

    ghost SecondWant: { Type 0 };

    ghost relations: { Self.Given → MakerRelations Self.Names Self.FirstState Self.FirstValue Self.FirstList Self.FirstWant Self.SecondState Self.SecondValue Self.SecondList Self.SecondWant };
}

impl RelatedMakers for Brand {
    ghost Given = { Unit {0} };

    ghost Names = { Unit {0} };

    ghost FirstState = { Unit {0} };

    ghost FirstValue = { Unit {0} };

    ghost FirstList = { Unit {0} };

    ghost FirstWant = { Unit {0} };

    ghost SecondState = { Unit {0} };

    ghost SecondValue = { Unit {0} };

    ghost SecondList = { Unit {0} };

    ghost SecondWant = { Unit {0} };

    ghost relations = { λ _. unrelated };
}

/// Two makers whose operations keep relations of their states, values and lists, under names to which each may add, end a
/// text at the same byte, in states and with values that are related under grown names; and so does each byte on the way.
pub fn related_makers_end_related<M: RelatedMakers>()
    ensures { (given : M.Given) → EndRelated (M.relations given) }
{}

/// What a maker keeps: a caller picks it. It may rest on a number, or whatever else `Given` is.
pub trait KeptMaking {
    ghost Given: { Type 0 };

    ghost State: { Type 0 };

    ghost Value: { Type 0 };

    ghost List: { Type 0 };

    ghost Want: { Type 0 };

    ghost keeps: { Self.Given → MakerKeeps Self.State Self.Value Self.List Self.Want };
}

impl KeptMaking for Brand {
    ghost Given = { Unit {0} };

    ghost State = { Unit {0} };

    ghost Value = { Unit {0} };

    ghost List = { Unit {0} };

    ghost Want = { Unit {0} };

    ghost keeps = { λ _. nothing_kept };
}

/// What each operation of a maker keeps of states, values and lists stands behind a text, behind each byte of it, and where
/// something is wanting.
pub fn what_a_maker_keeps_stands<K: KeptMaking>()
    ensures { (given : K.Given) → KeptAlongText (K.keeps given) }
{}
