//! Tagged words and the identifiers of opening.
ghost use Rattle.std.specs.Prelude.{◌≡◌, ◌↔◌, IsTrue};

use rl_tags::{
    CADDR, CDDDDR, COND, CONS, DOLLAR_B, EMSG_STAR, EVAL, GENSYM, LINELENGTH, NIL, OPENING_NAMES,
    PUTV, QUOTE, T, Tag, Val, native_of, opening_id, opening_name,
};

/// Values are equal exactly where they are the same integer, or the same place under the same tag.
fn are_same(a: Val, b: Val) -> bool
    ensures { IsTrue result ↔ (a ≡ b) }
{
    a == b
}

#[test]
fn integers_round_trip(rt: HostRuntime) {
    let least = Val::small(-576460752303423488);
    let greatest = Val::small(576460752303423487);
    assert_eq!(rt; least.word(), 0x8000_0000_0000_0000);
    assert_eq!(rt; greatest.word(), 0x7fff_ffff_ffff_fff0);
    assert_eq!(rt; Val::read(least.word()), Some(least));
    assert_eq!(rt; Val::read(greatest.word()), Some(greatest));
    assert_eq!(rt; least.number(), -576460752303423488);
    assert_eq!(rt; greatest.number(), 576460752303423487);
    assert_eq!(rt; Val::small(-1).word(), 0xffff_ffff_ffff_fff0);
    assert!(rt; !are_same(least, greatest));
}

#[test]
fn places_round_trip(rt: HostRuntime) {
    let first = Val::at(Tag::Id, 0);
    let last = Val::at(Tag::Fun, 1152921504606846975);
    assert_eq!(rt; first.word(), 1);
    assert_eq!(rt; last.word(), 0xffff_ffff_ffff_fff6);
    assert_eq!(rt; Val::read(first.word()), Some(first));
    assert_eq!(rt; Val::read(last.word()), Some(last));
    assert_eq!(rt; last.index(), 1152921504606846975);
    assert_eq!(rt; last.tag(), Tag::Fun);
}

#[test]
fn read_refuses_unused_tags(rt: HostRuntime) {
    let rows = [(7, None), (15, None), (16, Some(Val::small(1)))];
    for (word, value) in rows {
        assert_eq!(rt; Val::read(word), value);
    }
}

/// Whether opening makes this identifier, with this name, at this place.
fn is_opening(place: usize, id: Val, name: &[u8]) -> bool {
    place < OPENING_NAMES && opening_id(place) == id && opening_name(place) == name
}

#[test]
fn identifiers_of_opening_have_fixed_places(rt: HostRuntime) {
    let rows = [
        (0, NIL, b"NIL".as_slice()),
        (1, T, b"T"),
        (2, QUOTE, b"QUOTE"),
        (3, EMSG_STAR, b"EMSG*"),
        (166, DOLLAR_B, b"$B"),
    ];
    for (place, id, name) in rows {
        assert!(rt; is_opening(place, id, name));
    }
    assert_eq!(rt; NIL, Val::at(Tag::Id, 2));
    assert_eq!(rt; OPENING_NAMES, 167);
    assert_eq!(rt; DOLLAR_B.index(), 832);
}

#[test]
fn natives_have_their_numbers_of_arguments(rt: HostRuntime) {
    let rows = [
        (GENSYM, Some(0)),
        (CADDR, Some(1)),
        (CDDDDR, Some(1)),
        (CONS, Some(2)),
        (PUTV, Some(3)),
        (LINELENGTH, Some(1)),
        (COND, None),
        (EVAL, None),
        (Val::at(Tag::Pair, CONS.index()), None),
        (Val::at(Tag::Id, CONS.index() + 1), None),
        (Val::at(Tag::Id, 1152921504606846972), None),
        (Val::small(3), None),
    ];
    for (id, arguments) in rows {
        assert_eq!(rt; native_of(id), arguments);
    }
}

#[test]
fn nodes_of_functions_round_trip(rt: HostRuntime) {
    let holder = Val::at(Tag::Fun, 4294967295);
    let last = Val::part(holder, 268435454);
    assert_eq!(rt; last.tag(), Tag::Fun);
    assert_eq!(rt; last.index(), 1152921504606846975);
    assert_eq!(rt; last.part_of(), Some((holder, 268435454)));
    assert_eq!(rt; Val::part(Val::at(Tag::Fun, 7), 0).index(), 4294967303);
    assert_eq!(rt;
        Val::at(Tag::Fun, 4294967296).part_of(),
        Some((Val::at(Tag::Fun, 0), 0))
    );
    assert_eq!(rt; holder.part_of(), None);
    assert_eq!(rt; Val::at(Tag::Pair, 4294967303).part_of(), None);
}
