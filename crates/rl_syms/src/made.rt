//! A new identifier: its name as a string, and its block of six words.
ghost use Rattle.std.specs.Prelude.{◌≡◌, ◌≤◌, ◌+◌, IsTrue, length, IfOk, OnErr, is_ok};
ghost use Rattle.std.specs.Option.{ForSome};
ghost use Rattle.rl_tags.specs.Tagged.{IdAt};
ghost use Rattle.rl_tags.specs.declared.Tag.TheVariants as tag;
ghost use Rattle.rl_cells.specs.Cell.{BlockCell, grown, has_room, is_live};
ghost use Rattle.rl_syms.specs.Table.{held_in, nil_value};
ghost use Rattle.rl_syms.specs.Made.{id_cost, new_id, new_words, option_word, with_id};

use rl_cells::{Cells, Full};
use rl_tags::{NIL, Tag, Val};

/// A word that holds no value.
pub(crate) const NOTHING: u64 = 15;

/// The identifier NIL, which opening makes first.
pub(crate) fn nil() -> Val
    ensures { result ≡ nil_value }
{
    NIL
}

/// The word of a value, or one that holds nothing.
pub(crate) fn word_for(v: Option<Val>) -> u64
    ensures word { result ≡ option_word v }
    ensures back { held_in result ≡ v }
{
    match v {
        Some(x) => x.word(),
        None => NOTHING,
    }
}

/// The block of a new identifier, which has no value and no definition and is plain.
fn block(c: &mut Cells, text: Val, plist: Val, next: Option<Val>) -> Result<Val, Full>
    requires text_live { IsTrue (is_live c.old.cells text) }
    requires plist_live { IsTrue (is_live c.old.cells plist) }
    requires next_live { ForSome next (λ v. IsTrue (is_live c.old.cells v)) }
    ensures full { is_ok result ≡ has_room c.old 3 }
    ensures names { IfOk result (λ v. v ≡ IdAt (length c.old.cells)) }
    ensures ok { IfOk result (λ _. c.new ≡ grown c.old (BlockCell tag.Id (new_words text plist next))) }
    ensures err { OnErr result (c.new ≡ c.old) }
{
    rl_cells::laws::objects_are_added();
    let id = c.block(Tag::Id, 6)?;
    c.set_word(id, 0, text.word());
    c.set_word(id, 1, NOTHING);
    c.set_word(id, 2, plist.word());
    c.set_word(id, 3, NOTHING);
    c.set_word(id, 5, word_for(next));
    Ok(id)
}

/// A new identifier that is on no chain yet: its name of 1 to 255 bytes, its property list, and what it is chained to.
pub(crate) fn identifier(
    c: &mut Cells,
    name: &[u8],
    plist: Val,
    next: Option<Val>,
) -> Result<Val, Full>
    requires short { length name.now ≤ 255 }
    requires plist_live { IsTrue (is_live c.old.cells plist) }
    requires next_live { ForSome next (λ v. IsTrue (is_live c.old.cells v)) }
    ensures full { is_ok result ≡ has_room c.old (id_cost name.now) }
    ensures names { IfOk result (λ v. v ≡ new_id c.old name.now) }
    ensures ok { IfOk result (λ _. c.new ≡ with_id c.old name.now plist next) }
    ensures err { OnErr result (c.new ≡ c.old) }
{
    let cost = 4 + (name.len() as u32 + 15) / 16;
    if !c.fits(cost) {
        return Err(Full);
    }
    rl_cells::laws::objects_are_added();
    let text = c.string(name)?;
    block(c, text, plist, next)
}
