//! The text of an atom, byte by byte.
ghost use Rattle.std.specs.Prelude.{◌≡◌, ℕ, ◌+◌, ◌<◌, ◌^◌, ◌==◌, false, List, [], ◌∷◌, ◌++◌, slice_get, None, Some, IsTrue, OnSome, MatchOption, codes};
ghost use Rattle.std.specs.Fmt.{signed_decimal};
ghost use Rattle.rl_cells.specs.Cell.{Cell, bytes_of, is_str};
ghost use Rattle.rl_num.specs.Number.{integer_of, is_integer_value};
ghost use Rattle.rl_syms.specs.Contents.{value_of};
ghost use Rattle.rl_syms.specs.Numbers.{numbered_name};
ghost use Rattle.rl_syms.specs.Table.{IsTable};
ghost use Rattle.rl_tree.specs.Atoms.{atom_text, doubled, escaped, is_bare};
ghost use Rattle.rl_print.specs.AtomText.{is_atom, pending_text, plain_text, quoted_from, style_of, text_left};

use rl_cells::Cells;
use rl_num::decimal;
use rl_syms::laws::names_are_numbered;
use rl_tags::{Tag, Val};
use rl_world::World;

/// How atoms are written: by PRIN1 so that they are read as themselves, by PRIN2 as their bytes.
#[derive(Clone, Copy, Debug, PartialEq, Eq)]
pub enum Style {
    Prin1,
    Prin2,
}

/// What is still to be given of the text of an atom.
#[derive(Clone, Copy)]
pub struct AtomText {
    pub atom: Val,
    style: Style,
    /// How many bytes were given of the name, of the string, or else of the text; for a string also the quote that closes it.
    at: u64,
    /// What comes next: the quote that opens a string, the byte behind a `!`, or the second of two quotes.
    pending: Option<u8>,
}

impl AtomText {
    /// The text by PRIN1.
    pub fn of(a: Val) -> AtomText
        ensures text { (cells : List Cell) → text_left cells result ≡ atom_text (style_of Style.Prin1) (numbered_name cells) (value_of cells a) }
        ensures atom { result.atom ≡ a }
    {
        AtomText::styled(a, Style::Prin1)
    }

    pub(crate) fn styled(a: Val, style: Style) -> AtomText
        ensures text { (cells : List Cell) → text_left cells result ≡ atom_text (style_of style) (numbered_name cells) (value_of cells a) }
        ensures atom { result.atom ≡ a }
    {
        let is_quoted = style == Style::Prin1 && a.tag() == Tag::Str;
        AtomText {
            atom: a,
            style,
            at: 0,
            pending: if is_quoted { Some(b'"') } else { None },
        }
    }

    /// The next byte of the text, None exactly at its end.
    pub fn next(&mut self, w: &World) -> Option<u8>
        requires table { IsTable w.now.cells.cells w.now.syms.head }
        requires atom { IsTrue (is_atom w.now.cells.cells self.old.atom) }
        ensures gives { let cells = w.now.cells.cells in MatchOption result (text_left cells self.old ≡ []) (λ b. text_left cells self.old ≡ b ∷ text_left cells self.new) }
        ensures atom { self.new.atom ≡ self.old.atom }
    {
        if let Some(b) = self.pending {
            self.pending = None;
            return Some(b);
        }
        match byte_at(w, self.atom, self.at) {
            Some(b) => Some(self.give(b)),
            None => self.close(w),
        }
    }

    /// Gives a byte of the atom, or what is written before it.
    fn give(&mut self, b: u8) -> u8
        requires none_pending { self.old.pending ≡ None }
        requires fits { self.old.at < 2 ^ 32 }
        ensures gives { (cells : List Cell) → slice_get (plain_text cells self.old.atom) self.old.at ≡ Some b → text_left cells self.old ≡ result ∷ text_left cells self.new }
        ensures atom { self.new.atom ≡ self.old.atom }
    {
        match (self.style, self.atom.tag()) {
            (Style::Prin1, Tag::Id) => self.give_escaped(b),
            (Style::Prin1, Tag::Str) => self.give_doubled(b),
            _ => {
                self.at += 1;
                b
            }
        }
    }

    /// A byte of a name, with `!` before it where it needs one.
    fn give_escaped(&mut self, b: u8) -> u8
        requires none_pending { self.old.pending ≡ None }
        requires fits { self.old.at < 2 ^ 32 }
        ensures gives { (bs : List ℕ) → escaped (self.old.at == 0) (b ∷ bs) ≡ result ∷ (pending_text self.new.pending ++ escaped false bs) }
        ensures moves { self.new ≡ record self.old { at = self.old.at + 1; pending = self.new.pending } }
    {
        let first = self.at == 0;
        self.at += 1;
        if bare(first, b) {
            return b;
        }
        self.pending = Some(b);
        b'!'
    }

    /// A byte of a string, a quote twice.
    fn give_doubled(&mut self, b: u8) -> u8
        requires none_pending { self.old.pending ≡ None }
        requires fits { self.old.at < 2 ^ 32 }
        ensures gives { (bs : List ℕ) → doubled (b ∷ bs) ≡ result ∷ (pending_text self.new.pending ++ doubled bs) }
        ensures moves { self.new ≡ record self.old { at = self.old.at + 1; pending = self.new.pending } }
    {
        self.at += 1;
        if b == b'"' {
            self.pending = Some(b);
        }
        b
    }

    /// The quote that closes a string by PRIN1; nothing where it was given, or where there is none.
    fn close(&mut self, w: &World) -> Option<u8>
        requires none_pending { self.old.pending ≡ None }
        requires atom { IsTrue (is_atom w.now.cells.cells self.old.atom) }
        requires ended { slice_get (plain_text w.now.cells.cells self.old.atom) self.old.at ≡ None }
        ensures gives { let cells = w.now.cells.cells in MatchOption result (text_left cells self.old ≡ []) (λ b. text_left cells self.old ≡ b ∷ text_left cells self.new) }
        ensures atom { self.new.atom ≡ self.old.atom }
    {
        match (self.style, self.atom.tag()) {
            (Style::Prin1, Tag::Str) => self.close_string(&w.cells),
            _ => None,
        }
    }

    fn close_string(&mut self, c: &Cells) -> Option<u8>
        requires string { IsTrue (is_str c.now.cells self.old.atom) }
        requires ended { slice_get (bytes_of c.now.cells self.old.atom) self.old.at ≡ None }
        ensures gives { let bytes = bytes_of c.now.cells self.old.atom in MatchOption result (quoted_from self.old.at bytes ≡ []) (λ b. quoted_from self.old.at bytes ≡ b ∷ quoted_from self.new.at bytes) }
        ensures moves { self.new ≡ record self.old { at = self.new.at } }
    {
        if self.at != u64::from(c.string_len(self.atom)) {
            return None;
        }
        self.at += 1;
        Some(b'"')
    }
}

/// The byte of an atom at a place, None behind its end.
fn byte_at(w: &World, a: Val, at: u64) -> Option<u8>
    requires table { IsTable w.now.cells.cells w.now.syms.head }
    requires atom { IsTrue (is_atom w.now.cells.cells a) }
    ensures byte { result ≡ slice_get (plain_text w.now.cells.cells a) at }
    ensures within { OnSome result (at < 2 ^ 32) }
{
    names_are_numbered();
    match a.tag() {
        Tag::Id => string_byte_at(&w.cells, w.syms.name(&w.cells, a), at),
        Tag::Str => string_byte_at(&w.cells, a, at),
        Tag::Fun => function_byte_at(at),
        _ => digit_at(&w.cells, a, at),
    }
}

fn string_byte_at(c: &Cells, s: Val, at: u64) -> Option<u8>
    requires { IsTrue (is_str c.now.cells s) }
    ensures byte { result ≡ slice_get (bytes_of c.now.cells s) at }
    ensures within { OnSome result (at < 2 ^ 32) }
{
    if at < u64::from(c.string_len(s)) {
        Some(c.string_byte(s, at as u32))
    } else {
        None
    }
}

/// The byte of a function pointer's text at a place.
fn function_byte_at(at: u64) -> Option<u8>
    ensures byte { result ≡ slice_get (codes "#[function]") at }
    ensures within { OnSome result (at < 2 ^ 32) }
{
    b"#[function]".get(at as usize).copied()
}

/// The byte of an integer's decimal text at a place.
fn digit_at(c: &Cells, a: Val, at: u64) -> Option<u8>
    requires { IsTrue (is_integer_value c.now.cells a) }
    ensures byte { result ≡ slice_get (signed_decimal (integer_of c.now.cells a)) at }
    ensures within { OnSome result (at < 2 ^ 32) }
{
    let mut buffer = [0; 40];
    let length = decimal(c, a, &mut buffer);
    buffer[..length].get(at as usize).copied()
}

/// Whether PRIN1 writes a byte of a name, the first or a later one, without `!`.
pub fn bare(first: bool, b: u8) -> bool
    ensures { result ≡ is_bare first b }
{
    b.is_ascii_uppercase() || !b.is_ascii() || !first && (b.is_ascii_digit() || b == b'_')
}
