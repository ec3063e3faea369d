//! Bytes and atoms on their way to the output.
ghost use Rattle.std.specs.Prelude.{◌≡◌, ◌+◌, ◌-◌, ◌^◌, ◌&&◌, ◌++◌, ℕ, [], fold, length, min, nat_lt, IsTrue, OnOk, OnErr};
ghost use Rattle.rl_syms.specs.Contents.{value_of};
ghost use Rattle.rl_syms.specs.Numbers.{numbered_name};
ghost use Rattle.rl_syms.specs.Table.{IsTable};
ghost use Rattle.rl_tree.specs.Atoms.{atom_text};
ghost use Rattle.rl_tree.specs.Printing.{column_with, with_atom};
ghost use Rattle.rl_world.specs.Waiting.{GoesOut, FrontGoesOut};
ghost use Rattle.rl_world.specs.Writing.{ChangesOutAlone, OnlyWriteFaults};
ghost use Rattle.rl_print.specs.AtomText.{is_atom, line_break, style_of, text_left};

use crate::atom::{AtomText, Style};
use rl_io::{Files, Io, Sink, Source};
use rl_tags::Val;
use rl_world::{Stop, World};

/// Prints bytes that never break the line.
pub(crate) fn put_bytes<I: Source, O: Sink, N: Sink, F: Files>(
    w: &mut World,
    bytes: &[u8],
    io: &mut Io<'_, I, O, N, F>,
) -> Result<(), Stop>
    ensures ok { OnOk result (GoesOut (O.contents io.old.out.now) w.old.output.waiting (O.contents io.new.out.now) w.new.output.waiting bytes.now) }
    ensures column { OnOk result (w.new.output.column ≡ fold column_with w.old.output.column bytes.now) }
    ensures front { OnErr result (FrontGoesOut (O.contents io.old.out.now) (O.contents io.new.out.now) (w.old.output.waiting ++ bytes.now)) }
    ensures faults { OnlyWriteFaults result (O.faults io.old.out.now) (O.faults io.new.out.now) w.new.output.waiting }
    ensures outside { ChangesOutAlone w.old w.new io.old io.new }
{
    for i in 0..bytes.len() {
        let b = bytes[i];
        if let Err(s) = w.put_byte(b, io) {
            return Err(s);
        }
    }
    Ok(())
}

/// Prints an atom, on a new line where this one would grow too long.
pub(crate) fn put_atom<I: Source, O: Sink, N: Sink, F: Files>(
    w: &mut World,
    a: Val,
    style: Style,
    io: &mut Io<'_, I, O, N, F>,
) -> Result<(), Stop>
    requires table { IsTable w.old.cells.cells w.old.syms.head }
    requires atom { IsTrue (is_atom w.old.cells.cells a) }
    ensures ok { OnOk result (GoesOut (O.contents io.old.out.now) w.old.output.waiting (O.contents io.new.out.now) w.new.output.waiting (with_atom w.old.output.line_length (record { text = []; column = w.old.output.column }) (atom_text (style_of style) (numbered_name w.old.cells.cells) (value_of w.old.cells.cells a))).text) }
    ensures column { OnOk result (w.new.output.column ≡ (with_atom w.old.output.line_length (record { text = []; column = w.old.output.column }) (atom_text (style_of style) (numbered_name w.old.cells.cells) (value_of w.old.cells.cells a))).column) }
    ensures front { OnErr result (FrontGoesOut (O.contents io.old.out.now) (O.contents io.new.out.now) (w.old.output.waiting ++ (with_atom w.old.output.line_length (record { text = []; column = w.old.output.column }) (atom_text (style_of style) (numbered_name w.old.cells.cells) (value_of w.old.cells.cells a))).text)) }
    ensures faults { OnlyWriteFaults result (O.faults io.old.out.now) (O.faults io.new.out.now) w.new.output.waiting }
    ensures outside { ChangesOutAlone w.old w.new io.old io.new }
{
    let long = text_length(w, AtomText::styled(a, style));
    let broken = breaks(w, long);
    if let Err(s) = put_break(w, broken, io) {
        return Err(s);
    }
    match put_text(w, AtomText::styled(a, style), io) {
        Ok(()) => Ok(()),
        Err(s) => Err(s),
    }
}

/// Begins a new line, where one is asked for.
fn put_break<I: Source, O: Sink, N: Sink, F: Files>(
    w: &mut World,
    broken: bool,
    io: &mut Io<'_, I, O, N, F>,
) -> Result<(), Stop>
    ensures ok { OnOk result (GoesOut (O.contents io.old.out.now) w.old.output.waiting (O.contents io.new.out.now) w.new.output.waiting (line_break broken)) }
    ensures column { OnOk result (w.new.output.column ≡ fold column_with w.old.output.column (line_break broken)) }
    ensures front { OnErr result (FrontGoesOut (O.contents io.old.out.now) (O.contents io.new.out.now) (w.old.output.waiting ++ line_break broken)) }
    ensures faults { OnlyWriteFaults result (O.faults io.old.out.now) (O.faults io.new.out.now) w.new.output.waiting }
    ensures outside { ChangesOutAlone w.old w.new io.old io.new }
{
    if !broken {
        return Ok(());
    }
    match put_bytes(w, b"\n", io) {
        Ok(()) => Ok(()),
        Err(s) => Err(s),
    }
}

/// Whether an atom of so many bytes would pass the line length on a line that has begun.
fn breaks(w: &World, long: u64) -> bool
    ensures { (n : ℕ) → long ≡ min n (2 ^ 64 - 1) → result ≡ (nat_lt 0 w.now.output.column && nat_lt w.now.output.line_length (w.now.output.column + n)) }
{
    let column = w.column();
    let most = w.line_length();
    column > 0 && (column > most || long > most - column)
}

/// How many bytes a text has; 2^64 - 1 stands for more.
fn text_length(w: &World, text: AtomText) -> u64
    requires table { IsTable w.now.cells.cells w.now.syms.head }
    requires atom { IsTrue (is_atom w.now.cells.cells text.atom) }
    ensures { result ≡ min (length (text_left w.now.cells.cells text)) (2 ^ 64 - 1) }
{
    let mut left = text;
    let mut n: u64 = 0;
    while let Some(_) = left.next(w) {
        n = n.saturating_add(1);
    }
    n
}

/// Prints the bytes of a text.
fn put_text<I: Source, O: Sink, N: Sink, F: Files>(
    w: &mut World,
    text: AtomText,
    io: &mut Io<'_, I, O, N, F>,
) -> Result<(), Stop>
    requires table { IsTable w.old.cells.cells w.old.syms.head }
    requires atom { IsTrue (is_atom w.old.cells.cells text.atom) }
    ensures ok { OnOk result (GoesOut (O.contents io.old.out.now) w.old.output.waiting (O.contents io.new.out.now) w.new.output.waiting (text_left w.old.cells.cells text)) }
    ensures column { OnOk result (w.new.output.column ≡ fold column_with w.old.output.column (text_left w.old.cells.cells text)) }
    ensures front { OnErr result (FrontGoesOut (O.contents io.old.out.now) (O.contents io.new.out.now) (w.old.output.waiting ++ text_left w.old.cells.cells text)) }
    ensures faults { OnlyWriteFaults result (O.faults io.old.out.now) (O.faults io.new.out.now) w.new.output.waiting }
    ensures outside { ChangesOutAlone w.old w.new io.old io.new }
{
    let mut left = text;
    while let Some(b) = left.next(w) {
        if let Err(s) = w.put_byte(b, io) {
            return Err(s);
        }
    }
    Ok(())
}
