//! What is printed at once.
ghost use Rattle.std.specs.Prelude.{◌++◌, IsTrue, OnOk, OnErr};
ghost use Rattle.rl_syms.specs.Table.{IsTable};
ghost use Rattle.rl_world.specs.Waiting.{FrontGoesOut};
ghost use Rattle.rl_world.specs.Writing.{ChangesOutAlone, OnlyWriteFaults};
ghost use Rattle.rl_print.specs.AtomText.{is_atom, style_of};
ghost use Rattle.rl_print.specs.Walk.{IsPiece, Shows, ShowsFront};
ghost use Rattle.rl_print.specs.declared.walk.Piece.TheVariants as piece;

use crate::atom::Style;
use crate::put::{put_atom, put_bytes};
use crate::walk::Piece;
use rl_io::{Files, Io, Sink, Source};
use rl_tags::Val;
use rl_world::{Stop, World};

/// Prints a mark, an atom, or a dot, an atom and `)`.
pub(crate) fn show<I: Source, O: Sink, N: Sink, F: Files>(
    w: &mut World,
    piece: Piece<'_>,
    style: Style,
    io: &mut Io<'_, I, O, N, F>,
) -> Result<(), Stop>
    requires table { IsTable w.old.cells.cells w.old.syms.head }
    requires piece { IsPiece w.old.cells.cells piece }
    ensures ok { OnOk result (Shows (O.contents io.old.out.now) (O.contents io.new.out.now) (style_of style) w.old w.new piece.entry) }
    ensures front { OnErr result (ShowsFront (O.contents io.old.out.now) (O.contents io.new.out.now) (style_of style) w.old piece.entry) }
    ensures faults { OnlyWriteFaults result (O.faults io.old.out.now) (O.faults io.new.out.now) w.new.output.waiting }
    ensures outside { ChangesOutAlone w.old w.new io.old io.new }
{
    match piece {
        Piece::Mark(bytes) => show_mark(w, bytes, style, io),
        Piece::Atom(v) => show_atom(w, v, style, io),
        Piece::Dotted(v) => show_dotted(w, v, style, io),
    }
}

/// A mark.
fn show_mark<I: Source, O: Sink, N: Sink, F: Files>(
    w: &mut World,
    bytes: &[u8],
    style: Style,
    io: &mut Io<'_, I, O, N, F>,
) -> Result<(), Stop>
    ensures ok { OnOk result (Shows (O.contents io.old.out.now) (O.contents io.new.out.now) (style_of style) w.old w.new (piece.Mark bytes.entry)) }
    ensures cut { OnErr result (FrontGoesOut (O.contents io.old.out.now) (O.contents io.new.out.now) (w.old.output.waiting ++ bytes.now)) }
    ensures front { OnErr result (ShowsFront (O.contents io.old.out.now) (O.contents io.new.out.now) (style_of style) w.old (piece.Mark bytes.entry)) }
    ensures faults { OnlyWriteFaults result (O.faults io.old.out.now) (O.faults io.new.out.now) w.new.output.waiting }
    ensures outside { ChangesOutAlone w.old w.new io.old io.new }
{
    let _ = style;
    match put_bytes(w, bytes, io) {
        Ok(()) => Ok(()),
        Err(s) => Err(s),
    }
}

/// An atom.
fn show_atom<I: Source, O: Sink, N: Sink, F: Files>(
    w: &mut World,
    v: Val,
    style: Style,
    io: &mut Io<'_, I, O, N, F>,
) -> Result<(), Stop>
    requires table { IsTable w.old.cells.cells w.old.syms.head }
    requires atom { IsTrue (is_atom w.old.cells.cells v) }
    ensures ok { OnOk result (Shows (O.contents io.old.out.now) (O.contents io.new.out.now) (style_of style) w.old w.new (piece.Atom v)) }
    ensures front { OnErr result (ShowsFront (O.contents io.old.out.now) (O.contents io.new.out.now) (style_of style) w.old (piece.Atom v)) }
    ensures faults { OnlyWriteFaults result (O.faults io.old.out.now) (O.faults io.new.out.now) w.new.output.waiting }
    ensures outside { ChangesOutAlone w.old w.new io.old io.new }
{
    match put_atom(w, v, style, io) {
        Ok(()) => Ok(()),
        Err(s) => Err(s),
    }
}

/// ` . `, an atom, and `)`.
fn show_dotted<I: Source, O: Sink, N: Sink, F: Files>(
    w: &mut World,
    v: Val,
    style: Style,
    io: &mut Io<'_, I, O, N, F>,
) -> Result<(), Stop>
    requires table { IsTable w.old.cells.cells w.old.syms.head }
    requires atom { IsTrue (is_atom w.old.cells.cells v) }
    ensures ok { OnOk result (Shows (O.contents io.old.out.now) (O.contents io.new.out.now) (style_of style) w.old w.new (piece.Dotted v)) }
    ensures front { OnErr result (ShowsFront (O.contents io.old.out.now) (O.contents io.new.out.now) (style_of style) w.old (piece.Dotted v)) }
    ensures faults { OnlyWriteFaults result (O.faults io.old.out.now) (O.faults io.new.out.now) w.new.output.waiting }
    ensures outside { ChangesOutAlone w.old w.new io.old io.new }
{
    if let Err(s) = show_mark(w, b" . ", style, io) {
        return Err(s);
    }
    if let Err(s) = show_atom(w, v, style, io) {
        return Err(s);
    }
    match show_mark(w, b")", style, io) {
        Ok(()) => Ok(()),
        Err(s) => Err(s),
    }
}
