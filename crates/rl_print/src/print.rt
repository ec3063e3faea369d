//! PRIN1 and PRIN2.
ghost use Rattle.std.specs.Prelude.{◌≡◌, ◌≢◌, ◌<◌, Some, [], length, Ok, Err, IsTrue, IfOk, IfErr, OnOk};
ghost use Rattle.rl_cells.specs.Cell.{is_live};
ghost use Rattle.rl_syms.specs.Table.{IsTable};
ghost use Rattle.rl_tree.specs.Atoms.{Prin1, Prin2};
ghost use Rattle.rl_world.specs.Writing.{ChangesOutObject, WriteFaults};
ghost use Rattle.rl_world.specs.declared.stop.Stop.TheVariants as stop;
ghost use Rattle.rl_print.specs.AtomText.{style_of};
ghost use Rattle.rl_print.specs.Walk.{CutsPrinting, GoesOnPrinting, HaltsPrinting, IsPrinted, IsPrinting, IsReadyToPrint, IsState, walk_meaning, walk_weight, whole_printed};

use crate::advance::{advance, begin};
use crate::atom::Style;
use crate::show::show;
use crate::walk::State;
use rl_io::{Files, Io, Sink, Source};
use rl_tags::Val;
use rl_world::{Stop, World};

/// Prints a value so that it is read as itself: names with `!` where they need one, strings in quotes.
///
/// A line is broken before an atom that would pass the line length. Each pair, and each element of a vector, takes a
/// turn as it is reached; each element that is a pair or a vector takes a level until it is printed. A vector at the
/// root or behind a dot takes none.
///
/// # Errors
/// `Turns`, `Expansion` and `Depth` where a turn or a level is wanting: printed is then exactly what came before.
/// `Write` where the output failed: a front of the text came there, and what waited is dropped.
pub fn print1<I: Source, O: Sink, N: Sink, F: Files>(
    w: &mut World,
    v: Val,
    io: &mut Io<'_, I, O, N, F>,
) -> Result<(), Stop>
    requires table { IsTable w.old.cells.cells w.old.syms.head }
    requires live { IsTrue (is_live w.old.cells.cells v) }
    ensures ok { OnOk result (IsPrinted (O.contents io.old.out.now) (O.contents io.new.out.now) Prin1 w.old w.new v) }
    ensures halts { IfErr result (λ s. s ≢ stop.Write → HaltsPrinting (O.contents io.old.out.now) (O.contents io.new.out.now) w.old w.new (whole_printed Prin1 w.old v) s) }
    ensures cut { IfErr result (λ s. s ≡ stop.Write → CutsPrinting (O.contents io.old.out.now) (O.contents io.new.out.now) w.old.output.waiting (whole_printed Prin1 w.old v)) }
    ensures faults { WriteFaults result (O.faults io.old.out.now) (O.faults io.new.out.now) w.new.output.waiting }
    ensures world { IsPrinting (length w.old.levels.walk) w.old w.new }
    ensures outside { ChangesOutObject io.old io.new }
{
    print(w, v, Style::Prin1, io)
}

/// Prints a value with names and strings as their bytes, and else as [`print1`] does.
///
/// # Errors
/// As [`print1`].
pub fn print2<I: Source, O: Sink, N: Sink, F: Files>(
    w: &mut World,
    v: Val,
    io: &mut Io<'_, I, O, N, F>,
) -> Result<(), Stop>
    requires table { IsTable w.old.cells.cells w.old.syms.head }
    requires live { IsTrue (is_live w.old.cells.cells v) }
    ensures ok { OnOk result (IsPrinted (O.contents io.old.out.now) (O.contents io.new.out.now) Prin2 w.old w.new v) }
    ensures halts { IfErr result (λ s. s ≢ stop.Write → HaltsPrinting (O.contents io.old.out.now) (O.contents io.new.out.now) w.old w.new (whole_printed Prin2 w.old v) s) }
    ensures cut { IfErr result (λ s. s ≡ stop.Write → CutsPrinting (O.contents io.old.out.now) (O.contents io.new.out.now) w.old.output.waiting (whole_printed Prin2 w.old v)) }
    ensures faults { WriteFaults result (O.faults io.old.out.now) (O.faults io.new.out.now) w.new.output.waiting }
    ensures world { IsPrinting (length w.old.levels.walk) w.old w.new }
    ensures outside { ChangesOutObject io.old io.new }
{
    print(w, v, Style::Prin2, io)
}

/// One step of the walk, and what it prints.
fn step<I: Source, O: Sink, N: Sink, F: Files>(
    w: &mut World,
    at: State,
    base: u64,
    style: Style,
    io: &mut Io<'_, I, O, N, F>,
) -> Result<Option<State>, Stop>
    requires ready { IsReadyToPrint w.old base }
    requires state { IsState w.old.cells.cells at }
    ensures ok { IfOk result (λ next. GoesOnPrinting (O.contents io.old.out.now) (O.contents io.new.out.now) base (style_of style) w.old w.new (walk_meaning (style_of style) w.old base (Some at)) next) }
    ensures less { IfOk result (λ next. walk_weight w.new next < walk_weight w.old (Some at)) }
    ensures halts { IfErr result (λ s. s ≢ stop.Write → HaltsPrinting (O.contents io.old.out.now) (O.contents io.new.out.now) w.old w.new (walk_meaning (style_of style) w.old base (Some at)) s) }
    ensures cut { IfErr result (λ s. s ≡ stop.Write → CutsPrinting (O.contents io.old.out.now) (O.contents io.new.out.now) w.old.output.waiting (walk_meaning (style_of style) w.old base (Some at))) }
    ensures faults { WriteFaults result (O.faults io.old.out.now) (O.faults io.new.out.now) w.new.output.waiting }
    ensures world { IsPrinting base w.old w.new }
    ensures outside { ChangesOutObject io.old io.new }
{
    let (piece, next) = match advance(w, at, base) {
        Ok(step) => step,
        Err(s) => return Err(s),
    };
    match show(w, piece, style, io) {
        Ok(()) => Ok(next),
        Err(s) => Err(s),
    }
}

/// The first step, and what it prints.
fn start<I: Source, O: Sink, N: Sink, F: Files>(
    w: &mut World,
    v: Val,
    style: Style,
    io: &mut Io<'_, I, O, N, F>,
) -> Result<Option<State>, Stop>
    requires table { IsTable w.old.cells.cells w.old.syms.head }
    requires live { IsTrue (is_live w.old.cells.cells v) }
    ensures ok { IfOk result (λ next. GoesOnPrinting (O.contents io.old.out.now) (O.contents io.new.out.now) (length w.old.levels.walk) (style_of style) w.old w.new (whole_printed (style_of style) w.old v) next) }
    ensures halts { IfErr result (λ s. s ≢ stop.Write → HaltsPrinting (O.contents io.old.out.now) (O.contents io.new.out.now) w.old w.new (whole_printed (style_of style) w.old v) s) }
    ensures cut { IfErr result (λ s. s ≡ stop.Write → CutsPrinting (O.contents io.old.out.now) (O.contents io.new.out.now) w.old.output.waiting (whole_printed (style_of style) w.old v)) }
    ensures faults { WriteFaults result (O.faults io.old.out.now) (O.faults io.new.out.now) w.new.output.waiting }
    ensures world { IsPrinting (length w.old.levels.walk) w.old w.new }
    ensures outside { ChangesOutObject io.old io.new }
{
    let (piece, next) = match begin(w, v) {
        Ok(step) => step,
        Err(s) => return Err(s),
    };
    match show(w, piece, style, io) {
        Ok(()) => Ok(next),
        Err(s) => Err(s),
    }
}

/// All steps.
fn print<I: Source, O: Sink, N: Sink, F: Files>(
    w: &mut World,
    v: Val,
    style: Style,
    io: &mut Io<'_, I, O, N, F>,
) -> Result<(), Stop>
    requires table { IsTable w.old.cells.cells w.old.syms.head }
    requires live { IsTrue (is_live w.old.cells.cells v) }
    ensures ok { OnOk result (IsPrinted (O.contents io.old.out.now) (O.contents io.new.out.now) (style_of style) w.old w.new v) }
    ensures halts { IfErr result (λ s. s ≢ stop.Write → HaltsPrinting (O.contents io.old.out.now) (O.contents io.new.out.now) w.old w.new (whole_printed (style_of style) w.old v) s) }
    ensures cut { IfErr result (λ s. s ≡ stop.Write → CutsPrinting (O.contents io.old.out.now) (O.contents io.new.out.now) w.old.output.waiting (whole_printed (style_of style) w.old v)) }
    ensures faults { WriteFaults result (O.faults io.old.out.now) (O.faults io.new.out.now) w.new.output.waiting }
    ensures world { IsPrinting (length w.old.levels.walk) w.old w.new }
    ensures outside { ChangesOutObject io.old io.new }
{
    let base = w.walk_len();
    let mut at = match start(w, v, style, io) {
        Ok(at) => at,
        Err(s) => return Err(s),
    };
    while let Some(state) = at {
        at = match step(w, state, base, style, io) {
            Ok(next) => next,
            Err(s) => return Err(s),
        };
    }
    Ok(())
}
