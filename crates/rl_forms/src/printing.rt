//! What a call prints.
ghost use Rattle.std.specs.Prelude.{◌≡◌, ◌≢◌, ◌∷◌, Err, OnOk, Some, []};
ghost use Rattle.rl_io.specs.Faults.{Rose};
ghost use Rattle.rl_print.specs.AtomText.{style_of};
ghost use Rattle.rl_text.specs.Printed.{with_datum};
ghost use Rattle.rl_world.specs.declared.stop.Stop.TheVariants as stop;
ghost use Rattle.rl_forms.specs.BuiltForms.{line_length, with_end_of_line};
ghost use Rattle.rl_forms.specs.KnownData.{IsKnown, IsRunning, datum_in};
ghost use Rattle.rl_forms.specs.Pages.{CutsPage, HaltsPage, KeepsObjects, PrintsOnPage, page_in};
ghost use Rattle.rl_forms.specs.declared.printing.Fault.TheVariants.{NoMemory, Write};

use rl_io::{Files, Io, Sink, Source};
use rl_print::{Style, print1, print2};
use rl_read::laws::{data_are_stored, pairs_are_data};
use rl_tags::Val;
use rl_text::laws::printing_is_of_data;
use rl_world::{Stop, World};

/// Why an evaluation does not end: for want of memory, a cell, a turn or a level; or since the output failed.
#[derive(Clone, Copy)]
pub(crate) enum Fault {
    NoMemory,
    Write,
}

/// Prints a value. After `Write` a front of it may have been written, and what waited.
pub(crate) fn print<I: Source, O: Sink, N: Sink, F: Files>(
    world: &mut World,
    v: Val,
    style: Style,
    io: &mut Io<'_, I, O, N, F>,
) -> Result<(), Fault>
    requires running { IsRunning world.old }
    requires known { IsKnown world.old v }
    ensures ok { OnOk result (PrintsOnPage (O.contents io.old.out.now) (O.contents io.new.out.now) world.old.output.waiting world.new.output.waiting (λ text. Some (with_datum (style_of style) line_length (datum_in world.old v) (page_in world.old text))) (λ text. Some (page_in world.new text))) }
    ensures halts { result ≡ Err NoMemory → HaltsPage (O.contents io.old.out.now) (O.contents io.new.out.now) world.old.output.waiting world.new.output.waiting (λ text. Some (with_datum (style_of style) line_length (datum_in world.old v) (page_in world.old text))) }
    ensures cut { result ≡ Err Write → CutsPage (O.contents io.old.out.now) (O.contents io.new.out.now) world.old.output.waiting (λ text. Some (with_datum (style_of style) line_length (datum_in world.old v) (page_in world.old text))) }
    ensures failed { result ≡ Err Write → Rose (O.faults io.old.out.now) (O.faults io.new.out.now) }
    ensures steady { result ≢ Err Write → O.faults io.new.out.now ≡ O.faults io.old.out.now }
    ensures keeps { KeepsObjects world.old world.new }
    ensures same_out { io.new.out.ghost_name ≡ io.old.out.ghost_name }
    ensures rest { io.new ≡ record io.old { out = io.new.out } }
{
    data_are_stored();
    pairs_are_data();
    printing_is_of_data();
    match style {
        Style::Prin1 => match print1(world, v, io) {
            Ok(()) => Ok(()),
            Err(s) => Err(fault_of(s)),
        },
        Style::Prin2 => match print2(world, v, io) {
            Ok(()) => Ok(()),
            Err(s) => Err(fault_of(s)),
        },
    }
}

/// Prints an end of line. After `Failed` what waited may have been written, or a front of it.
pub(crate) fn end_line<I: Source, O: Sink, N: Sink, F: Files>(
    world: &mut World,
    io: &mut Io<'_, I, O, N, F>,
) -> Result<(), Fault>
    ensures ok { OnOk result (PrintsOnPage (O.contents io.old.out.now) (O.contents io.new.out.now) world.old.output.waiting world.new.output.waiting (λ text. Some (with_end_of_line (page_in world.old text))) (λ text. Some (page_in world.new text))) }
    ensures no_halt { result ≢ Err NoMemory }
    ensures cut { result ≡ Err Write → CutsPage (O.contents io.old.out.now) (O.contents io.new.out.now) world.old.output.waiting (λ text. Some (with_end_of_line (page_in world.old text))) }
    ensures failed { result ≡ Err Write → Rose (O.faults io.old.out.now) (O.faults io.new.out.now) }
    ensures steady { result ≢ Err Write → O.faults io.new.out.now ≡ O.faults io.old.out.now }
    ensures keeps { KeepsObjects world.old world.new }
    ensures same_out { io.new.out.ghost_name ≡ io.old.out.ghost_name }
    ensures rest { io.new ≡ record io.old { out = io.new.out } }
{
    match world.put_byte(b'\n', io) {
        Ok(()) => Ok(()),
        Err(_) => Err(Fault::Write),
    }
}

/// What a stop of printing is.
fn fault_of(s: Stop) -> Fault
    ensures write { result ≡ Write → s ≡ stop.Write }
    ensures memory { result ≡ NoMemory → s ≢ stop.Write }
{
    match s {
        Stop::Write => Fault::Write,
        _ => Fault::NoMemory,
    }
}
