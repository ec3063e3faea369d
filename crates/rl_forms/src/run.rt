//! The run of a file: its forms are read, tested and evaluated in turn.
ghost use Rattle.std.specs.Prelude.{◌≡◌, ◌≢◌, ◌≤◌, true, length, IfOk};
ghost use Rattle.std.specs.List.{All};
ghost use Rattle.rl_io.specs.Faults.{Rose};
ghost use Rattle.rl_read.specs.Frames.{CanMake};
ghost use Rattle.rl_forms.specs.KnownData.{IsBeginning, IsKnown};
ghost use Rattle.rl_forms.specs.SeenForms.{are_built};
ghost use Rattle.rl_forms.specs.FileForms.{AreFormsOf, PrintsForms, output_of};
ghost use Rattle.rl_forms.specs.RunEnds.{EndsForms};

use crate::evaluator::evaluate_all;
use crate::forms::all_built;
use crate::memory::open;
use crate::printing::Fault;
use crate::reading::forms_in;
use rl_io::{Files, Io, NullSink, OutOfMemory, Sink, Source};
use rl_print::laws::pieces_go_on;
use rl_tags::Val;
use rl_world::World;
use std::alloc::Global;

/// How the run of a file ends.
#[derive(Clone, Copy)]
pub enum Ending {
    /// The file was read to its end, and all that its forms print was written.
    Done,
    /// What was printed could not be written.
    WriteFault,
    /// There was no memory.
    OutOfMemory,
    /// The file has something that is not built yet.
    Unbuilt,
}

/// Evaluates the forms of a file of at most 4,096 bytes in turn. What they print goes to `io.out`; nothing else is written.
///
/// The whole file is tested first: with `Unbuilt` nothing was printed. However the run ends, it printed a front of what the forms print.
pub fn run_forms<I: Source, O: Sink, F: Files>(
    alloc: Global,
    file: &[u8],
    io: &mut Io<'_, I, O, NullSink, F>,
) -> Ending
    requires { length file.now ≤ 4096 }
    ensures ends { EndsForms file.now (O.contents io.old.out.now) (O.contents io.new.out.now) result }
    ensures write_fault { result ≡ Ending.WriteFault → Rose (O.faults io.old.out.now) (O.faults io.new.out.now) }
    ensures steady_out { result ≢ Ending.WriteFault → O.faults io.new.out.now ≡ O.faults io.old.out.now }
    ensures silent { result ≡ Ending.Unbuilt → io.new.out.now ≡ io.old.out.now }
    ensures same_out { io.new.out.ghost_name ≡ io.old.out.ghost_name }
    ensures same_notes { io.new.notes.ghost_name ≡ io.old.notes.ghost_name }
    ensures rest { io.new ≡ record io.old { out = io.new.out; notes = io.new.notes } }
{
    let mut world = match open(alloc) {
        Ok(world) => world,
        Err(_) => return Ending::OutOfMemory,
    };
    match built_forms(alloc, &mut world, file) {
        Err(_) => Ending::OutOfMemory,
        Ok(None) => Ending::Unbuilt,
        Ok(Some(forms)) => print_forms(alloc, &mut world, &forms, io),
    }
}

/// The forms of a file; None where something in it is not built.
fn built_forms(
    alloc: Global,
    world: &mut World,
    file: &[u8],
) -> Result<Option<Vec<Val>>, OutOfMemory>
    requires short { length file.now ≤ 4096 }
    requires beginning { IsBeginning world.old }
    requires able { CanMake world.old }
    ensures { IfOk result (λ forms. AreFormsOf file.now world.new forms) }
{
    let Some(forms) = forms_in(alloc, world, file)? else {
        return Ok(None);
    };
    if !all_built(alloc, world, &forms)? {
        return Ok(None);
    }
    Ok(Some(forms))
}

/// Evaluates built forms, and writes what they print.
fn print_forms<I: Source, O: Sink, F: Files>(
    alloc: Global,
    world: &mut World,
    forms: &[Val],
    io: &mut Io<'_, I, O, NullSink, F>,
) -> Ending
    requires beginning { IsBeginning world.old }
    requires known { All (IsKnown world.old) forms.now }
    requires built { are_built world.old forms.now ≡ true }
    ensures ends { PrintsForms (output_of world.old forms.now) (O.contents io.old.out.now) (O.contents io.new.out.now) result }
    ensures write_fault { result ≡ Ending.WriteFault → Rose (O.faults io.old.out.now) (O.faults io.new.out.now) }
    ensures steady_out { result ≢ Ending.WriteFault → O.faults io.new.out.now ≡ O.faults io.old.out.now }
    ensures same_out { io.new.out.ghost_name ≡ io.old.out.ghost_name }
    ensures same_notes { io.new.notes.ghost_name ≡ io.old.notes.ghost_name }
    ensures rest { io.new ≡ record io.old { out = io.new.out; notes = io.new.notes } }
{
    pieces_go_on();
    match evaluate_all(alloc, world, forms, io) {
        Ok(()) => match world.flush(io) {
            Ok(()) => Ending::Done,
            Err(_) => Ending::WriteFault,
        },
        Err(Fault::NoMemory) => match world.flush(io) {
            Ok(()) => Ending::OutOfMemory,
            Err(_) => Ending::WriteFault,
        },
        Err(Fault::Write) => Ending::WriteFault,
    }
}
