//! The one call of the program: from the words, the folder and the input to what is printed and the status.
ghost use Rattle.std.specs.Prelude.{◌≡◌, ◌≢◌, ◌↔◌, ◌≤◌, ℕ, List, length, Some, IfSome, IsTrue};
ghost use Rattle.std.specs.Option.{IsSomeAnd};
ghost use Rattle.rl_io.specs.Faults.{Rose};
ghost use Rattle.rl_tree.specs.Command.{IsPath, StopsAt};
ghost use Rattle.rl_forms.specs.Appended.{AppendedFront};
ghost use Rattle.rl_forms.specs.Meaning.{IsUnbuilt, file_meaning};
ghost use Rattle.rl_forms.specs.RunEnds.{PrintsMeaning};
ghost use Rattle.rlisp.specs.Texts.{texts_of};
ghost use Rattle.rlisp.specs.Status.{is_silent};
ghost use Rattle.rlisp.specs.Headline.{Agrees, NamesNoFile, OfFile};
ghost use Rattle.rlisp.specs.EndsAsStatus.{EndsAsStatus};

use crate::source::{Loaded, load};
use crate::status::{FileName, Status};
use crate::words::path_of;
use rl_forms::laws::{all_and_nothing_are_fronts, unbuilt_files_spell_no_built_forms};
use rl_forms::{Ending, run_forms};
use rl_io::{Files, Io, NullSink, Sink, Source};
use std::alloc::Global;

/// Runs the command that the words are: `sl PATH` evaluates the forms of a file of Standard Lisp in turn.
///
/// What PRINT, PRIN1, PRIN2 and TERPRI print goes to `out`. Nothing is read from `input`, nothing is written to `notes`, and no file is changed.
pub fn rlisp<I: Source, O: Sink, N: Sink, F: Files>(
    alloc: Global,
    words: &[Vec<u8>],
    input: &mut I,
    out: &mut O,
    notes: &mut N,
    files: &mut F,
) -> Status
    // The words are no command exactly where this says so, at that word.
    ensures usage { (k : ℕ) → (result ≡ Status.Usage k) ↔ StopsAt (texts_of words.now) k }
    // There is no file of the name that the words give.
    ensures missing { (name : List ℕ) → result ≡ Status.Missing name
        → NamesNoFile (texts_of words.now) (F.contents files.old) name }
    // The file is too long, or spells no list of built forms.
    ensures unbuilt { result ≡ Status.Unbuilt
        → OfFile (texts_of words.now) (F.contents files.old) (λ file. IsSomeAnd file IsUnbuilt) }
    // The forms were evaluated, and what they print was appended.
    ensures done { result ≡ Status.Done
        → OfFile (texts_of words.now) (F.contents files.old) (λ file. PrintsMeaning file (O.contents out.old) (O.contents out.new)) }
    // A fault comes only from the object whose count rose.
    ensures write_fault { result ≡ Status.WriteFault → Rose (O.faults out.old) (O.faults out.new) }
    ensures file_fault { result ≡ Status.FileFault → Rose (F.faults files.old) (F.faults files.new) }
    ensures steady_out { result ≢ Status.WriteFault → O.faults out.new ≡ O.faults out.old }
    ensures steady_files { result ≢ Status.FileFault → F.faults files.new ≡ F.faults files.old }
    // However the run ends, it printed a front of what the forms print, and nothing but with Done, WriteFault and OutOfMemory.
    ensures front { OfFile (texts_of words.now) (F.contents files.old)
        (λ file. AppendedFront (O.contents out.old) (O.contents out.new) (file_meaning file).output) }
    ensures silent { IsTrue (is_silent result) → out.new ≡ out.old }
    // Where no count rose, the status is that of the meaning, or there was no memory.
    ensures complete { (Rose (O.faults out.old) (O.faults out.new) → ⊥) → (Rose (F.faults files.old) (F.faults files.new) → ⊥)
        → OfFile (texts_of words.now) (F.contents files.old) (Agrees result) }
    ensures files_stay { F.contents files.new ≡ F.contents files.old }
    ensures input_stays { input.new ≡ input.old }
    ensures notes_stay { notes.new ≡ notes.old }
{
    match path_of(words) {
        Err(word) => Status::Usage(word),
        Ok(path) => {
            let mut nowhere = NullSink::new();
            let mut io = together(input, out, &mut nowhere, files);
            run_path(alloc, path, &mut io)
        }
    }
}

/// All that a run reads and writes, together.
fn together<'a, I: Source, O: Sink, N: Sink, F: Files>(
    input: &'a mut I,
    out: &'a mut O,
    notes: &'a mut N,
    files: &'a mut F,
) -> Io<'a, I, O, N, F>
    ensures input { result.input ≡ input.entry }
    ensures out { result.out ≡ out.entry }
    ensures notes { result.notes ≡ notes.entry }
    ensures files { result.files ≡ files.entry }
{
    Io {
        input,
        out,
        notes,
        files,
    }
}

/// Runs the file of this path. However the run ends, it has printed a front of what the file prints.
fn run_path<I: Source, O: Sink, F: Files>(
    alloc: Global,
    path: &[u8],
    io: &mut Io<'_, I, O, NullSink, F>,
) -> Status
    requires { IsPath path.now }
    ensures ends { IfSome (F.contents io.old.files.now)
        (λ file_of. EndsAsStatus (file_of path.now) (O.contents io.old.out.now) (O.contents io.new.out.now) result) }
    ensures front { IfSome (F.contents io.old.files.now)
        (λ file_of. AppendedFront (O.contents io.old.out.now) (O.contents io.new.out.now) (file_meaning (file_of path.now)).output) }
    ensures unbuilt { result ≡ Status.Unbuilt → IfSome (F.contents io.old.files.now)
        (λ file_of. IsSomeAnd (file_of path.now) IsUnbuilt) }
    ensures named { (name : List ℕ) → result ≡ Status.Missing name → name ≡ path.now }
    ensures write_fault { result ≡ Status.WriteFault → Rose (O.faults io.old.out.now) (O.faults io.new.out.now) }
    ensures file_fault { result ≡ Status.FileFault → Rose (F.faults io.old.files.now) (F.faults io.new.files.now) }
    ensures steady_out { result ≢ Status.WriteFault → O.faults io.new.out.now ≡ O.faults io.old.out.now }
    ensures steady_files { result ≢ Status.FileFault → F.faults io.new.files.now ≡ F.faults io.old.files.now }
    ensures silent { IsTrue (is_silent result) → io.new.out.now ≡ io.old.out.now }
    ensures no_usage { (k : ℕ) → result ≢ Status.Usage k }
    ensures files_stay { F.contents io.new.files.now ≡ F.contents io.old.files.now }
    ensures same_out { io.new.out.ghost_name ≡ io.old.out.ghost_name }
    ensures same_files { io.new.files.ghost_name ≡ io.old.files.ghost_name }
    ensures same_notes { io.new.notes.ghost_name ≡ io.old.notes.ghost_name }
    ensures rest { io.new ≡ record io.old { out = io.new.out; notes = io.new.notes; files = io.new.files } }
{
    unbuilt_files_spell_no_built_forms();
    all_and_nothing_are_fronts();
    run_file(alloc, path, io)
}

/// Loads the file of this path, and runs it.
fn run_file<I: Source, O: Sink, F: Files>(
    alloc: Global,
    path: &[u8],
    io: &mut Io<'_, I, O, NullSink, F>,
) -> Status
    requires { IsPath path.now }
    ensures ends { IfSome (F.contents io.old.files.now)
        (λ file_of. EndsAsStatus (file_of path.now) (O.contents io.old.out.now) (O.contents io.new.out.now) result) }
    ensures named { (name : List ℕ) → result ≡ Status.Missing name → name ≡ path.now }
    ensures write_fault { result ≡ Status.WriteFault → Rose (O.faults io.old.out.now) (O.faults io.new.out.now) }
    ensures file_fault { result ≡ Status.FileFault → Rose (F.faults io.old.files.now) (F.faults io.new.files.now) }
    ensures steady_out { result ≢ Status.WriteFault → O.faults io.new.out.now ≡ O.faults io.old.out.now }
    ensures steady_files { result ≢ Status.FileFault → F.faults io.new.files.now ≡ F.faults io.old.files.now }
    ensures silent { IsTrue (is_silent result) → io.new.out.now ≡ io.old.out.now }
    ensures no_usage { (k : ℕ) → result ≢ Status.Usage k }
    ensures files_stay { F.contents io.new.files.now ≡ F.contents io.old.files.now }
    ensures same_out { io.new.out.ghost_name ≡ io.old.out.ghost_name }
    ensures same_files { io.new.files.ghost_name ≡ io.old.files.ghost_name }
    ensures same_notes { io.new.notes.ghost_name ≡ io.old.notes.ghost_name }
    ensures rest { io.new ≡ record io.old { out = io.new.out; notes = io.new.notes; files = io.new.files } }
{
    match load(alloc, io.files, path) {
        Loaded::File(file) => run_loaded(alloc, &file, io),
        Loaded::Long => Status::Unbuilt,
        Loaded::Missing => Status::Missing(FileName::new(path)),
        Loaded::Fault => Status::FileFault,
        Loaded::OutOfMemory => Status::OutOfMemory,
    }
}

/// Runs the bytes of a file.
fn run_loaded<I: Source, O: Sink, F: Files>(
    alloc: Global,
    file: &[u8],
    io: &mut Io<'_, I, O, NullSink, F>,
) -> Status
    requires { length file.now ≤ 4096 }
    ensures ends { EndsAsStatus (Some file.now) (O.contents io.old.out.now) (O.contents io.new.out.now) result }
    ensures write_fault { result ≡ Status.WriteFault → Rose (O.faults io.old.out.now) (O.faults io.new.out.now) }
    ensures steady_out { result ≢ Status.WriteFault → O.faults io.new.out.now ≡ O.faults io.old.out.now }
    ensures silent { IsTrue (is_silent result) → io.new.out.now ≡ io.old.out.now }
    ensures no_usage { (k : ℕ) → result ≢ Status.Usage k }
    ensures no_missing { (name : List ℕ) → result ≢ Status.Missing name }
    ensures no_file_fault { result ≢ Status.FileFault }
    ensures same_out { io.new.out.ghost_name ≡ io.old.out.ghost_name }
    ensures same_notes { io.new.notes.ghost_name ≡ io.old.notes.ghost_name }
    ensures rest { io.new ≡ record io.old { out = io.new.out; notes = io.new.notes } }
{
    match run_forms(alloc, file, io) {
        Ending::Done => Status::Done,
        Ending::WriteFault => Status::WriteFault,
        Ending::OutOfMemory => Status::OutOfMemory,
        Ending::Unbuilt => Status::Unbuilt,
    }
}
