//! The command over any objects: the words are run, the status is reported, and its number is the answer.
ghost use Rattle.std.specs.Prelude.{◌≡◌, ◌≢◌, ◌↔◌, ℕ, List};
ghost use Rattle.std.specs.Option.{IsSomeAnd};
ghost use Rattle.rl_io.specs.Faults.{Rose};
ghost use Rattle.rl_tree.specs.Command.{StopsAt};
ghost use Rattle.rl_forms.specs.Appended.{AppendedFront};
ghost use Rattle.rl_forms.specs.Meaning.{IsUnbuilt, file_meaning};
ghost use Rattle.rl_forms.specs.RunEnds.{PrintsMeaning};
ghost use Rattle.rlisp.specs.Texts.{texts_of};
ghost use Rattle.rlisp.specs.Status.{IsReported, status_number};
ghost use Rattle.rlisp.specs.Headline.{NamesNoFile, NumberAgrees, OfFile};

use crate::report::report;
use crate::status::Status;
use crate::top::rlisp;
use rl_io::{Files, Sink, Source};
use std::alloc::Global;

/// All that the program does, over the objects that it is given: runs the command that the words are, writes a report of the status to `err`,
/// and answers the status's number. The program adds only the system's objects.
pub fn command<I: Source, O: Sink, N: Sink, E: Sink, F: Files>(
    alloc: Global,
    words: &[Vec<u8>],
    input: &mut I,
    out: &mut O,
    notes: &mut N,
    err: &mut E,
    files: &mut F,
) -> u8
    // 2 exactly where the words are no command.
    ensures usage { (result ≡ 2) ↔ ((k : ℕ) × StopsAt (texts_of words.now) k) }
    // 3 only where there is no file of the name that the words give.
    ensures missing { result ≡ 3 → ((name : List ℕ) × NamesNoFile (texts_of words.now) (F.contents files.old) name) }
    // 13 only where the file is too long, or spells no list of built forms.
    ensures unbuilt { result ≡ 13
        → OfFile (texts_of words.now) (F.contents files.old) (λ file. IsSomeAnd file IsUnbuilt) }
    // 0 only where the forms were evaluated, and what they print was appended.
    ensures done { result ≡ 0
        → OfFile (texts_of words.now) (F.contents files.old) (λ file. PrintsMeaning file (O.contents out.old) (O.contents out.new)) }
    // 5 and 6 only where the count of that object rose.
    ensures write_fault { result ≡ 5 → Rose (O.faults out.old) (O.faults out.new) }
    ensures file_fault { result ≡ 6 → Rose (F.faults files.old) (F.faults files.new) }
    ensures steady_out { result ≢ 5 → O.faults out.new ≡ O.faults out.old }
    ensures steady_files { result ≢ 6 → F.faults files.new ≡ F.faults files.old }
    // No number but that of a status.
    ensures number { (status : Status) × (result ≡ status_number status) }
    // What is said of the number goes to `err`.
    ensures reported { IsReported (E.contents err.old) (E.contents err.new) (E.faults err.old) (E.faults err.new) result }
    // With 0 it is as it was.
    ensures quiet { result ≡ 0 → err.new ≡ err.old }
    ensures front { OfFile (texts_of words.now) (F.contents files.old)
        (λ file. AppendedFront (O.contents out.old) (O.contents out.new) (file_meaning file).output) }
    ensures silent { result ≢ 0 → result ≢ 5 → result ≢ 12 → out.new ≡ out.old }
    // Where no count rose, the number is that of the meaning, or there was no memory.
    ensures complete { (Rose (O.faults out.old) (O.faults out.new) → ⊥) → (Rose (F.faults files.old) (F.faults files.new) → ⊥)
        → OfFile (texts_of words.now) (F.contents files.old) (NumberAgrees result) }
    ensures files_stay { F.contents files.new ≡ F.contents files.old }
    ensures input_stays { input.new ≡ input.old }
    ensures notes_stay { notes.new ≡ notes.old }
{
    let status = rlisp(alloc, words, input, out, notes, files);
    end_with(&status, err)
}

/// Writes the report of a status, and answers its number.
pub(crate) fn end_with<E: Sink>(status: &Status, err: &mut E) -> u8
    ensures number { result ≡ status_number status.now }
    ensures reported { IsReported (E.contents err.old) (E.contents err.new) (E.faults err.old) (E.faults err.new) (status_number status.now) }
    ensures quiet { status_number status.now ≡ 0 → err.new ≡ err.old }
{
    match report(status, err) {
        Ok(()) => status.number(),
        Err(_) => status.number(),
    }
}
