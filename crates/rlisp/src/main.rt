//! The command `rlisp`: Standard Lisp, from the bytes of a file to the bytes that are printed.
#![tactic(auto)]

mod command;
mod report;
mod source;
mod status;
#[cfg(test)]
mod tests;
mod top;
mod words;

pub use command::command;
use command::end_with;
pub use report::report;
use rl_io::{DirFiles, OutOfMemory, StdSink, StdSource};
pub use status::{FileName, Status};
use std::alloc::Global;
use std::env::{Env, FillError};
use std::process::ExitCode;
pub use top::rlisp;

/// Bytes of the longest word that the system hands to a program.
const LONGEST_WORD: usize = 131_072;

/// The command over the system's objects: notes and the report go to standard error, files are those of the folder.
fn main(rt: HostRuntime) -> ExitCode {
    let mut err = StdSink::new(rt.stderr());
    let number = match command_words(rt.alloc(), &rt) {
        Ok(words) => command(
            rt.alloc(),
            &words,
            &mut StdSource::new(rt.stdin()),
            &mut StdSink::new(rt.stdout()),
            &mut StdSink::new(rt.stderr()),
            &mut err,
            &mut DirFiles::new(&rt),
        ),
        Err(OutOfMemory) => end_with(&Status::OutOfMemory, &mut err),
    };
    ExitCode::from(number)
}

/// The words after the program's name.
fn command_words<R: Env>(alloc: Global, rt: &R) -> Result<Vec<Vec<u8>>, OutOfMemory> {
    let mut words = Vec::new(alloc);
    let mut buffer = vec![in alloc; 0u8; LONGEST_WORD]?;
    for number in 1..usize::MAX {
        match rt.arg(number, &mut buffer) {
            Ok(length) => words.push(Vec::from_slice(alloc, &buffer[..length])?)?,
            Err(FillError::NotPresent) => break,
            Err(FillError::TooLong) => return Err(OutOfMemory),
        }
    }
    Ok(words)
}
