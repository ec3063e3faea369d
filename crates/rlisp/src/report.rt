//! What is said of a status on standard error.
ghost use Rattle.std.specs.Prelude.{◌≡◌, ◌+◌, ◌≤◌, [], ◌∷◌, ◌++◌, length, codes, decimal, OnOk, OnErr};
ghost use Rattle.arrayvec.specs.ArrayVec.{array_vec_len};
ghost use Rattle.rl_io.specs.Faults.{Rose};
ghost use Rattle.rl_forms.specs.Appended.{Appended, AppendedFront};
ghost use Rattle.rlisp.specs.Status.{report_of, status_number};

use crate::status::Status;
use arrayvec::ArrayVec;
use itoa::Buffer;
use rl_io::{Failed, Sink};

/// Writes nothing for the number 0, and else `rlisp: status `, the number and an end of line. It takes no memory.
/// `Failed` if the write failed; a front of the line may then have been written.
pub fn report<E: Sink>(status: &Status, err: &mut E) -> Result<(), Failed>
    ensures appended { OnOk result (Appended (E.contents err.old) (E.contents err.new) (report_of status.now)) }
    ensures front { OnErr result (AppendedFront (E.contents err.old) (E.contents err.new) (report_of status.now)) }
    ensures steady { OnOk result (E.faults err.new ≡ E.faults err.old) }
    ensures failed { OnErr result (Rose (E.faults err.old) (E.faults err.new)) }
    ensures quiet { status_number status.now ≡ 0 → err.new ≡ err.old }
{
    let number = status.number();
    if number == 0 {
        return Ok(());
    }
    let line = line_of(number);
    err.write(line.as_slice())
}

/// The line of a number.
fn line_of(number: u8) -> ArrayVec<u8, 64>
    ensures { result.items ≡ codes "rlisp: status " ++ (decimal number ++ 10 ∷ []) }
{
    let mut buffer = Buffer::new();
    let digits = buffer.format(number).as_bytes();
    let mut line = ArrayVec::new();
    extend(&mut line, b"rlisp: status ".as_slice());
    extend(&mut line, digits);
    extend(&mut line, b"\n".as_slice());
    line
}

/// Adds bytes for which there is room.
fn extend(line: &mut ArrayVec<u8, 64>, bytes: &[u8])
    requires { array_vec_len line.old + length bytes.now ≤ 64 }
    ensures items { line.new.items ≡ line.old.items ++ bytes.now }
    ensures len { array_vec_len line.new ≡ array_vec_len line.old + length bytes.now }
{
    match line.try_extend_from_slice(bytes) {
        Ok(()) => {}
        Err(_) => unreachable!(),
    }
}
