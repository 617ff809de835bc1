// A writer, as standard output, and the line on standard error that says that a run stopped.
//
// No contract says what standard output gets, since that of its write does not. Of a writer whose bytes are known, the
// contracts say which bytes it got.
//
// A write fails where the writer answers an error or takes no byte; some of the bytes may be written then. The reason
// is not asked: a call that a signal interrupts counts as one that failed.
ghost use Rattle.std.specs.Prelude.{Some};
ghost use Rattle.frame.specs.Output.{Put, failure_text};

use std::error::Error;
use std::fmt;
use std::io::Write;

// Why a run stops before all was read and written: a read failed, or a write.
#[derive(Clone, Copy, Debug, PartialEq, Eq)]
pub enum Failure {
    Read,
    Write,
}

// What is said of the failure on standard error.
impl fmt::Display for Failure {
    ghost output = { λ e. Some (failure_text e) };

    fn fmt<W: fmt::Write>(&self, f: &mut fmt::Formatter<W>) -> fmt::Result {
        match self {
            Failure::Read => f.write_str("a read failed"),
            Failure::Write => f.write_str("a write failed"),
        }
    }
}

impl Error for Failure {}

// Writes the bytes, all of them unless it fails.
#[tactic(auto, using(crate::proofs::Putting::by_writes))]
pub fn write<W: Write>(to: &mut W, out: &[u8]) -> Result<(), Failure>
    ensures { Put (W.contents to.old) (W.contents to.new) out.now result }
{
    // A write takes as many bytes as it likes, and the rest gets shorter by those. The library's `write_all` does not
    // say how many were written where it fails.
    let mut rest = out;
    while !rest.is_empty() {
        match to.write(rest) {
            Ok(0) | Err(_) => return Err(Failure::Write),
            Ok(n) => rest = &rest[n..],
        }
    }
    Ok(())
}

// Writes a line on standard error where a read or a write failed. The exit status is 0 all the same.
pub fn report<E: Eprint>(rt: &E, end: Result<(), Failure>) {
    if let Err(failure) = end {
        let _ = rt.eprintln(failure);
    }
}
