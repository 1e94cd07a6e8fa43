// How a program ends: its status, and its line on standard error.
ghost use Rattle.std.specs.Prelude.{◌≡◌, ◌≢◌};
ghost use Rattle.std.specs.IoError.{error_kind};
ghost use Rattle.cns_units.specs.Output.{Writes};
ghost use Rattle.cns_shell.specs.declared.fault.Fault.TheVariants as faults;
ghost use Rattle.cns_shell.specs.Faults.{fault_line};

use crate::fault::{Fault, write_fault};
use cns_units::{WriteFault, write_bytes};
use std::io;
use std::io::{ErrorKind, Write};

/// How a program ends: its status, and what writing its lines to `errors` came to. Where the work was done there are
/// no such lines.
#[derive(Clone, Copy, PartialEq, Eq)]
pub struct Ended {
    pub status: u8,
    pub told: Result<(), WriteFault>,
}

impl Ended {
    /// The work was done.
    pub const DONE: Ended = Ended {
        status: 0,
        told: Ok(()),
    };
}

/// Writes the usage line; the status is 2, that of a refused line.
pub fn refuse_usage<E: Write>(usage: &[u8], errors: &mut E) -> Ended
    ensures status { result.status ≡ 2 }
    ensures text { Writes (E.contents errors.old) (E.contents errors.new) usage.now result.told }
{
    Ended {
        status: 2,
        told: write_bytes(usage, errors),
    }
}

/// Writes the line of a fault; the status is 1.
pub fn fail<E: Write>(fault: Fault, errors: &mut E) -> Ended
    ensures status { result.status ≡ 1 }
    ensures text { Writes (E.contents errors.old) (E.contents errors.new) (fault_line fault) result.told }
{
    Ended {
        status: 1,
        told: write_fault(fault, errors),
    }
}

/// Answers for words of the line that could not be read: where memory was refused it writes that fault, with status 1;
/// words that are no text are refused, with the usage line and status 2.
pub fn refuse_words<E: Write>(error: &io::Error, usage: &[u8], errors: &mut E) -> Ended
    ensures fault { error_kind error.now ≡ ErrorKind.OutOfMemory
        → (result.status ≡ 1)
        × Writes (E.contents errors.old) (E.contents errors.new) (fault_line faults.NoMemory) result.told }
    ensures refused { error_kind error.now ≢ ErrorKind.OutOfMemory
        → (result.status ≡ 2) × Writes (E.contents errors.old) (E.contents errors.new) usage.now result.told }
{
    if error.kind() == ErrorKind::OutOfMemory {
        fail(Fault::NoMemory, errors)
    } else {
        refuse_usage(usage, errors)
    }
}
