// Why a program ended without doing its work.
ghost use Rattle.std.specs.Prelude.{◌≡◌};
ghost use Rattle.cns_units.specs.Output.{Writes};
ghost use Rattle.cns_shell.specs.Faults.{fault_line, fault_name};

use cns_feed::ReplayFault;
use cns_terms::NoMemory;
use cns_units::{Account, Day, Word, WriteFault, write_line};
use std::convert::From;
use std::io::Write;

/// Why a program ended without doing its work. Each has a line on standard error, and the status is 1.
#[derive(Clone, Copy, PartialEq, Eq)]
pub enum Fault {
    /// Reading standard input failed.
    Read,
    /// Writing standard output failed.
    Write,
    /// An allocation failed.
    NoMemory,
    /// The history is at its limit.
    Full,
    /// The file with that number on the line, from 1, could not be opened.
    Open(u64),
    /// A worker could not be started.
    Spawn,
    /// A worker's log was not its part of the history.
    Mismatch,
    /// The day that is asked for is not closed.
    NoSuchDay,
    /// The account that is asked for is neither 0 nor a member's.
    NoSuchMember,
    /// The issue that is asked for is not listed.
    NoSuchIssue,
    /// The folder that is asked for is not there.
    NoSuchFolder,
    /// The folder has another page of the day, of all accounts or of the account.
    OtherPage(Day, Option<Account>),
}

impl From<ReplayFault> for Fault {
    ghost use Rattle.cns_shell.specs.Faults.{of_replay};

    ghost from_gives = { λ f e. e ≡ of_replay f };

    fn from(fault: ReplayFault) -> Fault {
        match fault {
            ReplayFault::Read => Fault::Read,
            ReplayFault::Write => Fault::Write,
            ReplayFault::NoMemory => Fault::NoMemory,
            ReplayFault::Full => Fault::Full,
        }
    }
}

impl From<NoMemory> for Fault {
    ghost use Rattle.cns_shell.specs.declared.fault.Fault.TheVariants as faults;

    ghost from_gives = { λ _ e. e ≡ faults.NoMemory };

    fn from(_missed: NoMemory) -> Fault {
        Fault::NoMemory
    }
}

impl From<WriteFault> for Fault {
    ghost use Rattle.cns_shell.specs.declared.fault.Fault.TheVariants as faults;

    ghost from_gives = { λ _ e. e ≡ faults.Write };

    fn from(_fault: WriteFault) -> Fault {
        Fault::Write
    }
}

fn name_of(fault: Fault) -> &'static [u8]
    ensures { result.now ≡ fault_name fault }
{
    match fault {
        Fault::Read => b"Read",
        Fault::Write => b"Write",
        Fault::NoMemory => b"NoMemory",
        Fault::Full => b"Full",
        Fault::Open(_) => b"Open",
        Fault::Spawn => b"Spawn",
        Fault::Mismatch => b"Mismatch",
        Fault::NoSuchDay => b"NoSuchDay",
        Fault::NoSuchMember => b"NoSuchMember",
        Fault::NoSuchIssue => b"NoSuchIssue",
        Fault::NoSuchFolder => b"NoSuchFolder",
        Fault::OtherPage(..) => b"OtherPage",
    }
}

// Writes the line of the fault that a folder has another page.
fn write_other<E: Write>(
    day: Day,
    account: Option<Account>,
    errors: &mut E,
) -> Result<(), WriteFault>
    ensures { Writes (E.contents errors.old) (E.contents errors.new) (fault_line (Fault.OtherPage day account)) result }
{
    let name = Word::Text(b"OtherPage");
    let Some(account) = account else {
        return write_line(b"fault", &[name, Word::Date(day)], errors);
    };
    let account = Word::Number(u64::from(account.value()));
    write_line(b"fault", &[name, Word::Date(day), account], errors)
}

/// Writes the line of a fault.
pub fn write_fault<E: Write>(fault: Fault, errors: &mut E) -> Result<(), WriteFault>
    ensures { Writes (E.contents errors.old) (E.contents errors.new) (fault_line fault) result }
{
    let name = Word::Text(name_of(fault));
    match &fault {
        Fault::Open(file) => write_line(b"fault", &[name, Word::Number(*file)], errors),
        Fault::OtherPage(day, account) => write_other(*day, *account, errors),
        _ => write_line(b"fault", &[name], errors),
    }
}
