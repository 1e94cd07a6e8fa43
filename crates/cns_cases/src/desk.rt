// Records at a desk of one worker, for tests that fail its allocations.
ghost use Rattle.std.specs.Prelude.{◌≡◌};

use crate::calls::{Ending, drive, read_commands};
use cns_desk::Desk;
use cns_positions::TreePositions;
use cns_terms::Command;
use cns_units::Day;
use std::alloc::Global;
use std::io;
use std::io::{Read, Write};
use std::marker::Brand;
use std::process::ExitCode;
use std::rt::Runtime;
use std::sync::Wait;
use std::sync::ledger::{Blank, Ledger};

// The date of the first record's day.
pub(crate) const OPENING: &[u8] = b"2024-06-03";

// Opens a desk and gives it the commands. `NoDesk` where it could not be opened.
fn run<L: Ledger, R: Eprint + Wait, W: Write>(
    rt: &R,
    alloc: Global,
    blank: Blank,
    commands: &[Command],
    output: &mut W,
) -> Result<(), Ending>
    requires name { blank.name ≡ L.name }
    requires parts { blank.parts ≡ L.parts }
    requires one { blank.parts ≡ 1 }
{
    let Ok(date) = Day::parse(OPENING) else {
        return Err(Ending::Failed);
    };
    let Ok((desk, mut seats)) = Desk::<L, TreePositions<Global>>::open(alloc, blank, date, 1) else {
        return Err(Ending::NoDesk);
    };
    match seats.as_mut_slice().first_mut() {
        Some(seat) => drive(rt, alloc, &desk, seat, commands, output),
        None => Err(Ending::Failed),
    }
}

/// Submits the records of an input at a desk of one worker and logs what they are answered. After each close it asks
/// for the sheets of the closed day and of the open one. It writes each reply, and of a sheet that is handed out how many
/// rows it has.
///
/// Each call that finds no memory is made once more, and its name is written to standard error before. So with one
/// allocation failed the output is that of a run with all memory, and standard error names the call in which it failed.
/// The status is 0 at the end, 3 where the records cannot be read, and 1 where a call failed for good.
pub(crate) fn play<R: Runtime + AllocGlobal + Wait, I: Read + Drop>(rt: &R, input: I) -> ExitCode {
    let Ok(commands) = read_commands(rt.alloc(), input) else {
        return ExitCode::from(3);
    };
    let mut output = io::writer(rt);
    let commands = commands.as_slice();
    let blank = Blank::new(1);
    let first = run::<Brand, R, _>(rt, rt.alloc(), blank, commands, &mut output);
    let ending = match first {
        Err(Ending::NoDesk) if rt.eprintln("open").is_ok() => {
            let blank = Blank::new(1);
            run::<Brand, R, _>(rt, rt.alloc(), blank, commands, &mut output)
        }
        ending => ending,
    };
    ExitCode::from(u8::from(ending.is_err()))
}
