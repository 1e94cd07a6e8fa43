// The subcommand `statements`.
ghost use Rattle.std.specs.Prelude.{◌≡◌, ◌≤◌, IfErr, IfSome, OnOk};
ghost use Rattle.cns_units.specs.Output.{Writes};
ghost use Rattle.cns_program.specs.Days.{FailsDay, WritesDay, loaded, statements_text};
ghost use Rattle.cns_program.specs.Ends.{TellsDay};

use crate::fault::pack_fault;
use cns_feed::{ReplayBook, load};
use cns_shell::{Ended, Fault, fail};
use cns_statements::{Statement, pack, write_statement};
use cns_terms::NoGate;
use cns_units::{Day, WriteFault};
use std::alloc::Global;
use std::convert::From;
use std::io::{Read, Write};
use std::mem;
use std::sync::Wait;
use std::thread::Threads;

// Writes statements, one after another.
fn write_all<O: Write>(statements: &[Statement<Global>], output: &mut O) -> Result<(), WriteFault>
    ensures { Writes (O.contents output.old) (O.contents output.new) (statements_text statements.now) result }
{
    for statement in statements {
        write_statement(statement, output)?;
    }
    Ok(())
}

// Writes the statements of a book's closed day, made by so many workers, and hands them on. A writer that failed is left
// alone.
fn write_day<R: AllocGlobal + Threads + Wait + Sync, O: Write>(
    rt: &R,
    book: &ReplayBook,
    day: Day,
    workers: usize,
    output: &mut O,
) -> Result<(), Fault>
    requires { (1 ≤ workers) × (workers ≤ 64) }
    ensures ok { OnOk result (WritesDay book.now.log day (O.contents output.old) (O.contents output.new)) }
    ensures err { IfErr result (λ f. FailsDay f book.now.log day (O.contents output.old) (O.contents output.new)) }
{
    let Some(sheet) = book.sheet(day) else {
        return Err(Fault::NoSuchDay);
    };
    let statements = match pack(rt, rt.alloc(), sheet, workers, &NoGate) {
        Ok(statements) => statements,
        Err(fault) => return Err(pack_fault(fault)),
    };
    if write_all(statements.as_slice(), output).is_err() || output.flush().is_err() {
        return Err(Fault::Write);
    }
    Ok(())
}

// The same after a load of the input by a book that opens on the date.
fn write_statements<R: AllocGlobal + Threads + Wait + Sync, I: Read + Drop, O: Write>(
    rt: &R,
    opening: Day,
    day: Day,
    workers: usize,
    input: I,
    output: &mut O,
) -> Result<(), Fault>
    requires { (1 ≤ workers) × (workers ≤ 64) }
    ensures ok { OnOk result
        (IfSome (I.remaining input)
        (λ bytes. WritesDay (loaded opening bytes) day (O.contents output.old) (O.contents output.new))) }
    ensures err { IfErr result
        (λ f. IfSome (I.remaining input)
        (λ bytes. FailsDay f (loaded opening bytes) day (O.contents output.old) (O.contents output.new))) }
{
    match load(rt.alloc(), input, opening) {
        Ok((book, _)) => {
            let written = write_day(rt, &book, day, workers, output);
            // The program ends here: the book's memory goes back to the system with it, unvisited.
            mem::forget(book);
            written
        }
        Err(fault) => Err(Fault::from(fault)),
    }
}

/// Loads the input by a book that opens on a date, and writes the statements of all accounts that have a row on a closed
/// day, in the order of accounts; a fault is told. They are made by so many workers, 1 to 64, and are the same for any
/// number of them.
// It is not put in line: its frame has the reader, 16 KiB and more, and the other subcommands would have that in theirs.
#[inline(never)]
pub fn tell_statements<R: AllocGlobal + Threads + Wait + Sync, I: Read + Drop, O: Write, E: Write>(
    rt: &R,
    opening: Day,
    day: Day,
    workers: usize,
    input: I,
    output: &mut O,
    errors: &mut E,
) -> Ended
    requires { (1 ≤ workers) × (workers ≤ 64) }
    ensures status { result.status ≤ 1 }
    ensures done { result.status ≡ 0
        → IfSome (I.remaining input)
        (λ bytes. WritesDay (loaded opening bytes) day (O.contents output.old) (O.contents output.new)) }
    ensures quiet { result.status ≡ 0 → errors.new ≡ errors.old }
    ensures told { result.status ≡ 1
        → TellsDay opening day (I.remaining input) (O.contents output.old) (O.contents output.new)
        (E.contents errors.old) (E.contents errors.new) result.told }
{
    match write_statements(rt, opening, day, workers, input, output) {
        Ok(()) => Ended::DONE,
        Err(fault) => fail(fault, errors),
    }
}
