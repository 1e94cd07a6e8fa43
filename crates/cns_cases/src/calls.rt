// The calls of a desk with one worker, each made once more where it finds no memory.
use cns_book::{Receipt, TakeFault};
use cns_desk::{Desk, Log, LogItem, Seat};
use cns_feed::{CsvSource, reply_text};
use cns_positions::TreePositions;
use cns_sheets::Sheet;
use cns_terms::{Activity, Command, Item, Reply, Source};
use cns_units::Day;
use std::alloc::Global;
use std::io::{Read, Write};
use std::sync::ledger::Ledger;
use std::sync::{Arc, Wait};

/// Why a run goes no further.
#[derive(Drop)]
pub(crate) enum Ending {
    /// The desk could not be opened.
    NoDesk,
    /// A call found no memory twice, or the output could not be written.
    Failed,
}

type TreeDesk<L> = Desk<L, TreePositions<Global>>;

type Handed = (Receipt, Option<Arc<Sheet<Global>>>);

/// The commands of all records, none of which is invalid.
pub(crate) fn read_commands<R: Read + Drop>(
    alloc: Global,
    input: R,
) -> Result<Vec<Command>, Ending> {
    let mut source = CsvSource::new(alloc, input);
    let mut commands = Vec::new(alloc);
    for _record in 0..u32::MAX {
        match source.next() {
            Ok(Item::Given(command)) => {
                if commands.push(command).is_err() {
                    return Err(Ending::Failed);
                }
            }
            Ok(Item::Finished) => return Ok(commands),
            _ => return Err(Ending::Failed),
        }
    }
    Err(Ending::Failed)
}

// Names a call that found no memory, before it is made once more.
fn name(rt: &impl Eprint, call: &str) -> Result<(), Ending> {
    match rt.eprintln(call) {
        Ok(()) => Ok(()),
        Err(_) => Err(Ending::Failed),
    }
}

fn submit<R: Eprint + Wait, L: Ledger>(
    rt: &R,
    desk: &TreeDesk<L>,
    seat: &mut Seat<L>,
    command: &Command,
) -> Result<Receipt, Ending> {
    for _time in 0..2 {
        match desk.submit(rt, seat, *command) {
            Ok(receipt) => return Ok(receipt),
            Err(TakeFault::NoMemory) => name(rt, "submit")?,
            Err(_) => return Err(Ending::Failed),
        }
    }
    Err(Ending::Failed)
}

fn sheet<R: Eprint + Wait, L: Ledger>(
    rt: &R,
    desk: &TreeDesk<L>,
    seat: &mut Seat<L>,
    date: Day,
) -> Result<Handed, Ending> {
    for _time in 0..2 {
        match desk.sheet(rt, seat, date) {
            Ok(handed) => return Ok(handed),
            Err(TakeFault::NoMemory) => name(rt, "sheet")?,
            Err(_) => return Err(Ending::Failed),
        }
    }
    Err(Ending::Failed)
}

// Logs what a command was answered.
fn log<R: Eprint>(rt: &R, log: &mut Log, item: LogItem) -> Result<(), Ending> {
    if log.reserve().is_err() {
        name(rt, "reserve")?;
        if log.reserve().is_err() {
            return Err(Ending::Failed);
        }
    }
    log.push(item);
    Ok(())
}

fn write_reply<W: Write>(output: &mut W, reply: &Reply) -> Result<(), Ending> {
    match reply_text(reply, output) {
        Ok(()) => Ok(()),
        Err(_) => Err(Ending::Failed),
    }
}

// Writes how many rows a sheet has that was handed out.
fn write_rows<W: Write>(output: &mut W, sheet: Option<&Arc<Sheet<Global>>>) -> Result<(), Ending> {
    let Some(sheet) = sheet else {
        return Ok(());
    };
    match write!(output, "rows {}\n", sheet.len()) {
        Ok(()) => Ok(()),
        Err(_) => Err(Ending::Failed),
    }
}

// Asks for the sheet of a day.
fn ask<R: Eprint + Wait, L: Ledger, W: Write>(
    rt: &R,
    desk: &TreeDesk<L>,
    seat: &mut Seat<L>,
    date: Day,
    output: &mut W,
) -> Result<(), Ending> {
    let (receipt, handed) = sheet(rt, desk, seat, date)?;
    write_reply(output, &receipt.reply)?;
    write_rows(output, handed.as_ref())
}

// The days that a close closed and opened, None for another command.
fn days(command: &Command, reply: &Reply) -> Option<[Day; 2]> {
    match (command, reply) {
        (Command::Activity(Activity::Close(next)), Reply::Closed(closed)) => {
            Some([closed.date, *next])
        }
        _ => None,
    }
}

// Asks for the sheets of the days that a close closed and opened.
fn ask_all<R: Eprint + Wait, L: Ledger, W: Write>(
    rt: &R,
    desk: &TreeDesk<L>,
    seat: &mut Seat<L>,
    dates: &[Day],
    output: &mut W,
) -> Result<(), Ending> {
    for date in dates {
        ask(rt, desk, seat, *date, output)?;
    }
    Ok(())
}

/// Submits the commands and logs them, and asks for sheets after each close.
pub(crate) fn drive<R: Eprint + Wait, L: Ledger, W: Write>(
    rt: &R,
    alloc: Global,
    desk: &TreeDesk<L>,
    seat: &mut Seat<L>,
    commands: &[Command],
    output: &mut W,
) -> Result<(), Ending> {
    let mut items = Log::new(alloc);
    for command in commands {
        let receipt = submit(rt, desk, seat, command)?;
        write_reply(output, &receipt.reply)?;
        let item = LogItem {
            receipt,
            command: *command,
            sheet: None,
        };
        log(rt, &mut items, item)?;
        if let Some(dates) = days(command, &receipt.reply) {
            ask_all(rt, desk, seat, &dates, output)?;
        }
    }
    Ok(())
}
