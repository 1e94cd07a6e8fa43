// Books of records, each replayed and loaded over both forms of positions.
use cns_feed::{MOST_RECORDS, Summary, load_up_to, replay_up_to};
use cns_positions::{FlatPositions, Positions, TreePositions};
use cns_terms::Worker;
use cns_units::Day;
use std::alloc::Global;
use std::io;
use std::io::Read;
use std::process::ExitCode;
use std::rt::Runtime;

// Commands, invalid records and closes.
fn counts(alloc: Global, summary: Summary) -> Option<String> {
    let Summary {
        commands,
        lines,
        closes,
    } = summary;
    format!(in alloc; "{commands} {lines} {closes}").ok()
}

// What a replay of records writes, in hexadecimal digits, and counts. None where it ends with a fault.
fn replayed<P: Positions<Global>>(alloc: Global, opening: Day, records: &[u8]) -> Option<String> {
    let mut output = Vec::new(alloc);
    let summary = replay_up_to::<P, &[u8], Vec<u8>>(
        alloc,
        records,
        &mut output,
        opening,
        MOST_RECORDS,
    ).ok()?;
    let replies = hex::encode(alloc, output).ok()?;
    let counts = counts(alloc, summary)?;
    format!(in alloc; "{replies} {counts}").ok()
}

// What a load of records counts, and of its book how many commands are in its history and in its first worker's part, and
// its day. None where the load ends with a fault.
fn loaded<P: Positions<Global>>(alloc: Global, opening: Day, records: &[u8]) -> Option<String> {
    let (book, summary) = load_up_to::<P, &[u8]>(alloc, records, opening, MOST_RECORDS).ok()?;
    let counts = counts(alloc, summary)?;
    let (all, own, day) = (book.history_len(), book.count(Worker::FIRST), book.day());
    format!(in alloc; "{counts} {all} {own} {day}").ok()
}

// Tells what both came to over a form of positions.
fn tell<P: Positions<Global>, R: Runtime + AllocGlobal>(
    rt: &R,
    form: &str,
    opening: Day,
    records: &[u8],
) -> Option<()> {
    let replayed = replayed::<P>(rt.alloc(), opening, records)?;
    let loaded = loaded::<P>(rt.alloc(), opening, records)?;
    println!(rt; "{form} {replayed} {loaded}").ok()
}

// Plays a book: its opening date, a blank, and its records in hexadecimal digits.
fn play_book<R: Runtime + AllocGlobal>(rt: &R, book: &str) -> Option<()> {
    let (opening, records) = book.split_once(' ')?;
    let opening = Day::parse(opening.as_bytes()).ok()?;
    let records = hex::decode(rt.alloc(), records).ok()?;
    tell::<FlatPositions<Global>, R>(rt, "flat", opening, records.as_slice())?;
    tell::<TreePositions<Global>, R>(rt, "tree", opening, records.as_slice())
}

fn play_books<R: Runtime + AllocGlobal, I: Read + Drop>(rt: &R, input: I) -> Option<()> {
    let books = io::read_to_string(rt.alloc(), input).ok()?;
    for book in books.as_str().lines() {
        play_book(rt, book)?;
    }
    Some(())
}

/// Plays each book of an input, a line with its opening date, a blank, and its records in hexadecimal digits. Tells for each
/// form of positions, in a line: the form; what a replay writes, in hexadecimal digits; the commands, invalid records and
/// closes that it counts, and that a load counts; and of the loaded book the length of its history, of its first worker's
/// part, and its day. The status is 0 where all are told, else 1.
pub(crate) fn play<R: Runtime + AllocGlobal, I: Read + Drop>(rt: &R, input: I) -> ExitCode {
    ExitCode::from(u8::from(play_books(rt, input).is_none()))
}
