// Books and commands from the records that a clerk writes.
use crate::checks::check;
use crate::records::{command, next};
use crate::values::first_day;
use cns_book::{Book, Receipt};
use cns_feed::{CsvSource, reply_text};
use cns_positions::{Positions, TreePositions};
use cns_terms::{Activity, Command, Reply, Trade, Worker};
use std::alloc::{Allocator, Global};
use std::process::Abort;

// The book of each test. All else is told over any form of positions, which is less to check than over this one.
pub(crate) type TreeBook = Book<TreePositions<Global>, Global>;

// The trade of a record.
pub(crate) fn trade(rt: &impl Abort, alloc: Global, record: &str) -> Trade {
    match command(rt, alloc, record) {
        Command::Activity(Activity::Trade(trade)) => trade,
        _ => panic!(rt; "no trade"),
    }
}

// Gives a book a command. A check of a caller need not go through all that a book promises of it.
pub(crate) fn take<P: Positions<A>, A: Allocator + Drop + Clone>(
    rt: &impl Abort,
    book: &mut Book<P, A>,
    command: Command,
) -> Receipt {
    book.take(Worker::FIRST, command).expect(rt, "taken")
}

// Whether a reply has this line.
fn is_told(alloc: Global, reply: &Reply, line: &str) -> bool {
    let mut told = Vec::new(alloc);
    reply_text(reply, &mut told).is_ok() && told.as_slice() == line.as_bytes()
}

// Gives a book the command of each record, which has to get the reply beside it.
pub(crate) fn play<P: Positions<A>, A: Allocator + Drop + Clone>(
    rt: &impl Abort,
    alloc: Global,
    book: &mut Book<P, A>,
    records: &[(&str, &str)],
) {
    for (record, reply) in records {
        let receipt = take(rt, book, command(rt, alloc, record));
        check(rt, is_told(alloc, &receipt.reply, reply), record);
    }
}

// Gives a book the commands of a source, up to its end.
fn take_all<P: Positions<A>, A: Allocator + Drop + Clone>(
    rt: &impl Abort,
    source: &mut CsvSource<&[u8]>,
    book: &mut Book<P, A>,
) {
    for _record in 0..1_000 {
        let Some(command) = next(source) else {
            return;
        };
        take(rt, book, command);
    }
    panic!(rt; "too many records");
}

// Gives a book the commands of a text of records.
pub(crate) fn read<P: Positions<A>, A: Allocator + Drop + Clone>(
    rt: &impl Abort,
    alloc: Global,
    book: &mut Book<P, A>,
    records: &str,
) {
    take_all(rt, &mut CsvSource::new(alloc, records.as_bytes()), book);
}

// A new book. It is lent to all else: each way out of a function that owns a book is checked with all that the book promises.
pub(crate) fn new_book(rt: &impl Abort, alloc: Global) -> TreeBook {
    Book::new(alloc, first_day(rt)).expect(rt, "memory")
}
