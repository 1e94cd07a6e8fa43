// Commands, replies and statements as the texts that a clerk reads.
use crate::values::account;
use cns_feed::{CsvSource, reply_text};
use cns_sheets::Sheet;
use cns_statements::{statement, write_statement};
use cns_terms::{Command, Item, Reply, Source};
use std::alloc::Global;
use std::process::Abort;

// Puts the commands of a text of records, none of which is invalid, into a list.
fn read(rt: &impl Abort, alloc: Global, records: &str, commands: &mut Vec<Command>) {
    let mut source = CsvSource::new(alloc, records.as_bytes());
    for _record in 0..=records.len() {
        match source.next() {
            Ok(Item::Given(command)) => commands.push(command).expect(rt, "memory"),
            Ok(Item::Finished) => return,
            _ => panic!(rt; "no command"),
        }
    }
    panic!(rt; "no end of the records");
}

pub(crate) fn commands(rt: &impl Abort, alloc: Global, records: &str) -> Vec<Command> {
    let mut commands = Vec::new(alloc);
    read(rt, alloc, records, &mut commands);
    commands
}

// Whether two replies are the same. A check of a caller need not go through all that a reply may be.
pub(crate) fn are_same(one: &Reply, other: &Reply) -> bool {
    one.is_same(other)
}

// Puts the line of a reply after a text.
pub(crate) fn tell(rt: &impl Abort, text: &mut Vec<u8>, reply: &Reply) {
    reply_text(reply, text).expect(rt, "a text");
}

// Whether an account's statement has this text.
pub(crate) fn is_stated(
    rt: &impl Abort,
    alloc: Global,
    sheet: &Sheet<Global>,
    number: u16,
    text: &str,
) -> bool {
    let account = account(rt, number);
    let mut told = Vec::new(alloc);
    match statement(alloc, sheet, account) {
        Ok(statement) => {
            write_statement(&statement, &mut told).is_ok() && told.as_slice() == text.as_bytes()
        }
        Err(_) => false,
    }
}
