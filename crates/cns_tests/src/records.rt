// Commands from the records that a clerk writes.
use cns_feed::CsvSource;
use cns_terms::{Command, Item, Source};
use std::alloc::Global;
use std::process::Abort;

// The next command. A check of a caller need not go through all that a source promises of it.
pub(crate) fn next(source: &mut CsvSource<&[u8]>) -> Option<Command> {
    match source.next() {
        Ok(Item::Given(command)) => Some(command),
        _ => None,
    }
}

// The command of a record.
pub(crate) fn command(rt: &impl Abort, alloc: Global, record: &str) -> Command {
    let command = next(&mut CsvSource::new(alloc, record.as_bytes()));
    command.expect(rt, "a command")
}
