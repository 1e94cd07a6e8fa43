// Audits of the logs of two workers, as they are and with a command changed.
use cns_desk::{DeskBook, Log, LogItem, Outcome, audit};
use cns_terms::{Activity, Command};
use std::alloc::Global;
use std::process::Abort;

// A command that no worker of the test gives.
const OTHER: Command = Command::Activity(Activity::Withdraw(7));

// Puts the items of a log into another, with another command at a place, which counts from 1.
fn copy(rt: &impl Abort, copy: &mut Log, log: &Log, changed: usize) {
    for (at, item) in log.items().iter().enumerate() {
        let is_changed = at.saturating_add(1) == changed;
        copy.reserve().expect(rt, "memory");
        copy.push(LogItem {
            receipt: item.receipt,
            command: if is_changed { OTHER } else { item.command },
            sheet: None,
        });
    }
}

fn copied(rt: &impl Abort, alloc: Global, log: &Log, changed: usize) -> Log {
    let mut copied = Log::new(alloc);
    copy(rt, &mut copied, log, changed);
    copied
}

// The worker and the place that an audit of these logs finds.
fn found_by_audit(rt: &impl Abort, book: &DeskBook, logs: &[Log]) -> Option<(u8, usize)> {
    assert!(rt; logs.len() <= 64);
    let mismatch = audit(book, logs).err()?;
    Some((mismatch.worker.value(), mismatch.place))
}

// The logs of an outcome, each changed at a place.
fn all_copied(rt: &impl Abort, alloc: Global, outcome: &Outcome, changed: &[usize; 2]) -> Vec<Log> {
    let mut logs = Vec::new(alloc);
    for (log, place) in outcome.logs.as_slice().iter().zip(changed) {
        let log = copied(rt, alloc, log, *place);
        logs.push(log).expect(rt, "memory");
    }
    logs
}

// Where the logs of two workers with fifty items each are changed, 0 for nowhere, and what an audit finds.
const CHANGES: [([usize; 2], Option<(u8, usize)>); 4] = [
    ([0, 0], None),
    ([1, 0], Some((1, 1))),
    ([0, 30], Some((2, 30))),
    ([50, 1], Some((1, 50))),
];

// Whether audits of an outcome's logs name each change.
pub(crate) fn are_named(rt: &impl Abort, alloc: Global, outcome: &Outcome) -> bool {
    for (changed, wanted) in &CHANGES {
        let logs = all_copied(rt, alloc, outcome, changed);
        if found_by_audit(rt, &outcome.book, logs.as_slice()) != *wanted {
            return false;
        }
    }
    true
}
