// Runs of workers, and the records of two of them.
use crate::desk::inputs::{Records, ending};
use crate::values::first_day;
use cns_desk::{Outcome, run_workers};
use cns_terms::{Gate, Source};
use std::alloc::Global;
use std::io::Write;
use std::process::Abort;
use std::sync::Wait;
use std::thread::Threads;

// Members 101 and 202, and an issue.
pub(crate) const MEMBERS: &str = "MEMBER,101\nMEMBER,202\nISSUE,037833100,19500\n";

// Puts the record of a trade of one share after a text; false where there is no memory.
fn add_trade(text: &mut Vec<u8>, reference: u64) -> bool {
    write!(
        text,
        "TRADE,{reference},101,202,037833100,1,19500,2024-06-03\n"
    )
    .is_ok()
}

// Puts the records of trades of one share after a text, with the references from the first to the last: member 101 buys from
// member 202, for 195 dollars.
fn add_trades(rt: &impl Abort, text: &mut Vec<u8>, first: u64, last: u64) {
    for reference in first..=last {
        assert!(rt; add_trade(text, reference));
    }
}

// Runs a worker for each source.
pub(crate) fn run<S: Source + Send + Drop, G: Gate + Sync, R: Abort + Threads + Wait + Sync>(
    rt: &R,
    alloc: Global,
    sources: Vec<S>,
    gate: &G,
) -> Outcome {
    run_workers(rt, alloc, first_day(rt), sources, gate).expect(rt, "an outcome")
}

// The sources of two workers with these records.
pub(crate) fn two<'a>(rt: &impl Abort, alloc: Global, records: [&'a [u8]; 2]) -> Vec<Records<'a>> {
    let first = ending(alloc, records[0]);
    let second = ending(alloc, records[1]);
    vec![in alloc; first, second].expect(rt, "memory")
}

// The records of a worker: some, and trades with these references.
pub(crate) fn trades(
    rt: &impl Abort,
    alloc: Global,
    before: &str,
    first: u64,
    last: u64,
) -> Vec<u8> {
    let mut text = Vec::from_slice(alloc, before.as_bytes()).expect(rt, "memory");
    add_trades(rt, &mut text, first, last);
    text
}
