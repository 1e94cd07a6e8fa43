// Workers that wait for one another, and sources that fail.
ghost use Rattle.std.specs.Prelude.{Err, None, Some, true};
ghost use Rattle.cns_terms.specs.declared.source.SourceFault.TheVariants as fault;

use crate::desk::audits::are_named;
use crate::desk::inputs::{ending, failing};
use crate::desk::runs::{MEMBERS, run, trades, two};
use crate::meeting::{MOST_TURNS, Meeting};
use crate::values::{APPLE, account, cusip};
use cns_book::Book;
use cns_desk::{End, LogItem, Outcome};
use cns_feed::reply_text;
use cns_positions::Positions;
use cns_terms::{Gate, Item, NoGate, Source, SourceFault, Worker};
use std::alloc::Global;
use std::process::Abort;
use std::sync::Wait;
use std::sync::atomic::AtomicU64;
use std::sync::atomic::Ordering::SeqCst;
use std::thread;
use std::thread::Threads;
use std::time::{Clock, Duration};

// Holds worker 2's first command until worker 1 has so many answers.
#[derive(Drop)]
struct After<C> {
    clock: C,
    wanted: u64,
    answered: AtomicU64,
}

impl<C> After<C> {
    fn new(clock: C, wanted: u64) -> After<C> {
        After {
            clock,
            wanted,
            answered: AtomicU64::new(0),
        }
    }
}

impl<C: Clock> Gate for After<C> {
    fn before<R: Wait>(&self, _rt: &R, worker: Worker, seq: u32) {
        if worker.value() != 2 || seq != 1 {
            return;
        }
        for _turn in 0..MOST_TURNS {
            if self.answered.load(SeqCst) >= self.wanted {
                return;
            }
            thread::sleep(&self.clock, Duration::from_millis(1));
        }
    }

    fn answered<R: Wait>(&self, _rt: &R, worker: Worker, _seq: u32) {
        if worker.value() == 1 {
            self.answered.fetch_add(1, SeqCst);
        }
    }
}

// Adds up what it is told: ten thousand for each worker's number, and the number of the command.
#[derive(Drop)]
struct Tally {
    before: AtomicU64,
    answered: AtomicU64,
}

fn told(worker: Worker, seq: u32) -> u64 {
    u64::from(worker.value()) * 10_000 + u64::from(seq)
}

impl Tally {
    fn are(&self, sum: u64) -> bool {
        self.before.load(SeqCst) == sum && self.answered.load(SeqCst) == sum
    }
}

impl Gate for Tally {
    fn before<R: Wait>(&self, _rt: &R, worker: Worker, seq: u32) {
        self.before.fetch_add(told(worker, seq), SeqCst);
    }

    fn answered<R: Wait>(&self, _rt: &R, worker: Worker, seq: u32) {
        self.answered.fetch_add(told(worker, seq), SeqCst);
    }
}

// What a run of two workers is to come to.
#[derive(Clone, Copy)]
struct Wanted<'a> {
    // Why each worker ended, and how many items and lines its log has.
    ends: [(End, usize, u32); 2],
    // The second one's replies, where they are looked at.
    told: Option<&'a str>,
    // The shares of member 101, and the cents that were booked for them.
    held: Option<(i64, i128)>,
    // Whether audits of its logs, of fifty items each, are to name each change.
    is_audited: bool,
}

// Whether the workers have ended so, and the history is as long as their logs.
fn have_ended(outcome: &Outcome, wanted: &[(End, usize, u32); 2]) -> bool {
    let [end, other_end] = outcome.ends.as_slice() else {
        return false;
    };
    let [log, other_log] = outcome.logs.as_slice() else {
        return false;
    };
    (*end, log.items().len(), log.lines()) == wanted[0]
        && (*other_end, other_log.items().len(), other_log.lines()) == wanted[1]
        && outcome.book.history_len() == wanted[0].1.saturating_add(wanted[1].1)
}

// Whether a log's replies are this text.
fn is_told(alloc: Global, items: &[LogItem], text: &str) -> bool {
    let mut told = Vec::new(alloc);
    for item in items {
        if reply_text(&item.receipt.reply, &mut told).is_err() {
            return false;
        }
    }
    told.as_slice() == text.as_bytes()
}

// Whether the second worker's replies are this text.
fn second_is_told(alloc: Global, outcome: &Outcome, text: &str) -> bool {
    match outcome.logs.as_slice() {
        [_, log] => is_told(alloc, log.items(), text),
        _ => false,
    }
}

// The shares of member 101, and the cents that were booked for them.
fn held<P: Positions<Global>>(rt: &impl Abort, book: &Book<P, Global>) -> Option<(i64, i128)> {
    match book.position(account(rt, 101), cusip(rt, APPLE)) {
        Some(held) => Some((held.now, held.contract.value())),
        None => None,
    }
}

fn is_wanted(rt: &impl Abort, alloc: Global, outcome: &Outcome, wanted: &Wanted) -> bool {
    let is_told = match wanted.told {
        Some(text) => second_is_told(alloc, outcome, text),
        None => true,
    };
    is_told
        && have_ended(outcome, &wanted.ends)
        && held(rt, &outcome.book) == wanted.held
        && (!wanted.is_audited || are_named(rt, alloc, outcome))
}

// Whether workers come to this. No other function here has an outcome, which makes each way out of one long to check.
fn come_to<S: Source + Send + Drop, G: Gate + Sync, R: Abort + Threads + Wait + Sync>(
    rt: &R,
    alloc: Global,
    sources: Vec<S>,
    gate: &G,
    wanted: &Wanted,
) -> bool {
    let outcome = run(rt, alloc, sources, gate);
    is_wanted(rt, alloc, &outcome, wanted)
}

// The same of two workers with these records.
fn two_come_to<G: Gate + Sync, R: Abort + Threads + Wait + Sync>(
    rt: &R,
    alloc: Global,
    records: [&[u8]; 2],
    gate: &G,
    wanted: &Wanted,
) -> bool {
    come_to(rt, alloc, two(rt, alloc, records), gate, wanted)
}

const THREE_MEMBERS: [&[u8]; 2] = [b"MEMBER,101\nMEMBER,202\n", b"MEMBER,303\n"];

const THREE: Wanted<'static> = Wanted {
    ends: [(End::Complete, 2, 0), (End::Complete, 1, 0)],
    told: Some("ok\n"),
    held: None,
    is_audited: false,
};

#[test]
fn workers_run_at_once(rt: HostRuntime) {
    let gate = Meeting::new(&rt, 2);
    assert!(&rt; two_come_to(&rt, rt.alloc(), THREE_MEMBERS, &gate, &THREE) && gate.is_in_time());
}

// A trade of one worker, after which the other asks for a position.
const TRADE_AND_QUESTION: [&[u8]; 2] = [
    b"MEMBER,101\nMEMBER,202\nISSUE,037833100,19500\n\
TRADE,1,101,202,037833100,5,97500,2024-06-03\n",
    b"POSITION,101,037833100\n",
];

const SHOWN: Wanted<'static> = Wanted {
    ends: [(End::Complete, 4, 0), (End::Complete, 1, 0)],
    told: Some("position 101 037833100 5 0 -975.00 0\n"),
    held: Some((5, -97_500)),
    is_audited: false,
};

#[test]
fn a_reply_shows_what_another_worker_was_answered_before(rt: HostRuntime) {
    let gate = After::new(&rt, 4);
    assert!(&rt; two_come_to(&rt, rt.alloc(), TRADE_AND_QUESTION, &gate, &SHOWN));
}

// All trades are booked.
const HUNDRED: Wanted<'static> = Wanted {
    ends: [(End::Complete, 50, 0), (End::Complete, 50, 0)],
    told: None,
    held: Some((97, -1_891_500)),
    is_audited: true,
};

// Two workers of fifty commands each. Trades of the second are refused until the first has given three.
fn hundred_come_to<G: Gate + Sync, R: Abort + Threads + Wait + Sync>(
    rt: &R,
    alloc: Global,
    gate: &G,
    wanted: &Wanted,
) -> bool {
    let first = trades(rt, alloc, MEMBERS, 1, 47);
    let second = trades(rt, alloc, "", 101, 150);
    two_come_to(
        rt,
        alloc,
        [first.as_slice(), second.as_slice()],
        gate,
        wanted,
    )
}

#[test]
fn a_hundred_commands_of_two_workers_are_one_history_and_an_audit_names_the_first_place_that_differs(
    rt: HostRuntime,
) {
    let gate = After::new(&rt, 3);
    assert!(&rt; hundred_come_to(&rt, rt.alloc(), &gate, &HUNDRED));
}

// The first one's source fails.
const FAILED: Wanted<'static> = Wanted {
    ends: [
        (End::Source(SourceFault::Read), 2, 1),
        (End::Complete, 1, 0),
    ],
    told: Some("ok\n"),
    held: None,
    is_audited: false,
};

#[test]
fn a_source_that_fails_ends_its_worker_and_no_other(rt: HostRuntime) {
    let first = failing(rt.alloc(), b"MEMBER,101\nMEMBER,x\nMEMBER,202\n");
    let second = ending(rt.alloc(), b"MEMBER,303\n");
    let sources = vec![in rt.alloc(); first, second].expect(&rt, "memory");
    assert!(&rt; come_to(&rt, rt.alloc(), sources, &NoGate, &FAILED));
}

// A source that finds no memory for its first record.
#[derive(Drop)]
struct Starved;

impl Source for Starved {
    ghost told = { λ _. None };

    ghost ended = { λ _. Some (Err fault.NoMemory) };

    ghost may_fail = { true };

    fn next(&mut self) -> Result<Item, SourceFault> {
        Err(SourceFault::NoMemory)
    }
}

const STARVED: Wanted<'static> = Wanted {
    ends: [
        (End::Source(SourceFault::NoMemory), 0, 0),
        (End::Source(SourceFault::NoMemory), 0, 0),
    ],
    told: Some(""),
    held: None,
    is_audited: false,
};

#[test]
fn a_source_without_memory_ends_its_worker(rt: HostRuntime) {
    let sources = vec![in rt.alloc(); Starved, Starved].expect(&rt, "memory");
    assert!(&rt; come_to(&rt, rt.alloc(), sources, &NoGate, &STARVED));
}

const WITH_FAULTS: [&[u8]; 2] = [
    b"MEMBER,x\nMEMBER,101\nMEMBER,x\nMEMBER,202\n",
    b"MEMBER,303\n",
];

const FAULTS: Wanted<'static> = Wanted {
    ends: [(End::Complete, 2, 2), (End::Complete, 1, 0)],
    told: Some("ok\n"),
    held: None,
    is_audited: false,
};

#[test]
fn a_gate_stands_around_each_command_and_no_record_at_fault(rt: HostRuntime) {
    let gate = Tally {
        before: AtomicU64::new(0),
        answered: AtomicU64::new(0),
    };
    assert!(&rt; two_come_to(&rt, rt.alloc(), WITH_FAULTS, &gate, &FAULTS) && gate.are(40_004));
}
