// Statements of a whole day: how the accounts are shared out, and that they are made at once.
use crate::book::script::{TreeBook, new_book, read};
use crate::checks::check_at;
use crate::meeting::Meeting;
use crate::values::first_day;
use cns_sheets::Sheet;
use cns_statements::pack;
use cns_terms::{Gate, Worker};
use cns_units::Day;
use std::alloc::Global;
use std::fmt::Write;
use std::process::Abort;
use std::sync::atomic::AtomicU64;
use std::sync::atomic::Ordering::SeqCst;
use std::sync::{Arc, Wait};
use std::thread::Threads;
use std::time::Clock;

// Writes the records of a day on which so many members, 2 at least, have a position, or nobody: all others buy of member 1.
fn write_records(rt: &impl Abort, text: &mut String, members: u16) {
    write!(text, "ISSUE,037833100,19500\nMEMBER,1\n").expect(rt, "memory");
    for number in 2..=members {
        let trade = format_args!("TRADE,{number},{number},1,037833100,1,0,2024-06-03");
        write!(text, "MEMBER,{number}\n{trade}\n").expect(rt, "memory");
    }
    write!(text, "CLOSE,2024-06-04\n").expect(rt, "memory");
}

// The sheet of a book's first day.
fn first_sheet(book: &TreeBook, date: Day) -> Option<Arc<Sheet<Global>>> {
    match book.sheet(date) {
        Some(sheet) => Arc::try_clone(sheet).ok(),
        None => None,
    }
}

fn sheet_of(rt: &impl Abort, alloc: Global, records: &str) -> Option<Arc<Sheet<Global>>> {
    let date = first_day(rt);
    let mut book = new_book(rt, alloc);
    read(rt, alloc, &mut book, records);
    first_sheet(&book, date)
}

// The sheet of that day.
fn sheet_with(rt: &impl Abort, alloc: Global, members: u16) -> Arc<Sheet<Global>> {
    let mut records = String::new(alloc);
    write_records(rt, &mut records, members);
    let sheet = sheet_of(rt, alloc, records.as_str());
    sheet.expect(rt, "a sheet")
}

// Adds up the numbers of the statements of each of the first four workers, before they are made and once they are.
#[derive(Drop)]
struct Made {
    before: [AtomicU64; 4],
    answered: [AtomicU64; 4],
}

fn four_zeros() -> [AtomicU64; 4] {
    [
        AtomicU64::new(0),
        AtomicU64::new(0),
        AtomicU64::new(0),
        AtomicU64::new(0),
    ]
}

fn add(sums: &[AtomicU64; 4], worker: Worker, seq: u32) {
    if let Some(sum) = sums.get(usize::from(worker.value()).saturating_sub(1)) {
        sum.fetch_add(u64::from(seq), SeqCst);
    }
}

impl Gate for Made {
    fn before<R: Wait>(&self, _rt: &R, worker: Worker, seq: u32) {
        add(&self.before, worker, seq);
    }

    fn answered<R: Wait>(&self, _rt: &R, worker: Worker, seq: u32) {
        add(&self.answered, worker, seq);
    }
}

// How many accounts have rows, how many workers make their statements, and the sums of the numbers of those that each of
// the first four makes: 1 and 2 make 3, 1 to 16 make 136.
const PARTS: [(u16, usize, [u64; 4]); 6] = [
    (0, 2, [0, 0, 0, 0]),
    (2, 3, [0, 1, 1, 0]),
    (3, 3, [1, 1, 1, 0]),
    (7, 1, [28, 0, 0, 0]),
    (7, 3, [3, 3, 6, 0]),
    (64, 4, [136, 136, 136, 136]),
];

// Whether a gate was told these sums, before and after.
fn has_sums(made: &Made, wanted: &[u64; 4]) -> bool {
    for (sums, wanted) in made.before.iter().zip(&made.answered).zip(wanted) {
        if (sums.0.load(SeqCst), sums.1.load(SeqCst)) != (*wanted, *wanted) {
            return false;
        }
    }
    true
}

// Whether packing a sheet by so many workers tells a gate these sums.
fn are_told<R: Threads + Wait + Sync>(
    rt: &R,
    alloc: Global,
    sheet: &Arc<Sheet<Global>>,
    workers: usize,
    wanted: &[u64; 4],
) -> bool {
    let made = Made {
        before: four_zeros(),
        answered: four_zeros(),
    };
    pack(rt, alloc, sheet, workers, &made).is_ok() && has_sums(&made, wanted)
}

#[test]
fn a_gate_stands_around_each_statement_and_the_parts_are_even(rt: HostRuntime) {
    for (members, workers, wanted) in &PARTS {
        let sheet = sheet_with(&rt, rt.alloc(), *members);
        let is_so = are_told(&rt, rt.alloc(), &sheet, *workers, wanted);
        check_at(&rt, is_so, u64::from(*members));
    }
}

// Whether so many workers have begun their first statements of a sheet before any of them went on.
fn are_made_at_once<R: Clock + Threads + Wait + Sync>(
    rt: &R,
    alloc: Global,
    sheet: &Arc<Sheet<Global>>,
    workers: u16,
) -> bool {
    let gate = Meeting::new(rt, u64::from(workers));
    pack(rt, alloc, sheet, usize::from(workers), &gate).is_ok() && gate.is_in_time()
}

#[test]
fn statements_are_made_at_once(rt: HostRuntime) {
    for workers in [2, 8, 64] {
        let sheet = sheet_with(&rt, rt.alloc(), workers);
        let is_so = are_made_at_once(&rt, rt.alloc(), &sheet, workers);
        check_at(&rt, is_so, u64::from(workers));
    }
}
