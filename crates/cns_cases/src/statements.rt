// The statements of a day between the calls of their gate, for tests that fail an allocation.
use crate::desk::OPENING;
use cns_feed::{ReplayBook, load};
use cns_statements::pack;
use cns_terms::{Gate, Worker};
use cns_units::Day;
use std::io::Read;
use std::process::ExitCode;
use std::rt::Runtime;
use std::sync::Wait;
use std::thread::Threads;

// Writes a line to standard error at each call.
#[derive(Drop)]
struct Telling<'a, R> {
    rt: &'a R,
}

impl<'a, R: Eprint> Gate for Telling<'a, R> {
    fn before<W: Wait>(&self, _rt: &W, _worker: Worker, _seq: u32) {
        let _ = self.rt.eprintln("before");
    }

    fn answered<W: Wait>(&self, _rt: &W, _worker: Worker, _seq: u32) {
        let _ = self.rt.eprintln("answered");
    }
}

// Makes the statements of a day by one worker: whether they found their memory.
fn are_made<R: Eprint + AllocGlobal + Threads + Wait + Sync>(
    rt: &R,
    book: &ReplayBook,
    day: Day,
) -> bool {
    match book.sheet(day) {
        Some(sheet) => pack(rt, rt.alloc(), sheet, 1, &Telling { rt }).is_ok(),
        None => false,
    }
}

/// Takes the records of an input and makes the statements of their first day, whose gate writes to standard error. The
/// status is 0 at the end, 3 where the records cannot be read, and 1 where the day is not closed or memory was refused.
pub(crate) fn play<R: Runtime + AllocGlobal + Threads + Wait + Sync, I: Read + Drop>(
    rt: &R,
    input: I,
) -> ExitCode {
    let Ok(day) = Day::parse(OPENING) else {
        return ExitCode::from(3);
    };
    match load(rt.alloc(), input, day) {
        Ok((book, _summary)) => ExitCode::from(u8::from(!are_made(rt, &book, day))),
        Err(_) => ExitCode::from(3),
    }
}
