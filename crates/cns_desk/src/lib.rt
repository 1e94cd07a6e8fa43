//! The desk: one book under one lock, at which several workers take commands side by side.
//!
//! Each worker has a seat. `Desk::submit` takes one command of a seat's worker while the lock is held, so the book's
//! history puts all commands in one order, and it is legal as any book's is. A ledger is kept beside the book: its
//! total is the length of the history, and each seat holds a share of it that is the seat's count; so `Desk::finish`
//! gives a book whose history is exactly as long as the counts add up to. What a worker was answered is kept in its
//! `Log`, and `audit` shows that each log is its worker's part of the history, entry by entry. `run_workers` does all of
//! it for a list of sources, one thread a source.
//!
//! What the lock holds is in `kept.rt`, where to start; contracts see it as the book's own model. What the audit shows
//! stands in `specs/Parts.antt`, what a worker makes of its source in `specs/Worked.antt`. A run is in three files: the
//! run of all workers from a new desk to the audit in `run.rt`, their threads in `threads.rt`, and what one worker does in
//! `worker.rt`. No clause speaks of progress or of the order between workers; tests show that workers run at once.
#![tactic(auto)]

mod auditing;
mod desk;
mod end;
mod fault;
mod kept;
mod log;
mod run;
mod seat;
mod threads;
mod worker;

pub use auditing::{Mismatch, audit};
pub use desk::Desk;
pub use end::End;
pub use fault::{OpenFault, RunFault};
pub use kept::Kept;
pub use log::{Log, LogItem};
pub use run::{DeskBook, Outcome, run_workers};
pub use seat::Seat;
