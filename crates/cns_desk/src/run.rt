// A run of workers over one desk.
ghost use Rattle.std.specs.Prelude.{◌≡◌, ◌<◌, ◌≤◌, ◌↔◌, ◌⊎◌, Err, IfErr, IfOk, length, vec_len};
ghost use Rattle.std.specs.List.{AllByRecursion};
ghost use Rattle.cns_desk.specs.Parts.{AreParts};
ghost use Rattle.cns_desk.specs.Worked.{HaveRun, IsLate};
ghost use Rattle.cns_desk.specs.Seats.{IsFresh};

use crate::auditing::audit;
use crate::desk::Desk;
use crate::end::End;
use crate::fault::RunFault;
use crate::log::Log;
use crate::seat::Seat;
use crate::threads::{Gathered, start_and_join};
use crate::worker::Shared;
use cns_book::Book;
use cns_positions::{Positions, TreePositions};
use cns_terms::{Gate, Source};
use cns_units::Day;
use std::alloc::Global;
use std::marker::Brand;
use std::sync::Wait;
use std::sync::ledger::{Blank, Ledger};
use std::thread;
use std::thread::Threads;

/// The book of a run of workers.
pub type DeskBook = Book<TreePositions<Global>, Global>;

/// What a run of workers came to.
#[derive(Drop)]
pub struct Outcome {
    pub book: DeskBook,
    /// Each worker's log, that of worker 1 first.
    pub logs: Vec<Log>,
    /// How each worker ended, in the same order.
    pub ends: Vec<End>,
}

// Runs a worker for each source at a desk, and waits for all.
fn gather<
    L: Ledger + Send + Sync,
    P: Positions<Global> + Send,
    S: Source + Send + Drop,
    G: Gate + Sync,
    R: Threads + Wait + Sync,
>(
    shared: &Shared<'_, L, P, G, R>,
    seats: Vec<Seat<L>>,
    sources: Vec<S>,
) -> Result<Gathered<L>, RunFault>
    requires one_each { vec_len seats ≡ vec_len sources }
    requires fresh { AllByRecursion IsFresh seats.items }
    ensures seats { IfOk result (λ g. vec_len g.seats ≡ vec_len sources) }
    ensures ran { IfOk result (λ g. HaveRun S.may_fail S.told sources.items g.logs.items g.ends.items) }
    ensures err { IfErr result IsLate }
{
    thread::scope(
        thread::scope_env(),
        shared.rt,
        move |scope| -> Result<Gathered<L>, RunFault>
            requires { (vec_len seats ≡ vec_len sources) × AllByRecursion IsFresh seats.items }
            ensures ok { IfOk result
                (λ g. (vec_len g.seats ≡ vec_len sources)
                × HaveRun S.may_fail S.told sources.items g.logs.items g.ends.items) }
            ensures err { IfErr result IsLate }
        { start_and_join(scope, shared, seats, sources) },
    )
}

// The same on a new desk of the ledger L. What the workers logged is audited before it is handed back.
#[tactic(auto, using(crate::proofs::Joined::at_most, crate::proofs::Joined::run_len))]
fn run_audited<
    L: Ledger + Send + Sync,
    S: Source + Send + Drop,
    G: Gate + Sync,
    R: Threads + Wait + Sync,
>(
    rt: &R,
    alloc: Global,
    blank: Blank,
    date: Day,
    sources: Vec<S>,
    gate: &G,
) -> Result<Outcome, RunFault>
    requires name { blank.name ≡ L.name }
    requires parts { blank.parts ≡ L.parts }
    requires one_each { blank.parts ≡ vec_len sources }
    ensures workers { (result ≡ Err RunFault.Workers) ↔ ((vec_len sources < 1) ⊎ (64 < vec_len sources)) }
    ensures parts { IfOk result (λ o. AreParts o.book.log o.logs.items) }
    ensures ran { IfOk result (λ o. HaveRun S.may_fail S.told sources.items o.logs.items o.ends.items) }
{
    let (desk, seats) = Desk::<L, TreePositions<Global>>::open(alloc, blank, date, sources.len())?;
    let shared = Shared {
        rt,
        alloc,
        desk: &desk,
        gate,
    };
    let Gathered { seats, logs, ends } = gather(&shared, seats, sources)?;
    let book = desk.finish(seats);
    match audit(&book, logs.as_slice()) {
        Ok(()) => Ok(Outcome { book, logs, ends }),
        Err(_) => Err(RunFault::Mismatch),
    }
}

/// Runs a worker for each source, in a thread of its own, over one new book that opens on the date, and waits for all of
/// them. Worker 1 takes the commands of the first source, and so on. The gate is called round each command that is
/// submitted, also one that is not taken. An invalid record is counted and not submitted, and its worker goes on; where a
/// source fails or a command is not taken its worker ends, and the others go on.
///
/// Ok comes only where each log is its worker's part of the book's history, which `audit` shows before it is handed
/// back. Where a source tells its items, its worker's log has their commands in order and the count of invalid ones,
/// up to where the worker ended; all of them where that was at the source's end.
///
/// `Workers` exactly where the sources are not 1 to 64, and then no thread was started. `Spawn` where a thread could not
/// be started, `NoMemory` where an allocation failed outside the workers, `Mismatch` where a log is not its worker's part;
/// the workers that were started have ended then.
pub fn run_workers<S: Source + Send + Drop, G: Gate + Sync, R: Threads + Wait + Sync>(
    rt: &R,
    alloc: Global,
    date: Day,
    sources: Vec<S>,
    gate: &G,
) -> Result<Outcome, RunFault>
    ensures workers { (result ≡ Err RunFault.Workers) ↔ ((vec_len sources < 1) ⊎ (64 < vec_len sources)) }
    ensures parts { IfOk result (λ o. AreParts o.book.log o.logs.items) }
    ensures ran { IfOk result (λ o. HaveRun S.may_fail S.told sources.items o.logs.items o.ends.items) }
{
    let blank = Blank::new(sources.len() as u64);
    run_audited::<Brand, S, G, R>(rt, alloc, blank, date, sources, gate)
}
