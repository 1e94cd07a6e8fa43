// Workers in threads of their own.
ghost use Rattle.std.specs.Prelude.{◌≡◌, ◌+◌, ◌<◌, ◌≤◌, ◌↔◌, ◌⊎◌, Err, IfErr, IfOk, IfSome, length, vec_len};
ghost use Rattle.std.specs.List.{AllByRecursion};
ghost use Rattle.cns_desk.specs.Worked.{HaveRun, IsLate, Worked};
ghost use Rattle.cns_desk.specs.Seats.{IsFresh};
ghost use Rattle.cns_desk.specs.Promised.{promised};

use crate::end::End;
use crate::fault::RunFault;
use crate::log::Log;
use crate::seat::Seat;
use crate::worker::{Done, Shared, work};
use cns_positions::Positions;
use cns_terms::{Gate, Source};
use std::alloc::Global;
use std::snapshot::Snapshot;
use std::sync::Wait;
use std::sync::ledger::Ledger;
use std::thread::{Promise, PromisedHandle, Scope, Threads};

// What a thread promises: the log and the end are those of the source that it was given.
#[derive(Drop)]
pub(crate) struct Works<S: Source>(Snapshot<S>);

impl<L: Ledger, S: Source> Promise<Done<L>> for Works<S> {
    ghost kept_by = { λ p r. IfSome (S.told p.0.value) (λ t. Worked S.may_fail t r.log r.end) };
}

// What the workers handed back, in order.
#[derive(Drop)]
pub(crate) struct Gathered<L: Ledger> {
    pub(crate) seats: Vec<Seat<L>>,
    pub(crate) logs: Vec<Log>,
    pub(crate) ends: Vec<End>,
}

// Starts a worker.
fn start<
    's,
    'e,
    L: Ledger + Send + Sync + 'e,
    P: Positions<Global> + Send + 'e,
    S: Source + Send + Drop + 'e,
    G: Gate + Sync,
    R: Threads + Wait + Sync,
>(
    scope: &'s Scope<'s, &'e ()>,
    shared: &'e Shared<'e, L, P, G, R>,
    seat: Seat<L>,
    source: S,
) -> Result<PromisedHandle<Done<L>, Works<S>>, RunFault>
    requires { seat.count ≡ 0 }
    ensures promise { IfOk result (λ h. h.promise.0.value ≡ source) }
    ensures err { IfErr result IsLate }
{
    let promise = Works(Snapshot::of(&source));
    let job = move || -> Done<L>
        requires { seat.count ≡ 0 }
        ensures { IfSome (S.told source) (λ t. Worked S.may_fail t result.log result.end) }
    { work(shared, seat, source) };
    match scope.spawn_with(promise, job) {
        Ok(handle) => Ok(handle),
        Err(_) => Err(RunFault::Spawn),
    }
}

// Starts a worker for each source, in order.
fn start_all<
    's,
    'e,
    L: Ledger + Send + Sync + 'e,
    P: Positions<Global> + Send + 'e,
    S: Source + Send + Drop + 'e,
    G: Gate + Sync,
    R: Threads + Wait + Sync,
>(
    scope: &'s Scope<'s, &'e ()>,
    shared: &'e Shared<'e, L, P, G, R>,
    seats: Vec<Seat<L>>,
    sources: Vec<S>,
) -> Result<Vec<PromisedHandle<Done<L>, Works<S>>>, RunFault>
    requires one_each { vec_len seats ≡ vec_len sources }
    requires fresh { AllByRecursion IsFresh seats.items }
    ensures promised { IfOk result (λ v. promised v.items ≡ sources.items) }
    ensures err { IfErr result IsLate }
{
    let mut seats = seats;
    let mut sources = sources;
    let mut handles = Vec::new(shared.alloc);
    'starting: while !sources.is_empty() {
        let seat = seats.remove(0);
        let source = sources.remove(0);
        let handle = start(scope, shared, seat, source)?;
        handles.push(handle)?;
    }
    Ok(handles)
}

// Joins the workers, in order.
fn join_all<L: Ledger, S: Source, R: Threads>(
    rt: &R,
    alloc: Global,
    handles: Vec<PromisedHandle<Done<L>, Works<S>>>,
) -> Result<Gathered<L>, RunFault>
    ensures seats { IfOk result (λ g. vec_len g.seats ≡ vec_len handles) }
    ensures ran { IfOk result (λ g. HaveRun S.may_fail S.told (promised handles.items) g.logs.items g.ends.items) }
    ensures err { IfErr result IsLate }
{
    let mut handles = handles;
    let mut seats = Vec::new(alloc);
    let mut logs = Vec::new(alloc);
    let mut ends = Vec::new(alloc);
    'joining: while !handles.is_empty() {
        let handle = handles.remove(0);
        let Done { seat, log, end } = handle.join(rt);
        seats.push(seat)?;
        logs.push(log)?;
        ends.push(end)?;
    }
    Ok(Gathered { seats, logs, ends })
}

// Starts a worker for each source, and joins them all.
pub(crate) fn start_and_join<
    's,
    'e,
    L: Ledger + Send + Sync + 'e,
    P: Positions<Global> + Send + 'e,
    S: Source + Send + Drop + 'e,
    G: Gate + Sync,
    R: Threads + Wait + Sync,
>(
    scope: &'s Scope<'s, &'e ()>,
    shared: &'e Shared<'e, L, P, G, R>,
    seats: Vec<Seat<L>>,
    sources: Vec<S>,
) -> Result<Gathered<L>, RunFault>
    requires one_each { vec_len seats ≡ vec_len sources }
    requires fresh { AllByRecursion IsFresh seats.items }
    ensures seats { IfOk result (λ g. vec_len g.seats ≡ vec_len sources) }
    ensures ran { IfOk result (λ g. HaveRun S.may_fail S.told sources.items g.logs.items g.ends.items) }
    ensures err { IfErr result IsLate }
{
    let handles = start_all(scope, shared, seats, sources)?;
    join_all(shared.rt, shared.alloc, handles)
}
