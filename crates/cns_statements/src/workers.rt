// Workers in threads of their own, each with its part of the accounts.
ghost use Rattle.std.specs.Prelude.{◌≡◌, ◌≤◌, IfErr, IfOk, map, vec_len};
ghost use Rattle.std.specs.List.{flat_map};
ghost use Rattle.cns_statements.specs.Packs.{statement_on};
ghost use Rattle.cns_statements.specs.Promised.{AllAre, IsLate, told};

use crate::contents::Statement;
use crate::fault::PackFault;
use crate::packing::make;
use cns_sheets::Sheet;
use cns_terms::{Gate, NoMemory, Worker};
use cns_units::Account;
use std::alloc::Global;
use std::snapshot::Snapshot;
use std::sync::Wait;
use std::thread::{Promise, PromisedHandle, Scope, Threads};

// What a worker hands back.
type Made = Result<Vec<Statement<Global>>, NoMemory>;

// What a thread promises: its statements are those of its accounts, on the sheet that it was given.
#[derive(Drop)]
pub(crate) struct Makes {
    sheet: Snapshot<Sheet<Global>>,
    accounts: Snapshot<Vec<Account>>,
}

impl Promise<Made> for Makes {
    ghost kept_by = { λ p r. IfOk r (λ v. v.items ≡ map (statement_on p.sheet.value) p.accounts.value.items) };
}

// Starts a worker.
fn start<'s, 'e, G: Gate + Sync, R: Threads + Wait + Sync>(
    scope: &'s Scope<'s, &'e ()>,
    rt: &'e R,
    alloc: Global,
    sheet: &'e Sheet<Global>,
    gate: &'e G,
    worker: Worker,
    accounts: Vec<Account>,
) -> Result<PromisedHandle<Made, Makes>, PackFault>
    ensures sheet { IfOk result (λ h. h.promise.sheet.value ≡ sheet.now) }
    ensures accounts { IfOk result (λ h. h.promise.accounts.value ≡ accounts) }
    ensures err { IfErr result IsLate }
{
    let promise = Makes {
        sheet: Snapshot::of(sheet),
        accounts: Snapshot::of(&accounts),
    };
    let job = move || -> Made
        ensures { IfOk result (λ v. v.items ≡ map (statement_on sheet.entry.now) accounts.items) }
    { make(rt, alloc, sheet, gate, worker, accounts.as_slice()) };
    match scope.spawn_with(promise, job) {
        Ok(handle) => Ok(handle),
        Err(_) => Err(PackFault::Spawn),
    }
}

// Starts a worker for each part, in order.
fn start_all<'s, 'e, G: Gate + Sync, R: Threads + Wait + Sync>(
    scope: &'s Scope<'s, &'e ()>,
    rt: &'e R,
    alloc: Global,
    sheet: &'e Sheet<Global>,
    gate: &'e G,
    parts: Vec<Vec<Account>>,
) -> Result<Vec<PromisedHandle<Made, Makes>>, PackFault>
    requires { vec_len parts ≤ 64 }
    ensures all { IfOk result (λ v. AllAre sheet.now parts.items v.items) }
    ensures err { IfErr result IsLate }
{
    let mut parts = parts;
    let mut handles = Vec::new(alloc);
    let mut number = 0;
    'starting: while !parts.is_empty() {
        number += 1;
        let Ok(worker) = Worker::new(number) else {
            unreachable!()
        };
        let part = parts.remove(0);
        let handle = start(scope, rt, alloc, sheet, gate, worker, part)?;
        let Ok(()) = handles.push(handle) else {
            return Err(PackFault::NoMemory);
        };
    }
    Ok(handles)
}

// Joins the workers, in order.
#[tactic(auto, using(crate::proofs::Joined::told_more))]
fn join_all<R: Threads>(
    rt: &R,
    alloc: Global,
    handles: Vec<PromisedHandle<Made, Makes>>,
) -> Result<Vec<Statement<Global>>, PackFault>
    ensures ok { IfOk result (λ v. v.items ≡ told handles.items) }
    ensures err { IfErr result IsLate }
{
    let mut handles = handles;
    let mut all = Vec::new(alloc);
    'joining: while !handles.is_empty() {
        let handle = handles.remove(0);
        let mut made = handle.join(rt)?;
        let Ok(()) = all.append(&mut made) else {
            return Err(PackFault::NoMemory);
        };
    }
    Ok(all)
}

// Starts a worker for each part, and joins them all.
#[tactic(auto, using(crate::proofs::Joined::told_all))]
pub(crate) fn gather<'s, 'e, G: Gate + Sync, R: Threads + Wait + Sync>(
    scope: &'s Scope<'s, &'e ()>,
    rt: &'e R,
    alloc: Global,
    sheet: &'e Sheet<Global>,
    gate: &'e G,
    parts: Vec<Vec<Account>>,
) -> Result<Vec<Statement<Global>>, PackFault>
    requires { vec_len parts ≤ 64 }
    ensures ok { IfOk result (λ v. v.items ≡ map (statement_on sheet.now) (flat_map (λ p. p.items) parts.items)) }
    ensures err { IfErr result IsLate }
{
    let handles = start_all(scope, rt, alloc, sheet, gate, parts)?;
    join_all(rt, alloc, handles)
}
