// All statements of a day at once.
ghost use Rattle.std.specs.Prelude.{◌≡◌, ◌<◌, ◌≤◌, ◌↔◌, ◌⊎◌, Err, IfErr, IfOk, map, vec_len};
ghost use Rattle.std.specs.Arc.{arc_value};
ghost use Rattle.std.specs.List.{flat_map};
ghost use Rattle.cns_statements.specs.Packs.{statement_on, statements_of};
ghost use Rattle.cns_statements.specs.Promised.{IsLate};

use crate::contents::Statement;
use crate::fault::PackFault;
use crate::packing::{accounts, parts_of};
use crate::workers::gather;
use cns_sheets::Sheet;
use cns_terms::Gate;
use cns_units::Account;
use std::alloc::Global;
use std::sync::{Arc, Wait};
use std::thread;
use std::thread::Threads;

// Makes the statements of the accounts of all parts, in order, a worker for each part.
fn pack_parts<G: Gate + Sync, R: Threads + Wait + Sync>(
    rt: &R,
    alloc: Global,
    sheet: &Sheet<Global>,
    gate: &G,
    parts: Vec<Vec<Account>>,
) -> Result<Vec<Statement<Global>>, PackFault>
    requires { vec_len parts ≤ 64 }
    ensures ok { IfOk result (λ v. v.items ≡ map (statement_on sheet.now) (flat_map (λ p. p.items) parts.items)) }
    ensures err { IfErr result IsLate }
{
    thread::scope(
        thread::scope_env(),
        rt,
        move |scope| -> Result<Vec<Statement<Global>>, PackFault>
            requires { vec_len parts ≤ 64 }
            ensures ok { IfOk result
                (λ v. v.items ≡ map (statement_on sheet.entry.now) (flat_map (λ p. p.items) parts.items)) }
            ensures err { IfErr result IsLate }
        { gather(scope, rt, alloc, sheet, gate, parts) },
    )
}

/// The statements of all accounts that have a row on the sheet, the corporation's among them, in the order of accounts.
/// They are made by so many workers, each in a thread of its own, and are the same for any number of them. The gate is
/// called round each statement, with the worker and the number of the statement among the worker's. Where there are at
/// least as many accounts as workers, each worker makes one or more.
///
/// `Workers` exactly where the workers are not 1 to 64, and then no thread was started; `Spawn` where a thread could not
/// be started, `NoMemory` where an allocation failed.
pub fn pack<G: Gate + Sync, R: Threads + Wait + Sync>(
    rt: &R,
    alloc: Global,
    sheet: &Arc<Sheet<Global>>,
    workers: usize,
    gate: &G,
) -> Result<Vec<Statement<Global>>, PackFault>
    ensures workers { (result ≡ Err PackFault.Workers) ↔ ((workers < 1) ⊎ (64 < workers)) }
    ensures ok { IfOk result (λ v. v.items ≡ statements_of (arc_value sheet.now)) }
{
    if workers < 1 || workers > 64 {
        return Err(PackFault::Workers);
    }
    let sheet: &Sheet<Global> = sheet;
    let accounts = accounts(alloc, sheet.rows())?;
    let parts = parts_of(alloc, accounts.as_slice(), workers)?;
    pack_parts(rt, alloc, sheet, gate, parts)
}
