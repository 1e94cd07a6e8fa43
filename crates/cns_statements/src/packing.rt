// The statements of a whole day, made by several workers.
ghost use Rattle.std.specs.Prelude.{◌≡◌, ◌≤◌, IfOk, Some, None, map, vec_len};
ghost use Rattle.std.specs.List.{flat_map};
ghost use Rattle.cns_statements.specs.Packs.{accounts_of, is_next, statement_on};

use crate::contents::Statement;
use crate::cut::statement;
use cns_sheets::{Sheet, SheetRows};
use cns_terms::{Gate, NoMemory, Worker};
use cns_units::Account;
use std::alloc::Global;
use std::sync::Wait;

// Whether an account is not the one before.
fn is_next(before: Option<Account>, account: Account) -> bool
    ensures { result ≡ is_next before account }
{
    match before {
        Some(other) => other != account,
        None => true,
    }
}

// The accounts that have a row, in the order of rows.
pub(crate) fn accounts(alloc: Global, rows: SheetRows<'_, Global>) -> Result<Vec<Account>, NoMemory>
    ensures { IfOk result (λ v. v.items ≡ accounts_of rows.entry) }
{
    let mut accounts = Vec::new(alloc);
    let mut before = None;
    for row in rows {
        if is_next(before, row.account) {
            accounts.push(row.account)?;
        }
        before = Some(row.account);
    }
    Ok(accounts)
}

// Cuts accounts into as many parts as there are workers, in order; each has one where there are enough.
pub(crate) fn parts_of(
    alloc: Global,
    accounts: &[Account],
    workers: usize,
) -> Result<Vec<Vec<Account>>, NoMemory>
    requires { (1 ≤ workers) × (workers ≤ 64) }
    ensures count { IfOk result (λ v. vec_len v ≡ workers) }
    ensures whole { IfOk result (λ v. flat_map (λ p. p.items) v.items ≡ accounts.now) }
{
    let mut parts = Vec::new(alloc);
    let mut rest = accounts;
    for taken in 0..workers {
        let (part, more) = rest.split_at(rest.len() / (workers - taken));
        let part = Vec::from_slice(alloc, part)?;
        parts.push(part)?;
        rest = more;
    }
    Ok(parts)
}

// Makes the statements of some accounts, each between the calls of the gate, also one that finds no memory.
pub(crate) fn make<G: Gate, R: Wait>(
    rt: &R,
    alloc: Global,
    sheet: &Sheet<Global>,
    gate: &G,
    worker: Worker,
    accounts: &[Account],
) -> Result<Vec<Statement<Global>>, NoMemory>
    ensures { IfOk result (λ v. v.items ≡ map (statement_on sheet.now) accounts.now) }
{
    let mut made = Vec::new(alloc);
    let mut seq: u32 = 0;
    for account in accounts {
        // A sheet has at most 10,000 accounts, so the number is exact.
        seq = seq.saturating_add(1);
        gate.before(rt, worker, seq);
        let answer = statement(alloc, sheet, *account);
        gate.answered(rt, worker, seq);
        made.push(answer?)?;
    }
    Ok(made)
}
