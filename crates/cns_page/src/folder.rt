// The pages of a closed day as files of a folder: that of each account, and that of the day, with links between them.
ghost use Rattle.std.specs.Prelude.{◌≡◌, IfOk, OnOk};
ghost use Rattle.cns_page.specs.Folder.{KeepsDay, KeepsOwn, accounts_on};

use crate::account::own_page;
use crate::closed::ClosedDay;
use crate::files::{Keeps, Named};
use crate::page::day_page;
use cns_history::accounts_in;
use cns_shell::Fault;
use cns_terms::NoMemory;
use cns_units::Account;
use std::alloc::Global;

// The accounts of a closed day, by number: the corporation's and the members'. None where no issue is listed: then nothing is booked.
#[tactic(auto, using(cns_history::proofs::Owned::first_of, cns_history::proofs::Owned::none_of))]
fn accounts_on(alloc: Global, day: &ClosedDay<'_>) -> Result<Vec<Account>, NoMemory>
    ensures { IfOk result (λ v. v.items ≡ accounts_on day.now) }
{
    match day.sheet.next_price(None) {
        Some((issue, _)) => accounts_in(alloc, &day.source.played.book, issue),
        None => Ok(Vec::new(alloc)),
    }
}

// Keeps the page of each account.
#[tactic(auto, using(crate::proofs::Gathered::keeps_next))]
fn keep_each<K: Keeps>(
    alloc: Global,
    accounts: &[Account],
    day: &ClosedDay<'_>,
    keeper: &mut K,
) -> Result<(), Fault>
    ensures { OnOk result (KeepsOwn day.now accounts.now (K.kept keeper.old) (K.kept keeper.new)) }
{
    for account in accounts {
        let page = own_page(alloc, *account, day)?;
        let named = Named {
            date: day.close.date,
            account: Some(*account),
        };
        keeper.keep(&named, page.as_slice())?;
    }
    Ok(())
}

/// Keeps the pages of a closed day: that of each account, and then that of the day, whose links lead to them.
pub(crate) fn keep_day<K: Keeps>(
    alloc: Global,
    day: &ClosedDay<'_>,
    keeper: &mut K,
) -> Result<(), Fault>
    ensures { OnOk result (KeepsDay day.now (K.kept keeper.old) (K.kept keeper.new)) }
{
    let accounts = accounts_on(alloc, day)?;
    keep_each(alloc, accounts.as_slice(), day, keeper)?;
    let page = day_page(alloc, day, accounts.as_slice())?;
    let named = Named {
        date: day.close.date,
        account: None,
    };
    keeper.keep(&named, page.as_slice())
}
