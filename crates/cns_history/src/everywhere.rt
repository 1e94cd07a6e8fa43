// The accounts that have positions, and what an activity books at all their places.
ghost use Rattle.std.specs.Prelude.{◌≡◌, ◌++◌, IfOk, OnOk, filter_map, map};
ghost use Rattle.cns_book.specs.Log.{state_of};
ghost use Rattle.cns_history.specs.Lines.{accounts_in, accounts_of, booked_since, bookings_since, both, each, has_position, issues_on, opened_since, place, places, stood};

use crate::line::HistoryLine;
use crate::play::Whose;
use crate::told::{Answered, Stood, add_since};
use cns_feed::ReplayBook;
use cns_sheets::Sheet;
use cns_terms::{Activity, Key, NoMemory, Reply};
use cns_units::{Account, Cusip, Day};
use std::alloc::Global;

// The numbers of accounts are below it.
const NUMBERS: u16 = 10_000;

// Whether the account with a number has a position in an issue.
fn has_position(book: &ReplayBook, issue: Cusip, account: Account) -> bool
    ensures { result ≡ has_position (state_of book.now.log) issue account }
{
    book.position(account, issue).is_some()
}

/// The accounts that have a position in an issue, by number: the corporation's and the members', where the issue is listed.
#[tactic(auto, using(crate::proofs::Owned::number_more, crate::proofs::Owned::account_is, crate::proofs::Owned::no_numbers))]
pub fn accounts_in(alloc: Global, book: &ReplayBook, issue: Cusip) -> Result<Vec<Account>, NoMemory>
    ensures { IfOk result (λ v. v.items ≡ accounts_in (state_of book.now.log) issue) }
{
    let mut accounts = Vec::new(alloc);
    for number in 0..NUMBERS {
        let Ok(account) = Account::new(number) else {
            unreachable!()
        };
        if !has_position(book, issue, account) {
            continue;
        }
        accounts.push(account)?;
    }
    Ok(accounts)
}

/// The accounts whose bookings in some issues are wanted, of which the first is given, if there is one.
pub fn accounts_of(
    alloc: Global,
    book: &ReplayBook,
    whose: &Whose,
    first: Option<Cusip>,
) -> Result<Vec<Account>, NoMemory>
    ensures { IfOk result (λ v. v.items ≡ accounts_of whose.now (state_of book.now.log) first) }
{
    match (whose, first) {
        (Whose::One(account), _) => Ok(vec![in alloc; *account]?),
        (Whose::All, Some(issue)) => accounts_in(alloc, book, issue),
        (Whose::All, None) => Ok(Vec::new(alloc)),
    }
}

// The places of two accounts in an issue, of one and the same once, where their bookings are wanted.
fn both(
    alloc: Global,
    whose: &Whose,
    first: Account,
    second: Account,
    issue: Cusip,
) -> Result<Vec<Key>, NoMemory>
    ensures { IfOk result (λ v. v.items ≡ both whose.now first second issue) }
{
    let accounts = [first, second];
    let count = if second == first { 1 } else { 2 };
    let places = accounts[..count]
        .iter()
        .filter(|account| match whose {
            Whose::One(one) => **account == *one,
            Whose::All => true,
        })
        .map(|account| Key {
            account: *account,
            issue,
        })
        .collect(alloc)?;
    Ok(places)
}

// The places of each account whose bookings are wanted, in some issues.
#[tactic(auto, using(std::proofs::lemmas::Grind::common_steps))]
fn each(
    alloc: Global,
    book: &ReplayBook,
    whose: &Whose,
    issues: &[Cusip],
) -> Result<Vec<Key>, NoMemory>
    ensures { IfOk result (λ v. v.items ≡ each whose.now (state_of book.now.log) issues.now) }
{
    let accounts = accounts_of(alloc, book, whose, issues.first().copied())?;
    let accounts = accounts.as_slice();
    let mut places = Vec::new(alloc);
    for account in accounts {
        let account = *account;
        for issue in issues {
            let issue = *issue;
            places.push(Key { account, issue })?;
        }
    }
    Ok(places)
}

// The places that an activity names and can book at; a close books at others.
fn places(
    alloc: Global,
    book: &ReplayBook,
    whose: &Whose,
    activity: &Activity,
) -> Result<Vec<Key>, NoMemory>
    ensures { IfOk result (λ v. v.items ≡ places whose.now (state_of book.now.log) activity.now) }
{
    match activity {
        Activity::Trade(trade) => {
            let buyer = trade.buyer.account();
            let seller = trade.seller.account();
            both(alloc, whose, buyer, seller, trade.issue)
        }
        Activity::Deliver(movement) | Activity::Receive(movement) => {
            let member = movement.member.account();
            both(alloc, whose, Account::CORPORATION, member, movement.issue)
        }
        Activity::Split(split) => each(alloc, book, whose, &[split.issue]),
        Activity::Exchange(exchange) => {
            each(alloc, book, whose, &[exchange.old, exchange.successor])
        }
        Activity::Execute(execution) => match book.notice(execution.notice) {
            Some(notice) => each(alloc, book, whose, &[notice.issue]),
            None => each(alloc, book, whose, &[]),
        },
        Activity::Member(_)
        | Activity::Issue(_)
        | Activity::Price(_)
        | Activity::Dividend(_)
        | Activity::Notice(_)
        | Activity::Withdraw(_)
        | Activity::Close(_) => Ok(Vec::new(alloc)),
    }
}

/// What stands at the places that an activity names and can book at.
pub(crate) fn before(
    alloc: Global,
    book: &ReplayBook,
    whose: &Whose,
    activity: &Activity,
) -> Result<Vec<Stood>, NoMemory>
    ensures { IfOk result (λ v. v.items
        ≡ map (stood (state_of book.now.log)) (places whose.now (state_of book.now.log) activity.now)) }
{
    let places = places(alloc, book, whose, activity)?;
    let before = places
        .iter()
        .map(|key| Stood::at(book, key))
        .collect(alloc)?;
    Ok(before)
}

// Adds the lines of what an activity booked since something stood at places.
#[tactic(auto, using(crate::proofs::Owned::both_given, crate::proofs::Owned::as_list, std::proofs::lemmas::Grind::common_steps))]
fn add_each_since(
    book: &ReplayBook,
    answered: &Answered,
    before: &[Stood],
    lines: &mut Vec<HistoryLine>,
) -> Result<(), NoMemory>
    ensures { OnOk result (lines.new.items ≡ lines.old.items
        ++ filter_map (booked_since answered.now.number (state_of book.now.log) answered.now.activity) before.now) }
{
    for stood in before {
        add_since(book, answered, stood, lines)?;
    }
    Ok(())
}

/// The issues that a sheet has a price of, in order.
#[tactic(auto, using(crate::proofs::Owned::all_above, std::proofs::lemmas::Grind::common_steps))]
pub fn issues_of(alloc: Global, sheet: &Sheet<Global>) -> Result<Vec<Cusip>, NoMemory>
    ensures { IfOk result (λ v. v.items ≡ map (λ e. e.0) sheet.now.prices) }
{
    let mut issues = Vec::new(alloc);
    let mut after = None;
    while let Some((issue, _)) = sheet.next_price(after) {
        issues.push(issue)?;
        after = Some(issue);
    }
    Ok(issues)
}

// The issues that were listed when the day with the date was closed.
fn issues_on(alloc: Global, book: &ReplayBook, date: Day) -> Result<Vec<Cusip>, NoMemory>
    ensures { IfOk result (λ v. v.items ≡ issues_on (state_of book.now.log) date) }
{
    match book.sheet(date) {
        Some(sheet) => issues_of(alloc, sheet),
        None => Ok(Vec::new(alloc)),
    }
}

// Adds the lines of what a close booked for an account in some issues of trades that were due.
#[tactic(auto, using(crate::proofs::Owned::both_given, crate::proofs::Owned::as_list, std::proofs::lemmas::Grind::common_steps))]
fn add_opened(
    book: &ReplayBook,
    account: Account,
    issues: &[Cusip],
    answered: &Answered,
    lines: &mut Vec<HistoryLine>,
) -> Result<(), NoMemory>
    ensures { OnOk result (lines.new.items ≡ lines.old.items
        ++ filter_map (λ k. booked_since answered.now.number (state_of book.now.log) answered.now.activity
        (opened_since (state_of book.now.log) k)) (map (place account) issues.now)) }
{
    for issue in issues {
        let issue = *issue;
        let from = Stood::opened(book, Key { account, issue });
        add_since(book, answered, &from, lines)?;
    }
    Ok(())
}

// The same for each account whose bookings are wanted.
#[tactic(auto, using(crate::proofs::Owned::both_given, std::proofs::lemmas::Grind::common_steps))]
fn add_each_opened(
    book: &ReplayBook,
    whose: &Whose,
    issues: &[Cusip],
    answered: &Answered,
    lines: &mut Vec<HistoryLine>,
) -> Result<(), NoMemory>
    ensures { OnOk result (lines.new.items ≡ lines.old.items
        ++ filter_map (λ k. booked_since answered.now.number (state_of book.now.log) answered.now.activity
        (opened_since (state_of book.now.log) k)) (each whose.now (state_of book.now.log) issues.now)) }
{
    let accounts = accounts_of(*lines.allocator(), book, whose, issues.first().copied())?;
    let accounts = accounts.as_slice();
    for account in accounts {
        add_opened(book, *account, issues, answered, lines)?;
    }
    Ok(())
}

/// Adds the lines of what an activity that was answered booked, by the book after it and by what stood before it at the places
/// that it names.
pub(crate) fn add_booked(
    book: &ReplayBook,
    whose: &Whose,
    answered: &Answered,
    before: &[Stood],
    lines: &mut Vec<HistoryLine>,
) -> Result<(), NoMemory>
    ensures { OnOk result (lines.new.items ≡ lines.old.items
        ++ bookings_since whose.now answered.now.number (state_of book.now.log) answered.now.activity answered.now.reply before.now) }
{
    match answered.reply {
        Reply::Closed(closed) => {
            let issues = issues_on(*lines.allocator(), book, closed.date)?;
            add_each_opened(book, whose, issues.as_slice(), answered, lines)
        }
        _ => add_each_since(book, answered, before, lines),
    }
}
