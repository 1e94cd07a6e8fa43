// Since when an account's shorts are short, and what the price did to them.
ghost use Rattle.std.specs.Prelude.{◌≡◌, IfOk, OnOk, option_map};
ghost use Rattle.cns_terms.specs.Common.{journal_of, sheet_on};
ghost use Rattle.cns_book.specs.Log.{state_of};
ghost use Rattle.cns_account.specs.Fails.{fail, fail_cells, is_among, issues_behind, last_days, short_move, with_day, with_exchange};

use crate::mark::price_move;
use crate::moves::wrapped_sum;
use crate::past::Past;
use cns_feed::ReplayBook;
use cns_history::worth;
use cns_sheets::Sheet;
use cns_tables::{Piece, ROW, TableRow, cents_of, write_line};
use cns_terms::{Exchange, Key, NoMemory, Row};
use cns_units::{Account, Cents, Cusip, Day};
use std::alloc::{AllocError, Global};

/// A member's short at a close, with what the price did to it.
#[derive(Clone, Copy)]
pub struct Fail {
    pub row: Row,
    /// At how many closes in a row it was short, this one included.
    pub age: u32,
    /// The date of the first of these closes.
    pub since: Day,
    /// What the price did to the short on the days after that one, in cents: below 0 where it rose. It is exact where it fits 128
    /// bits, as it does on each day of a book.
    pub change: Cents,
}

// The last days, so many.
fn last_days(days: &[Day], count: usize) -> &[Day]
    ensures { result.now ≡ last_days count days.now }
{
    &days[days.len().saturating_sub(count)..]
}

// Whether an issue is among others.
fn is_among(issue: &Cusip, issues: &[Cusip]) -> bool
    ensures { result ≡ is_among issue.now issues.now }
{
    issues
        .iter()
        .fold(false, |found, other| found || other.is_same(issue))
}

// Adds the old issue of an exchange, where its successor is among issues.
fn add_exchange(issues: &mut Vec<Cusip>, exchange: &Exchange) -> Result<(), NoMemory>
    ensures { OnOk result (issues.new.items ≡ with_exchange issues.old.items exchange.now) }
{
    if is_among(&exchange.successor, issues.as_slice()) {
        issues.push(exchange.old)?;
    }
    Ok(())
}

// An issue, with those that were exchanged for it, directly or by further exchanges, of exchanges in order.
fn issues_behind(
    alloc: Global,
    exchanges: &[Exchange],
    issue: Cusip,
) -> Result<Vec<Cusip>, NoMemory>
    ensures { IfOk result (λ v. v.items ≡ issues_behind exchanges.now issue) }
{
    let mut issues = Vec::new(alloc);
    issues.push(issue)?;
    for exchange in exchanges.iter().rev() {
        add_exchange(&mut issues, exchange)?;
    }
    Ok(issues)
}

// What a day's price did to an account's position in an issue that was short when the day began.
fn short_move(sheet: &Sheet<Global>, account: Account, issue: Cusip) -> Cents
    ensures { result ≡ short_move account sheet.now issue }
{
    match sheet.row(Key { account, issue }) {
        Some(row) if row.opening < 0 => price_move(&row),
        _ => Cents::ZERO,
    }
}

// The sheet of a closed day.
pub(crate) fn sheet_of(book: &ReplayBook, date: Day) -> Option<&Sheet<Global>>
    ensures { option_map (λ s. s.now) result
        ≡ sheet_on book.now.log.opening (journal_of (state_of book.now.log)) date }
{
    let sheet = book.sheet(date)?;
    Some(sheet)
}

// With what the prices of a closed day did.
fn with_day(sum: Cents, book: &ReplayBook, account: Account, issues: &[Cusip], day: Day) -> Cents
    ensures { result ≡ with_day (state_of book.now.log) account issues.now sum day }
{
    match sheet_of(book, day) {
        Some(sheet) => issues.iter().fold(sum, |sum, issue| {
            wrapped_sum(sum, short_move(sheet, account, *issue))
        }),
        None => sum,
    }
}

/// A member's short at a book's last close, on the date, by its row of the day's sheet and by its age.
pub fn fail_of(
    alloc: Global,
    book: &ReplayBook,
    past: &Past,
    date: Day,
    row: &Row,
    age: u32,
) -> Result<Fail, NoMemory>
    ensures { IfOk result (λ f. f ≡ fail (state_of book.now.log) past.now date row.now age) }
{
    let days = past.days.as_slice();
    let issues = issues_behind(alloc, past.exchanges.as_slice(), row.issue)?;
    let after = last_days(days, age.saturating_sub(1) as usize);
    Ok(Fail {
        row: *row,
        age,
        since: last_days(days, age as usize)
            .first()
            .copied()
            .unwrap_or(date),
        change: after.iter().fold(Cents::ZERO, |sum, day| {
            with_day(sum, book, row.account, issues.as_slice(), *day)
        }),
    })
}

// The cells of a row, after the issue.
fn fail_cells(fail: &Fail) -> [Piece<'static>; 7]
    ensures { result ≡ fail_cells fail.now }
{
    let row = &fail.row;
    [
        Piece::Number(u64::from(fail.age)),
        Piece::Date(fail.since),
        Piece::Signed(row.opening),
        Piece::Signed(row.closing),
        Piece::Amount(cents_of(row.price.value())),
        Piece::Amount(worth(row)),
        Piece::Amount(fail.change),
    ]
}

impl TableRow for Fail {
    ghost use Rattle.cns_account.specs.Fails.{fail_text};

    ghost text = { fail_text };

    fn write_row(&self, out: &mut Vec<u8>) -> Result<(), AllocError> {
        let cells = fail_cells(self);
        write_line(ROW, &Piece::Issue(self.row.issue), &cells, out)
    }
}
