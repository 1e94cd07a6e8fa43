// What the dividends that a close pays bring an account.
ghost use Rattle.std.specs.Prelude.{◌≡◌, ◌++◌, filter_map, IfOk, OnOk, option_map, pos};
ghost use Rattle.std.specs.List.{fold};
ghost use Rattle.cns_terms.specs.Dividends.{is_due};
ghost use Rattle.cns_book.specs.Log.{state_of};
ghost use Rattle.cns_sheets.specs.Payments.{member_cash};
ghost use Rattle.cns_account.specs.Dividends.{close_before, dividends_paid, due_on, last_by, less_cash, paid_in, paid_of, paid_on, sheet_if_any, tells};

use crate::fails::sheet_of;
use crate::moves::wrapped_difference;
use crate::past::{Past, add_if_any};
use cns_dividends::cash;
use cns_feed::ReplayBook;
use cns_sheets::Sheet;
use cns_tables::{Piece, ROW, TableRow, write_line};
use cns_terms::{Declared, Key, NoMemory, Row};
use cns_units::{Account, Cents, Cusip, Day};
use std::alloc::{AllocError, Global};

/// A dividend that a close pays to an account or takes from it.
#[derive(Clone, Copy)]
pub struct PaidDividend {
    pub declared: Declared,
    /// The closing position of the last close on or before the record date, in shares.
    pub position: i64,
    /// What is paid on it, in cents: to the account where positive.
    pub cents: Cents,
}

// The last of days that is not after a date.
fn last_by(days: &[Day], date: Day) -> Option<Day>
    ensures { result ≡ last_by date days.now }
{
    days.iter().fold(None, |last, day| {
        if day.number() <= date.number() {
            Some(*day)
        } else {
            last
        }
    })
}

// The last but one of days.
fn close_before(days: &[Day]) -> Option<Day>
    ensures { result ≡ close_before days.now }
{
    let before = &days[..days.len().saturating_sub(1)];
    before.last().copied()
}

// Whether the close of a date pays a dividend, by the date of the close before.
fn is_due(last: Option<Day>, date: Day, declared: &Declared) -> bool
    ensures { result ≡ is_due last date declared.now }
{
    let was_due = match last {
        Some(day) => declared.payable.number() <= day.number(),
        None => false,
    };
    !was_due && declared.payable.number() <= date.number()
}

// The dividends that a book's last close, on the date, pays.
fn due_on(alloc: Global, past: &Past, date: Day) -> Result<Vec<Declared>, NoMemory>
    ensures { IfOk result (λ v. v.items ≡ due_on past.now date) }
{
    let last = close_before(past.days.as_slice());
    let due = past
        .dividends
        .iter()
        .copied()
        .filter(|declared| is_due(last, date, declared))
        .collect(alloc)?;
    Ok(due)
}

// The cash of a dividend on a row of the sheet of its record date, which only a member's row in the issue has.
fn member_cash(declared: &Declared, row: &Row) -> Cents
    ensures { result ≡ member_cash declared.now row.now }
{
    if row.account == Account::CORPORATION || !row.issue.is_same(&declared.issue) {
        return Cents::ZERO;
    }
    cash(row.closing, declared.rate)
}

// The opposite of what a dividend pays all members.
fn against_members(declared: &Declared, sheet: &Sheet<Global>) -> Cents
    ensures { result ≡ fold (less_cash declared.now) (pos 0) sheet.now.rows }
{
    sheet.rows().fold(Cents::ZERO, |cents, row| {
        wrapped_difference(cents, member_cash(declared, &row))
    })
}

// What a dividend pays an account, by the sheet as of its record date.
fn paid_on(sheet: &Sheet<Global>, account: Account, declared: &Declared) -> PaidDividend
    ensures { result ≡ paid_on account sheet.now declared.now }
{
    let issue = declared.issue;
    let position = match sheet.row(Key { account, issue }) {
        Some(row) => row.closing,
        None => 0,
    };
    let cents = if account == Account::CORPORATION {
        against_members(declared, sheet)
    } else {
        cash(position, declared.rate)
    };
    PaidDividend {
        declared: *declared,
        position,
        cents,
    }
}

// The sheet of a closed day, where one is given.
fn sheet_if_any(book: &ReplayBook, day: Option<Day>) -> Option<&Sheet<Global>>
    ensures { option_map (λ s. s.now) result ≡ sheet_if_any (state_of book.now.log) day }
{
    match day {
        Some(day) => sheet_of(book, day),
        None => None,
    }
}

// What a dividend pays an account.
fn paid_of(book: &ReplayBook, days: &[Day], account: Account, declared: &Declared) -> PaidDividend
    ensures { result ≡ paid_of (state_of book.now.log) days.now account declared.now }
{
    let day = last_by(days, declared.recorded);
    match sheet_if_any(book, day) {
        Some(sheet) => paid_on(sheet, account, declared),
        None => PaidDividend {
            declared: *declared,
            position: 0,
            cents: Cents::ZERO,
        },
    }
}

// Whether it is shown: of the corporation each dividend, and of a member those on a position.
fn tells(account: Account, paid: &PaidDividend) -> bool
    ensures { result ≡ tells account paid.now }
{
    account == Account::CORPORATION || paid.position != 0
}

// What a dividend pays an account, where it is one in the issue and is shown.
fn paid_in(
    book: &ReplayBook,
    days: &[Day],
    account: Account,
    issue: &Cusip,
    declared: &Declared,
) -> Option<PaidDividend>
    ensures { result ≡ paid_in (state_of book.now.log) days.now account issue.now declared.now }
{
    if !declared.issue.is_same(issue) {
        return None;
    }
    let paid = paid_of(book, days, account, declared);
    if tells(account, &paid) {
        Some(paid)
    } else {
        None
    }
}

// Adds what dividends pay an account in an issue.
#[tactic(auto, using(cns_history::proofs::Owned::both_given, std::proofs::lemmas::Grind::common_steps))]
fn add_paid(
    book: &ReplayBook,
    days: &[Day],
    account: Account,
    issue: &Cusip,
    due: &[Declared],
    rows: &mut Vec<PaidDividend>,
) -> Result<(), NoMemory>
    ensures { OnOk result (rows.new.items ≡ rows.old.items
        ++ filter_map (paid_in (state_of book.now.log) days.now account issue.now) due.now) }
{
    for declared in due {
        let paid = paid_in(book, days, account, issue, declared);
        add_if_any(rows, paid)?;
    }
    Ok(())
}

/// What the dividends that a book's last close paid brought an account, by the close's sheet: in the order of the bytes of their
/// issues, and those of one issue in the order in which they were declared.
#[tactic(auto, using(cns_history::proofs::Owned::all_above))]
pub fn dividends_of(
    alloc: Global,
    book: &ReplayBook,
    past: &Past,
    sheet: &Sheet<Global>,
    account: Account,
) -> Result<Vec<PaidDividend>, NoMemory>
    ensures { IfOk result (λ v. v.items ≡ dividends_paid (state_of book.now.log) past.now account sheet.now) }
{
    let due = due_on(alloc, past, sheet.date())?;
    let days = past.days.as_slice();
    let mut rows = Vec::new(alloc);
    let mut after = None;
    while let Some((issue, _)) = sheet.next_price(after) {
        let issue = &issue;
        add_paid(book, days, account, issue, due.as_slice(), &mut rows)?;
        after = Some(*issue);
    }
    Ok(rows)
}

impl TableRow for PaidDividend {
    ghost use Rattle.cns_account.specs.Dividends.{dividend_text};

    ghost text = { dividend_text };

    fn write_row(&self, out: &mut Vec<u8>) -> Result<(), AllocError> {
        let declared = &self.declared;
        let cells = [
            Piece::Date(declared.recorded),
            Piece::Date(declared.payable),
            Piece::Rate(declared.rate),
            Piece::Signed(self.position),
            Piece::Amount(self.cents),
        ];
        write_line(ROW, &Piece::Issue(declared.issue), &cells, out)
    }
}
