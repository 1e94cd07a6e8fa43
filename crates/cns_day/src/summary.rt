// The CNS Accounting Summary: the sums over all rows of the sheet, and then each account's rows under the sums of its own.
ghost use Rattle.std.specs.Prelude.{◌≡◌, ◌++◌, IfOk, OnOk};
ghost use Rattle.cns_statements.specs.Packs.{is_next};
ghost use Rattle.cns_day.specs.Summary.{all_sums, grouped, head_text, none_of, own_sums, sheet_lines, sums_in, sums_of, sums_text, with_row};

use cns_account::{Causes, DayMoves, price_move, wrapped_sum};
use cns_sheets::Sheet;
use cns_tables::{Piece, TableRow, cents_of, write_form, write_line, write_markup};
use cns_terms::{NoMemory, Row, Stated};
use cns_units::{Account, Cents};
use std::alloc::{AllocError, Global};

/// The amounts of a row, or the sums of those of several. Each sum is exact where it fits 128 bits, as it does on each sheet of a
/// book.
#[derive(Clone, Copy)]
pub struct Sums {
    pub money: Cents,
    /// What the change of price since the close before is worth on the opening position.
    pub moved: Cents,
    /// What each movement of the day brings.
    pub causes: Causes,
    pub mark: Cents,
    pub dividend: Cents,
}

/// A line of the summary.
#[derive(Clone, Copy)]
pub enum SheetLine {
    /// The sums over all rows.
    All(Sums),
    /// The sums of an account, before its rows.
    Account(Account, Sums),
    /// A row, with its amounts.
    Issue(Row, Sums),
}

// What stands before the sums over all rows, before those of an account, and before the amounts of a row. An account has the end of
// the table before and the head of another, since a browser lays out only the tables that are seen.
const ALL: &str = "<tbody class=total><tr><th scope=row>All accounts<td><td><td><td>";

const ACCOUNT: &str =
    "</table>\n</div>\n<div class=part>\n<table>\n<colgroup><col class=name><col class=shares span=2><col class=price span=2>\
<col class=amount span=9></colgroup>\n\
<thead><tr><th scope=col>Issue<th scope=col>Opening<th scope=col>Closing<th scope=col>Price before<th scope=col>Price\
<th scope=col>Settling money<th scope=col>Price change on opening<th scope=col>Settling trades<th scope=col>Delivered\
<th scope=col>Received<th scope=col>Corporate actions<th scope=col>Buy-ins<th scope=col>Mark<th scope=col>Dividend\
\n</thead><tbody>\n<tr class=sum><th scope=rowgroup colspan=5 id=account-_>Account _";

const ISSUE: &str = "<tr><th scope=row>_<td>_<td>_<td>_<td>_";

// The amounts of a row.
fn sums_of(moves: &DayMoves, row: &Row) -> Sums
    ensures { result ≡ sums_of moves.now row.now }
{
    Sums {
        money: row.money,
        moved: price_move(row),
        causes: Causes::of(&moves.at(&row.key()), row.price),
        mark: row.mark,
        dividend: row.dividend,
    }
}

// No rows yet, with the sums of their marks and of their dividends.
fn none_of(mark: Cents, dividend: Cents) -> Sums
    ensures { result ≡ none_of mark dividend }
{
    Sums {
        money: Cents::ZERO,
        moved: Cents::ZERO,
        causes: Causes::NOTHING,
        mark,
        dividend,
    }
}

impl Sums {
    // With the amounts of a row more; those of marks and dividends are given.
    fn with(&self, row: &Sums) -> Sums
        ensures { result ≡ with_row self.now row.now }
    {
        Sums {
            money: wrapped_sum(self.money, row.money),
            moved: wrapped_sum(self.moved, row.moved),
            causes: self.causes.with(&row.causes),
            ..*self
        }
    }
}

// The sums over all rows of a sheet.
fn all_sums(sheet: &Sheet<Global>, moves: &DayMoves) -> Sums
    ensures { result ≡ all_sums moves.now sheet.now.rows }
{
    let none = none_of(sheet.total_marks(), sheet.total_dividends());
    sheet
        .rows()
        .fold(none, |sums, row| sums.with(&sums_of(moves, &row)))
}

// The sums over an account's rows of a sheet, by the first line of its statement.
fn own_sums(sheet: &Sheet<Global>, moves: &DayMoves, stated: &Stated) -> Sums
    ensures { result ≡ own_sums sheet.now moves.now stated.now }
{
    let none = none_of(stated.mark, stated.dividend);
    sheet
        .rows_of(stated.account)
        .fold(none, |sums, row| sums.with(&sums_of(moves, &row)))
}

// Whether an account is not the one before.
fn is_next(before: Option<Account>, account: Account) -> bool
    ensures { result ≡ is_next before account }
{
    match before {
        Some(other) => other != account,
        None => true,
    }
}

// Adds a row, after the line of its account where the row before is another one's.
fn push_row(
    lines: &mut Vec<SheetLine>,
    sheet: &Sheet<Global>,
    moves: &DayMoves,
    before: Option<Account>,
    row: &Row,
) -> Result<(), NoMemory>
    ensures { OnOk result (lines.new.items ≡ lines.old.items ++ grouped sheet.now moves.now before row.now) }
{
    if is_next(before, row.account) {
        let sums = own_sums(sheet, moves, &sheet.stated(row.account));
        lines.push(SheetLine::Account(row.account, sums))?;
    }
    lines.push(SheetLine::Issue(*row, sums_of(moves, row)))?;
    Ok(())
}

/// The lines of a sheet, with what moved each position: the sums over all rows, and each account's rows after the sums of its own.
pub fn lines_of(
    alloc: Global,
    sheet: &Sheet<Global>,
    moves: &DayMoves,
) -> Result<Vec<SheetLine>, NoMemory>
    ensures { IfOk result (λ v. v.items ≡ sheet_lines sheet.now moves.now) }
{
    let mut lines = Vec::new(alloc);
    lines.push(SheetLine::All(all_sums(sheet, moves)))?;
    let mut before = None;
    for row in sheet.rows() {
        push_row(&mut lines, sheet, moves, before, &row)?;
        before = Some(row.account);
    }
    Ok(lines)
}

fn write_sums(sums: &Sums, out: &mut Vec<u8>) -> Result<(), AllocError>
    ensures { OnOk result (out.new.items ≡ out.old.items ++ sums_text sums.now) }
{
    let cells = [
        Piece::Amount(sums.money),
        Piece::Amount(sums.moved),
        Piece::Amount(sums.causes.trades),
        Piece::Amount(sums.causes.delivered),
        Piece::Amount(sums.causes.received),
        Piece::Amount(sums.causes.actions),
        Piece::Amount(sums.causes.buy_ins),
        Piece::Amount(sums.mark),
        Piece::Amount(sums.dividend),
    ];
    write_line("", &Piece::Markup(""), &cells, out)
}

// What stands before the amounts of a line.
fn write_head(line: &SheetLine, out: &mut Vec<u8>) -> Result<(), AllocError>
    ensures { OnOk result (out.new.items ≡ out.old.items ++ head_text line.now) }
{
    match line {
        SheetLine::All(_) => write_markup(ALL, out),
        SheetLine::Account(account, _) => {
            let number = u64::from(account.value());
            write_form(
                ACCOUNT,
                &[Piece::Number(number), Piece::Number(number)],
                out,
            )
        }
        SheetLine::Issue(row, _) => {
            let pieces = [
                Piece::Issue(row.issue),
                Piece::Signed(row.opening),
                Piece::Signed(row.closing),
                Piece::Amount(cents_of(row.opening_price.value())),
                Piece::Amount(cents_of(row.price.value())),
            ];
            write_form(ISSUE, &pieces, out)
        }
    }
}

impl SheetLine {
    // The amounts of a line.
    fn sums(&self) -> &Sums
        ensures { result.now ≡ sums_in self.now }
    {
        match self {
            SheetLine::All(sums) | SheetLine::Account(_, sums) | SheetLine::Issue(_, sums) => sums,
        }
    }
}

impl TableRow for SheetLine {
    ghost use Rattle.cns_day.specs.Summary.{line_text};

    ghost text = { line_text };

    #[tactic(auto, using(cns_tables::proofs::Written::after))]
    fn write_row(&self, out: &mut Vec<u8>) -> Result<(), AllocError> {
        write_head(self, out)?;
        write_sums(self.sums(), out)
    }
}
