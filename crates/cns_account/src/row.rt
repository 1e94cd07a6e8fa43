// The positions of an account on a day, and what they are worth.
ghost use Rattle.std.specs.Prelude.{◌≡◌, IfOk, map};
ghost use Rattle.cns_terms.specs.Sheets.{rows_for};
ghost use Rattle.cns_book.specs.Log.{state_of};
ghost use Rattle.cns_account.specs.Rows.{account_row, totals_of, with_row};

use crate::day_moves::DayMoves;
use crate::moves::{Moves, wrapped_sum};
use cns_feed::ReplayBook;
use cns_history::{standing, worth};
use cns_sheets::Sheet;
use cns_tables::{Piece, ROW, TableRow, cents_of, write_line};
use cns_terms::{Key, NoMemory, Row};
use cns_units::{Account, Cents};
use std::alloc::{AllocError, Global};

/// An account's row of a day's sheet, with what moved the position.
#[derive(Clone, Copy)]
pub struct AccountRow {
    pub row: Row,
    pub moves: Moves,
    /// At how many closes in a row, this one the last, the position was short.
    pub age: u32,
}

// A row, with what moved its position.
fn account_row(book: &ReplayBook, moves: &DayMoves, row: &Row) -> AccountRow
    ensures { result ≡ account_row (state_of book.now.log) moves.now row.now }
{
    let key = row.key();
    AccountRow {
        row: *row,
        moves: moves.at(&key),
        age: standing(book, &key).run,
    }
}

/// An account's rows of a day's sheet, with what moved their positions on the day; of the book as the close left it.
pub fn rows_of(
    alloc: Global,
    book: &ReplayBook,
    sheet: &Sheet<Global>,
    account: Account,
    moves: &DayMoves,
) -> Result<Vec<AccountRow>, NoMemory>
    ensures { IfOk result (λ v. v.items ≡ map (account_row (state_of book.now.log) moves.now) (rows_for sheet.now.rows account)) }
{
    let rows = sheet
        .rows_of(account)
        .map(|row| account_row(book, moves, &row))
        .collect(alloc)?;
    Ok(rows)
}

/// What the closing positions of an account are worth. Each sum is exact where it fits 128 bits, as it does on each day of a book.
#[derive(Clone, Copy)]
pub struct Totals {
    /// Those above 0, in cents.
    pub long: Cents,
    /// Those below 0, in cents: not above 0.
    pub short: Cents,
    pub net: Cents,
}

// With a row more.
fn with_row(totals: Totals, row: &AccountRow) -> Totals
    ensures { result ≡ with_row totals row.now }
{
    let value = worth(&row.row);
    let mut totals = totals;
    totals.net = wrapped_sum(totals.net, value);
    if row.row.closing < 0 {
        totals.short = wrapped_sum(totals.short, value);
    } else {
        totals.long = wrapped_sum(totals.long, value);
    }
    totals
}

/// What rows of an account add up to.
pub fn totals_of(rows: &[AccountRow]) -> Totals
    ensures { result ≡ totals_of rows.now }
{
    let none = Totals {
        long: Cents::ZERO,
        short: Cents::ZERO,
        net: Cents::ZERO,
    };
    rows.iter().fold(none, with_row)
}

impl TableRow for AccountRow {
    ghost use Rattle.cns_account.specs.Rows.{position_text};

    ghost text = { position_text };

    fn write_row(&self, out: &mut Vec<u8>) -> Result<(), AllocError> {
        let row = &self.row;
        let cells = [
            Piece::Signed(row.opening),
            Piece::Signed(self.moves.trades.shares),
            Piece::Signed(self.moves.delivered.shares),
            Piece::Signed(self.moves.received.shares),
            Piece::Signed(self.moves.actions.shares),
            Piece::Signed(self.moves.buy_ins.shares),
            Piece::Signed(row.closing),
            Piece::Number(u64::from(self.age)),
            Piece::Amount(cents_of(row.price.value())),
            Piece::Amount(worth(row)),
            Piece::Amount(row.mark),
            Piece::Amount(row.dividend),
        ];
        write_line(ROW, &Piece::Issue(row.issue), &cells, out)
    }
}
