// The figures of closed days, for the list of days.
ghost use Rattle.std.specs.Prelude.{◌≡◌, ◌-◌, ◌^◌, count_by, IfOk, min, pos, sum_by, unsigned_abs};
ghost use Rattle.cns_book.specs.Log.{state_of};
ghost use Rattle.cns_day.specs.Listed.{figures_at, figures_shown, is_short};

use cns_exceptions::Close;
use cns_feed::ReplayBook;
use cns_sheets::Sheet;
use cns_tables::{Piece, ROW, TableRow, write_line};
use cns_terms::{NoMemory, Row};
use cns_units::{Account, Cents, Day};
use std::alloc::{AllocError, Global};

/// What the list of days shows of a closed day.
#[derive(Clone, Copy)]
pub struct Figures {
    /// The day's number, from 1.
    pub day: u32,
    pub date: Day,
    /// The sum of the amounts of all marks, in cents.
    pub marks: u128,
    /// How many members' positions are below 0.
    pub shorts: u64,
}

/// Whether a row is a member's, and short at the close. The corporation's position below 0 is shares on hand.
pub fn is_short(row: &Row) -> bool
    ensures { result ≡ is_short row.now }
{
    row.closing < 0 && row.account != Account::CORPORATION
}

// The sum of the amounts of a sheet's marks. It stops at 2^128 - 1.
fn marks_of(sheet: &Sheet<Global>) -> u128
    ensures { result ≡ min (sum_by (λ r. unsigned_abs r.mark) sheet.now.rows) (2 ^ 128 - 1) }
{
    let mut marks: u128 = 0;
    for row in sheet.rows() {
        marks = marks.saturating_add(row.mark.value().unsigned_abs());
    }
    marks
}

// How many members are short on a sheet. The count stops at 2^64 - 1.
fn shorts_of(sheet: &Sheet<Global>) -> u64
    ensures { result ≡ min (count_by is_short sheet.now.rows) (2 ^ 64 - 1) }
{
    let mut shorts: u64 = 0;
    for row in sheet.rows() {
        shorts = shorts.saturating_add(u64::from(is_short(&row)));
    }
    shorts
}

// The figures of a closed day, if the book has a sheet of it.
fn figures_at(book: &ReplayBook, close: &Close) -> Option<Figures>
    ensures { result ≡ figures_at (state_of book.now.log) close.now }
{
    let sheet = book.sheet(close.date)?;
    Some(Figures {
        day: close.day,
        date: sheet.date(),
        marks: marks_of(sheet),
        shorts: shorts_of(sheet),
    })
}

/// The figures of closed days, in order; of those that the book has a sheet of.
pub fn line_of_days(
    alloc: Global,
    book: &ReplayBook,
    closes: &[Close],
) -> Result<Vec<Figures>, NoMemory>
    ensures { IfOk result (λ line. line.items ≡ figures_shown (state_of book.now.log) closes.now) }
{
    let line = closes
        .iter()
        .filter_map(|close| figures_at(book, close))
        .collect(alloc)?;
    Ok(line)
}

// Cents as an amount, where they fit one; the greatest one where they do not.
fn amount_of(cents: u128) -> Cents
    ensures { result ≡ pos (min cents (2 ^ 127 - 1)) }
{
    Cents::of(cents.min(i128::MAX as u128) as i128)
}

impl TableRow for Figures {
    ghost use Rattle.cns_day.specs.Rows.{figures_text};

    ghost text = { figures_text };

    fn write_row(&self, out: &mut Vec<u8>) -> Result<(), AllocError> {
        let cells = [
            Piece::Number(u64::from(self.day)),
            Piece::Amount(amount_of(self.marks)),
            Piece::Count(self.shorts),
        ];
        write_line(ROW, &Piece::Date(self.date), &cells, out)
    }
}
