// The lines of a history.
ghost use Rattle.std.specs.Prelude.{◌≡◌, ◌++◌, OnOk};
ghost use Rattle.cns_history.specs.Texts.{booking_text, closing_text, worth};

use crate::words::write_what;
use cns_tables::{Piece, TableRow, cents_of, write_form};
use cns_terms::{Activity, Row};
use cns_units::{Account, Cents, Cusip, Day};
use std::alloc::AllocError;

/// What a record booked at a place.
#[derive(Clone, Copy)]
pub struct Booking {
    /// The record's number, from 1.
    pub number: u64,
    /// The open day's date, of a close that of the day which it opened.
    pub date: Day,
    pub account: Account,
    pub issue: Cusip,
    pub activity: Activity,
    /// Shares, to the account where positive.
    pub shares: i64,
    /// Cents, to the account where positive.
    pub cents: Cents,
    /// The position after the record, in shares.
    pub position: i64,
    /// The cents booked after it: since the last close, and by it for trades that were due.
    pub money: Cents,
}

/// A close, with what stood at a place.
#[derive(Clone, Copy)]
pub struct Closing {
    /// The number of its record, from 1.
    pub number: u64,
    /// The closed day's date.
    pub date: Day,
    /// The closed day's number, from 1.
    pub day: u32,
    /// What the day's sheet has there.
    pub row: Row,
    /// At how many closes in a row, this one the last, the position was short.
    pub age: u32,
}

/// A line of a history.
#[derive(Clone, Copy)]
pub enum HistoryLine {
    Booking(Booking),
    Closing(Closing),
}

// The row of what a record booked: its number and date before what it was, and after it shares, cents, position and money. A close
// alone has the other cells.
const BEGIN: &str = "<tr><th scope=row>_<td>_<td>";

const FIGURES: &str = "<td>_<td>_<td>_<td>_<td><td><td><td><td>\n";

// The row of a close, which has no shares and no money of its own.
const CLOSE: &str =
    "<tr class=close><th scope=row>_<td>_<td>Close of day _<td><td><td>_<td>_<td>_<td>_<td>_<td>_<td>_\n";

/// What a position is worth at the close's price, in cents.
#[tactic(auto, unfolding(crate::specs::Texts::worth))]
pub fn worth(row: &Row) -> Cents
    ensures { result ≡ worth row.now }
{
    Cents::of(row.price.worth(row.closing))
}

// Adds the number and the date, what it was, and shares, cents, position and money.
#[tactic(auto, unfolding(crate::specs::Texts::booking_text), using(cns_tables::proofs::Written::after))]
fn write_booking(booking: &Booking, out: &mut Vec<u8>) -> Result<(), AllocError>
    ensures { OnOk result (out.new.items ≡ out.old.items ++ booking_text booking.now) }
{
    let begin = [Piece::Number(booking.number), Piece::Date(booking.date)];
    let figures = [
        Piece::Signed(booking.shares),
        Piece::Amount(booking.cents),
        Piece::Signed(booking.position),
        Piece::Amount(booking.money),
    ];
    write_form(BEGIN, &begin, out)?;
    write_what(booking.account, &booking.activity, out)?;
    write_form(FIGURES, &figures, out)
}

// Adds the number, the date, the day, position, settling money, price, value, mark, closes short and dividend.
#[tactic(auto, unfolding(crate::specs::Texts::closing_text))]
fn write_closing(closing: &Closing, out: &mut Vec<u8>) -> Result<(), AllocError>
    ensures { OnOk result (out.new.items ≡ out.old.items ++ closing_text closing.now) }
{
    let row = &closing.row;
    let pieces = [
        Piece::Number(closing.number),
        Piece::Date(closing.date),
        Piece::Number(u64::from(closing.day)),
        Piece::Signed(row.closing),
        Piece::Amount(row.money),
        Piece::Amount(cents_of(row.price.value())),
        Piece::Amount(worth(row)),
        Piece::Amount(row.mark),
        Piece::Number(u64::from(closing.age)),
        Piece::Amount(row.dividend),
    ];
    write_form(CLOSE, &pieces, out)
}

impl TableRow for HistoryLine {
    ghost use Rattle.cns_history.specs.Texts.{line_text};

    ghost text = { line_text };

    fn write_row(&self, out: &mut Vec<u8>) -> Result<(), AllocError> {
        match self {
            HistoryLine::Booking(booking) => write_booking(booking, out),
            HistoryLine::Closing(closing) => write_closing(closing, out),
        }
    }
}
