// The pieces that a page is written of.
ghost use Rattle.std.specs.Prelude.{◌≡◌, ◌++◌, ◌∷◌, List, ℕ, map, pos, OnOk};
ghost use Rattle.std.specs.Fmt.{decimal};
ghost use Rattle.cns_units.specs.Day.{day_text};
ghost use Rattle.cns_tables.specs.Pieces.{filled, piece_text};

use crate::escape::write_escaped;
use crate::grouped::{write_amount, write_count, write_rate, write_signed};
use cns_units::{Cents, Cusip, Day, Rate, write_day};
use itoa::Buffer;
use std::alloc::AllocError;

/// A piece of a page.
#[derive(Clone, Copy)]
pub enum Piece<'a> {
    /// Markup and words of the page itself, as they are. They live as long as the program does, so no byte of a record
    /// can be among them.
    Markup(&'static str),
    /// A stranger's text, escaped.
    Text(&'a str),
    /// An issue, escaped too, though no CUSIP needs it.
    Issue(Cusip),
    /// The number of a record, an account, a trade, a notice or a day, in plain decimal.
    Number(u64),
    /// How many there are, with commas between thousands.
    Count(u64),
    /// A number with commas between thousands, after a minus sign where it is negative.
    Signed(i64),
    /// The same of a position; `none` where there is none.
    Position(Option<i64>),
    /// An amount of cents as dollars with commas between thousands, a point and two digits.
    Amount(Cents),
    /// The same of a price in cents; `not listed` where there is none.
    Price(Option<u64>),
    /// Millionths of a dollar for a share as dollars with commas between thousands, a point and six digits.
    Rate(Rate),
    /// `booked`, or `pending`.
    Booked(bool),
    /// A date as `YYYY-MM-DD`.
    Date(Day),
}

/// A number of cents as an amount of them.
pub fn cents_of(cents: u64) -> Cents
    ensures { result ≡ pos cents }
{
    Cents::of(i128::from(cents))
}

fn write_number(number: u64, out: &mut Vec<u8>) -> Result<(), AllocError>
    ensures { OnOk result (out.new.items ≡ out.old.items ++ decimal number) }
{
    let mut buffer = Buffer::new();
    out.extend_from_slice(buffer.format(number).as_bytes())
}

fn write_date(day: Day, out: &mut Vec<u8>) -> Result<(), AllocError>
    ensures { OnOk result (out.new.items ≡ out.old.items ++ day_text day) }
{
    match write_day(day, out) {
        Ok(()) => Ok(()),
        Err(_) => Err(AllocError),
    }
}

/// Adds a piece.
///
/// `AllocError`, here and below, where there is no memory; some of what was to be added may be there then.
pub fn write_piece(piece: &Piece<'_>, out: &mut Vec<u8>) -> Result<(), AllocError>
    ensures { OnOk result (out.new.items ≡ out.old.items ++ piece_text piece.now) }
{
    match piece {
        Piece::Markup(markup) => out.extend_from_slice(markup.as_bytes()),
        Piece::Text(text) => write_escaped(text.as_bytes(), out),
        Piece::Issue(issue) => write_escaped(issue.bytes(), out),
        Piece::Number(number) => write_number(*number, out),
        Piece::Count(number) => write_count(u128::from(*number), out),
        Piece::Signed(number) => write_signed(i128::from(*number), out),
        Piece::Position(Some(number)) => write_signed(i128::from(*number), out),
        Piece::Position(None) => out.extend_from_slice(b"none"),
        Piece::Amount(cents) => write_amount(cents.value(), out),
        Piece::Price(Some(price)) => write_amount(i128::from(*price), out),
        Piece::Price(None) => out.extend_from_slice(b"not listed"),
        Piece::Rate(rate) => write_rate(u128::from(rate.value()), out),
        Piece::Booked(true) => out.extend_from_slice(b"booked"),
        Piece::Booked(false) => out.extend_from_slice(b"pending"),
        Piece::Date(day) => write_date(*day, out),
    }
}

/// Adds markup of the page itself.
pub fn write_markup(markup: &'static str, out: &mut Vec<u8>) -> Result<(), AllocError>
    ensures { OnOk result (out.new.items ≡ out.old.items ++ markup.now) }
{
    out.extend_from_slice(markup.as_bytes())
}

// What stands before the first blank of a form, and after it; where it has none, all of it, and nothing.
fn cut(form: &'static str) -> (&'static str, &'static str)
    ensures { (text : List ℕ) (texts : List (List ℕ)) → filled form.now (text ∷ texts) ≡ result.0.now ++ (text ++ filled result.1.now texts) }
{
    match form.split_once('_') {
        Some(parts) => parts,
        None => (form, ""),
    }
}

/// Adds a form with a piece in each of its blanks, in order. A blank is a `_`. Each piece is there: those for which there is no
/// blank stand at the end, and blanks for which there is no piece stay.
pub fn write_form(
    form: &'static str,
    pieces: &[Piece<'_>],
    out: &mut Vec<u8>,
) -> Result<(), AllocError>
    ensures { OnOk result (out.new.items ≡ out.old.items ++ filled form.now (map piece_text pieces.now)) }
{
    let mut rest = form;
    for piece in pieces {
        let (before, after) = cut(rest);
        write_markup(before, out)?;
        write_piece(piece, out)?;
        rest = after;
    }
    write_markup(rest, out)
}
