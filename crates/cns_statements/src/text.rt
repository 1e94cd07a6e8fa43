// The text of a statement.
ghost use Rattle.std.specs.Prelude.{◌≡◌, pos};
ghost use Rattle.cns_units.specs.Output.{Writes};
ghost use Rattle.cns_statements.specs.Texts.{row_line, rows_text, stated_line, statement_text};

use crate::contents::Statement;
use cns_sheets::AccountRows;
use cns_terms::{Row, Stated};
use cns_units::{Cents, Price, Word, WriteFault, write_line};
use std::alloc::Allocator;
use std::io::Write;

/// Writes the first line of a statement: `statement ACCOUNT DATE ROWS MARK DIVIDEND`.
///
/// Where the writer fails or takes no byte it answers `WriteFault`, and a prefix of that line was written.
pub fn write_stated<W: Write>(stated: &Stated, writer: &mut W) -> Result<(), WriteFault>
    ensures { Writes (W.contents writer.old) (W.contents writer.new) (stated_line stated.now) result }
{
    let words = [
        Word::Number(u64::from(stated.account.value())),
        Word::Date(stated.date),
        Word::Number(stated.rows),
        Word::Amount(stated.mark),
        Word::Amount(stated.dividend),
    ];
    write_line(b"statement", &words, writer)
}

// A price as an amount of cents.
fn cents_of(price: Price) -> Cents
    ensures { result ≡ pos price }
{
    Cents::of(i128::from(price.value()))
}

// Writes the line of a row.
pub(crate) fn write_row<W: Write>(row: &Row, writer: &mut W) -> Result<(), WriteFault>
    ensures { Writes (W.contents writer.old) (W.contents writer.new) (row_line row.now) result }
{
    let words = [
        Word::Text(row.issue.bytes()),
        Word::Signed(row.opening),
        Word::Signed(row.closing),
        Word::Amount(cents_of(row.opening_price)),
        Word::Amount(cents_of(row.price)),
        Word::Amount(row.money),
        Word::Amount(row.mark),
        Word::Amount(row.dividend),
    ];
    write_line(b"row", &words, writer)
}

/// Writes a line for each row of an account: `row CUSIP OPENING CLOSING OPENINGPRICE PRICE MONEY MARK DIVIDEND`.
///
/// Where the writer fails or takes no byte it answers `WriteFault`, and a prefix of those lines was written.
pub fn write_rows<A: Allocator + Clone, W: Write>(
    rows: AccountRows<'_, A>,
    writer: &mut W,
) -> Result<(), WriteFault>
    ensures { Writes (W.contents writer.old) (W.contents writer.new) (rows_text rows.entry) result }
{
    for row in rows {
        write_row(&row, writer)?;
    }
    Ok(())
}

// Writes the line of each row of a statement.
fn write_kept<W: Write>(rows: &[Row], writer: &mut W) -> Result<(), WriteFault>
    ensures { Writes (W.contents writer.old) (W.contents writer.new) (rows_text rows.now) result }
{
    for row in rows {
        write_row(row, writer)?;
    }
    Ok(())
}

/// Writes the text of a statement: its first line, and a line for each row.
///
/// Where the writer fails or takes no byte it answers `WriteFault`, and a prefix of that text was written.
#[tactic(auto, using(cns_units::proofs::OutputLemmas::writes_then))]
pub fn write_statement<A: Allocator + Drop, W: Write>(
    statement: &Statement<A>,
    writer: &mut W,
) -> Result<(), WriteFault>
    ensures { Writes (W.contents writer.old) (W.contents writer.new)
        (statement_text statement.now.account statement.now.date statement.now.rows statement.now.mark
        statement.now.dividend) result }
{
    let stated = Stated {
        account: statement.account,
        date: statement.date,
        rows: statement.rows.len() as u64,
        mark: statement.mark,
        dividend: statement.dividend,
    };
    write_stated(&stated, writer)?;
    write_kept(statement.rows.as_slice(), writer)
}
