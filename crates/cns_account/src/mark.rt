// How the marks of an account come about.
ghost use Rattle.std.specs.Prelude.{◌≡◌, IfOk, map};
ghost use Rattle.cns_account.specs.Rows.{causes, mark_row, moved, valued, with_causes};

use crate::moves::{Moved, Moves, wrapped_sum};
use crate::row::AccountRow;
use cns_tables::{Piece, ROW, TableRow, cents_of, write_line};
use cns_terms::{NoMemory, Row};
use cns_units::{Cents, Price};
use std::alloc::{AllocError, Global};

/// A row of the sheet, as the table of marks has it: what the price did to the opening position, and each movement at the price of
/// the close, with its money.
#[derive(Clone, Copy)]
pub struct MarkRow {
    pub line: AccountRow,
}

/// What the change of price since the close before is worth on the opening position, in cents: below 10^28 either way.
#[tactic(auto, unfolding(crate::specs::Rows::moved))]
pub fn price_move(row: &Row) -> Cents
    ensures { result ≡ moved row.now }
{
    let change = i128::from(row.price.value()) - i128::from(row.opening_price.value());
    Cents::of(i128::from(row.opening) * change)
}

// What a movement brings to the mark, in cents: its shares at a price, and its cents. It is exact where it fits 128 bits, as it does
// on each day of a book.
#[tactic(auto, unfolding(crate::specs::Rows::valued))]
fn valued(moved: &Moved, price: Price) -> Cents
    ensures { result ≡ valued price moved.now }
{
    wrapped_sum(Cents::of(price.worth(moved.shares)), moved.cents)
}

/// What a day's movements bring to a mark, by cause. Each amount is exact where it fits 128 bits, as it does on each day of a book.
#[derive(Clone, Copy)]
pub struct Causes {
    pub trades: Cents,
    pub delivered: Cents,
    pub received: Cents,
    pub actions: Cents,
    pub buy_ins: Cents,
}

impl Causes {
    pub const NOTHING: Causes = Causes {
        trades: Cents::ZERO,
        delivered: Cents::ZERO,
        received: Cents::ZERO,
        actions: Cents::ZERO,
        buy_ins: Cents::ZERO,
    };

    /// What movements bring at a price.
    pub fn of(moves: &Moves, price: Price) -> Causes
        ensures { result ≡ causes price moves.now }
    {
        Causes {
            trades: valued(&moves.trades, price),
            delivered: valued(&moves.delivered, price),
            received: valued(&moves.received, price),
            actions: valued(&moves.actions, price),
            buy_ins: valued(&moves.buy_ins, price),
        }
    }

    /// With what others bring.
    pub fn with(&self, others: &Causes) -> Causes
        ensures { result ≡ with_causes self.now others.now }
    {
        Causes {
            trades: wrapped_sum(self.trades, others.trades),
            delivered: wrapped_sum(self.delivered, others.delivered),
            received: wrapped_sum(self.received, others.received),
            actions: wrapped_sum(self.actions, others.actions),
            buy_ins: wrapped_sum(self.buy_ins, others.buy_ins),
        }
    }
}

/// The rows of the table of marks, of an account's rows.
pub fn marks_of(alloc: Global, rows: &[AccountRow]) -> Result<Vec<MarkRow>, NoMemory>
    ensures { IfOk result (λ v. v.items ≡ map mark_row rows.now) }
{
    let marks = rows
        .iter()
        .map(|row| MarkRow { line: *row })
        .collect(alloc)?;
    Ok(marks)
}

impl TableRow for MarkRow {
    ghost use Rattle.cns_account.specs.Rows.{mark_text};

    ghost text = { mark_text };

    fn write_row(&self, out: &mut Vec<u8>) -> Result<(), AllocError> {
        let row = &self.line.row;
        let causes = Causes::of(&self.line.moves, row.price);
        let cells = [
            Piece::Amount(cents_of(row.opening_price.value())),
            Piece::Amount(cents_of(row.price.value())),
            Piece::Amount(price_move(row)),
            Piece::Amount(causes.trades),
            Piece::Amount(causes.delivered),
            Piece::Amount(causes.received),
            Piece::Amount(causes.actions),
            Piece::Amount(causes.buy_ins),
            Piece::Amount(row.mark),
            Piece::Amount(row.money),
        ];
        write_line(ROW, &Piece::Issue(row.issue), &cells, out)
    }
}
