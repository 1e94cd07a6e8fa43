// The projection: accepted trades that settle after the day.
ghost use Rattle.std.specs.Prelude.{◌≡◌, ◌∷◌, [], IfOk, map};
ghost use Rattle.std.specs.Option.{option_to_list};
ghost use Rattle.cns_day.specs.Listed.{AreDue, due, later_among, looked_at, next_day};

use cns_feed::ReplayBook;
use cns_history::{accepted_trade, entries_of};
use cns_tables::{Piece, ROW, TableRow, cents_of, write_line};
use cns_terms::{NoMemory, Taken, Trade};
use cns_units::Day;
use std::alloc::{AllocError, Global};

/// A trade, and whether it was booked into the day that the close opened; else it is pending.
#[derive(Clone, Copy)]
pub struct Due {
    pub trade: Trade,
    pub is_booked: bool,
}

// The trade of an entry of the history, where it was accepted and is dated after the day.
fn later(entry: &Taken, day: Day) -> Option<Trade>
    ensures { later_among day (entry.now ∷ []) ≡ option_to_list result }
{
    let trade = accepted_trade(entry)?;
    if trade.date.number() > day.number() {
        Some(trade)
    } else {
        None
    }
}

// The accepted trades of a book that are dated after a day, in the order in which they were taken.
fn gather(alloc: Global, book: &ReplayBook, day: Day) -> Result<Vec<Due>, NoMemory>
    ensures { IfOk result (λ v. v.items ≡ map (due (next_day book.now.log)) (later_among day (looked_at book.now.log.history))) }
{
    let next = book.today();
    let mut trades = Vec::new(alloc);
    for entry in entries_of(book) {
        let Some(trade) = later(&entry, day) else {
            continue;
        };
        trades.push(Due {
            trade,
            is_booked: trade.date.number() <= next.number(),
        })?;
    }
    Ok(trades)
}

/// The trades of a book that were accepted and are dated after a day, so that no sheet up to that day has them, each with whether it
/// was booked into the open day. They stand by date, and those of one date in the order in which they were taken.
pub fn dues_of(alloc: Global, book: &ReplayBook, day: Day) -> Result<Vec<Due>, NoMemory>
    ensures { IfOk result (λ v. AreDue book.now.log day v.items) }
{
    let mut trades = gather(alloc, book, day)?;
    trades.sort_by_key(|due| due.trade.date.number())?;
    Ok(trades)
}

impl TableRow for Due {
    ghost use Rattle.cns_day.specs.Rows.{due_text};

    ghost text = { due_text };

    fn write_row(&self, out: &mut Vec<u8>) -> Result<(), AllocError> {
        let trade = &self.trade;
        let cells = [
            Piece::Number(trade.reference),
            Piece::Number(u64::from(trade.buyer.value())),
            Piece::Number(u64::from(trade.seller.value())),
            Piece::Issue(trade.issue),
            Piece::Count(trade.shares.value()),
            Piece::Amount(cents_of(trade.money.value())),
            Piece::Booked(self.is_booked),
        ];
        write_line(ROW, &Piece::Date(trade.date), &cells, out)
    }
}
