// What moved each position on a day.
ghost use Rattle.std.specs.Prelude.{◌≡◌, [], IfOk, OnOk};
ghost use Rattle.cns_terms.specs.declared.holding.Key.{Key};
ghost use Rattle.cns_account.specs.Moves.{AreMoves, is_within, moves_at, settled_by, unmoved, with_entry, with_line, with_taken, with_trade};
ghost use Rattle.cns_history.specs.Entries.{looked_at};

use crate::moves::Moves;
use cns_feed::ReplayBook;
use cns_history::{HistoryLine, accepted_trade, entries_of};
use cns_terms::{Entry, Key, NoMemory, Pend, Taken, Trade};
use cns_units::Day;
use std::alloc::Global;
use std::collections::BTreeMap;

/// What moved each position on a day, by cause.
#[derive(Drop)]
pub struct DayMoves {
    pub(crate) moves: BTreeMap<Key, Moves>,
}

impl DayMoves {
    // Nothing moved. It takes no memory.
    fn nothing(alloc: Global) -> Self
        ensures { (k : Key) → moves_at result k ≡ unmoved }
    {
        DayMoves {
            moves: BTreeMap::new(alloc),
        }
    }

    /// What moved the position at a place.
    pub fn at(&self, key: &Key) -> Moves
        ensures { result ≡ moves_at self.now key.now }
    {
        self.moves.get(key).copied().unwrap_or(Moves::nothing())
    }

    // Adds what a side of a trade books.
    fn add_entry(&mut self, entry: &Entry) -> Result<(), NoMemory>
        ensures { OnOk result ((k : Key) → moves_at self.new k ≡ with_entry k (moves_at self.old k) entry.now) }
    {
        let key = Key {
            account: entry.account,
            issue: entry.issue,
        };
        let moves = self.at(&key).with_entry(entry);
        self.moves.insert(key, moves)?;
        Ok(())
    }

    // Adds what a trade books.
    fn add_trade(&mut self, trade: &Trade) -> Result<(), NoMemory>
        ensures { OnOk result ((k : Key) → moves_at self.new k ≡ with_trade k (moves_at self.old k) trade.now) }
    {
        let pend = Pend::of(trade);
        self.add_entry(&pend.buyer_entry())?;
        self.add_entry(&pend.seller_entry())
    }

    // Adds an entry of the history, where a trade of it settles on the day.
    fn add_taken(&mut self, entry: &Taken, before: &Option<Day>, day: Day) -> Result<(), NoMemory>
        ensures { OnOk result ((k : Key) → moves_at self.new k ≡ with_taken before.now day k (moves_at self.old k) entry.now) }
    {
        match settled_by(entry, before, day) {
            Some(trade) => self.add_trade(&trade),
            None => Ok(()),
        }
    }

    // Adds a line, where it is a booking.
    fn add_line(&mut self, line: &HistoryLine) -> Result<(), NoMemory>
        ensures { OnOk result ((k : Key) → moves_at self.new k ≡ with_line k (moves_at self.old k) line.now) }
    {
        let HistoryLine::Booking(booking) = line else {
            return Ok(());
        };
        let key = Key {
            account: booking.account,
            issue: booking.issue,
        };
        let moves = self.at(&key).with_booking(booking);
        self.moves.insert(key, moves)?;
        Ok(())
    }
}

// Whether a date is one of those after the day before, if there was one, up to the day.
fn is_within(date: Day, before: &Option<Day>, day: Day) -> bool
    ensures { result ≡ is_within before.now day date }
{
    match before {
        Some(before) => date <= day && date > *before,
        None => date <= day,
    }
}

// The trade of an entry of the history that settles on the day, where it was accepted.
fn settled_by(entry: &Taken, before: &Option<Day>, day: Day) -> Option<Trade>
    ensures { result ≡ settled_by before.now day entry.now }
{
    let trade = accepted_trade(entry)?;
    if is_within(trade.date, before, day) {
        Some(trade)
    } else {
        None
    }
}

// What the trades that settled on a day moved.
fn settled(
    alloc: Global,
    book: &ReplayBook,
    before: &Option<Day>,
    day: Day,
) -> Result<DayMoves, NoMemory>
    ensures { IfOk result (AreMoves before.now day (looked_at book.now.log.history) []) }
{
    let mut moves = DayMoves::nothing(alloc);
    for entry in entries_of(book) {
        moves.add_taken(&entry, before, day)?;
    }
    Ok(moves)
}

/// What moved each position on a day: the accepted trades that settled on it, which are dated after the day before, if there was
/// one, up to the day, and what the day's other records booked, by their lines.
pub fn moves_of_day(
    alloc: Global,
    book: &ReplayBook,
    before: Option<Day>,
    day: Day,
    lines: &[HistoryLine],
) -> Result<DayMoves, NoMemory>
    ensures { IfOk result (AreMoves before day (looked_at book.now.log.history) lines.now) }
{
    let mut moves = settled(alloc, book, &before, day)?;
    for line in lines {
        moves.add_line(line)?;
    }
    Ok(moves)
}
