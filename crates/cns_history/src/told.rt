// The lines of an activity, by what stood at a place before it and what stands there after it.
ghost use Rattle.std.specs.Prelude.{◌≡◌, ◌++◌, ◌-ℤ◌, ◌≤◌, OnOk, option_map, option_to_list, unsigned_abs};
ghost use Rattle.cns_terms.specs.Limits.{amount_limit, corporation_limit};
ghost use Rattle.cns_book.specs.Log.{state_of};
ghost use Rattle.cns_terms.specs.Common.{date, journal_of};
ghost use Rattle.cns_history.specs.Lines.{booked, booked_since, booking, closing, counted_from, is_nothing, lines_told, opened_since, row_on, standing, stood};
ghost use Rattle.cns_history.specs.declared.line.HistoryLine.TheVariants as line;

use crate::line::{Booking, Closing, HistoryLine};
use cns_feed::ReplayBook;
use cns_terms::{Activity, Holding, Key, NoMemory, Reply, Row};
use cns_units::{Cents, Day};
use std::marker::Model;

/// A record's activity that was answered.
#[derive(Clone, Copy)]
pub(crate) struct Answered {
    /// The record's number, from 1.
    pub(crate) number: u64,
    pub(crate) activity: Activity,
    pub(crate) reply: Reply,
}

/// An account's place in an issue, with what stood there. It is within the limits of a book, so that no difference of two wraps.
#[derive(Clone, Copy)]
pub(crate) struct Stood {
    key: Key,
    holding: Holding,
}

impl Model for Stood {
    ghost use Rattle.std.specs.Prelude.{◌≤◌, unsigned_abs};
    ghost use Rattle.cns_terms.specs.Limits.{amount_limit, corporation_limit};
    ghost use Rattle.cns_terms.specs.declared.holding.Holding.{Holding};
    ghost use Rattle.cns_terms.specs.declared.holding.Key.{Key};

    ghost Value = { Key × Holding };

    ghost view = { λ s. (s.key, s.holding) };

    ghost invariant = { λ s. (unsigned_abs s.holding.now ≤ corporation_limit) × (unsigned_abs s.holding.contract ≤ amount_limit) };

    ghost inverse = { λ v. record { key = v.0; holding = v.1 } };
}

/// What stands at a key now; zeros where a POSITION would be refused.
pub fn standing(book: &ReplayBook, key: &Key) -> Holding
    ensures value { result ≡ standing (state_of book.now.log) key.now }
    ensures shares { unsigned_abs result.now ≤ corporation_limit }
    ensures opening { unsigned_abs result.opening ≤ corporation_limit }
    ensures cents { unsigned_abs result.contract ≤ amount_limit }
{
    // Its clauses say that positions are within their limits, so that no difference of two wraps.
    let _entries = book.history_len();
    book.position(key.account, key.issue)
        .unwrap_or(Holding::ZEROS)
}

impl Stood {
    /// What stands at a place.
    pub(crate) fn at(book: &ReplayBook, key: &Key) -> Stood
        ensures { result ≡ stood (state_of book.now.log) key.now }
    {
        let holding = standing(book, key);
        Stood { key: *key, holding }
    }

    /// What a close found there, of the book after it: the position at the last close, and no cents of the day that it opened.
    pub(crate) fn opened(book: &ReplayBook, key: Key) -> Stood
        ensures { result ≡ opened_since (state_of book.now.log) key }
    {
        let holding = standing(book, &key);
        Stood {
            key,
            holding: Holding {
                now: holding.opening,
                contract: Cents::ZERO,
                ..holding
            },
        }
    }

    // What the shares and cents of an activity are counted from: a close ends the day's cents.
    fn counted_from(&self, reply: &Reply) -> Stood
        ensures { result ≡ (self.now.0, counted_from self.now.1 reply.now) }
    {
        let key = self.key;
        let mut holding = self.holding;
        if let Reply::Closed(_) = reply {
            holding.contract = Cents::ZERO;
        }
        Stood { key, holding }
    }
}

/// What changes one position into another, in shares.
pub fn shares_between(from: i64, to: i64) -> i64
    requires from { unsigned_abs from ≤ corporation_limit }
    requires to { unsigned_abs to ≤ corporation_limit }
    ensures { result ≡ to -ℤ from }
{
    to - from
}

// What changes one sum of cents into another.
fn cents_between(from: Cents, to: Cents) -> Cents
    requires from { unsigned_abs from ≤ amount_limit }
    requires to { unsigned_abs to ≤ amount_limit }
    ensures { result ≡ to -ℤ from }
{
    Cents::of(to.value() - from.value())
}

// What an activity booked since something stood at a place, by the book after it.
fn booking_since(book: &ReplayBook, answered: &Answered, from: &Stood) -> Booking
    ensures { result ≡ booking from.now.0 answered.now.number (date book.now.log.opening (journal_of (state_of book.now.log)))
        answered.now.activity from.now.1 (standing (state_of book.now.log) from.now.0) }
{
    let key = &from.key;
    let from = &from.holding;
    let to = standing(book, key);
    Booking {
        number: answered.number,
        date: book.today(),
        account: key.account,
        issue: key.issue,
        activity: answered.activity,
        shares: shares_between(from.now, to.now),
        cents: cents_between(from.contract, to.contract),
        position: to.now,
        money: to.contract,
    }
}

// Whether neither shares nor cents were booked.
fn is_nothing(booking: &Booking) -> bool
    ensures { result ≡ is_nothing booking.now }
{
    booking.shares == 0 && booking.cents.value() == 0
}

// The row at a key on a closed day's sheet.
fn row_on(book: &ReplayBook, key: &Key, date: Day) -> Option<Row>
    ensures { result ≡ row_on (state_of book.now.log) key.now date }
{
    let sheet = book.sheet(date)?;
    sheet.row(*key)
}

// What an accepted close found at a key, of the book after it.
fn closing_of(book: &ReplayBook, key: &Key, answered: &Answered) -> Option<Closing>
    ensures { result ≡ closing (state_of book.now.log) key.now answered.now.number answered.now.reply }
{
    let Reply::Closed(closed) = answered.reply else {
        return None;
    };
    let row = row_on(book, key, closed.date)?;
    Some(Closing {
        number: answered.number,
        date: closed.date,
        day: closed.day,
        row,
        age: standing(book, key).run,
    })
}

// Adds the line of a close, if there is one, and that of what was booked, if it is anything.
fn add(
    closing: Option<Closing>,
    booking: &Booking,
    lines: &mut Vec<HistoryLine>,
) -> Result<(), NoMemory>
    ensures { OnOk result (lines.new.items
        ≡ lines.old.items ++ (option_to_list (option_map line.Closing closing) ++ option_to_list (booked booking.now))) }
{
    let booked = HistoryLine::Booking(*booking);
    if let Some(closing) = closing {
        lines.push(HistoryLine::Closing(closing))?;
    }
    if is_nothing(booking) {
        return Ok(());
    }
    lines.push(booked)?;
    Ok(())
}

/// Adds the line of what an activity booked since something stood at a place, by the book after it, if it is anything.
pub(crate) fn add_since(
    book: &ReplayBook,
    answered: &Answered,
    from: &Stood,
    lines: &mut Vec<HistoryLine>,
) -> Result<(), NoMemory>
    ensures { OnOk result (lines.new.items ≡ lines.old.items
        ++ option_to_list (booked_since answered.now.number (state_of book.now.log) answered.now.activity from.now)) }
{
    let booking = booking_since(book, answered, from);
    add(None, &booking, lines)
}

/// Adds the lines of an activity that was answered, by the book after it and by what stood at a place before it: that of a close,
/// which ends the day's cents, and that of what was booked.
///
/// `NoMemory` where an allocation failed; some of the lines may be there then.
pub(crate) fn add_lines(
    book: &ReplayBook,
    answered: &Answered,
    before: &Stood,
    lines: &mut Vec<HistoryLine>,
) -> Result<(), NoMemory>
    ensures { OnOk result (lines.new.items ≡ lines.old.items
        ++ lines_told (state_of book.now.log) before.now.0 answered.now.number answered.now.activity before.now.1 answered.now.reply) }
{
    let from = before.counted_from(&answered.reply);
    let closing = closing_of(book, &from.key, answered);
    let booking = booking_since(book, answered, &from);
    add(closing, &booking, lines)
}
