// The records of an input that a page is of, played on a book.
ghost use Rattle.std.specs.Prelude.{◌≡◌, IfOk, take};
ghost use Rattle.cns_asked.specs.Asks.{closed_date};
ghost use Rattle.cns_exceptions.specs.Days.{AreDays};
ghost use Rattle.cns_feed.specs.Output.{lines_of};
ghost use Rattle.cns_page.specs.Foot.{IsOrigin};
ghost use Rattle.cns_page.specs.Source.{IsSource, asked_close, close_before, last_close, number_of, part_of, watched_for, watched_on};

use crate::foot::{Origin, origin_of};
use cns_asked::{About, Asked, When, closed_date};
use cns_exceptions::{Close, Days, Input, Played, days_of, play_first};
use cns_history::{Watched, Whose};
use cns_shell::Fault;
use cns_units::Day;
use std::alloc::Global;
use std::io::Read;

/// The records of an input that a page is of, played on a book.
#[derive(Drop)]
pub struct Source {
    /// The date on which the book was opened.
    pub opening: Day,
    /// The accepted closes, in order: those up to the close of the day that is asked for, or all where no date is given.
    pub closes: Vec<Close>,
    /// What the records came to, with the lines of what was watched.
    pub played: Played,
    /// Their bytes.
    pub origin: Origin,
}

/// How far records of an input go.
#[derive(Clone, Copy)]
pub struct Part {
    /// How many come before those whose exceptions are looked at: those up to the close before the day.
    pub from: u64,
    pub records: u64,
    /// How many bytes of the input they take at most.
    pub bytes: u64,
}

fn last_close(closes: &[Close]) -> Option<Close>
    ensures { result ≡ last_close closes.now }
{
    closes.last().copied()
}

/// The close before the last one, if there is one.
pub(crate) fn close_before(closes: &[Close]) -> Option<Close>
    ensures { result ≡ close_before closes.now }
{
    let place = closes.len().checked_sub(2)?;
    closes.get(place).copied()
}

/// The last of the closes, where it is that of the day that is asked for.
pub(crate) fn asked_close(closes: &[Close], when: When) -> Option<Close>
    ensures { result ≡ asked_close when closes.now }
{
    let close = last_close(closes)?;
    let is_asked = match when {
        When::Last => true,
        When::Closed(day) => close.date == day,
        When::Today => false,
    };
    is_asked.then_some(close)
}

// The number of a close's record; 0 where there is none.
fn number_of(close: Option<Close>) -> u64
    ensures { result ≡ number_of close }
{
    match close {
        Some(close) => close.number,
        None => 0,
    }
}

// How far the records go, of which so many were read: up to the close of the day that is asked for, or to the last one where the day
// is open. None where there is no such close.
fn part_of(closes: &[Close], when: When, records: u64) -> Option<Part>
    ensures { result ≡ part_of when closes.now records }
{
    if let When::Today = when {
        return Some(Part {
            from: number_of(last_close(closes)),
            records,
            bytes: u64::MAX,
        });
    }
    let close = asked_close(closes, when)?;
    Some(Part {
        from: number_of(close_before(closes)),
        records: close.number,
        bytes: close.end,
    })
}

// What is watched for the page of a closed day, on the day with the date.
fn watched_on(about: About, date: Day) -> Watched
    ensures { result ≡ watched_on about date }
{
    match about {
        About::All | About::Place(_) => Watched::Movements(date),
        About::Account(account) => Watched::Bookings(Whose::One(account), date),
        About::Folder => Watched::Bookings(Whose::All, date),
    }
}

// What is watched for what is asked for, by the close of the day.
fn watched_for(about: About, close: Option<Close>) -> Watched
    ensures { result ≡ watched_for about close }
{
    if let About::Place(key) = about {
        return Watched::Place(key);
    }
    match close {
        Some(close) => watched_on(about, close.date),
        None => Watched::Nothing,
    }
}

// Where the days of an input end, up to the one that is asked for.
fn days_for(alloc: Global, asked: &Asked, input: &Input) -> Result<Days, Fault>
    ensures { IfOk result (AreDays asked.now.opening (closed_date asked.now.day) (lines_of input.now)) }
{
    let input = input.copied(alloc)?;
    let days = days_of(alloc, input, asked.opening, closed_date(asked.day))?;
    Ok(days)
}

// What the first bytes of an input are, so many.
fn origin_for(alloc: Global, input: &Input, bytes: u64) -> Result<Origin, Fault>
    ensures { IfOk result (IsOrigin (take bytes input.now)) }
{
    let input = input.copied(alloc)?;
    origin_of(alloc, input.take(bytes))
}

/// The records that the page is of which is asked for, played once: those up to the close of the day, and all where the day is open.
/// Where the days end is found by their closes alone. The input's memory is given back as its records are played.
///
/// `NoMemory` where an allocation failed, `Read` where there are 4,294,967,295 records or more up to that close, and `NoSuchDay` where
/// no closed day has the date, or none is closed.
pub(crate) fn source_of(alloc: Global, asked: &Asked, input: Input) -> Result<Source, Fault>
    ensures { IfOk result (IsSource asked.now input) }
{
    let days = days_for(alloc, asked, &input)?;
    let Days { closes, records } = days;
    let Some(part) = part_of(closes.as_slice(), asked.day, records) else {
        return Err(Fault::NoSuchDay);
    };
    let watched = watched_for(asked.about, asked_close(closes.as_slice(), asked.day));
    let origin = origin_for(alloc, &input, part.bytes)?;
    let played = play_first(
        alloc,
        input,
        asked.opening,
        part.from,
        part.records,
        &watched,
    )?;
    Ok(Source {
        opening: asked.opening,
        closes,
        played,
        origin,
    })
}
