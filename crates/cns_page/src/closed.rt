// A closed day, with what its pages show.
ghost use Rattle.std.specs.Prelude.{◌≡◌, IfOk};
ghost use Rattle.cns_page.specs.Closed.{AreShared, IsClosedDay, date_before, is_folder};

use crate::source::{Source, asked_close, close_before};
use cns_account::{DayMoves, moves_of_day};
use cns_asked::{About, Asked};
use cns_day::{
    Aged, Due, Later, Numbered, Owing, dues_of, later_shares, liable_members, live_notices,
    shorts_of,
};
use cns_exceptions::{Close, Played};
use cns_sheets::Sheet;
use cns_shell::Fault;
use cns_terms::NoMemory;
use cns_units::Day;
use std::alloc::Global;
use std::sync::Arc;

/// What the page of a closed day shows of all accounts, and an account's page of its own.
#[derive(Drop)]
pub struct Shared {
    /// Shorts, the oldest first.
    pub shorts: Vec<Aged>,
    pub liable: Vec<Owing>,
    /// Live notices, by number.
    pub notices: Vec<Numbered>,
    /// Trades that settle after the day, by date.
    pub trades: Vec<Due>,
    /// Their shares, by place.
    pub later: Later,
    /// What moved each position on the day.
    pub moves: DayMoves,
}

/// A closed day, of the records up to its close alone, with what its pages show.
#[derive(Drop)]
pub struct ClosedDay<'a> {
    pub source: &'a Source,
    /// Its close, which is the last one of its source.
    pub close: Close,
    pub sheet: Arc<Sheet<Global>>,
    pub shared: Shared,
    /// Whether its pages stand in a folder, and links lead from one to another and to those of other days.
    pub is_linked: bool,
}

/// The date of the close before the last one, if there is one.
pub(crate) fn date_before(closes: &[Close]) -> Option<Day>
    ensures { result ≡ date_before closes.now }
{
    Some(close_before(closes)?.date)
}

/// Whether pages are for a folder.
pub(crate) fn is_folder(about: About) -> bool
    ensures { result ≡ is_folder about }
{
    matches!(about, About::Folder)
}

// What the pages of a day and of its accounts show both.
fn shared_of(
    alloc: Global,
    played: &Played,
    before: Option<Day>,
    close: &Close,
    sheet: &Sheet<Global>,
) -> Result<Shared, NoMemory>
    ensures { IfOk result (AreShared played.now before close.now sheet.now) }
{
    let book = &played.book;
    let shorts = shorts_of(alloc, book, sheet)?;
    let liable = liable_members(alloc, book, close.day)?;
    let notices = live_notices(alloc, book)?;
    let trades = dues_of(alloc, book, sheet.date())?;
    let later = later_shares(alloc, trades.as_slice())?;
    let moves = moves_of_day(alloc, book, before, close.date, played.lines.as_slice())?;
    Ok(Shared {
        shorts,
        liable,
        notices,
        trades,
        later,
        moves,
    })
}

/// The closed day that is asked for, of its records. `NoSuchDay` where the day is open.
pub(crate) fn closed_day<'a>(
    alloc: Global,
    asked: &Asked,
    source: &'a Source,
) -> Result<ClosedDay<'a>, Fault>
    ensures { IfOk result (IsClosedDay asked.now source.now) }
{
    let Some(close) = asked_close(source.closes.as_slice(), asked.day) else {
        return Err(Fault::NoSuchDay);
    };
    let Some(sheet) = source.played.book.sheet(close.date) else {
        return Err(Fault::NoSuchDay);
    };
    let Ok(sheet) = Arc::try_clone(sheet) else {
        return Err(Fault::NoMemory);
    };
    let before = date_before(source.closes.as_slice());
    let shared = shared_of(alloc, &source.played, before, &close, &sheet)?;
    Ok(ClosedDay {
        source,
        close,
        sheet,
        shared,
        is_linked: is_folder(asked.about),
    })
}
