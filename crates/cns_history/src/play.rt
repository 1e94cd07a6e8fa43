// A command that is taken by a book, with the lines of what is watched.
ghost use Rattle.std.specs.Prelude.{◌≡◌, ◌++◌, [], if◌then◌else◌, IfOk, OnOk, Ok};
ghost use Rattle.cns_terms.specs.Common.{answer};
ghost use Rattle.cns_book.specs.Log.{state_of};
ghost use Rattle.cns_feed.specs.Replay.{log_after_line};
ghost use Rattle.cns_history.specs.Lines.{bookings_at, is_movement, is_on, lines_at, lines_of};

use crate::everywhere::{add_booked, before};
use crate::line::HistoryLine;
use crate::told::{Answered, Stood, add_lines};
use cns_feed::{ReplayBook, ReplayFault};
use cns_terms::{Activity, Command, Key, Reply, Worker};
use cns_units::{Account, Day};

/// Whose bookings are wanted.
#[derive(Clone, Copy)]
pub enum Whose {
    /// An account's alone.
    One(Account),
    /// Those of the corporation and of all members.
    All,
}

/// What is watched while records are played.
#[derive(Clone, Copy)]
pub enum Watched {
    Nothing,
    /// An account's place in an issue: its history.
    Place(Key),
    /// All places of some accounts: what is booked there on the day with the date, from the close that opens it, which books what
    /// was due, up to the record before its own close.
    Bookings(Whose, Day),
    /// All places of all accounts: what that day's records book there that are neither trades nor closes.
    Movements(Day),
}

// Takes a command, and adds its lines at a place.
fn take_at(
    book: &mut ReplayBook,
    key: &Key,
    number: u64,
    command: &Command,
    lines: &mut Vec<HistoryLine>,
) -> Result<Reply, ReplayFault>
    ensures log { OnOk result (book.new.log ≡ log_after_line book.old.log (Ok command.now)) }
    ensures reply { IfOk result (λ r. r ≡ answer (state_of book.old.log) command.now) }
    ensures lines { OnOk result (lines.new.items
        ≡ lines.old.items ++ lines_at key.now number (state_of book.old.log) (Ok command.now)) }
{
    let before = Stood::at(book, key);
    let reply = book.take(Worker::FIRST, *command)?.reply;
    if let Command::Activity(activity) = command {
        let answered = Answered {
            number,
            activity: *activity,
            reply,
        };
        add_lines(book, &answered, &before, lines)?;
    }
    Ok(reply)
}

// Takes a command, and adds what it booked at all places of some accounts, where that is wanted of the record.
fn take_for(
    book: &mut ReplayBook,
    whose: &Whose,
    is_wanted: bool,
    number: u64,
    command: &Command,
    lines: &mut Vec<HistoryLine>,
) -> Result<Reply, ReplayFault>
    ensures log { OnOk result (book.new.log ≡ log_after_line book.old.log (Ok command.now)) }
    ensures reply { IfOk result (λ r. r ≡ answer (state_of book.old.log) command.now) }
    ensures lines { OnOk result (lines.new.items ≡ lines.old.items
        ++ (if is_wanted then bookings_at whose.now number (state_of book.old.log) (Ok command.now) else [])) }
{
    match command {
        Command::Activity(activity) if is_wanted => {
            let before = before(*lines.allocator(), book, whose, activity)?;
            let reply = book.take(Worker::FIRST, *command)?.reply;
            let answered = Answered {
                number,
                activity: *activity,
                reply,
            };
            add_booked(book, whose, &answered, before.as_slice(), lines)?;
            Ok(reply)
        }
        _ => Ok(book.take(Worker::FIRST, *command)?.reply),
    }
}

// Whether what a command books is booked on the day with the date: what a close books, on the day that it opens.
fn is_on(book: &ReplayBook, command: &Command, day: Day) -> bool
    ensures { result ≡ is_on (state_of book.now.log) (Ok command.now) day }
{
    match command {
        Command::Activity(Activity::Close(next)) => *next == day,
        _ => book.today() == day,
    }
}

// Whether a command can book what is neither a trade's nor a close's.
fn is_movement(command: &Command) -> bool
    ensures { result ≡ is_movement command.now }
{
    match command {
        Command::Activity(activity) => matches!(
            activity,
            Activity::Deliver(_)
                | Activity::Receive(_)
                | Activity::Split(_)
                | Activity::Exchange(_)
                | Activity::Execute(_)
        ),
        _ => false,
    }
}

/// Takes a command, which is that of the record with the number, and adds its lines where it is watched.
///
/// `NoMemory` where an allocation failed, and `Full` after 4,294,967,295 commands, the most that a history has. After a fault
/// some of the lines may be there.
pub fn take_watched(
    book: &mut ReplayBook,
    watched: &Watched,
    number: u64,
    command: &Command,
    lines: &mut Vec<HistoryLine>,
) -> Result<Reply, ReplayFault>
    ensures log { OnOk result (book.new.log ≡ log_after_line book.old.log (Ok command.now)) }
    ensures reply { IfOk result (λ r. r ≡ answer (state_of book.old.log) command.now) }
    ensures lines { OnOk result (lines.new.items
        ≡ lines.old.items ++ lines_of watched.now number (state_of book.old.log) (Ok command.now)) }
{
    match watched {
        Watched::Nothing => take_for(book, &Whose::All, false, number, command, lines),
        Watched::Place(key) => take_at(book, key, number, command, lines),
        Watched::Bookings(whose, day) => {
            let is_wanted = is_on(book, command, *day);
            take_for(book, whose, is_wanted, number, command, lines)
        }
        Watched::Movements(day) => {
            let is_wanted = book.today() == *day && is_movement(command);
            take_for(book, &Whose::All, is_wanted, number, command, lines)
        }
    }
}
