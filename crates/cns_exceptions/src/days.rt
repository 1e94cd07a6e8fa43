// Where the days of an input end.
ghost use Rattle.std.specs.Prelude.{◌≡◌, ◌∷◌, [], ◌++◌, IfOk, OnOk};
ghost use Rattle.cns_feed.specs.Output.{lines_of};
ghost use Rattle.cns_feed.specs.Records.{IsReady};
ghost use Rattle.cns_exceptions.specs.Days.{AreDays, ReadsDay, is_last, next_day};

use crate::input::Input;
use cns_feed::{Line, MOST_RECORDS, Records, ReplayFault};
use cns_terms::{Activity, Command, NoMemory};
use cns_units::Day;
use std::alloc::Global;
use std::io::Read;

/// A close that was accepted.
#[derive(Clone, Copy)]
pub struct Close {
    /// The closed day's number, from 1.
    pub day: u32,
    /// The closed day's date.
    pub date: Day,
    /// The number of the record that closed it, from 1.
    pub number: u64,
    /// How many bytes of the input the records up to this one take. No clause says so.
    pub end: u64,
}

/// Where days of an input end.
#[derive(Drop)]
pub struct Days {
    /// The accepted closes, in order.
    pub closes: Vec<Close>,
    /// How many records were read for them.
    pub records: u64,
}

// The day that a record opens, where it is a close that is accepted: its date is after the open day's.
fn next_day(line: &Line, today: Day) -> Option<Day>
    ensures { result ≡ next_day today line.now }
{
    match line {
        Ok(Command::Activity(Activity::Close(next))) if next.number() > today.number() => {
            Some(*next)
        }
        _ => None,
    }
}

// The next record, as the day that it opens, if it does; None where there is no more.
fn read_day<R: Read>(
    records: &mut Records<R>,
    today: Day,
) -> Result<Option<Option<Day>>, ReplayFault>
    requires { IsReady records.old }
    ensures { IfOk result (ReadsDay R.remaining records.old records.new today) }
{
    let Some(line) = records.read_line()? else {
        return Ok(None);
    };
    Ok(Some(next_day(&line, today)))
}

// Whether a day is the last one that is wanted.
fn is_last(last: &Option<Day>, date: Day) -> bool
    ensures { result ≡ is_last last.now date }
{
    match last {
        Some(last) => date == *last,
        None => false,
    }
}

fn push(closes: &mut Vec<Close>, close: Close) -> Result<(), NoMemory>
    ensures { OnOk result (closes.new.items ≡ closes.old.items ++ close ∷ []) }
{
    closes.push(close)?;
    Ok(())
}

/// Where the days of an input end, by its closes alone: no other record bears on whether a close is accepted, and on which day. All days,
/// or those up to the one with the date, where one is given and there is such a day.
///
/// `NoMemory` where an allocation failed, and `Read` where 4,294,967,295 records or more were to be read.
pub fn days_of(
    alloc: Global,
    input: Input,
    opening: Day,
    last: Option<Day>,
) -> Result<Days, ReplayFault>
    ensures { IfOk result (AreDays opening last (lines_of input)) }
{
    let mut records = Records::new(alloc, input);
    let mut closes = Vec::new(alloc);
    let mut today = opening;
    let mut day: u64 = 1;
    for number in 0..MOST_RECORDS {
        let Some(next) = read_day(&mut records, today)? else {
            let records = u64::from(number);
            return Ok(Days { closes, records });
        };
        let Some(next) = next else {
            continue;
        };
        let read = u64::from(number) + 1;
        let close = Close {
            day: day as u32,
            date: today,
            number: read,
            end: records.end(),
        };
        push(&mut closes, close)?;
        if is_last(&last, today) {
            let records = read;
            return Ok(Days { closes, records });
        }
        today = next;
        day += 1;
    }
    Err(ReplayFault::Read)
}
