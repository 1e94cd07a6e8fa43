// Days of the calendar.
ghost use Rattle.std.specs.Prelude.{◌≡◌, ◌+◌, ◌*◌, ◌<◌, ◌↔◌, length, true, IfSome};
ghost use Rattle.std.proofs.Common.{rules};
ghost use Rattle.std.specs.Cmp.{partial_order_from_own_ties};
ghost use Rattle.std.specs.Cmp.Rules.{comparing};
ghost use Rattle.std.specs.Ordering.{on, int_eq, int_cmp, as_partial_cmp};
ghost use Rattle.cns_units.specs.Day.{CalendarDay, day_number, day_of, day_text, is_calendar_day, two_at};
ghost use Rattle.cns_units.specs.Output.{Writes};

use crate::fault::{UnitFault, WriteFault};
use crate::output::write_bytes;
use jiff::civil::Date;
use jiff_core::civil;
use std::cmp::Ordering;
use std::io::Write;
use std::marker::Model;

/// A day from 0001-01-01 to 9999-12-31. Days are equal and ordered by their numbers.
#[derive(Clone, Copy)]
pub struct Day {
    year: u16,
    month: u8,
    day: u8,
}

impl Model for Day {
    ghost Value = { CalendarDay };

    ghost view = { λ d. record { year = d.year; month = d.month; day = d.day } };

    ghost invariant = { λ d. is_calendar_day d.year d.month d.day ≡ true };

    ghost inverse = { λ c. record { year = c.year; month = c.month; day = c.day } };
}

// The number of the two digits at a place.
fn two_digits(bytes: &[u8], at: usize) -> Option<u8>
    requires { at + 1 < length bytes.now }
    ensures value { result ≡ two_at bytes.now at }
    ensures small { IfSome result (λ n. n < 100) }
{
    let tens = bytes[at];
    let units = bytes[at + 1];
    if tens.is_ascii_digit() && units.is_ascii_digit() {
        Some((tens - b'0') * 10 + (units - b'0'))
    } else {
        None
    }
}

// Whether the calendar has the day, in the years from 1 on.
fn is_day(year: u16, month: u8, day: u8) -> bool
    requires year { year < 10000 }
    requires month { month < 100 }
    requires day { day < 100 }
    ensures { result ≡ is_calendar_day year month day }
{
    0 < year && Date::new(year as i16, month as i8, day as i8).is_ok()
}

impl Day {
    /// Reads exactly `YYYY-MM-DD`. Any other text is `Date`, also where a date library would take it, as
    /// `2024-06-03T00:00`. It takes no memory, so `NoMemory` never comes.
    pub fn parse(bytes: &[u8]) -> Result<Day, UnitFault>
        ensures { result ≡ day_of bytes.now }
    {
        if bytes.len() != 10 || bytes[4] != b'-' || bytes[7] != b'-' {
            return Err(UnitFault::Date);
        }
        let Some(century) = two_digits(bytes, 0) else {
            return Err(UnitFault::Date);
        };
        let Some(year) = two_digits(bytes, 2) else {
            return Err(UnitFault::Date);
        };
        let Some(month) = two_digits(bytes, 5) else {
            return Err(UnitFault::Date);
        };
        let Some(day) = two_digits(bytes, 8) else {
            return Err(UnitFault::Date);
        };
        let year = u16::from(century) * 100 + u16::from(year);
        if !is_day(year, month, day) {
            return Err(UnitFault::Date);
        }
        Ok(Day { year, month, day })
    }

    /// The day's number: days since 1970-01-01, negative before it.
    pub fn number(&self) -> i32
        ensures { result ≡ day_number self.now }
    {
        let date = civil::Date::new(self.year as i16, self.month as i8, self.day as i8);
        date.unwrap().to_unix_epoch_day()
    }

    /// Whether year, month and day are the same. `==` answers so too; its clause speaks of numbers, this one of the value.
    pub fn is_same(&self, other: &Day) -> bool
        ensures { (result ≡ true) ↔ (self.now ≡ other.now) }
    {
        self.day == other.day && self.month == other.month && self.year == other.year
    }
}

impl PartialEq for Day {
    ghost eq = { on day_number int_eq };

    ghost laws = { Prim.search (comparing, rules) };

    // No two days have the same number, so their parts are compared.
    #[tactic(auto, using(crate::proofs::DayLemmas::differ, crate::proofs::DayLemmas::years_test))]
    fn eq(&self, other: &Day) -> bool {
        if self.day != other.day {
            return false;
        }
        if self.month != other.month {
            return false;
        }
        self.year == other.year
    }
}

impl Eq for Day {
    ghost laws = { Prim.search (comparing, rules) };
}

impl Ord for Day {
    ghost cmp = { on day_number int_cmp };

    ghost total = { Prim.search (comparing, rules) };

    ghost matches_partial_cmp = { Prim.search (comparing, rules) };

    ghost matches_eq = { Prim.search (comparing, rules) };

    fn cmp(&self, other: &Day) -> Ordering {
        self.number().cmp(&other.number())
    }
}

impl PartialOrd for Day {
    ghost partial_cmp = { as_partial_cmp (on day_number int_cmp) };

    ghost laws = { partial_order_from_own_ties (Prim.search (comparing, rules))
        (Prim.search (comparing, rules)) };

    fn partial_cmp(&self, other: &Day) -> Option<Ordering> {
        Some(self.cmp(other))
    }
}

/// Writes a day as `YYYY-MM-DD`.
///
/// Where the writer fails or takes no byte it answers `WriteFault`, and a prefix of that text was written.
pub fn write_day<W: Write>(day: Day, writer: &mut W) -> Result<(), WriteFault>
    ensures { Writes (W.contents writer.old) (W.contents writer.new) (day_text day) result }
{
    let century = (day.year / 100) as u8;
    let year = (day.year % 100) as u8;
    let text = [
        b'0' + century / 10,
        b'0' + century % 10,
        b'0' + year / 10,
        b'0' + year % 10,
        b'-',
        b'0' + day.month / 10,
        b'0' + day.month % 10,
        b'-',
        b'0' + day.day / 10,
        b'0' + day.day % 10,
    ];
    write_bytes(&text, writer)
}
