// Texts of values: CUSIPs, days, cents. The ranges of numbers are shown by the cases of fields.
use crate::checks::check;
use crate::values::day;
use cns_units::{Cents, Cusip, Day, UnitFault, write_cents, write_day};
use std::alloc::Global;
use std::process::Abort;

const READ_CUSIPS: [(&str, Option<UnitFault>); 8] = [
    ("037833100", None),
    ("17275R102", None),
    ("38259P508", None),
    ("037833101", Some(UnitFault::CheckDigit)),
    ("17275r102", Some(UnitFault::Character)),
    ("03783310R", Some(UnitFault::Character)),
    ("03783310", Some(UnitFault::Length)),
    ("", Some(UnitFault::Length)),
];

#[test]
fn a_cusip_is_read_by_its_characters_and_its_check_digit(rt: HostRuntime) {
    for (text, fault) in &READ_CUSIPS {
        check(&rt, Cusip::parse(text.as_bytes()).err() == *fault, text);
    }
}

const READ_DAYS: [(&str, Option<i32>); 11] = [
    ("1970-01-01", Some(0)),
    ("2024-06-03", Some(19_877)),
    ("2024-02-29", Some(19_782)),
    ("0001-01-01", Some(-719_162)),
    ("9999-12-31", Some(2_932_896)),
    ("2023-02-29", None),
    ("2024-6-3", None),
    ("0000-01-01", None),
    ("20240603", None),
    ("+2024-06-03", None),
    ("2024-06-03T00:00:00Z", None),
];

fn number_of_day(text: &str) -> Option<i32> {
    let Ok(day) = Day::parse(text.as_bytes()) else {
        return None;
    };
    Some(day.number())
}

#[test]
fn a_day_is_read_only_as_year_month_and_day(rt: HostRuntime) {
    for (text, number) in &READ_DAYS {
        check(&rt, number_of_day(text) == *number, text);
    }
}

const WRITTEN_CENTS: [(i128, &str); 7] = [
    (0, "0.00"),
    (-1, "-0.01"),
    (5, "0.05"),
    (-100, "-1.00"),
    (1_950_000, "19500.00"),
    (-1_000_000_000_000_000_000, "-10000000000000000.00"),
    (i128::MIN, "-1701411834604692317316873037158841057.28"),
];

fn are_cents_written(alloc: Global, cents: Cents, text: &str) -> bool {
    let mut written = Vec::new(alloc);
    write_cents(cents, &mut written).is_ok() && written.as_slice() == text.as_bytes()
}

#[test]
fn cents_are_written_as_dollars_and_two_digits(rt: HostRuntime) {
    for (cents, text) in &WRITTEN_CENTS {
        let cents = Cents::new(*cents).expect(&rt, "cents");
        check(&rt, are_cents_written(rt.alloc(), cents, text), text);
    }
}

const WRITTEN_DAYS: [&str; 4] = ["0001-01-01", "0999-10-09", "2024-06-03", "9999-12-31"];

fn is_day_written(alloc: Global, day: Day, text: &str) -> bool {
    let mut written = Vec::new(alloc);
    write_day(day, &mut written).is_ok() && written.as_slice() == text.as_bytes()
}

#[test]
fn a_day_is_written_as_it_is_read(rt: HostRuntime) {
    for text in &WRITTEN_DAYS {
        let day = day(&rt, text);
        check(&rt, is_day_written(rt.alloc(), day, text), text);
    }
}
