// Accounts, issues and days by their numbers and texts.
use cns_terms::Key;
use cns_units::{Account, Cusip, Day};
use std::process::Abort;

// The issue that most tests trade.
pub(crate) const APPLE: &str = "037833100";

// The day on which each book opens, and the next one.
pub(crate) const FIRST: &str = "2024-06-03";

pub(crate) const SECOND: &str = "2024-06-04";

pub(crate) fn account(rt: &impl Abort, number: u16) -> Account {
    Account::new(number).expect(rt, "an account")
}

pub(crate) fn cusip(rt: &impl Abort, text: &str) -> Cusip {
    Cusip::parse(text.as_bytes()).expect(rt, "an issue")
}

pub(crate) fn key(rt: &impl Abort, number: u16, issue: &str) -> Key {
    Key {
        account: account(rt, number),
        issue: cusip(rt, issue),
    }
}

pub(crate) fn day(rt: &impl Abort, text: &str) -> Day {
    Day::parse(text.as_bytes()).expect(rt, "a day")
}

pub(crate) fn first_day(rt: &impl Abort) -> Day {
    day(rt, FIRST)
}
