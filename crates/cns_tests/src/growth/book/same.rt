// Whether two books answer each reading call alike.
use cns_book::Book;
use cns_positions::Positions;
use cns_retransmit::Batch;
use cns_terms::Worker;
use cns_units::{Account, Cusip, Day};
use std::alloc::Allocator;

const DATES: [&str; 5] = [
    "2024-06-03",
    "2024-06-04",
    "2024-06-05",
    "2024-06-06",
    "2024-06-07",
];

const ISSUES: [&str; 3] = ["037833100", "17275R102", "594918104"];

// More entries than a history here has.
const ENTRIES: u32 = 40;

fn same_entries<P: Positions<H>, H: Allocator + Drop + Clone>(
    one: &Book<P, H>,
    other: &Book<P, H>,
) -> bool {
    for place in 0..ENTRIES {
        let alike = match (one.entry(place), other.entry(place)) {
            (Some(entry), Some(twin)) => entry.is_same(&twin),
            (None, None) => true,
            _ => false,
        };
        if !alike {
            return false;
        }
    }
    one.history_len() == other.history_len()
        && one.count(Worker::FIRST) == other.count(Worker::FIRST)
}

fn same_positions<P: Positions<H>, H: Allocator + Drop + Clone>(
    one: &Book<P, H>,
    other: &Book<P, H>,
    issue: Cusip,
) -> bool {
    for number in [0, 1, 2, 3, 4, 9_999] {
        let Ok(account) = Account::new(number) else {
            return false;
        };
        if one.position(account, issue) != other.position(account, issue) {
            return false;
        }
    }
    one.price(issue) == other.price(issue)
}

fn same_issues<P: Positions<H>, H: Allocator + Drop + Clone>(
    one: &Book<P, H>,
    other: &Book<P, H>,
) -> bool {
    for text in &ISSUES {
        let Ok(issue) = Cusip::parse(text.as_bytes()) else {
            return false;
        };
        if !same_positions(one, other, issue) || !same_batches(one, other, issue) {
            return false;
        }
    }
    true
}

fn same_notices<P: Positions<H>, H: Allocator + Drop + Clone>(
    one: &Book<P, H>,
    other: &Book<P, H>,
) -> bool {
    for number in 0..4 {
        if one.notice(number) != other.notice(number) {
            return false;
        }
    }
    true
}

fn are_same<H: Allocator + Drop + Clone>(one: &Batch<H>, other: &Batch<H>) -> bool {
    one.cusip() == other.cusip() && one.members() == other.members()
}

fn same_batch<P: Positions<H>, H: Allocator + Drop + Clone>(
    one: &Book<P, H>,
    other: &Book<P, H>,
    day: u32,
    issue: Cusip,
) -> bool {
    match (one.batch(day, issue), other.batch(day, issue)) {
        (Some(batch), Some(twin)) => are_same(batch, twin),
        (None, None) => true,
        _ => false,
    }
}

fn same_batches<P: Positions<H>, H: Allocator + Drop + Clone>(
    one: &Book<P, H>,
    other: &Book<P, H>,
    issue: Cusip,
) -> bool {
    for day in 0..5 {
        if one.batches(day).len() != other.batches(day).len() {
            return false;
        }
        if !same_batch(one, other, day, issue) {
            return false;
        }
    }
    true
}

fn same_sheet<P: Positions<H>, H: Allocator + Drop + Clone>(
    one: &Book<P, H>,
    other: &Book<P, H>,
    date: Day,
) -> bool {
    match (one.sheet(date), other.sheet(date)) {
        (Some(sheet), Some(twin)) => sheet.is_same(&**twin),
        (None, None) => true,
        _ => false,
    }
}

fn same_days<P: Positions<H>, H: Allocator + Drop + Clone>(
    one: &Book<P, H>,
    other: &Book<P, H>,
) -> bool {
    for text in &DATES {
        let Ok(date) = Day::parse(text.as_bytes()) else {
            return false;
        };
        if !same_sheet(one, other, date) {
            return false;
        }
    }
    one.today() == other.today() && one.day() == other.day()
}

// Whether two books answer alike.
pub(super) fn agree<P: Positions<H>, H: Allocator + Drop + Clone>(
    one: &Book<P, H>,
    other: &Book<P, H>,
) -> bool {
    same_entries(one, other)
        && same_issues(one, other)
        && same_notices(one, other)
        && same_days(one, other)
}
