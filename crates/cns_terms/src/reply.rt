// What the book answers.
ghost use Rattle.std.specs.Prelude.{◌≡◌, ◌↔◌, true};
ghost use Rattle.cns_terms.specs.Holdings.{held_of};

use crate::holding::{Holding, Key};
use crate::refusal::Refusal;
use cns_units::{Account, Cents, Day};

/// What an accepted close answers.
#[derive(Clone, Copy)]
pub struct Closed {
    /// The closed day's number, from 1; up to 2^32 - 1, since each close is one entry of the history.
    pub day: u32,
    /// The closed day's date.
    pub date: Day,
    /// How many rows its sheet has.
    pub rows: u64,
    /// How many members are liable in the day's batches.
    pub liable: u64,
}

/// What an accepted request for a statement answers.
#[derive(Clone, Copy)]
pub struct Stated {
    pub account: Account,
    /// The closed day's date.
    pub date: Day,
    /// How many rows of the day's sheet are the account's.
    pub rows: u64,
    /// The sum of their marks.
    pub mark: Cents,
    /// The sum of their dividends.
    pub dividend: Cents,
}

/// What a POSITION tells of an account's place in an issue.
#[derive(Clone, Copy)]
pub struct Held {
    /// The cents booked on the open day: since the last close, and by it for trades that were due.
    pub contract: Cents,
    /// The position in shares: above 0 it is due from the corporation, below 0 to it (NSCC Rule 11).
    pub position: i64,
    /// The position at the last close, in shares.
    pub opening: i64,
    /// The age of a short: at how many closes in a row, up to the last, the position was below 0.
    pub age: u32,
    pub key: Key,
}

/// The reply to a command.
#[derive(Clone, Copy)]
pub enum Reply {
    /// An activity was accepted that has no reply of its own.
    Accepted,
    /// A notice was accepted: its number, from 1. Each notice is one entry of the history, so numbers go up to 2^32 - 1.
    Noticed(u32),
    /// An execution was accepted: how many members were filled.
    Executed(u64),
    Closed(Closed),
    /// What stands at a key.
    Held(Held),
    /// The first line of a statement; its rows are on the day's sheet.
    Stated(Stated),
    Refused(Refusal),
}

impl Closed {
    // Whether both are the same value.
    fn is_same(&self, other: &Closed) -> bool
        ensures { (result ≡ true) ↔ (self.now ≡ other.now) }
    {
        self.day == other.day
            && self.date.is_same(&other.date)
            && self.rows == other.rows
            && self.liable == other.liable
    }
}

impl Stated {
    // Whether both are the same value.
    fn is_same(&self, other: &Stated) -> bool
        ensures { (result ≡ true) ↔ (self.now ≡ other.now) }
    {
        self.account == other.account
            && self.date.is_same(&other.date)
            && self.rows == other.rows
            && self.mark == other.mark
            && self.dividend == other.dividend
    }
}

impl Held {
    /// What a POSITION tells of what stands at a key.
    pub fn of(key: Key, holding: Holding) -> Held
        ensures { result ≡ held_of key holding }
    {
        Held {
            contract: holding.contract,
            position: holding.now,
            opening: holding.opening,
            age: holding.run,
            key,
        }
    }

    // Whether both are the same value.
    fn is_same(&self, other: &Held) -> bool
        ensures { (result ≡ true) ↔ (self.now ≡ other.now) }
    {
        self.key.is_same(&other.key)
            && self.position == other.position
            && self.opening == other.opening
            && self.contract == other.contract
            && self.age == other.age
    }
}

impl Reply {
    /// Whether both are the same value.
    pub fn is_same(&self, other: &Reply) -> bool
        ensures { (result ≡ true) ↔ (self.now ≡ other.now) }
    {
        match (self, other) {
            (Reply::Accepted, Reply::Accepted) => true,
            (Reply::Noticed(one), Reply::Noticed(two)) => one == two,
            (Reply::Executed(one), Reply::Executed(two)) => one == two,
            (Reply::Closed(one), Reply::Closed(two)) => one.is_same(two),
            (Reply::Held(one), Reply::Held(two)) => one.is_same(two),
            (Reply::Stated(one), Reply::Stated(two)) => one.is_same(two),
            (Reply::Refused(one), Reply::Refused(two)) => one == two,
            _ => false,
        }
    }
}
