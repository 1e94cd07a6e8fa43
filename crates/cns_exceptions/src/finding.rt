// An exception: an invalid record, or a refused command.
ghost use Rattle.std.specs.Prelude.{◌≡◌};
ghost use Rattle.cns_exceptions.specs.Survey.{names};

use cns_book::Notice;
use cns_feed::LineFault;
use cns_terms::{Exchange, Key, Pend, Refusal, Trade};
use cns_units::{Account, Cusip, Day};

/// A record that is no command, or a command that was refused.
#[derive(Drop)]
pub struct Finding {
    /// The number of the record, from 1. Empty lines are no records.
    pub record: u64,
    /// The record as it was given, without its line end; bytes that are no text are U+FFFD.
    pub text: String,
    pub outcome: Outcome,
    /// Why it is an exception, after the name of the fault or the number of the refusal.
    pub words: &'static str,
    /// What decided a refusal.
    pub facts: Facts,
    /// What the command names; a record that is no command names nothing.
    pub named: Named,
    /// The accepted trade with the reference of a refused one: before it, where it was refused for that, or after it, which put it
    /// right.
    pub accepted: Option<Accepted>,
}

/// An accepted trade, with the number of its record, from 1.
#[derive(Clone, Copy)]
pub struct Accepted {
    pub number: u64,
    pub trade: Trade,
}

/// An exception of the day on the page of an account that it names.
#[derive(Clone, Copy)]
pub struct Cited<'a> {
    pub finding: &'a Finding,
}

impl Finding {
    /// Whether a refused record names an account.
    pub fn names(&self, account: Account) -> bool
        ensures { result ≡ names account self.now }
    {
        self.named.account == Some(account) || self.named.other == Some(account)
    }
}

/// What a record came to that is an exception.
#[derive(Clone, Copy)]
pub enum Outcome {
    AtFault(LineFault),
    Refused(Refusal),
}

/// What a command names.
#[derive(Clone, Copy)]
pub struct Named {
    /// Of a trade the buyer.
    pub account: Option<Account>,
    /// A trade's seller.
    pub other: Option<Account>,
    /// The account whose position a refusal looks at too: a trade's seller, and for a receipt the corporation, whose position below 0
    /// is what is on hand.
    pub beside: Option<Account>,
    /// Of an exchange the old one.
    pub issue: Option<Cusip>,
    pub successor: Option<Cusip>,
    /// Of a trade.
    pub reference: Option<u64>,
    pub notice: Option<u32>,
}

/// Nothing.
pub const NOTHING: Named = Named {
    account: None,
    other: None,
    beside: None,
    issue: None,
    successor: None,
    reference: None,
    notice: None,
};

/// What decided a refusal, as the book stood then, so far as the book's calls tell it: the day, the notice that the command or the
/// refusal names, and what else the refusal looks at.
pub type Facts = [Option<Fact>; 6];

/// What else it looks at.
pub type Decided = [Option<Fact>; 4];

/// The facts of a record that is no command.
pub const NO_FACTS: Facts = [None; 6];

/// Something that a refusal looks at.
#[derive(Clone, Copy)]
pub enum Fact {
    /// The open day's date and its number, from 1.
    Today(Day, u64),
    /// A notice, with its number, from 1.
    Notice(u32, Notice),
    /// An issue's price in cents; None where it is not listed.
    Price(Cusip, Option<u64>),
    /// The exchange that retired an issue.
    Exchanged(Exchange),
    /// A position in shares; None where the account is no member's nor the corporation's, or the issue is not listed.
    Position(Key, Option<i64>),
    Waiting(Waiting),
    /// The first of an issue's trades that are pending, in the order in which they were taken.
    Pending(Pend),
    /// How many shares the liable members can be given.
    Room(u64),
}

/// What an account is to get and to give in an issue by pending trades, in shares.
#[derive(Clone, Copy)]
pub struct Waiting {
    pub key: Key,
    pub bought: u64,
    pub sold: u64,
}
