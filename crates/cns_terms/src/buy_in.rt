// Buy-ins: notices, the members that are liable for them, and executions.
use cns_units::{Cusip, Member, Money, Shares};

/// A notice of intention to buy in, as it was given (NSCC Rule 11 and Procedure X).
#[derive(Clone, Copy)]
pub struct Given {
    /// The long member that gave it.
    pub member: Member,
    pub issue: Cusip,
    /// The shares it means to buy in.
    pub shares: Shares,
    /// The number of the day on which it was given, from 1.
    pub day: u32,
}

/// How a notice stands (this project's profile).
#[derive(Clone, Copy, PartialEq, Eq)]
pub enum Stage {
    /// It can be withdrawn or, on the second day after its own, executed.
    Live,
    /// Its member took it back.
    Withdrawn,
    /// A split or an exchange of its issue ended it.
    Ended,
    /// The second day after its own was closed.
    Expired,
}

/// The execution of a notice: shares that its member bought in, for money (NSCC Procedure X).
#[derive(Clone, Copy, PartialEq, Eq)]
pub struct Execution {
    /// The notice's number, from 1.
    pub notice: u32,
    pub shares: Shares,
    /// What the shares cost, in cents.
    pub money: Money,
}

/// A member that is short in an issue at a close.
#[derive(Clone, Copy)]
pub struct Short {
    pub member: Member,
    /// How many shares it is short, above 0.
    pub shares: u64,
    /// At how many closes in a row it was short, this one included.
    pub age: u32,
}

/// A member that is liable for the notices of a day in an issue.
#[derive(Clone, Copy, PartialEq, Eq)]
pub struct Liable {
    pub member: Member,
    /// The age of its short at the close of that day.
    pub age: u32,
    /// Its short at that close, in shares.
    pub closing: u64,
    /// The shares of it that no execution has filled yet.
    pub left: u64,
}

/// What an execution gives a liable member, and what it pays for them.
#[derive(Clone, Copy)]
pub struct Fill {
    pub member: Member,
    /// In shares, above 0.
    pub shares: u64,
    /// Its part of the money, in cents.
    pub cents: u64,
}
