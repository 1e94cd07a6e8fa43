// Commands, and the activities among them.
ghost use Rattle.std.specs.Prelude.{◌≡◌, ◌↔◌, true};

use crate::action::{Declared, Exchange, Split};
use crate::buy_in::Execution;
use crate::holding::Key;
use cns_units::{Account, Cusip, Day, Member, Money, Price, Shares};

/// An issue with a price: as it is listed, or as it is priced anew.
#[derive(Clone, Copy)]
pub struct Listing {
    pub issue: Cusip,
    pub price: Price,
}

/// A trade between two members, which settles on its date (NSCC Procedure VII).
///
/// The history keeps every command, so the fields stand in the order in which they take the least room.
#[derive(Clone, Copy)]
pub struct Trade {
    /// From 1 to 10^18, used once.
    pub reference: u64,
    /// What the buyer owes and the seller is owed for the shares.
    pub money: Money,
    pub shares: Shares,
    pub buyer: Member,
    pub seller: Member,
    /// The settlement date.
    pub date: Day,
    pub issue: Cusip,
}

/// Shares of an issue that move between a member and the corporation, or that a member means to buy in.
#[derive(Clone, Copy)]
pub struct Movement {
    pub member: Member,
    pub issue: Cusip,
    pub shares: Shares,
}

/// What may be accepted into the book.
#[derive(Clone, Copy)]
pub enum Activity {
    /// A new member.
    Member(Member),
    /// A new issue, with its first price.
    Issue(Listing),
    /// A trade that settles today, or up to five calendar days later.
    Trade(Trade),
    /// The current market price of a listed issue.
    Price(Listing),
    /// Shares from a short member to the corporation.
    Deliver(Movement),
    /// Shares from the corporation to a long member.
    Receive(Movement),
    /// A dividend that members are paid later, or pay.
    Dividend(Declared),
    /// New shares for old ones in one issue.
    Split(Split),
    /// Shares of a successor for those of an issue, which is retired.
    Exchange(Exchange),
    /// A long member's notice of its intention to buy in.
    Notice(Movement),
    /// The notice with the number, from 1, is taken back.
    Withdraw(u32),
    /// Shares that were bought in for a notice, on the second day after its own.
    Execute(Execution),
    /// The end of the day; the date is that of the next one.
    Close(Day),
}

/// What the book is asked: to accept an activity, or one of two questions, which change nothing.
#[derive(Clone, Copy)]
pub enum Command {
    Activity(Activity),
    /// What stands at a key now.
    Position(Key),
    /// The statement of an account on a closed day.
    Statement { account: Account, date: Day },
}

impl Listing {
    // Whether both are the same value.
    fn is_same(&self, other: &Listing) -> bool
        ensures { (result ≡ true) ↔ (self.now ≡ other.now) }
    {
        self.issue.is_same(&other.issue) && self.price == other.price
    }
}

impl Trade {
    // Whether both are the same value.
    fn is_same(&self, other: &Trade) -> bool
        ensures { (result ≡ true) ↔ (self.now ≡ other.now) }
    {
        self.reference == other.reference
            && self.money == other.money
            && self.shares == other.shares
            && self.buyer == other.buyer
            && self.seller == other.seller
            && self.date.is_same(&other.date)
            && self.issue.is_same(&other.issue)
    }
}

impl Activity {
    // Whether both are the same value.
    fn is_same(&self, other: &Activity) -> bool
        ensures { (result ≡ true) ↔ (self.now ≡ other.now) }
    {
        match (self, other) {
            (Activity::Member(one), Activity::Member(two)) => one == two,
            (Activity::Issue(one), Activity::Issue(two)) => one.is_same(two),
            (Activity::Trade(one), Activity::Trade(two)) => one.is_same(two),
            (Activity::Price(one), Activity::Price(two)) => one.is_same(two),
            (Activity::Deliver(one), Activity::Deliver(two)) => one.is_same(two),
            (Activity::Receive(one), Activity::Receive(two)) => one.is_same(two),
            (Activity::Dividend(one), Activity::Dividend(two)) => one.is_same(two),
            (Activity::Split(one), Activity::Split(two)) => one.is_same(two),
            (Activity::Exchange(one), Activity::Exchange(two)) => one.is_same(two),
            (Activity::Notice(one), Activity::Notice(two)) => one.is_same(two),
            (Activity::Withdraw(one), Activity::Withdraw(two)) => one == two,
            (Activity::Execute(one), Activity::Execute(two)) => one == two,
            (Activity::Close(one), Activity::Close(two)) => one.is_same(two),
            _ => false,
        }
    }
}

impl Movement {
    // Whether both are the same value.
    fn is_same(&self, other: &Movement) -> bool
        ensures { (result ≡ true) ↔ (self.now ≡ other.now) }
    {
        self.member == other.member
            && self.issue.is_same(&other.issue)
            && self.shares == other.shares
    }
}

impl Command {
    /// Whether both are the same value.
    pub fn is_same(&self, other: &Command) -> bool
        ensures { (result ≡ true) ↔ (self.now ≡ other.now) }
    {
        match (self, other) {
            (Command::Activity(one), Command::Activity(two)) => one.is_same(two),
            (Command::Position(one), Command::Position(two)) => one.is_same(two),
            (
                Command::Statement { account, date },
                Command::Statement {
                    account: other_account,
                    date: other_date,
                },
            ) => account == other_account && date.is_same(other_date),
            _ => false,
        }
    }
}
