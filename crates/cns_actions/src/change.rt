// What positions become in a split or an exchange, and what is booked for it.
ghost use Rattle.std.specs.Prelude.{◌≡◌, ◌≤◌, ◌+ℤ◌, ◌-ℤ◌, neg_ℤ, pos, ◌++◌, OnOk, unsigned_abs};
ghost use Rattle.cns_terms.specs.Entries.{entry};
ghost use Rattle.cns_terms.specs.Limits.{member_limit, position_limit};
ghost use Rattle.cns_actions.specs.Changes.{IsFew, age_for, bookings_for, change_of, in_issue_order, opposite};
ghost use Rattle.cns_actions.specs.Bookings.{booking};

use crate::action::Action;
use crate::booking::Booking;
use crate::conversion::{exchange_of, split_of};
use crate::holder::Holder;
use cns_terms::{Entry, Exchange, NoMemory, Split};
use cns_units::Account;
use std::alloc::Allocator;

/// What a position becomes, or what several become together.
#[derive(Clone, Copy)]
pub(crate) struct Change {
    /// Shares of the issue that is split or exchanged.
    pub before: i64,
    /// Whole shares that they become, of that issue or of its successor.
    pub after: i64,
    /// Cents in lieu of the rest, with the cash of an exchange.
    pub cents: i128,
}

impl Change {
    /// Nothing becomes nothing.
    pub const NONE: Change = Change {
        before: 0,
        after: 0,
        cents: 0,
    };

    /// What a member's position becomes.
    pub fn of(action: &Action, holder: &Holder) -> Change
        requires { unsigned_abs holder.now.shares ≤ position_limit }
        ensures exact { result ≡ change_of action.now holder.now.shares }
        ensures few { IsFew 1 result }
    {
        let shares = holder.shares;
        let (after, cents) = match action {
            Action::Split(split) => split_of(shares, split.ratio, split.lieu),
            Action::Exchange(exchange) => {
                exchange_of(shares, exchange.ratio, exchange.lieu, exchange.cash)
            }
        };
        Change {
            before: shares,
            after,
            cents: cents.value(),
        }
    }

    /// Adds what one more position becomes.
    pub fn add(&mut self, other: &Change)
        requires sum { IsFew member_limit self.old }
        requires few { IsFew 1 other.now }
        ensures before { self.new.before ≡ self.old.before +ℤ other.now.before }
        ensures after { self.new.after ≡ self.old.after +ℤ other.now.after }
        ensures cents { self.new.cents ≡ self.old.cents +ℤ other.now.cents }
    {
        self.before += other.before;
        self.after += other.after;
        self.cents += other.cents;
    }

    /// The opposite, which is the corporation's.
    pub fn opposite(&self) -> Change
        requires { IsFew member_limit self.now }
        ensures exact { result ≡ opposite self.now }
        ensures few { IsFew member_limit result }
    {
        Change {
            before: -self.before,
            after: -self.after,
            cents: -self.cents,
        }
    }
}

// Puts bookings after others.
fn extend<A: Allocator + Drop>(
    bookings: &mut Vec<Booking, A>,
    more: &[Booking],
) -> Result<(), NoMemory>
    ensures { OnOk result (bookings.new.items ≡ bookings.old.items ++ more.now) }
{
    bookings.extend_from_slice(more)?;
    Ok(())
}

// Two bookings of an account, in the order of their issues.
fn ordered(one: &Booking, other: &Booking) -> [Booking; 2]
    ensures { result ≡ in_issue_order one.now other.now }
{
    if one.entry.issue < other.entry.issue {
        [*one, *other]
    } else {
        [*other, *one]
    }
}

// The shares that a change adds to a position.
fn difference(change: &Change) -> i64
    requires { IsFew member_limit change.now }
    ensures { result ≡ change.now.after -ℤ change.now.before }
{
    change.after - change.before
}

// What a split books for an account.
fn differing(split: &Split, account: Account, change: &Change) -> Booking
    requires { IsFew member_limit change.now }
    ensures { result
        ≡ booking (entry account split.now.issue (change.now.after -ℤ change.now.before) change.now.cents) 0 }
{
    Booking::of(&Entry {
        account,
        issue: split.issue,
        shares: difference(change),
        cents: change.cents,
    })
}

// What an exchange books for an account in the old issue.
fn leaving(exchange: &Exchange, account: Account, change: &Change) -> Booking
    requires { IsFew member_limit change.now }
    ensures { result ≡ booking (entry account exchange.now.old (neg_ℤ change.now.before) (pos 0)) 0 }
{
    Booking::of(&Entry {
        account,
        issue: exchange.old,
        shares: -change.before,
        cents: 0,
    })
}

// What it books in the successor, with the age that it brings there.
fn entering(exchange: &Exchange, account: Account, change: &Change, oldest: u32) -> Booking
    ensures { result ≡ booking (entry account exchange.now.successor change.now.after change.now.cents) oldest }
{
    Booking {
        entry: Entry {
            account,
            issue: exchange.successor,
            shares: change.after,
            cents: change.cents,
        },
        carried: oldest,
    }
}

/// Puts what is booked for an account after other bookings, in the order of issues: in a split the difference that it
/// makes, in an exchange the old shares that leave, and the new ones that enter with the account's age in the old issue.
pub(crate) fn push_change<A: Allocator + Drop>(
    bookings: &mut Vec<Booking, A>,
    action: &Action,
    account: Account,
    change: &Change,
    oldest: u32,
) -> Result<(), NoMemory>
    requires { IsFew member_limit change.now }
    ensures { OnOk result
        (bookings.new.items ≡ bookings.old.items ++ bookings_for action.now account change.now oldest) }
{
    match action {
        Action::Split(split) => extend(bookings, &[differing(split, account, change)]),
        Action::Exchange(exchange) => {
            let leaving = leaving(exchange, account, change);
            let entering = entering(exchange, account, change, oldest);
            extend(bookings, &ordered(&leaving, &entering))
        }
    }
}

/// Puts the age of an account without a position after other bookings, where an exchange brings it into the successor.
pub(crate) fn push_age<A: Allocator + Drop>(
    bookings: &mut Vec<Booking, A>,
    action: &Action,
    account: Account,
    oldest: u32,
) -> Result<(), NoMemory>
    ensures { OnOk result (bookings.new.items ≡ bookings.old.items ++ age_for action.now account oldest) }
{
    match action {
        Action::Split(_) => Ok(()),
        Action::Exchange(exchange) => {
            extend(
                bookings,
                &[entering(exchange, account, &Change::NONE, oldest)],
            )
        }
    }
}
