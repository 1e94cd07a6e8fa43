// Trades that wait for their date.
ghost use Rattle.std.specs.Prelude.{◌≡◌, ◌≤◌, unsigned_abs};
ghost use Rattle.cns_terms.specs.Entries.{buyer_entry, seller_entry};
ghost use Rattle.cns_terms.specs.Limits.{money_limit, shares_limit};
ghost use Rattle.cns_terms.specs.Pending.{is_due, pend_of};

use crate::command::Trade;
use crate::holding::Entry;
use cns_units::{Cusip, Day, Member, Money, Shares};

/// A trade as it is booked, on its date: one that was taken ahead of it waits for the close that names that date or a later
/// one (this project's profile).
#[derive(Clone, Copy)]
pub struct Pend {
    /// From 1 to 10^18, used once.
    pub reference: u64,
    /// What the buyer owes and the seller is owed for the shares.
    pub cents: Money,
    pub shares: Shares,
    pub buyer: Member,
    pub seller: Member,
    /// The settlement date.
    pub date: Day,
    pub issue: Cusip,
}

impl Pend {
    /// The trade as one that waits.
    pub fn of(trade: &Trade) -> Self
        ensures { result ≡ pend_of trade.now }
    {
        Pend {
            reference: trade.reference,
            cents: trade.money,
            shares: trade.shares,
            buyer: trade.buyer,
            seller: trade.seller,
            date: trade.date,
            issue: trade.issue,
        }
    }

    /// Whether the close that names the next day books it: its date is that day or an earlier one.
    pub fn is_due(&self, next: Day) -> bool
        ensures { result ≡ is_due next self.now }
    {
        self.date <= next
    }

    /// What it books for its buyer: the shares come in, the money is owed (NSCC Procedure VII: the obligations of a trade
    /// net into the parties' positions).
    pub fn buyer_entry(&self) -> Entry
        ensures entry { result ≡ buyer_entry self.now }
        ensures shares { unsigned_abs result.shares ≤ shares_limit }
        ensures cents { unsigned_abs result.cents ≤ money_limit }
    {
        Entry {
            account: self.buyer.account(),
            issue: self.issue,
            shares: self.shares.value() as i64,
            cents: -(self.cents.value() as i128),
        }
    }

    /// What it books for its seller: the shares are owed, the money comes in.
    pub fn seller_entry(&self) -> Entry
        ensures entry { result ≡ seller_entry self.now }
        ensures shares { unsigned_abs result.shares ≤ shares_limit }
        ensures cents { unsigned_abs result.cents ≤ money_limit }
    {
        Entry {
            account: self.seller.account(),
            issue: self.issue,
            shares: -(self.shares.value() as i64),
            cents: self.cents.value() as i128,
        }
    }
}
