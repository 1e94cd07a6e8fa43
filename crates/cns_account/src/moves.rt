// What moved a position on a day, by cause.
ghost use Rattle.std.specs.Prelude.{◌≡◌, ◌+ℤ◌, ◌-ℤ◌, ℤ};
ghost use Rattle.std.specs.Int.{int_wrap, w128, w64};
ghost use Rattle.cns_account.specs.Moves.{of_cause, unmoved, with_more};

use cns_history::Booking;
use cns_terms::{Activity, Entry};
use cns_units::Cents;

/// What was booked at a place for one cause. Each sum is exact where it fits 64 bits, and of cents 128, as it does on each day of
/// a book.
#[derive(Clone, Copy)]
pub struct Moved {
    /// Shares, to the account where positive.
    pub shares: i64,
    /// Cents, to the account where positive.
    pub cents: Cents,
}

/// What was booked at a place on a day.
#[derive(Clone, Copy)]
pub struct Moves {
    /// Trades that settled, those among them that the close before booked.
    pub trades: Moved,
    pub delivered: Moved,
    pub received: Moved,
    /// Splits and exchanges.
    pub actions: Moved,
    /// Executions of buy-ins: the account's own, and those that it was charged with.
    pub buy_ins: Moved,
}

impl Moved {
    const NOTHING: Moved = Moved {
        shares: 0,
        cents: Cents::ZERO,
    };

    fn with(&self, shares: i64, cents: Cents) -> Moved
        ensures { result ≡ with_more self.now shares cents }
    {
        Moved {
            shares: wrapped_shares(self.shares, shares),
            cents: wrapped_sum(self.cents, cents),
        }
    }
}

/// The sum of two counts of shares, as much of it as fits.
#[tactic(auto, using(std::proofs::lemmas::Int::wraps))]
pub fn wrapped_shares(a: i64, b: i64) -> i64
    ensures { result ≡ int_wrap w64 (a +ℤ b) }
{
    a.wrapping_add(b)
}

/// The sum of two amounts, as much of it as fits.
#[tactic(auto, using(std::proofs::lemmas::Int::wraps))]
pub fn wrapped_sum(a: Cents, b: Cents) -> Cents
    ensures { result ≡ int_wrap w128 (a +ℤ b) }
{
    Cents::of(a.value().wrapping_add(b.value()))
}

/// The difference of two amounts, as much of it as fits.
#[tactic(auto, using(std::proofs::lemmas::Int::wraps))]
pub(crate) fn wrapped_difference(a: Cents, b: Cents) -> Cents
    ensures { result ≡ int_wrap w128 (a -ℤ b) }
{
    Cents::of(a.value().wrapping_sub(b.value()))
}

impl Moves {
    /// Nothing moved.
    pub(crate) fn nothing() -> Moves
        ensures { result ≡ unmoved }
    {
        Moves {
            trades: Moved::NOTHING,
            delivered: Moved::NOTHING,
            received: Moved::NOTHING,
            actions: Moved::NOTHING,
            buy_ins: Moved::NOTHING,
        }
    }

    /// With what a side of a trade books.
    pub(crate) fn with_entry(&self, entry: &Entry) -> Moves
        ensures { result ≡ record self.now { trades = with_more self.now.trades entry.now.shares entry.now.cents } }
    {
        Moves {
            trades: self.trades.with(entry.shares, Cents::of(entry.cents)),
            ..*self
        }
    }

    /// With what a record booked that is neither a trade nor a close.
    pub(crate) fn with_booking(&self, booking: &Booking) -> Moves
        ensures { result ≡ of_cause self.now booking.now booking.now.activity }
    {
        let shares = booking.shares;
        let cents = booking.cents;
        match booking.activity {
            Activity::Deliver(_) => Moves {
                delivered: self.delivered.with(shares, cents),
                ..*self
            },
            Activity::Receive(_) => Moves {
                received: self.received.with(shares, cents),
                ..*self
            },
            Activity::Split(_) | Activity::Exchange(_) => Moves {
                actions: self.actions.with(shares, cents),
                ..*self
            },
            Activity::Execute(_) => Moves {
                buy_ins: self.buy_ins.with(shares, cents),
                ..*self
            },
            Activity::Member(_)
            | Activity::Issue(_)
            | Activity::Trade(_)
            | Activity::Price(_)
            | Activity::Dividend(_)
            | Activity::Notice(_)
            | Activity::Withdraw(_)
            | Activity::Close(_) => *self,
        }
    }
}
