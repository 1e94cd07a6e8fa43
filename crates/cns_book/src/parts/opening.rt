// The day that a close opens: positions are rolled, and the trades that are due are booked.
ghost use Rattle.std.specs.Prelude.{◌≡◌, [], IfOk, IfSome, MatchOption, None, OnErr, OnOk, filter, true};
ghost use Rattle.std.specs.List.{list_any};
ghost use Rattle.cns_terms.specs.declared.holding.Holding.{Holding};
ghost use Rattle.cns_terms.specs.declared.holding.Key.{Key};
ghost use Rattle.cns_terms.specs.Pending.{is_due};
ghost use Rattle.cns_positions.specs.Rows.{books, has_row, holding_at, rolled};
ghost use Rattle.cns_actions.specs.Booked.{CanBeBooked};
ghost use Rattle.cns_actions.specs.Bookings.{AreElsewhere, AreEntered, makes};
ghost use Rattle.cns_actions.specs.DueAmounts.{AreApartFrom, due_entries};
ghost use Rattle.cns_book.specs.Follows.{HasRoom};

use crate::parts::Parts;
use cns_actions::{Bookings, bookings_due};
use cns_positions::Positions;
use cns_terms::{NoMemory, Pend};
use cns_units::Day;
use std::alloc::Allocator;

// Whether the date of a trade has come on a day.
fn is_any_due(pending: &[Pend], day: Day) -> bool
    ensures { result ≡ list_any (is_due day) pending.now }
{
    pending.iter().any(|pend| pend.is_due(day))
}

/// Finds a row for each key at which something is due. What stands at each key stays.
pub(super) fn enter<P: Positions<B>, B, A: Allocator + Drop>(
    positions: &mut P,
    due: &Option<Bookings<A>>,
) -> Result<(), NoMemory>
    ensures same { (k : Key) → holding_at (P.rows positions.new) k ≡ holding_at (P.rows positions.old) k }
    ensures there { OnOk result (IfSome due.now (λ b. AreEntered (P.rows positions.new) b)) }
    ensures others { (k : Key) → IfSome due.now (AreElsewhere k)
        → has_row (P.rows positions.new) k ≡ has_row (P.rows positions.old) k }
{
    match due {
        Some(bookings) => bookings.enter(positions),
        None => Ok(()),
    }
}

/// Rolls positions, and books what is due, for which there are rows. It takes no memory.
#[tactic(auto, using(cns_actions::proofs::Reachable::can_rolled))]
pub(super) fn open<P: Positions<B>, B, A: Allocator + Drop>(
    positions: &mut P,
    due: &Option<Bookings<A>>,
)
    requires there { IfSome due.now (λ b. AreEntered (P.rows positions.old) b) }
    requires within { CanBeBooked (P.rows positions.old) }
    ensures rolled { due.now ≡ None
        → (k : Key) → holding_at (P.rows positions.new) k ≡ rolled (holding_at (P.rows positions.old) k) }
    ensures booked { IfSome due.now (λ b. (k : Key)
        → holding_at (P.rows positions.new) k ≡ makes b k (rolled (holding_at (P.rows positions.old) k))) }
    ensures places { (k : Key) → has_row (P.rows positions.new) k ≡ has_row (P.rows positions.old) k }
{
    positions.roll();
    if let Some(bookings) = due {
        bookings.book(positions);
    }
}

impl<P: Positions<A>, A: Allocator + Drop + Clone> Parts<P, A> {
    // What the trades book that are due on the next day. None where none is: most days are opened so, and then no memory is
    // asked for.
    #[tactic(auto, using(crate::proofs::PendingSteps::none_kept, crate::proofs::PendingSteps::pending_few, cns_positions::proofs::Entering::at_error))]
    pub(super) fn due_bookings(&self, next: Day) -> Result<Option<Bookings<A>>, NoMemory>
        requires { HasRoom self.now }
        ensures booked { IfOk result (λ o. MatchOption o (filter (is_due next) self.now.trades.pending ≡ [])
            (λ b. (k : Key) (h : Holding) → makes b k h
            ≡ books (due_entries next self.now.trades.pending) k h)) }
        ensures others { IfOk result (λ o. IfSome o (λ b. (k : Key)
            → AreApartFrom k (due_entries next self.now.trades.pending) → AreElsewhere k b)) }
        ensures due { IfOk result (λ o. IfSome o (λ _. list_any (is_due next) self.now.trades.pending ≡ true)) }
        ensures memory { OnErr result (list_any (is_due next) self.now.trades.pending ≡ true) }
    {
        let pending = self.trades.pending();
        if !is_any_due(pending, next) {
            return Ok(None);
        }
        Ok(Some(bookings_due(&self.alloc, pending, next)?))
    }
}
