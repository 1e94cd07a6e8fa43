// What the trades that are due on a day book.
ghost use Rattle.std.specs.Prelude.{◌≡◌, ◌≤◌, ◌^◌, true, length, IfOk};
ghost use Rattle.std.specs.FinMap.{is_sorted};
ghost use Rattle.cns_terms.specs.declared.holding.Holding.{Holding};
ghost use Rattle.cns_terms.specs.declared.holding.Key.{Key};
ghost use Rattle.cns_terms.specs.Keys.{key_cmp};
ghost use Rattle.cns_positions.specs.Rows.{books};
ghost use Rattle.cns_actions.specs.Bookings.{AreElsewhere, AreSmall, by_key, makes};
ghost use Rattle.cns_actions.specs.DueAmounts.{AreApartFrom, due_entries};

use crate::booking::Booking;
use crate::bookings::Bookings;
use crate::due_amounts::DueAmounts;
use cns_terms::{NoMemory, Pend};
use cns_units::Day;
use std::alloc::Allocator;

// The same as a list, one entry a key, in the order of keys.
fn listed<A: Allocator + Drop + Clone>(
    alloc: &A,
    pending: &[Pend],
    next: Day,
) -> Result<Vec<Booking, A>, NoMemory>
    requires { length pending.now ≤ 2 ^ 32 }
    ensures same { IfOk result (λ v. (k : Key) (h : Holding)
        → makes v.items k h ≡ books (due_entries next pending.now) k h) }
    ensures others { IfOk result (λ v. (k : Key)
        → AreApartFrom k (due_entries next pending.now) → AreElsewhere k v.items) }
    ensures small { IfOk result (λ v. AreSmall v.items) }
    ensures rise { IfOk result (λ v. is_sorted key_cmp (by_key v.items) ≡ true) }
{
    let amounts = DueAmounts::of(alloc.clone()?, pending, next)?;
    amounts.bookings(alloc.clone()?)
}

/// What the trades book whose date has come on a day, those of `pending` that are due on it: a trade is booked with the close
/// that names its date or a later one (this project's profile; NSCC Procedure VII: the obligations of a trade net into the
/// parties' positions). Trades that are not due are passed over.
///
/// `NoMemory` where an allocation failed. What is due is added up by key first, so many trades at one key cost one place there.
pub fn bookings_due<A: Allocator + Drop + Clone>(
    alloc: &A,
    pending: &[Pend],
    next: Day,
) -> Result<Bookings<A>, NoMemory>
    requires { length pending.now ≤ 2 ^ 32 }
    ensures made { IfOk result (λ b. (k : Key) (h : Holding) → makes b k h ≡ books (due_entries next pending.now) k h) }
    ensures others { IfOk result (λ b. (k : Key) → AreApartFrom k (due_entries next pending.now) → AreElsewhere k b) }
{
    Ok(Bookings::of(listed(alloc, pending, next)?))
}
