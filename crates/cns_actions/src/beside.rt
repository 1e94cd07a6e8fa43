// Positions after a split, an exchange or a close, beside those before it.
ghost use Rattle.std.specs.Prelude.{◌≡◌, ◌↔◌, ◌≤◌, ◌^◌, List, Err, None, true, false, filter, length, IfOk};
ghost use Rattle.std.specs.FinMap.{is_sorted};
ghost use Rattle.std.specs.List.{flat_map};
ghost use Rattle.cns_units.specs.declared.account.Account.{Account};
ghost use Rattle.cns_units.specs.declared.account.Member.{Member};
ghost use Rattle.cns_units.specs.declared.cusip.Cusip.{Cusip};
ghost use Rattle.cns_terms.specs.declared.holding.Key.{Key};
ghost use Rattle.cns_terms.specs.Entries.{trade_entries};
ghost use Rattle.cns_terms.specs.Limits.{position_limit};
ghost use Rattle.cns_terms.specs.Pending.{bought_in, is_due, sold_in};
ghost use Rattle.cns_terms.specs.Keys.{key_cmp};
ghost use Rattle.cns_positions.specs.Rows.{books, held_above, holding_at, rolled};
ghost use Rattle.cns_actions.specs.Booked.{AreItsHolders, CanBeBooked, IsForAnother, after_action, is_too_large, waits_for};
ghost use Rattle.cns_actions.specs.Bookings.{makes};

use crate::acting::bookings_for;
use crate::action::Action;
use crate::bookings::Bookings;
use crate::due_bookings::bookings_due;
use crate::fault::ActionFault;
use cns_positions::Positions;
use cns_terms::{Holding, Key, NoMemory, Pend};
use cns_trades::Pending;
use cns_units::Day;
use std::alloc::Allocator;

// The rows that aren't zeros.
fn rows_of<P: Positions<B>, B, A: Allocator + Drop>(
    alloc: A,
    positions: &P,
) -> Result<Vec<(Key, Holding), A>, NoMemory>
    ensures { IfOk result (λ v. v.items ≡ held_above (P.rows positions.now) None) }
{
    let mut rows = Vec::new(alloc);
    let mut last = None;
    while let Some(row) = positions.next_row(last) {
        last = Some(row.0);
        rows.push(row)?;
    }
    Ok(rows)
}

// A copy of positions.
#[tactic(auto, using(cns_positions::proofs::Unheld::held_same, cns_positions::proofs::Unheld::held_sorted))]
fn copied<P: Positions<B>, B, A: Allocator + Drop>(alloc: A, positions: &P) -> Result<P, NoMemory>
    ensures { IfOk result (λ p. (k : Key) → holding_at (P.rows p) k ≡ holding_at (P.rows positions.now) k) }
{
    positions.in_order();
    let rows = rows_of(alloc, positions)?;
    positions.rebuilt(rows.as_slice())
}

// A copy on which bookings are made.
fn with_bookings<P: Positions<B>, B, A: Allocator + Drop + Clone>(
    alloc: &A,
    positions: &P,
    bookings: &Bookings<A>,
) -> Result<P, NoMemory>
    requires { CanBeBooked (P.rows positions.now) }
    ensures { IfOk result (λ p. (k : Key) → holding_at (P.rows p) k
        ≡ makes bookings.now k (holding_at (P.rows positions.now) k)) }
{
    let mut next = copied(alloc.clone()?, positions)?;
    bookings.make(&mut next)?;
    Ok(next)
}

/// The positions after a split or an exchange, beside those before it, which never change: what `bookings_for` says is booked on
/// a copy. Openings and ages stay, and so does every other key.
///
/// The faults and conditions are those of `bookings_for`. Each row is copied once. Copies of `alloc` keep the bookings and a list
/// of the rows meanwhile.
pub fn next_positions<P: Positions<B>, B, A: Allocator + Drop + Clone, C: Allocator + Drop>(
    alloc: &A,
    positions: &P,
    action: &Action,
    pending: &Pending<C>,
) -> Result<P, ActionFault>
    requires within { CanBeBooked (P.rows positions.now) }
    requires another { IsForAnother action.now }
    requires waiting { (a : Account) (c : Cusip) → 1 ≤ a
        → (bought_in pending.now a c ≤ position_limit) × (sold_in pending.now a c ≤ position_limit) }
    ensures too_large { (ms : List Member) → AreItsHolders (P.rows positions.now) action.now ms
        → (result ≡ Err ActionFault.TooLarge) ↔ (is_too_large (P.rows positions.now) action.now pending.now ms ≡ true) }
    ensures pending { (ms : List Member) → AreItsHolders (P.rows positions.now) action.now ms
        → (result ≡ Err ActionFault.PendingTrades)
        ↔ ((is_too_large (P.rows positions.now) action.now pending.now ms ≡ false)
        × (waits_for action.now pending.now ≡ true)) }
    ensures booked { IfOk result (λ p. (ms : List Member) → AreItsHolders (P.rows positions.now) action.now ms → (k : Key)
        → holding_at (P.rows p) k ≡ after_action (P.rows positions.now) action.now ms k) }
{
    let bookings = bookings_for(alloc, positions, action, pending)?;
    Ok(with_bookings(alloc, positions, &bookings)?)
}

/// The positions after a close that opens the day `next`, beside those before it, which never change: a copy, each row as the
/// close rolls it, and then what `bookings_due` says is booked. The shares and cents of those trades are in the new day: the
/// opening positions and the ages of shorts are those of the close, before them.
///
/// `NoMemory` where an allocation failed. Copies of `alloc` keep the bookings, and the sums or a list of the rows meanwhile.
pub fn opened<P: Positions<B>, B, A: Allocator + Drop + Clone>(
    alloc: &A,
    positions: &P,
    pending: &[Pend],
    next: Day,
) -> Result<P, NoMemory>
    requires within { CanBeBooked (P.rows positions.now) }
    requires few { length pending.now ≤ 2 ^ 32 }
    ensures { IfOk result (λ p. (k : Key) → holding_at (P.rows p) k
        ≡ books (flat_map trade_entries (filter (is_due next) pending.now)) k
        (rolled (holding_at (P.rows positions.now) k))) }
{
    let bookings = bookings_due(alloc, pending, next)?;
    let mut positions = copied(alloc.clone()?, positions)?;
    positions.roll();
    bookings.enter(&mut positions)?;
    bookings.book(&mut positions);
    Ok(positions)
}
