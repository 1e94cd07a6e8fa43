// What a split or an exchange books.
ghost use Rattle.std.specs.Prelude.{◌≡◌, ◌↔◌, ◌≤◌, ◌+ℤ◌, ◌++◌, List, Err, true, false, IfOk, IfNone, IfSome, OnOk, OnSome, unsigned_abs};
ghost use Rattle.std.specs.FinMap.{is_sorted};
ghost use Rattle.std.specs.List.{list_any};
ghost use Rattle.cns_units.specs.declared.account.Account.{Account};
ghost use Rattle.cns_units.specs.declared.account.Member.{Member};
ghost use Rattle.cns_units.specs.declared.cusip.Cusip.{Cusip};
ghost use Rattle.cns_terms.specs.declared.holding.Key.{Key};
ghost use Rattle.cns_terms.specs.Entries.{corporation};
ghost use Rattle.cns_terms.specs.Holdings.{oldest_of};
ghost use Rattle.cns_terms.specs.Limits.{member_limit, position_limit};
ghost use Rattle.cns_terms.specs.Pending.{bought_in, sold_in};
ghost use Rattle.cns_terms.specs.Keys.{key_cmp};
ghost use Rattle.cns_positions.specs.Rows.{holding_at};
ghost use Rattle.cns_actions.specs.Booked.{AreItsHolders, CanBeBooked, IsForAnother, after_action, is_too_large, issue_of, position_at, waits_for};
ghost use Rattle.cns_actions.specs.Changes.{AreInIssues, IsFew, all_bookings, all_holders_of, change_of, holders_of, member_bookings, new_issue, position_after, sum_of, takes_beyond};
ghost use Rattle.cns_actions.specs.Bookings.{AreSmall, makes};

use crate::action::Action;
use crate::booking::Booking;
use crate::bookings::Bookings;
use crate::change::{Change, push_age, push_change};
use crate::fault::ActionFault;
use crate::holder::{Holder, next_holder};
use cns_positions::Positions;
use cns_terms::{Key, NoMemory};
use cns_trades::{Pending, is_beyond};
use cns_units::{Account, Cusip};
use std::alloc::Allocator;

// The issue that is split or exchanged.
fn issue_of(action: &Action) -> Cusip
    ensures { result ≡ issue_of action.now }
{
    match action {
        Action::Split(split) => split.issue,
        Action::Exchange(exchange) => exchange.old,
    }
}

// The issue of the new shares.
fn new_issue(action: &Action) -> Cusip
    ensures { result ≡ new_issue action.now }
{
    match action {
        Action::Split(split) => split.issue,
        Action::Exchange(exchange) => exchange.successor,
    }
}

// Whether a split or an exchange has to wait for trades: a split scales no trade, and never waits.
fn waits_for<C: Allocator + Drop>(action: &Action, pending: &Pending<C>) -> bool
    ensures { result ≡ waits_for action.now pending.now }
{
    match action {
        Action::Split(_) => false,
        Action::Exchange(exchange) => pending.waits_in(&exchange.old),
    }
}

// The new shares with what stands in the successor.
fn joined(change: &Change, position: i64) -> i64
    requires few { IsFew 1 change.now }
    requires position { unsigned_abs position ≤ position_limit }
    ensures { result ≡ change.now.after +ℤ position }
{
    change.after + position
}

// A member's position in the issue of the new shares.
fn position_after<P: Positions<B>, B>(
    positions: &P,
    action: &Action,
    holder: &Holder,
    change: &Change,
) -> i64
    requires few { IsFew 1 change.now }
    requires exact { change.now ≡ change_of action.now holder.now.shares }
    requires within { (c : Cusip)
        → unsigned_abs (position_at (P.rows positions.now) holder.now.account c) ≤ position_limit }
    ensures { result ≡ position_after (P.rows positions.now) action.now holder.now }
{
    match action {
        Action::Split(_) => change.after,
        Action::Exchange(exchange) => {
            let holding = positions.get(Key {
                account: holder.account,
                issue: exchange.successor,
            });
            joined(change, holding.now)
        }
    }
}

// Whether a member would be beyond its limits there, with the trades that wait: in the old issue of an exchange it has
// nothing left.
fn takes_beyond<P: Positions<B>, B, C: Allocator + Drop>(
    positions: &P,
    pending: &Pending<C>,
    action: &Action,
    holder: &Holder,
    change: &Change,
) -> bool
    requires few { IsFew 1 change.now }
    requires exact { change.now ≡ change_of action.now holder.now.shares }
    requires within { (c : Cusip)
        → unsigned_abs (position_at (P.rows positions.now) holder.now.account c) ≤ position_limit }
    ensures { result ≡ takes_beyond (P.rows positions.now) pending.now action.now holder.now }
{
    let issue = new_issue(action);
    let position = position_after(positions, action, holder, change);
    is_beyond(position, &pending.sides(holder.account, issue))
}

// What the positions of all members become together; None where one of them would be beyond its limits.
fn sum_of<P: Positions<B>, B, C: Allocator + Drop>(
    positions: &P,
    pending: &Pending<C>,
    action: &Action,
) -> Option<Change>
    requires { CanBeBooked (P.rows positions.now) }
    ensures large { IfNone result (list_any (takes_beyond (P.rows positions.now) pending.now action.now)
        (holders_of action.now (P.rows positions.now)) ≡ true) }
    ensures within { OnSome result (list_any (takes_beyond (P.rows positions.now) pending.now action.now)
        (holders_of action.now (P.rows positions.now)) ≡ false) }
    ensures sum { IfSome result (λ s. s ≡ sum_of action.now (holders_of action.now (P.rows positions.now))) }
    ensures few { IfSome result (IsFew member_limit) }
    ensures order { is_sorted key_cmp (P.rows positions.now) ≡ true }
{
    let issue = issue_of(action);
    let mut sum = Change::NONE;
    let mut passed = None;
    positions.in_order();
    while let Some(holder) = next_holder(positions, &issue, &mut passed) {
        if !holder.has_position() {
            continue;
        }
        let change = Change::of(action, &holder);
        if takes_beyond(positions, pending, action, &holder, &change) {
            return None;
        }
        sum.add(&change);
    }
    Some(sum)
}

// The age of the corporation's short in an issue.
fn corporation_age<P: Positions<B>, B>(positions: &P, issue: Cusip) -> u32
    ensures { result ≡ oldest_of (holding_at (P.rows positions.now) (record { account = corporation; issue = issue })) }
{
    let holding = positions.get(Key {
        account: Account::CORPORATION,
        issue,
    });
    holding.oldest()
}

// Puts what is booked for a member after other bookings.
fn push_member<A: Allocator + Drop>(
    bookings: &mut Vec<Booking, A>,
    action: &Action,
    holder: &Holder,
) -> Result<(), NoMemory>
    requires within { unsigned_abs holder.now.shares ≤ position_limit }
    requires small { AreSmall bookings.old.items }
    ensures bookings { OnOk result (bookings.new.items ≡ bookings.old.items ++ member_bookings action.now holder.now) }
    ensures small { OnOk result (AreSmall bookings.new.items) }
{
    if !holder.has_position() {
        return push_age(bookings, action, holder.account, holder.oldest);
    }
    let change = Change::of(action, holder);
    push_change(bookings, action, holder.account, &change, holder.oldest)
}

// What is booked for a split or an exchange, in the order of keys: for the corporation the opposite of what the positions
// of all members become together, and for the members; with each the age that an exchange brings.
fn all_bookings<P: Positions<B>, B, A: Allocator + Drop + Clone>(
    alloc: &A,
    positions: &P,
    action: &Action,
    sum: &Change,
) -> Result<Vec<Booking, A>, NoMemory>
    requires within { CanBeBooked (P.rows positions.now) }
    requires few { IsFew member_limit sum.now }
    requires order { is_sorted key_cmp (P.rows positions.now) ≡ true }
    ensures bookings { IfOk result (λ v. v.items ≡ all_bookings action.now sum.now
        (oldest_of (holding_at (P.rows positions.now) (record { account = corporation; issue = issue_of action.now })))
        (all_holders_of action.now (P.rows positions.now))) }
    ensures small { IfOk result (λ v. AreSmall v.items) }
{
    let issue = issue_of(action);
    let mut bookings = Vec::new(alloc.clone()?);
    push_change(
        &mut bookings,
        action,
        Account::CORPORATION,
        &sum.opposite(),
        corporation_age(positions, issue),
    )?;
    let mut passed = None;
    while let Some(holder) = next_holder(positions, &issue, &mut passed) {
        push_member(&mut bookings, action, &holder)?;
    }
    Ok(bookings)
}

/// What a split or an exchange books on positions, which don't change meanwhile (NSCC Procedure VII; the cuts are this
/// project's profile).
///
/// In a split each member with a position in the issue is booked the difference to its new position, and the cents in
/// lieu of what the cut to whole shares leaves. In an exchange it is booked the opposite of its position in the old
/// issue; in the successor what it becomes, with the cents in lieu and the cash for each old share. The corporation,
/// account 0, is booked the opposite of the sums in each issue.
///
/// An exchange brings the age of a short into the successor: there the greatest that the day brought is the greater of
/// what it was and of the account's age in the old issue, or of what exchanges brought there on the same day. It is so
/// for every account, the corporation's too, whatever its position is (this project's profile).
///
/// An exchange is for another issue: where both were one, two entries would have one key, and the position before it
/// could not be told from what enters. The book refuses such an exchange first.
///
/// A split scales no trade that waits for its date: it is booked as it was taken. An exchange retires the old issue, in
/// which then no trade could be booked, so it is refused while one waits there.
///
/// `TooLarge` where after all of it a member would be beyond 10^10 shares, long with the shares that it is to get by
/// trades that wait, or short with those that it is to give (this project's profile); this is looked for first, and
/// takes no memory. `PendingTrades` where the issue that is exchanged has trades that wait. `NoMemory` where a growth
/// was refused.
///
/// What each member is to get and to give in each issue by the trades that wait is within its limits, which the book
/// sees to when it takes a trade.
///
/// For any list of members that names nobody twice and leaves nobody out who has a position in the issue, the entries
/// are those of the definitions (`Entries.antt` in `cns_terms`).
///
/// It looks twice at the place of each account in the issue, for the size and the sums and for what is booked, in an
/// exchange once at its place in the successor, and once at what each member is to get and to give there. A copy of
/// `alloc` keeps the bookings.
#[tactic(auto, using(std::proofs::lemmas::Result::err_from_is_err_and, crate::proofs::BookingOrder::all_in_issues, crate::proofs::BookingOrder::all_sorted, crate::proofs::BookingLimits::same_large, crate::proofs::BookingSums::same_makes))]
pub fn bookings_for<P: Positions<B>, B, A: Allocator + Drop + Clone, C: Allocator + Drop>(
    alloc: &A,
    positions: &P,
    action: &Action,
    pending: &Pending<C>,
) -> Result<Bookings<A>, ActionFault>
    requires within { CanBeBooked (P.rows positions.now) }
    requires another { IsForAnother action.now }
    requires waiting { (a : Account) (c : Cusip) → 1 ≤ a
        → (bought_in pending.now a c ≤ position_limit) × (sold_in pending.now a c ≤ position_limit) }
    ensures too_large { (ms : List Member) → AreItsHolders (P.rows positions.now) action.now ms
        → (result ≡ Err ActionFault.TooLarge) ↔ (is_too_large (P.rows positions.now) action.now pending.now ms ≡ true) }
    ensures pending { (ms : List Member) → AreItsHolders (P.rows positions.now) action.now ms
        → (result ≡ Err ActionFault.PendingTrades)
        ↔ ((is_too_large (P.rows positions.now) action.now pending.now ms ≡ false)
        × (waits_for action.now pending.now ≡ true)) }
    ensures booked { IfOk result (λ b. (ms : List Member) → AreItsHolders (P.rows positions.now) action.now ms → (k : Key)
        → makes b k (holding_at (P.rows positions.now) k) ≡ after_action (P.rows positions.now) action.now ms k) }
    ensures issues { IfOk result (AreInIssues action.now) }
{
    let Some(sum) = sum_of(positions, pending, action) else {
        return Err(ActionFault::TooLarge);
    };
    if waits_for(action, pending) {
        return Err(ActionFault::PendingTrades);
    }
    Ok(Bookings::of(all_bookings(alloc, positions, action, &sum)?))
}
