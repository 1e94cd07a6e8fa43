// How far a member's positions may go, with what it is to get and to give by trades that wait.
ghost use Rattle.std.specs.Prelude.{◌≡◌, ◌≤◌, ◌<◌, ◌+◌, ◌+ℤ◌, ◌^◌, nat_lt, unsigned_abs, IfOk};
ghost use Rattle.std.specs.Option.{ForSome};
ghost use Rattle.cns_terms.specs.Limits.{corporation_limit, position_limit, shares_limit};
ghost use Rattle.cns_terms.specs.Refusals.{is_beyond};
ghost use Rattle.cns_terms.specs.Sums.{short};
ghost use Rattle.cns_trades.specs.Checks.{AreSmallEntries, book_answer, waits_beyond};
ghost use Rattle.cns_trades.specs.Sides.{sides_of};

use crate::sides::Sides;
use cns_terms::{Entry, POSITION_LIMIT, Pend, Refusal, long};

// Whether shares with those that wait are more than a member may have on one side.
fn exceeds(shares: u64, waiting: u128) -> bool
    ensures { result ≡ nat_lt position_limit (shares + waiting) }
{
    u128::from(shares).saturating_add(waiting) > POSITION_LIMIT as u128
}

/// Whether a member is beyond its limit of 10^10 shares on one side or the other: long with the shares that it is to get by
/// trades that wait, or short with those that it is to give (this project's profile). They are not set off against each
/// other.
pub fn is_beyond(position: i64, waiting: &Sides) -> bool
    ensures { result ≡ is_beyond position waiting.now.bought waiting.now.sold }
{
    exceeds(long(position), waiting.bought) || exceeds(short(position), waiting.sold)
}

// How much a position is below 0.
fn short(position: i64) -> u64
    ensures { result ≡ short position }
{
    if position < 0 {
        return position.unsigned_abs();
    }
    0
}

// A position after the shares came in.
fn moved(position: i64, shares: i64) -> i64
    requires position { unsigned_abs position ≤ position_limit }
    requires shares { unsigned_abs shares ≤ corporation_limit }
    ensures { result ≡ position +ℤ shares }
{
    position + shares
}

/// A party of a trade: its position in the issue, and what it is to get and to give there by trades that wait.
#[derive(Clone, Copy)]
pub(crate) struct Party {
    pub position: i64,
    pub waiting: Sides,
}

// What a trade books whose date has come, if neither party is beyond its limit after it.
pub(crate) fn book_now(
    pend: &Pend,
    buyer: &Party,
    seller: &Party,
) -> Result<Option<[Entry; 2]>, Refusal>
    requires buyer { unsigned_abs buyer.now.position ≤ position_limit }
    requires seller { unsigned_abs seller.now.position ≤ position_limit }
    ensures answer { result ≡ book_answer buyer.now seller.now pend.now }
    ensures small { IfOk result (λ o. ForSome o AreSmallEntries) }
{
    let bought = pend.buyer_entry();
    let sold = pend.seller_entry();
    if is_beyond(moved(buyer.position, bought.shares), &buyer.waiting) {
        return Err(Refusal::TooLarge);
    }
    if is_beyond(moved(seller.position, sold.shares), &seller.waiting) {
        return Err(Refusal::TooLarge);
    }
    Ok(Some([bought, sold]))
}

// Whether a trade that is to wait would take one of its parties beyond its limit.
pub(crate) fn waits_beyond(pend: &Pend, buyer: &Party, seller: &Party) -> bool
    requires buyer { unsigned_abs buyer.now.position ≤ position_limit }
    requires seller { unsigned_abs seller.now.position ≤ position_limit }
    ensures { result ≡ waits_beyond buyer.now seller.now pend.now }
{
    let shares = u64::from(pend.shares.value());
    exceeds(long(buyer.position) + shares, buyer.waiting.bought)
        || exceeds(short(buyer.position), buyer.waiting.sold)
        || exceeds(long(seller.position), seller.waiting.bought)
        || exceeds(short(seller.position) + shares, seller.waiting.sold)
}
