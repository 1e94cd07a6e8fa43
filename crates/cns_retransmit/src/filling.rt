// What an execution gives each member of a batch, and what it charges.
ghost use Rattle.std.specs.Prelude.{◌≡◌, ℕ, ◌*◌, ◌/◌, ◌^◌, ◌<◌, ◌≤◌, IfNone, IfOk, IfSome, drop, length, map, min, pos, sum_by};
ghost use Rattle.std.specs.List.{HoldsAt};
ghost use Rattle.cns_terms.specs.Fills.{capacity, charged, fills_of, room_of};
ghost use Rattle.cns_units.specs.declared.account.Member.{Member};
ghost use Rattle.cns_retransmit.specs.Members.{left_of, members_of};
ghost use Rattle.cns_retransmit.specs.Charges.{CanBeCharged};

use cns_terms::{Fill, Liable};
use cns_units::{Member, Money, Shares};
use std::alloc::{AllocError, Allocator};

/// How much each member is short now, as the book's positions tell.
pub trait Shorts {
    /// Each member's short, in shares.
    ghost short_now: { Self → Member → ℕ };

    /// How many shares the member is short now, 0 where it is not. It takes no memory.
    fn short(&self, member: Member) -> i64
        ensures { result ≡ pos (short_now self.now member) };
}

// What the member can be given now. Nobody asks for its short where nothing is left.
fn capacity_of<S: Shorts>(liable: &Liable, now: &S) -> u64
    ensures { result ≡ capacity (S.short_now now.now) liable.now }
{
    if liable.left == 0 {
        return 0;
    }
    let short = now.short(liable.member).unsigned_abs();
    liable.left.min(short)
}

// What is left of a member's liability among others, 0 for one that is not there.
#[tactic(auto, using(std::proofs::lemmas::List::drop_all, crate::proofs::Lists::drop_next))]
pub(crate) fn left_for(liables: &[Liable], member: Member) -> u64
    ensures { result ≡ left_of member liables.now }
{
    for liable in liables {
        if liable.member == member {
            return liable.left;
        }
    }
    0
}

// What the members of a batch can be given now, counted as far as so many shares.
#[tactic(auto, using(crate::proofs::Lefts::room_fits))]
pub(crate) fn room_up_to<S: Shorts>(liables: &[Liable], now: &S, most: u64) -> u64
    requires { sum_by (λ l. l.left) liables.now < 2 ^ 63 }
    ensures { result ≡ min most (room_of (S.short_now now.now) liables.now) }
{
    let mut room: u64 = 0;
    for liable in liables {
        if room >= most {
            return most;
        }
        room += capacity_of(liable, now);
    }
    room.min(most)
}

// The part of the money that belongs to the first of the shares, in cents.
fn part(money: Money, first: u64, shares: u64) -> u64
    requires some { 0 < shares }
    requires within { first ≤ shares }
    ensures { result ≡ (money * first) / shares }
{
    let part = u128::from(money.value()) * u128::from(first) / u128::from(shares);
    part as u64
}

// Gives the shares to the members of a batch, in their order, for the money. Each pays what belongs to the shares up to
// its last, less what those before it pay, so the cents add up whatever is cut.
pub(crate) fn make_fills<S: Shorts, A: Allocator + Drop>(
    alloc: A,
    liables: &[Liable],
    now: &S,
    shares: u64,
    money: Money,
) -> Result<Vec<Fill, A>, AllocError>
    requires { 0 < shares }
    ensures { IfOk result (λ v. v.items ≡ fills_of (S.short_now now.now) shares money liables.now) }
{
    let mut fills = Vec::new(alloc);
    let mut given: u64 = 0;
    let mut paid: u64 = 0;
    for liable in liables {
        if given == shares {
            return Ok(fills);
        }
        let more = capacity_of(liable, now).min(shares - given);
        if more > 0 {
            given += more;
            let due = part(money, given, shares);
            fills.push(Fill {
                member: liable.member,
                shares: more,
                cents: due - paid,
            })?;
            paid = due;
        }
    }
    Ok(fills)
}

// The first place from one on at which a member stands.
fn place_from(liables: &[Liable], member: Member, from: usize) -> Option<usize>
    ensures found { IfSome result (λ place. place < length liables.now) }
    ensures member { IfSome result (HoldsAt (λ l. l.member ≡ member) liables.now) }
    ensures none { IfNone result (members_of member (drop from liables.now) ≡ 0) }
{
    for place in from..liables.len() {
        if liables[place].member == member {
            return Some(place);
        }
    }
    None
}

// The place of a member that is there, sought from one on and then from the first. Fills mostly come in the order of the
// batch, so that each search goes on where the last one ended.
fn place_of(liables: &[Liable], member: Member, from: usize) -> usize
    requires { 0 < members_of member liables.now }
    ensures found { result < length liables.now }
    ensures member { HoldsAt (λ l. l.member ≡ member) liables.now result }
{
    if let Some(place) = place_from(liables, member, from) {
        return place;
    }
    let Some(place) = place_from(liables, member, 0) else {
        unreachable!()
    };
    place
}

// Lowers what is left of each liability by the fills.
#[tactic(auto, using(std::proofs::lemmas::List::Folds::map_fixed, crate::proofs::Charging::next_charged, crate::proofs::Charging::next_enough))]
pub(crate) fn charge(liables: &mut [Liable], fills: &[Fill])
    requires distinct { (a : Member) → members_of a liables.old ≤ 1 }
    requires fills { CanBeCharged fills.now liables.old }
    ensures { liables.new ≡ map (charged fills.now) liables.old }
{
    let mut place = 0;
    for fill in fills {
        place = place_of(liables, fill.member, place);
        liables[place].left -= fill.shares;
    }
}
