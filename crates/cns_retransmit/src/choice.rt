// The choice of the members that are liable for the notices of a day.
ghost use Rattle.std.specs.Prelude.{◌≡◌, ◌≤◌, ◌<◌, ◌^◌, IfOk, sum_by};
ghost use Rattle.cns_terms.specs.Batches.{chosen, fills_before};
ghost use Rattle.cns_terms.specs.Sums.{in_order};
ghost use Rattle.cns_units.specs.declared.account.Member.{Member};
ghost use Rattle.cns_retransmit.specs.Chosen.{IsOldestFirst, chosen_of, shorts_of};

use cns_terms::{Liable, Short};
use std::alloc::{AllocError, Allocator};
use std::cmp::Reverse;

// Whole groups of one age, the oldest first, until they are short of what is called, in the order of filling.
#[tactic(auto, using(crate::proofs::Ordered::oldest_first, crate::proofs::Ordered::order_is, crate::proofs::Ordered::sum_in_order))]
pub(crate) fn choose<A: Allocator + Drop + Clone>(
    alloc: A,
    shorts: &[Short],
    called: u64,
) -> Result<Vec<Liable, A>, AllocError>
    requires distinct { (a : Member) → shorts_of a shorts.now ≤ 1 }
    requires fits { sum_by (λ s. s.shares) shorts.now < 2 ^ 63 }
    ensures { IfOk result (λ v. v.items ≡ chosen shorts.now called) }
{
    let ordered = in_filling_order(alloc.clone()?, shorts)?;
    choose_ordered(alloc, ordered.as_slice(), called)
}

// The oldest first, and those of one age by number.
fn in_filling_order<A: Allocator + Drop>(
    alloc: A,
    shorts: &[Short],
) -> Result<Vec<Short, A>, AllocError>
    requires { (a : Member) → shorts_of a shorts.now ≤ 1 }
    ensures { IfOk result (λ v. v.items ≡ in_order fills_before shorts.now) }
{
    let mut ordered = Vec::from_slice(alloc, shorts)?;
    ordered.sort_unstable_by_key(|short| (Reverse(short.age), short.member));
    Ok(ordered)
}

// The choice where the oldest stand first.
#[tactic(auto, using(std::proofs::lemmas::List::drop_all))]
fn choose_ordered<A: Allocator + Drop>(
    alloc: A,
    shorts: &[Short],
    called: u64,
) -> Result<Vec<Liable, A>, AllocError>
    requires order { IsOldestFirst shorts.now }
    requires fits { sum_by (λ s. s.shares) shorts.now < 2 ^ 63 }
    ensures { IfOk result (λ v. v.items ≡ chosen_of shorts.now called) }
{
    let mut liables = Vec::new(alloc);
    let mut age = u32::MAX;
    let mut older: u64 = 0;
    let mut sum: u64 = 0;
    for short in shorts {
        if short.age != age {
            age = short.age;
            older = sum;
        }
        if older < called {
            liables.push(Liable {
                member: short.member,
                age: short.age,
                closing: short.shares,
                left: short.shares,
            })?;
        }
        sum += short.shares;
    }
    Ok(liables)
}
