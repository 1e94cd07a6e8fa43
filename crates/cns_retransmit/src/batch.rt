// A batch, with what is left of each liability.
ghost use Rattle.std.specs.Prelude.{◌≡◌, [], ◌^◌, ◌<◌, ◌≤◌, IfOk, IfSome, length, MatchOption, map, min, OnErr, pos, sum_by};
ghost use Rattle.cns_terms.specs.Batches.{chosen};
ghost use Rattle.cns_terms.specs.Fills.{charged, fills_of, room_of};
ghost use Rattle.cns_units.specs.declared.account.Member.{Member};
ghost use Rattle.cns_retransmit.specs.Chosen.{shorts_of};
ghost use Rattle.cns_retransmit.specs.Members.{left_of};
ghost use Rattle.cns_retransmit.specs.Charges.{CanBeCharged};

use crate::choice;
use crate::filling::{self, Shorts, left_for, make_fills};
use cns_terms::{Fill, Liable, NoMemory, Short};
use cns_units::{Cusip, Member, Money, Shares};
use std::alloc::Allocator;
use std::marker::Model;

/// The members that are liable for the notices of a day in an issue, in the order of filling: by the age of their shorts at
/// that close, the oldest first, then by number. Contracts see the issue and the members. No member stands in it twice.
#[derive(Drop)]
pub struct Batch<A: Allocator + Drop> {
    issue: Cusip,
    liables: Vec<Liable, A>,
}

impl<A: Allocator + Drop> Model for Batch<A> {
    ghost use Rattle.cns_retransmit.specs.Members.{IsBatch};
    ghost use Rattle.cns_terms.specs.Batches.{Liables};

    ghost Value = { Liables };

    ghost view = { λ b. record { issue = b.issue; members = b.liables.items } };

    ghost invariant = { λ b. IsBatch b.liables.items };
}

impl<A: Allocator + Drop + Clone> Batch<A> {
    /// Chooses who is liable for notices of `total` shares in an issue, from all that are short in it at a close: whole
    /// groups of one age, the oldest first, until their shorts are at least that many or nobody is left. Each is liable for
    /// its short. None where nobody is chosen, as at a total of 0. (Retransmittal to the oldest shorts is this project's
    /// profile of NSCC Procedure X.)
    ///
    /// No member may stand twice among the shorts, and together they have to be below 2^63 shares. `NoMemory` where a growth
    /// or a copy of the allocator was refused; where nothing is called, or nobody is short, none is asked for.
    #[tactic(auto, using(crate::proofs::Lefts::chosen_left, crate::proofs::Lefts::chosen_members, crate::proofs::Lefts::none_chosen))]
    pub fn choose(
        alloc: A,
        cusip: Cusip,
        shorts: &[Short],
        total: u64,
    ) -> Result<Option<Batch<A>>, NoMemory>
        requires distinct { (a : Member) → shorts_of a shorts.now ≤ 1 }
        requires fits { sum_by (λ s. s.shares) shorts.now < 2 ^ 63 }
        ensures batch { IfOk result
            (λ b. MatchOption b (chosen shorts.now total ≡ [])
            (λ b. b ≡ record { issue = cusip; members = chosen shorts.now total })) }
        ensures somebody { IfOk result (λ b. IfSome b (λ b. 0 < length b.members)) }
        ensures called { OnErr result (0 < total) }
        ensures short { OnErr result (0 < length shorts.now) }
    {
        if total == 0 || shorts.is_empty() {
            return Ok(None);
        }
        let liables = choice::choose(alloc, shorts, total)?;
        if liables.is_empty() {
            return Ok(None);
        }
        Ok(Some(Batch {
            issue: cusip,
            liables,
        }))
    }

    /// What an execution of so many shares for so much money gives each member now, and what each pays: they are filled in
    /// order, each up to what is left of its liability and to what it is short now, until all the shares are given. A member
    /// whose fill ends at the k-th of n shares pays k/n of the money, cut to whole cents, less what those before it pay. So
    /// the fills are for that many shares and that many cents, exactly (this project's profile of NSCC Procedure X).
    ///
    /// A member that is given nothing has no fill. The batch is not changed; `charge` does that. The shares have to be no
    /// more than the room. `NoMemory` where an allocation or the copy of the allocator failed.
    #[tactic(auto, using(cns_terms::proofs::Laid::shares_of_fills, cns_terms::proofs::Laid::cents_of_fills))]
    pub fn fill<S: Shorts>(
        &self,
        now: &S,
        shares: Shares,
        money: Money,
    ) -> Result<Vec<Fill, A>, NoMemory>
        requires { shares ≤ room_of (S.short_now now.now) self.now.members }
        ensures fills { IfOk result (λ v. v.items ≡ fills_of (S.short_now now.now) shares money self.now.members) }
        ensures shares { IfOk result (λ v. sum_by (λ f. f.shares) v.items ≡ shares) }
        ensures cents { IfOk result (λ v. sum_by (λ f. f.cents) v.items ≡ money) }
        ensures chargeable { IfOk result (λ v. CanBeCharged v.items self.now.members) }
    {
        let alloc = self.liables.allocator().clone()?;
        let fills = make_fills(alloc, self.liables.as_slice(), now, shares.value(), money)?;
        Ok(fills)
    }
}

impl<A: Allocator + Drop> Batch<A> {
    /// The members, in the order of filling. It takes no memory.
    pub fn members(&self) -> &[Liable]
        ensures { result.now ≡ self.now.members }
    {
        self.liables.as_slice()
    }

    /// The issue. It takes no memory.
    pub fn cusip(&self) -> Cusip
        ensures { result ≡ self.now.issue }
    {
        self.issue
    }

    /// What is left of a member's liability, in shares; 0 for a member that is not in the batch. It takes no memory.
    #[tactic(auto, using(crate::proofs::Lefts::left_below))]
    pub fn liable(&self, member: Member) -> i64
        ensures { result ≡ pos (left_of member self.now.members) }
    {
        left_for(self.liables.as_slice(), member) as i64
    }

    /// How many shares an execution can give the members now: of each what is left of its liability, or what it is short
    /// now where that is less. It takes no memory.
    #[tactic(auto, using(crate::proofs::Lefts::capacities_below))]
    pub fn room<S: Shorts>(&self, now: &S) -> u64
        ensures { result ≡ room_of (S.short_now now.now) self.now.members }
    {
        filling::room_up_to(self.liables.as_slice(), now, u64::MAX)
    }

    /// The room, counted only as far as so many shares: their number where there is room for all of them. It takes no
    /// memory.
    pub fn room_up_to<S: Shorts>(&self, now: &S, most: u64) -> u64
        ensures { result ≡ min most (room_of (S.short_now now.now) self.now.members) }
    {
        filling::room_up_to(self.liables.as_slice(), now, most)
    }

    /// Lowers what is left of each liability by what the fills give its member. The fills may come in any order. They have to
    /// be for members of the batch, at most one for each, and none for more than is left, as those are that `fill` makes.
    /// It takes no memory, and a step for each member where the fills come in the order of the batch.
    #[tactic(auto, using(std::proofs::lemmas::List::take_at, crate::proofs::Lefts::members_of_charged, crate::proofs::Lefts::charged_below))]
    pub fn charge(&mut self, fills: &[Fill])
        requires { CanBeCharged fills.now self.old.members }
        ensures { self.new ≡ record { issue = self.old.issue; members = map (charged fills.now) self.old.members } }
    {
        filling::charge(self.liables.as_mut_slice(), fills);
    }
}
