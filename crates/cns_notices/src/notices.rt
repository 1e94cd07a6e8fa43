// All notices, in the order in which they were accepted.
ghost use Rattle.std.specs.Prelude.{◌≡◌, ◌+◌, ◌^◌, ◌<◌, ◌≤◌, ◌∷◌, ◌++◌, [], length, map, None, IfOk, OnOk, OnErr, Some};
ghost use Rattle.std.specs.Option.{ForSome, option_map};
ghost use Rattle.cns_terms.specs.declared.buy_in.Stage.TheVariants.{Withdrawn};
ghost use Rattle.cns_notices.specs.Noticed.{at_stage, ended, executes, expired, live_number, notice_at, new_notice, receives, remaining_of, with_notice};

use crate::changes::{end_each, expire_from};
use crate::latest::Latest;
use crate::noticed::Noticed;
use cns_terms::{Given, NoMemory, Stage};
use cns_units::{Cusip, Member, Shares};
use std::alloc::Allocator;
use std::marker::Model;

/// The notices of intention to buy in. Contracts see the list of them in the order in which they were accepted: notice `k`
/// stands at place `k - 1`, and numbers begin at 1. None is ever removed.
#[derive(Drop)]
pub struct Notices<A: Allocator + Drop> {
    listed: Vec<Noticed, A>,
    latest: Latest<A>,
}

impl<A: Allocator + Drop> Model for Notices<A> {
    ghost use Rattle.std.specs.Prelude.{List};
    ghost use Rattle.cns_notices.specs.declared.noticed.Noticed.{Noticed};
    ghost use Rattle.cns_notices.specs.Latest.{Leads};

    ghost Value = { List Noticed };

    ghost view = { λ n. n.listed.items };

    ghost invariant = { λ n. Leads n.latest n.listed.items };
}

impl<A: Allocator + Drop> Notices<A> {
    /// No notice was given yet. It takes no memory.
    pub fn new(alloc: A) -> Self
        ensures { result ≡ [] }
    {
        Notices {
            listed: Vec::new(alloc),
            latest: Latest::new(),
        }
    }

    /// How many notices were given.
    pub fn len(&self) -> u32
        ensures { result ≡ length self.now }
    {
        self.listed.len() as u32
    }

    /// Gives notice that a member means to buy in so many shares of an issue (NSCC Rule 11 and Procedure X), and answers its
    /// number. The member has no live notice in the issue, fewer than 4,294,967,295 were given, and the last was not given after
    /// `day`, the number of the day that is open.
    ///
    /// `NoMemory` where memory is refused, and then the notices stay as they were.
    pub fn open(
        &mut self,
        member: Member,
        cusip: Cusip,
        shares: Shares,
        day: u32,
    ) -> Result<u32, NoMemory>
    where
        A: Clone,
        requires alone { live_number self.old member cusip ≡ None }
        requires room { length self.old + 1 < 2 ^ 32 }
        requires days { ForSome (notice_at self.old (length self.old)) (λ x. x.given.day ≤ day) }
        ensures ok { OnOk result
            (self.new ≡ self.old ++ new_notice
            (record { member = member; issue = cusip; shares = shares; day = day }) ∷ []) }
        ensures number { IfOk result (λ k. k ≡ length self.new) }
        ensures err { OnErr result (self.new ≡ self.old) }
    {
        self.listed.reserve(1)?;
        let number = self.listed.len() as u32 + 1;
        self.latest
            .put(self.listed.allocator(), member, cusip, number)?;
        self.listed.push_reserved(Noticed::new(Given {
            member,
            issue: cusip,
            shares,
            day,
        }));
        Ok(number)
    }

    /// A notice with its sums.
    pub(crate) fn notice(&self, k: u32) -> &Noticed
        requires there { (1 ≤ k) × (k ≤ length self.now) }
        ensures { Some result.now ≡ notice_at self.now k }
    {
        &self.listed[k as usize - 1]
    }

    /// A notice as it was given. `k` is from 1 to `len`, as wherever a call names a notice.
    pub fn given(&self, k: u32) -> Given
        requires there { (1 ≤ k) × (k ≤ length self.now) }
        ensures { Some result ≡ option_map (λ x. x.given) (notice_at self.now k) }
    {
        self.notice(k).given
    }

    /// How a notice stands.
    pub fn stage(&self, k: u32) -> Stage
        requires there { (1 ≤ k) × (k ≤ length self.now) }
        ensures { Some result ≡ option_map (λ x. x.stage) (notice_at self.now k) }
    {
        self.notice(k).stage
    }

    /// What remains of a notice, in shares, where its member's position in the issue is `position`: of a live one its shares
    /// less those received and bought in since, but no more than the member is long; of any other nothing (this project's
    /// profile).
    pub fn remaining(&self, k: u32, position: i64) -> u64
        requires there { (1 ≤ k) × (k ≤ length self.now) }
        ensures { Some result ≡ option_map (remaining_of position) (notice_at self.now k) }
    {
        self.notice(k).remaining(position)
    }

    /// The number of a member's live notice in an issue. It costs one search.
    #[tactic(auto, using(std::proofs::lemmas::Option::slice_get_read, crate::proofs::Led::no_number, crate::proofs::Led::number_within, crate::proofs::Led::live_there, crate::proofs::Led::none_there))]
    pub fn live_of(&self, member: Member, cusip: Cusip) -> Option<u32>
        ensures { result ≡ live_number self.now member cusip }
    {
        let k = self.latest.number(member, cusip)?;
        if self.listed[k as usize - 1].is_live() {
            Some(k)
        } else {
            None
        }
    }

    /// Withdraws a notice, whatever its stage was. It takes no memory.
    #[tactic(auto, using(crate::proofs::Items::set_is))]
    pub fn withdraw(&mut self, k: u32)
        requires there { (1 ≤ k) × (k ≤ length self.old) }
        ensures { self.new ≡ with_notice (at_stage Withdrawn) k self.old }
    {
        self.listed[k as usize - 1].stage = Stage::Withdrawn;
    }

    /// Counts shares that a member received of an issue for its live notice there. Where it has none nothing changes. It
    /// takes no memory.
    #[tactic(auto, using(crate::proofs::Led::live_within))]
    pub fn received(&mut self, member: Member, cusip: Cusip, n: Shares)
        requires fits { ForSome (live_number self.old member cusip)
            (λ k. ForSome (notice_at self.old k) (λ x. x.received + n < 2 ^ 64)) }
        ensures { self.new ≡ map (receives member cusip n) self.old }
    {
        if let Some(k) = self.live_of(member, cusip) {
            self.listed[k as usize - 1].receive(n);
        }
    }

    /// Counts shares that were bought in on a notice, whatever its stage. It takes no memory.
    #[tactic(auto, using(crate::proofs::Items::set_is))]
    pub fn executed(&mut self, k: u32, n: Shares)
        requires there { (1 ≤ k) × (k ≤ length self.old) }
        requires fits { ForSome (notice_at self.old k) (λ x. x.executed + n < 2 ^ 64) }
        ensures { self.new ≡ with_notice (executes n) k self.old }
    {
        self.listed[k as usize - 1].execute(n);
    }

    /// Ends the live notices in an issue: it was split or exchanged (this project's profile). It takes no memory, and costs a
    /// step for each member that ever gave notice in the issue.
    pub fn end_issue(&mut self, cusip: Cusip)
        ensures { self.new ≡ map (ended cusip) self.old }
    {
        if let Some(numbers) = self.latest.of_issue(cusip) {
            end_each(self.listed.as_mut_slice(), numbers);
        }
    }

    /// Expires the live notices that were given two days before `day`, the number of the day that is closing: a notice is
    /// executed on the second day after its own or not at all (this project's profile). It takes no memory, and costs a
    /// search and a step for each notice of that day.
    pub fn expire(&mut self, day: u32)
        ensures { self.new ≡ map (expired day) self.old }
    {
        if let Some(given) = day.checked_sub(2) {
            expire_from(self.listed.as_mut_slice(), given);
        }
    }
}
