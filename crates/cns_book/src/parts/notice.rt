// Notices of intention to buy in.
ghost use Rattle.std.specs.Prelude.{◌≡◌, ◌≤◌, length, None, Ok, Some, option_map, true, ◌↔◌};
ghost use Rattle.std.specs.Option.{ForNone};
ghost use Rattle.cns_terms.specs.declared.buy_in.Stage.TheVariants.{Live};
ghost use Rattle.cns_terms.specs.declared.command.Activity.TheVariants as activity;
ghost use Rattle.cns_terms.specs.declared.command.Command.TheVariants as command;
ghost use Rattle.cns_terms.specs.Refusals.{refusal};
ghost use Rattle.cns_notices.specs.Noticed.{live_number, notice_at};
ghost use Rattle.cns_book.specs.Follows.{Answers, HasRoom, Refuses};
ghost use Rattle.cns_book.specs.Places.{PlacesStay, StaysIfRefused};

use crate::parts::Parts;
use cns_notices::Stage;
use cns_positions::Positions;
use cns_terms::{Movement, NoMemory, Refusal, Reply};
use cns_trades::is_exceeded;
use std::alloc::Allocator;

impl<P: Positions<A>, A: Allocator + Drop + Clone> Parts<P, A> {
    // Why a NOTICE is refused.
    fn notice_refusal(&self, movement: &Movement) -> Option<Refusal>
        requires { HasRoom self.now }
        ensures refusal { Refuses self.now (command.Activity (activity.Notice movement.now)) result }
        ensures alone { ForNone result (live_number self.now.notices movement.now.member movement.now.issue ≡ None) }
    {
        let Some(position) = self.member_position(movement.member, movement.issue) else {
            return Some(Refusal::NoSuchMember);
        };
        if let Some(refusal) = self.issue_refusal(movement.issue) {
            return Some(refusal);
        }
        if is_exceeded(position, movement.shares) {
            return Some(Refusal::ExceedsPosition);
        }
        if position <= 0 {
            return Some(Refusal::NotLong);
        }
        match self.notices.live_of(movement.member, movement.issue) {
            Some(number) => Some(Refusal::AlreadyNoticed { number }),
            None => None,
        }
    }

    /// NOTICE. The reply tells the notice's number.
    #[tactic(auto, using(crate::proofs::PartsWithin::notices_fit, crate::proofs::PartsWithin::last_day))]
    pub fn give_notice(&mut self, movement: &Movement) -> Result<Reply, NoMemory>
        requires { HasRoom self.old }
        ensures opening { self.new.opening ≡ self.old.opening }
        ensures step { Answers self.old (command.Activity (activity.Notice movement.now)) result self.new }
        ensures places { PlacesStay self.old.trades.pending (command.Activity (activity.Notice movement.now)) self.old.rows self.new.rows }
        ensures refused { StaysIfRefused result self.old self.new }
    {
        if let Some(refusal) = self.notice_refusal(movement) {
            return Ok(Reply::Refused(refusal));
        }
        // The shares are within their limit; the call tells the prover.
        let _ = movement.shares.value();
        let number = self.notices.open(
            movement.member,
            movement.issue,
            movement.shares,
            self.closes + 1,
        )?;
        Ok(Reply::Noticed(number))
    }

    /// Whether a notice has the number.
    pub fn is_noticed(&self, number: u32) -> bool
        ensures { (result ≡ true) ↔ ((1 ≤ number) × (number ≤ length self.now.notices)) }
    {
        number >= 1 && number <= self.notices.len()
    }

    // Why a WITHDRAW is refused.
    #[tactic(auto, using(crate::proofs::NoticeSteps::notice_missing, crate::proofs::NoticeSteps::withdraw_by_stage))]
    fn withdraw_refusal(&self, number: u32) -> Option<Refusal>
        ensures refusal { Refuses self.now (command.Activity (activity.Withdraw number)) result }
        ensures there { ForNone result ((1 ≤ number) × (number ≤ length self.now.notices)) }
        ensures live { ForNone result (Some Live ≡ option_map (λ x. x.stage) (notice_at self.now.notices number)) }
    {
        if !self.is_noticed(number) {
            return Some(Refusal::NoSuchNotice);
        }
        match self.notices.stage(number) {
            Stage::Live => None,
            Stage::Withdrawn | Stage::Ended | Stage::Expired => Some(Refusal::NotLive),
        }
    }

    /// WITHDRAW.
    #[tactic(auto, using(crate::proofs::PartsStaying::accepted, crate::proofs::NoticeSteps::notice_withdrawn))]
    pub fn withdraw(&mut self, number: u32) -> Reply
        ensures opening { self.new.opening ≡ self.old.opening }
        ensures step { Answers self.old (command.Activity (activity.Withdraw number)) (Ok result) self.new }
        ensures places { PlacesStay self.old.trades.pending (command.Activity (activity.Withdraw number)) self.old.rows self.new.rows }
        ensures refused { StaysIfRefused (Ok result) self.old self.new }
    {
        if let Some(refusal) = self.withdraw_refusal(number) {
            return Reply::Refused(refusal);
        }
        self.notices.withdraw(number);
        Reply::Accepted
    }
}
