// Executions of notices.
ghost use Rattle.std.specs.Prelude.{◌≡◌, Some, IfOk, IfErr};
ghost use Rattle.cns_terms.specs.declared.command.Activity.TheVariants as activity;
ghost use Rattle.cns_terms.specs.declared.command.Command.TheVariants as command;
ghost use Rattle.cns_terms.specs.Refusals.{refusal};
ghost use Rattle.cns_retransmit.specs.Days.{batch_on};
ghost use Rattle.cns_retransmit.specs.Charges.{CanBeCharged};
ghost use Rattle.cns_book.specs.Executions.{capped_short, CanBeExecuted, fills_by, IsAccepted};
ghost use Rattle.cns_book.specs.Follows.{Answers, HasRoom, Shows};
ghost use Rattle.cns_book.specs.Places.{PlacesStay, StaysIfRefused};

use crate::buy_in::book_fills;
use crate::parts::Parts;
use cns_notices::Stage;
use cns_positions::Positions;
use cns_retransmit::{Batch, Shorts};
use cns_terms::{Execution, Fill, Given, Key, NoMemory, Refusal, Reply};
use cns_units::{Cusip, Member};
use std::alloc::Allocator;

// How much each member is short now in an issue.
#[derive(Drop)]
struct ShortsNow<'a, P: Positions<A>, A: Allocator + Drop + Clone> {
    parts: &'a Parts<P, A>,
    issue: Cusip,
}

impl<'a, P: Positions<A>, A: Allocator + Drop + Clone> Shorts for ShortsNow<'a, P, A> {
    ghost short_now = { λ s a. capped_short s.parts.now.rows s.issue a };

    fn short(&self, member: Member) -> i64 {
        let holding = self.parts.holding(Key {
            account: member.account(),
            issue: self.issue,
        });
        if holding.now < 0 {
            holding.now.saturating_neg()
        } else {
            0
        }
    }
}

impl<P: Positions<A>, A: Allocator + Drop + Clone> Parts<P, A> {
    // The notice that an EXECUTE names and the batch of its day; or why it is refused. The refusals come in the order of
    // their numbers, but for shares beyond what remains: only a live notice is refused for those, so it is found first.
    fn check_execution(&self, execution: &Execution) -> Result<(Given, &Batch<A>), Refusal>
        requires { HasRoom self.now }
        ensures refused { IfErr result
            (λ r. Shows self.now
            (λ J. refusal self.now.opening J (command.Activity (activity.Execute execution.now)) ≡ Some r)) }
        ensures accepted { IfOk result (λ r. IsAccepted self.now execution.now r.0) }
        ensures batch { IfOk result (λ r. batch_on self.now.batches r.0.day r.0.issue ≡ Some r.1.now) }
    {
        let number = execution.notice;
        if !self.is_noticed(number) {
            return Err(Refusal::NoSuchNotice);
        }
        let given = self.notices.given(number);
        match self.notices.stage(number) {
            Stage::Live => (),
            Stage::Withdrawn | Stage::Ended | Stage::Expired => return Err(Refusal::NotLive),
        }
        let shares = execution.shares.value();
        // The money is within its limit; the call tells the prover.
        let _ = execution.money.value();
        if self.remaining(number) < shares {
            return Err(Refusal::ExceedsPosition);
        }
        if self.day() < u64::from(given.day) + 2 {
            return Err(Refusal::TooEarly);
        }
        let Some(batch) = self.batches.find(u64::from(given.day), given.issue) else {
            return Err(Refusal::NotLiable { room: 0 });
        };
        let now = ShortsNow {
            parts: self,
            issue: given.issue,
        };
        let room = batch.room_up_to(&now, shares);
        if room < shares {
            return Err(Refusal::NotLiable { room });
        }
        Ok((given, batch))
    }

    // What an accepted EXECUTE gives each member that is liable, and what each pays.
    #[tactic(auto, using(crate::proofs::ExecutionSteps::accepted_room, crate::proofs::ExecutionSteps::accepted_can))]
    fn make_fills(
        &self,
        execution: &Execution,
        given: &Given,
        batch: &Batch<A>,
    ) -> Result<Vec<Fill, A>, NoMemory>
        requires room { HasRoom self.now }
        requires accepted { IsAccepted self.now execution.now given.now }
        requires batch { batch_on self.now.batches given.now.day given.now.issue ≡ Some batch.now }
        ensures fills { IfOk result (λ v. Shows self.now (λ J. v.items ≡ fills_by J execution.now)) }
        ensures booked { IfOk result (λ v. CanBeExecuted self.now.rows given.now v.items) }
        ensures chargeable { IfOk result (λ v. CanBeCharged v.items batch.now.members) }
    {
        let now = ShortsNow {
            parts: self,
            issue: given.issue,
        };
        batch.fill(&now, execution.shares, execution.money)
    }

    /// EXECUTE. The fills are made before anything changes; the rows at which they are booked are there.
    pub fn execute(&mut self, execution: &Execution) -> Result<Reply, NoMemory>
        requires { HasRoom self.old }
        ensures opening { self.new.opening ≡ self.old.opening }
        ensures step { Answers self.old (command.Activity (activity.Execute execution.now)) result self.new }
        ensures places { PlacesStay self.old.trades.pending (command.Activity (activity.Execute execution.now)) self.old.rows self.new.rows }
        ensures refused { StaysIfRefused result self.old self.new }
    {
        let (given, batch) = match self.check_execution(execution) {
            Ok(checked) => checked,
            Err(refusal) => return Ok(Reply::Refused(refusal)),
        };
        let fills = self.make_fills(execution, &given, batch)?;
        book_fills(&mut self.positions, execution, &given, fills.as_slice());
        self.notices.executed(execution.notice, execution.shares);
        self.batches
            .charge(u64::from(given.day), given.issue, fills.as_slice());
        Ok(Reply::Executed(fills.len() as u64))
    }
}
