// Splits and exchanges.
ghost use Rattle.std.specs.Prelude.{◌≡◌, ◌↔◌, Err, IfOk, false, true};
ghost use Rattle.cns_terms.specs.declared.command.Activity.TheVariants as activity;
ghost use Rattle.cns_terms.specs.declared.command.Command.TheVariants as command;
ghost use Rattle.cns_terms.specs.declared.holding.Key.{Key};
ghost use Rattle.cns_terms.specs.Entries.{entries};
ghost use Rattle.cns_terms.specs.Refusals.{first_refusal, is_too_large};
ghost use Rattle.cns_positions.specs.Rows.{books, holding_at, with_age};
ghost use Rattle.cns_actions.specs.Booked.{IsForAnother, age_brought};
ghost use Rattle.cns_actions.specs.Bookings.{makes};
ghost use Rattle.cns_actions.specs.Changes.{AreInIssues};
ghost use Rattle.cns_actions.specs.declared.fault.ActionFault.TheVariants as fault;
ghost use Rattle.cns_book.specs.Effects.{activity_of, exchange_rules, is_held_up};
ghost use Rattle.cns_book.specs.Follows.{Answers, HasRoom, Shows};
ghost use Rattle.cns_book.specs.Places.{PlacesStay, StaysIfRefused};

use crate::parts::Parts;
use cns_actions::{Action, ActionFault, Bookings, bookings_for};
use cns_positions::Positions;
use cns_terms::{Exchange, NoMemory, Refusal, Reply, Split};
use std::alloc::Allocator;

impl<P: Positions<A>, A: Allocator + Drop + Clone> Parts<P, A> {
    // What a split or an exchange books.
    fn bookings_for(&self, action: &Action) -> Result<Bookings<A>, ActionFault>
        requires room { HasRoom self.now }
        requires another { IsForAnother action.now }
        ensures too_large { Shows self.now
            (λ J. (result ≡ Err fault.TooLarge) ↔ (is_too_large self.now.opening J (activity_of action.now) ≡ true)) }
        ensures pending { Shows self.now
            (λ J. (result ≡ Err fault.PendingTrades) ↔ ((is_too_large self.now.opening J (activity_of action.now) ≡ false)
            × (is_held_up self.now.opening J action.now ≡ true))) }
        ensures booked { IfOk result
            (λ b. Shows self.now
            (λ J. (k : Key) → makes b k (holding_at self.now.rows k) ≡ with_age (age_brought self.now.rows action.now k)
            (books (entries self.now.opening J (activity_of action.now)) k (holding_at self.now.rows k)))) }
        ensures issues { IfOk result (AreInIssues action.now) }
    {
        bookings_for(&self.alloc, &self.positions, action, self.trades.waiting())
    }

    /// SPLIT. What it books is made first, and then booked at once; the notices of the issue end. Trades that wait stay as
    /// they were made.
    #[tactic(auto, using(crate::proofs::ActionSteps::elsewhere))]
    pub fn split(&mut self, split: &Split) -> Result<Reply, NoMemory>
        requires { HasRoom self.old }
        ensures opening { self.new.opening ≡ self.old.opening }
        ensures step { Answers self.old (command.Activity (activity.Split split.now)) result self.new }
        ensures places { PlacesStay self.old.trades.pending (command.Activity (activity.Split split.now)) self.old.rows self.new.rows }
        ensures refused { StaysIfRefused result self.old self.new }
    {
        if let Some(refusal) = self.issue_refusal(split.issue) {
            return Ok(Reply::Refused(refusal));
        }
        // Each number is within its limit; the calls tell the prover.
        let _ = (split.ratio.parts(), split.lieu.value());
        match self.bookings_for(&Action::Split(*split)) {
            Ok(bookings) => {
                bookings.make(&mut self.positions)?;
                self.notices.end_issue(split.issue);
                Ok(Reply::Accepted)
            }
            Err(ActionFault::TooLarge) => Ok(Reply::Refused(Refusal::TooLarge)),
            Err(ActionFault::PendingTrades) => unreachable!(),
            Err(ActionFault::NoMemory) => Err(NoMemory),
        }
    }

    // Why an EXCHANGE is refused, its size and the trades that wait apart.
    fn exchange_refusal(&self, exchange: &Exchange) -> Option<Refusal>
        ensures { Shows self.now (λ J. result ≡ first_refusal (exchange_rules J exchange.now)) }
    {
        let (old_listed, old_retired) = self.listed_and_retired(exchange.old);
        let (listed, retired) = self.listed_and_retired(exchange.successor);
        if !(old_listed && listed) {
            return Some(Refusal::NoSuchIssue);
        }
        if old_retired || retired {
            return Some(Refusal::Retired);
        }
        if exchange.old.is_same(&exchange.successor) {
            return Some(Refusal::SameIssue);
        }
        None
    }

    /// EXCHANGE. What it books, with the ages that the successor takes over, is made first, and then booked at once; then the
    /// old issue is retired, and its notices end.
    pub fn exchange(&mut self, exchange: &Exchange) -> Result<Reply, NoMemory>
        requires { HasRoom self.old }
        ensures opening { self.new.opening ≡ self.old.opening }
        ensures step { Answers self.old (command.Activity (activity.Exchange exchange.now)) result self.new }
        ensures places { PlacesStay self.old.trades.pending (command.Activity (activity.Exchange exchange.now)) self.old.rows self.new.rows }
        ensures refused { StaysIfRefused result self.old self.new }
    {
        if let Some(refusal) = self.exchange_refusal(exchange) {
            return Ok(Reply::Refused(refusal));
        }
        // Each number is within its limit; the calls tell the prover.
        let _ = (
            exchange.ratio.parts(),
            exchange.lieu.value(),
            exchange.cash.value(),
        );
        match self.bookings_for(&Action::Exchange(*exchange)) {
            Ok(bookings) => {
                bookings.make(&mut self.positions)?;
                self.prices.retire(exchange.old);
                self.notices.end_issue(exchange.old);
                Ok(Reply::Accepted)
            }
            Err(ActionFault::TooLarge) => Ok(Reply::Refused(Refusal::TooLarge)),
            Err(ActionFault::PendingTrades) => Ok(Reply::Refused(Refusal::PendingTrades)),
            Err(ActionFault::NoMemory) => Err(NoMemory),
        }
    }
}
