// Members, issues and prices.
ghost use Rattle.std.specs.Prelude.{◌≡◌, Ok};
ghost use Rattle.cns_terms.specs.declared.command.Activity.TheVariants as activity;
ghost use Rattle.cns_terms.specs.declared.command.Command.TheVariants as command;
ghost use Rattle.cns_book.specs.Follows.{Answers, HasRoom};
ghost use Rattle.cns_book.specs.Places.{PlacesStay, StaysIfRefused};

use crate::parts::Parts;
use cns_positions::Positions;
use cns_terms::{Listing, NoMemory, Refusal, Reply};
use cns_units::Member;
use std::alloc::Allocator;

impl<P: Positions<A>, A: Allocator + Drop + Clone> Parts<P, A> {
    /// MEMBER.
    pub fn add_member(&mut self, member: Member) -> Result<Reply, NoMemory>
        ensures opening { self.new.opening ≡ self.old.opening }
        ensures step { Answers self.old (command.Activity (activity.Member member)) result self.new }
        ensures places { PlacesStay self.old.trades.pending (command.Activity (activity.Member member)) self.old.rows self.new.rows }
        ensures refused { StaysIfRefused result self.old self.new }
    {
        let account = member.account();
        if self.is_account(account) {
            return Ok(Reply::Refused(Refusal::MemberExists));
        }
        self.members.insert(account)?;
        Ok(Reply::Accepted)
    }

    /// ISSUE.
    pub fn list_issue(&mut self, listing: Listing) -> Result<Reply, NoMemory>
        ensures opening { self.new.opening ≡ self.old.opening }
        ensures step { Answers self.old (command.Activity (activity.Issue listing)) result self.new }
        ensures places { PlacesStay self.old.trades.pending (command.Activity (activity.Issue listing)) self.old.rows self.new.rows }
        ensures refused { StaysIfRefused result self.old self.new }
    {
        if self.prices.price(listing.issue).is_some() {
            return Ok(Reply::Refused(Refusal::IssueExists));
        }
        // Every price is within its limit; the call tells the prover.
        let _ = listing.price.value();
        self.prices.list(listing.issue, listing.price)?;
        Ok(Reply::Accepted)
    }

    /// PRICE.
    pub fn set_price(&mut self, listing: Listing) -> Reply
        requires { HasRoom self.old }
        ensures opening { self.new.opening ≡ self.old.opening }
        ensures step { Answers self.old (command.Activity (activity.Price listing)) (Ok result) self.new }
        ensures places { PlacesStay self.old.trades.pending (command.Activity (activity.Price listing)) self.old.rows self.new.rows }
        ensures refused { StaysIfRefused (Ok result) self.old self.new }
    {
        if let Some(refusal) = self.issue_refusal(listing.issue) {
            return Reply::Refused(refusal);
        }
        // Every price is within its limit; the call tells the prover.
        let _ = listing.price.value();
        self.prices.set(listing.issue, listing.price);
        Reply::Accepted
    }
}
