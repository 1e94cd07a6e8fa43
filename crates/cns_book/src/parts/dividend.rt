// Dividends.
ghost use Rattle.std.specs.Prelude.{◌≡◌, ◌||◌};
ghost use Rattle.cns_terms.specs.declared.command.Activity.TheVariants as activity;
ghost use Rattle.cns_terms.specs.declared.command.Command.TheVariants as command;
ghost use Rattle.cns_terms.specs.Days.{is_not_after};
ghost use Rattle.cns_terms.specs.Refusals.{is_past, refusal};
ghost use Rattle.cns_book.specs.Follows.{Answers, Refuses};
ghost use Rattle.cns_book.specs.Places.{PlacesStay, StaysIfRefused};

use crate::parts::Parts;
use cns_positions::Positions;
use cns_terms::{Declared, NoMemory, Refusal, Reply};
use cns_units::Day;
use std::alloc::Allocator;

// Whether a dividend's dates are wrong on a day: the record date is past, or the payable date does not come after it.
fn has_wrong_dates(declared: &Declared, today: Day) -> bool
    ensures { result
        ≡ (is_past declared.now.recorded today || is_not_after declared.now.payable declared.now.recorded) }
{
    declared.recorded < today || declared.payable <= declared.recorded
}

impl<P: Positions<A>, A: Allocator + Drop + Clone> Parts<P, A> {
    // Why a DIVIDEND is refused.
    fn dividend_refusal(&self, declared: &Declared) -> Option<Refusal>
        ensures { Refuses self.now (command.Activity (activity.Dividend declared.now)) result }
    {
        if let Some(refusal) = self.issue_refusal(declared.issue) {
            return Some(refusal);
        }
        if has_wrong_dates(declared, self.today) {
            return Some(Refusal::WrongDay);
        }
        None
    }

    /// DIVIDEND. A record date of today can still be declared, since positions are recorded at the close.
    pub fn declare_dividend(&mut self, declared: &Declared) -> Result<Reply, NoMemory>
        ensures opening { self.new.opening ≡ self.old.opening }
        ensures step { Answers self.old (command.Activity (activity.Dividend declared.now)) result self.new }
        ensures places { PlacesStay self.old.trades.pending (command.Activity (activity.Dividend declared.now)) self.old.rows self.new.rows }
        ensures refused { StaysIfRefused result self.old self.new }
    {
        if let Some(refusal) = self.dividend_refusal(declared) {
            return Ok(Reply::Refused(refusal));
        }
        // Every rate is within its limit; the call tells the prover.
        let _ = declared.rate.value();
        self.dividends.declare(
            declared.issue,
            declared.recorded,
            declared.payable,
            declared.rate,
        )?;
        Ok(Reply::Accepted)
    }
}
