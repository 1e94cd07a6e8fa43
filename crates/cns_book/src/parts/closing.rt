// The close of a day.
ghost use Rattle.std.specs.Prelude.{◌≡◌};
ghost use Rattle.cns_terms.specs.declared.command.Activity.TheVariants as activity;
ghost use Rattle.cns_terms.specs.declared.command.Command.TheVariants as command;
ghost use Rattle.cns_book.specs.Follows.{Answers, HasRoom};
ghost use Rattle.cns_book.specs.Places.{PlacesStay, StaysIfRefused};

use crate::parts::Parts;
use crate::parts::opening::{enter, open};
use crate::parts::retransmittal::count_liable;
use cns_positions::Positions;
use cns_terms::{Closed, NoMemory, Refusal, Reply};
use cns_units::Day;
use std::alloc::Allocator;

impl<P: Positions<A>, A: Allocator + Drop + Clone> Parts<P, A> {
    /// CLOSE. The sheet, with the dividends that are due, the batches for the day's notices and what is booked as the next day
    /// opens are made before anything changes. Notices of two days ago expire after the batches are chosen, and
    /// trades that are due on the next day are booked after all of the day that ends.
    #[tactic(auto, using(crate::proofs::ClosingSheet::can_be_cut, crate::proofs::ClosingSheet::can_be_paid, crate::proofs::ClosingSteps::after_last, crate::proofs::ClosingSteps::not_late, crate::proofs::ClosingSteps::le_test, crate::proofs::PartsStaying::refused, crate::proofs::PartsStaying::stopped))]
    pub fn close_day(&mut self, next: Day) -> Result<Reply, NoMemory>
        requires { HasRoom self.old }
        ensures opening { self.new.opening ≡ self.old.opening }
        ensures step { Answers self.old (command.Activity (activity.Close next)) result self.new }
        ensures places { PlacesStay self.old.trades.pending (command.Activity (activity.Close next)) self.old.rows self.new.rows }
        ensures refused { StaysIfRefused result self.old self.new }
    {
        if next <= self.today {
            return Ok(Reply::Refused(Refusal::WrongDay));
        }
        let due = self.dividends.due(self.closed.last_date(), self.today);
        let sheet = self
            .closed
            .cut(&self.positions, &self.prices, due, self.today)?;
        let batches = self.choose_batches(&sheet)?;
        let closed = Closed {
            day: self.closes + 1,
            date: self.today,
            rows: sheet.len() as u64,
            liable: count_liable(batches.as_slice()),
        };
        let opening = self.due_bookings(next)?;
        enter(&mut self.positions, &opening)?;
        self.batches.keep(batches)?;
        if let Err(NoMemory) = self.closed.keep(sheet) {
            self.batches.forget_last();
            return Err(NoMemory);
        }
        open(&mut self.positions, &opening);
        self.trades.settle(next);
        self.closes += 1;
        self.notices.expire(self.closes);
        self.today = next;
        Ok(Reply::Closed(closed))
    }
}
