// The batches of all closed days.
ghost use Rattle.std.specs.Prelude.{◌≡◌, [], ◌∷◌, ◌++◌, OnErr, OnOk, List};
ghost use Rattle.std.specs.Option.{ForSome, option_copied};
ghost use Rattle.cns_terms.specs.Batches.{Liables};
ghost use Rattle.cns_retransmit.specs.Days.{batch_on, batches_on, charged_on, day_at, RiseByIssue};
ghost use Rattle.cns_retransmit.specs.Charges.{CanBeCharged};

use crate::Batch;
use crate::day::DayBatches;
use cns_terms::{Fill, NoMemory};
use cns_units::Cusip;
use std::alloc::Allocator;
use std::marker::Model;

/// The batches of all closed days, those of a day in the order of the bytes of their issues. Contracts see a list of
/// batches for each day, the first day's first. Days are numbered from 1.
#[derive(Drop)]
pub struct Batches<A: Allocator + Drop> {
    days: Vec<DayBatches<A>, A>,
}

impl<A: Allocator + Drop> Model for Batches<A> {
    ghost use Rattle.std.specs.Prelude.{List};
    ghost use Rattle.cns_terms.specs.Batches.{Liables};

    ghost Value = { List (List Liables) };

    ghost view = { λ b. b.days.items };
}

impl<A: Allocator + Drop> Batches<A> {
    /// No day is closed yet. It takes no memory.
    pub fn new(alloc: A) -> Self
        ensures { result ≡ [] }
    {
        Batches {
            days: Vec::new(alloc),
        }
    }

    /// Keeps the batches of the day that is closed after those before. Their issues have to rise strictly, as
    /// `Calls::choose` makes them.
    ///
    /// `NoMemory` where memory is refused, and then the days stay as they were.
    pub fn keep(&mut self, day: Vec<Batch<A>, A>) -> Result<(), NoMemory>
        requires { RiseByIssue day.items }
        ensures ok { OnOk result (self.new ≡ self.old ++ day.items ∷ []) }
        ensures err { OnErr result (self.new ≡ self.old) }
    {
        self.days.push(DayBatches::new(day))?;
        Ok(())
    }

    /// Takes the batches of the last day away again, where there is one. It takes no memory.
    pub fn forget_last(&mut self)
        ensures last { (days : List (List Liables)) (day : List Liables) → self.old ≡ days ++ day ∷ [] → self.new
            ≡ days }
        ensures none { self.old ≡ [] → self.new ≡ [] }
    {
        let _ = self.days.pop();
    }

    // A day that is closed.
    fn day(&self, day: u64) -> Option<&DayBatches<A>>
        ensures { option_copied result ≡ day_at self.now day }
    {
        let place = day.checked_sub(1)?;
        self.days.as_slice().get(place as usize)
    }

    /// The batches of a day, in the order of their issues; none for a day that is not closed. It takes no memory.
    pub fn of_day(&self, day: u64) -> &[Batch<A>]
        ensures { result.now ≡ batches_on self.now day }
    {
        match self.day(day) {
            Some(batches) => batches.as_slice(),
            None => &[],
        }
    }

    /// The batch of a day in an issue; None where nobody is liable for notices that were given on it. It takes no memory,
    /// and costs one search.
    pub fn find(&self, day: u64, issue: Cusip) -> Option<&Batch<A>>
        ensures { option_copied result ≡ batch_on self.now day issue }
    {
        self.day(day)?.find(issue)
    }

    /// Charges the batch of a day in an issue with fills, as `Batch::charge` does; where there is no such batch nothing
    /// changes. The fills may come in any order. They have to be for members of the batch, at most one for each, and none for
    /// more than is left. It takes no memory.
    #[tactic(auto, using(crate::proofs::Sought::day_charged, crate::proofs::Sought::day_uncharged))]
    pub fn charge(&mut self, day: u64, issue: Cusip, fills: &[Fill])
        requires { ForSome (batch_on self.old day issue) (λ b. CanBeCharged fills.now b.members) }
        ensures { self.new ≡ charged_on self.old day issue fills.now }
    {
        let Some(place) = day.checked_sub(1) else {
            return;
        };
        let place = place as usize;
        if place < self.days.len() {
            self.days[place].charge(issue, fills);
        }
    }
}
