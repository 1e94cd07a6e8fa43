// The batches of one day.
ghost use Rattle.std.specs.Prelude.{◌≡◌, ◌<◌, ◌^◌, length, IfErr, IfOk};
ghost use Rattle.std.specs.Cmp.Lexicographic.{slice_cmp};
ghost use Rattle.std.specs.List.{HoldsAt};
ghost use Rattle.std.specs.List.Sorted.{IsPartitionPoint, IsSearchInRange};
ghost use Rattle.std.specs.Option.{ForSome, option_copied};
ghost use Rattle.std.specs.Ordering.{nat_cmp};
ghost use Rattle.std.specs.declared.cmp.Ordering.TheVariants.{Equal, Greater, Less};
ghost use Rattle.cns_retransmit.specs.Days.{batch_in, charged_in, RiseByIssue};
ghost use Rattle.cns_retransmit.specs.Charges.{CanBeCharged};

use crate::Batch;
use cns_terms::Fill;
use cns_units::Cusip;
use std::alloc::Allocator;
use std::marker::Model;

/// The batches of one day, at most one in an issue, in the order of the bytes of their issues.
#[derive(Drop)]
pub(crate) struct DayBatches<A: Allocator + Drop> {
    batches: Vec<Batch<A>, A>,
}

impl<A: Allocator + Drop> Model for DayBatches<A> {
    ghost use Rattle.std.specs.Prelude.{List};
    ghost use Rattle.cns_terms.specs.Batches.{Liables};
    ghost use Rattle.cns_retransmit.specs.Days.{RiseByIssue};

    ghost Value = { List Liables };

    ghost view = { λ d. d.batches.items };

    ghost invariant = { λ d. RiseByIssue d.batches.items };
}

// Where the batch of an issue stands, or where it would.
fn place<A: Allocator + Drop>(batches: &[Batch<A>], issue: Cusip) -> Result<usize, usize>
    requires { RiseByIssue batches.now }
    ensures bound { IsSearchInRange result (length batches.now) }
    ensures found { IfOk result (HoldsAt (λ b. slice_cmp nat_cmp b.issue issue ≡ Equal) batches.now) }
    ensures absent { IfErr result
        (IsPartitionPoint (λ b. slice_cmp nat_cmp b.issue issue ≡ Less)
        (λ b. slice_cmp nat_cmp b.issue issue ≡ Greater) batches.now) }
{
    batches.binary_search_by_key(&issue, |batch| batch.cusip())
}

impl<A: Allocator + Drop> DayBatches<A> {
    /// The batches of a day, whose issues strictly rise.
    pub(crate) fn new(batches: Vec<Batch<A>, A>) -> Self
        requires { RiseByIssue batches.items }
        ensures { result ≡ batches.items }
    {
        DayBatches { batches }
    }

    /// The batches, in the order of their issues.
    pub(crate) fn as_slice(&self) -> &[Batch<A>]
        ensures { result.now ≡ self.now }
    {
        self.batches.as_slice()
    }

    /// The batch of an issue.
    #[tactic(auto, using(crate::proofs::Sought::batch_found))]
    pub(crate) fn find(&self, issue: Cusip) -> Option<&Batch<A>>
        ensures { option_copied result ≡ batch_in self.now issue }
    {
        match place(self.batches.as_slice(), issue) {
            Ok(at) => Some(&self.batches[at]),
            Err(_) => None,
        }
    }

    /// Charges the batch of an issue with fills; where there is none nothing changes.
    #[tactic(auto, using(crate::proofs::Sought::batch_found, crate::proofs::Sought::written_charged))]
    pub(crate) fn charge(&mut self, issue: Cusip, fills: &[Fill])
        requires { ForSome (batch_in self.old issue) (λ b. CanBeCharged fills.now b.members) }
        ensures { self.new ≡ charged_in issue fills.now self.old }
    {
        if let Ok(at) = place(self.batches.as_slice(), issue) {
            self.batches[at].charge(fills);
        }
    }
}
