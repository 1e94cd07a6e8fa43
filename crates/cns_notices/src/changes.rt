// Changes of many notices at once.
ghost use Rattle.std.specs.Prelude.{◌≡◌, ◌<◌, ◌≤◌, length, map, nat_le, nat_lt, true, false};
ghost use Rattle.std.specs.List.{AllByRecursion};
ghost use Rattle.std.specs.List.Sorted.{IsNonDecreasingBy, IsPartitionPoint};
ghost use Rattle.cns_terms.specs.declared.buy_in.Stage.TheVariants.{Expired};
ghost use Rattle.cns_notices.specs.Noticed.{brought_to, expired_from};
ghost use Rattle.cns_notices.specs.Latest.{ended_each};

use crate::latest::Place;
use crate::noticed::Noticed;
use cns_terms::Stage;
use std::collections::btree_map::Range;

/// Ends each of the numbered notices that is live.
pub fn end_each(notices: &mut [Noticed], numbers: Range<'_, Place, u32>)
    requires { AllByRecursion (λ e. (0 < e.1) × (e.1 ≤ length notices.old)) numbers }
    ensures { notices.new ≡ ended_each numbers.entry notices.old }
{
    for (_, number) in numbers {
        notices[*number as usize - 1].bring_to(Stage::Ended);
    }
}

// Expires each notice that is live.
fn expire_each(notices: &mut [Noticed])
    ensures { notices.new ≡ map (brought_to Expired) notices.old }
{
    for noticed in notices.iter_mut() {
        noticed.bring_to(Stage::Expired);
    }
}

// Where the notices of a day begin, and where they end.
fn span(notices: &[Noticed], day: u32) -> (usize, usize)
    requires { IsNonDecreasingBy (λ x. x.given.day) notices.now }
    ensures order { (result.0 ≤ result.1) × (result.1 ≤ length notices.now) }
    ensures start { IsPartitionPoint (λ x. nat_lt x.given.day day ≡ true)
        (λ x. nat_lt x.given.day day ≡ false) notices.now result.0 }
    ensures end { IsPartitionPoint (λ x. nat_le x.given.day day ≡ true)
        (λ x. nat_le x.given.day day ≡ false) notices.now result.1 }
{
    let start = notices.partition_point(|noticed| noticed.given.day < day);
    let end = notices.partition_point(|noticed| noticed.given.day <= day);
    (start, end)
}

/// Expires each notice of a day that is live. Days never fall along the notices, so those of one day stand together.
#[tactic(auto, using(crate::proofs::Changing::expired_part))]
pub fn expire_from(notices: &mut [Noticed], day: u32)
    requires { IsNonDecreasingBy (λ x. x.given.day) notices.old }
    ensures { notices.new ≡ map (expired_from day) notices.old }
{
    let (start, end) = span(notices, day);
    expire_each(&mut notices[start..end]);
}
