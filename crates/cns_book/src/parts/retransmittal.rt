// Retransmittal: the batches that a close chooses.
ghost use Rattle.std.specs.Prelude.{◌≡◌, ◌+◌, ◌^◌, ◌<◌, ◌≤◌, [], Some, IfOk, OnOk, length, filter_map, option_map, sum_by, unsigned_abs};
ghost use Rattle.std.specs.List.{AllByRecursion};
ghost use Rattle.std.specs.Option.{ForSome};
ghost use Rattle.cns_units.specs.declared.cusip.Cusip.{Cusip};
ghost use Rattle.cns_terms.specs.Fills.{batches_since};
ghost use Rattle.cns_terms.specs.Limits.{corporation_limit};
ghost use Rattle.cns_terms.specs.Sheets.{day_sheet};
ghost use Rattle.cns_notices.specs.Noticed.{notice_at};
ghost use Rattle.cns_retransmit.specs.Calls.{called_in, shorts_in, total_in};
ghost use Rattle.cns_retransmit.specs.Days.{RiseByIssue};
ghost use Rattle.cns_book.specs.Follows.{HasRoom, Shows};
ghost use Rattle.cns_book.specs.Retransmittal.{called_by, oldest_at, remaining_by, short_in, with_shorts};

use crate::parts::Parts;
use cns_positions::Positions;
use cns_retransmit::{Batch, Calls, Short};
use cns_sheets::{Sheet, SheetRows};
use cns_terms::{Key, NoMemory};
use cns_units::Member;
use std::alloc::Allocator;

/// How many members are liable in batches.
pub fn count_liable<A: Allocator + Drop + Clone>(batches: &[Batch<A>]) -> u64
    requires { sum_by (λ b. length b.members) batches.now < 2 ^ 64 }
    ensures { result ≡ sum_by (λ b. length b.members) batches.now }
{
    batches
        .iter()
        .map(|batch| batch.members().len() as u64)
        .sum()
}

impl<P: Positions<A>, A: Allocator + Drop + Clone> Parts<P, A> {
    /// What remains of a notice, in shares.
    pub fn remaining(&self, number: u32) -> u64
        requires { (1 ≤ number) × (number ≤ length self.now.notices) }
        ensures { Some result ≡ option_map (remaining_by self.now.rows) (notice_at self.now.notices number) }
    {
        let given = self.notices.given(number);
        let position = self.holding(Key {
            account: given.member.account(),
            issue: given.issue,
        });
        self.notices.remaining(number, position.now)
    }

    // What the notices of the open day call for, in each issue. Days never fall along the notices, so those of the open
    // day are the last ones.
    fn calls_of_day(&self) -> Result<Calls<A>, NoMemory>
        requires { HasRoom self.now }
        ensures total { IfOk result
            (λ v. (c : Cusip) → total_in v c ≡ called_by self.now.rows (self.now.closes + 1) c self.now.notices) }
        ensures shorts { IfOk result (λ v. (c : Cusip) → shorts_in v c ≡ []) }
        ensures some { IfOk result (λ v. (c : Cusip) → ForSome (called_in v c) (λ x. 1 ≤ x.total)) }
    {
        let today = self.closes + 1;
        let mut calls = Calls::new(self.alloc.clone()?)?;
        let mut number = self.notices.len();
        while number > 0 {
            let given = self.notices.given(number);
            if given.day != today {
                break;
            }
            let shares = self.remaining(number);
            if shares > 0 {
                calls.call(given.issue, shares)?;
            }
            number -= 1;
        }
        Ok(calls)
    }

    // The age of the short at a key, which counts the close.
    fn age_at_close(&self, key: Key) -> u32
        requires { HasRoom self.now }
        ensures { result ≡ oldest_at self.now.rows key.account key.issue + 1 }
    {
        self.holding(key).oldest() + 1
    }

    // Gives the calls the shorts on the rows of a sheet, each with its age, which counts the close. The row of an issue
    // in which nothing is called is passed over.
    fn add_shorts(&self, calls: &mut Calls<A>, rows: SheetRows<'_, A>) -> Result<(), NoMemory>
        requires room { HasRoom self.now }
        requires few { AllByRecursion (λ r. unsigned_abs r.closing ≤ corporation_limit) rows }
        ensures { OnOk result
            ((c : Cusip) → called_in calls.new c
            ≡ option_map (with_shorts (filter_map (short_in (oldest_at self.now.rows) c) rows.entry))
            (called_in calls.old c)) }
    {
        for row in rows {
            if row.closing >= 0 || !calls.is_called(row.issue) {
                continue;
            }
            let Ok(member) = Member::new(row.account.value()) else {
                continue;
            };
            let age = self.age_at_close(Key {
                account: row.account,
                issue: row.issue,
            });
            calls.short(
                row.issue,
                Short {
                    member,
                    shares: row.closing.unsigned_abs(),
                    age,
                },
            )?;
        }
        Ok(())
    }

    /// The batches that a close chooses: of the issues in which notices of the open day call for anything, by the shorts on
    /// the sheet that the close cut (this project's profile of NSCC Procedure X).
    #[tactic(auto, using(crate::proofs::RetransmittalShorts::closings_few))]
    pub fn choose_batches(&self, sheet: &Sheet<A>) -> Result<Vec<Batch<A>, A>, NoMemory>
        requires room { HasRoom self.now }
        requires cut { Shows self.now (λ J. sheet.now ≡ day_sheet self.now.opening J) }
        ensures batches { IfOk result (λ v. Shows self.now (λ J. v.items ≡ batches_since J J)) }
        ensures rise { IfOk result (λ v. RiseByIssue v.items) }
    {
        let mut calls = self.calls_of_day()?;
        if !calls.is_empty() {
            self.add_shorts(&mut calls, sheet.rows())?;
        }
        calls.choose()
    }
}
