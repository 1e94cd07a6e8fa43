// The sheets of the closed days.
ghost use Rattle.std.specs.Prelude.{◌≡◌, ◌≤◌, [], ◌∷◌, IfErr, IfOk, OnErr, OnOk, length, map, option_map, reverse, slice_get, false, true, None};
ghost use Rattle.std.specs.Arc.{arc_value};
ghost use Rattle.std.specs.Cmp.Lexicographic.{slice_cmp};
ghost use Rattle.std.specs.FinMap.{is_sorted};
ghost use Rattle.std.specs.List.{AllWithin, HoldsAt};
ghost use Rattle.std.specs.List.Sorted.{IsPartitionPoint, IsSearchInRange};
ghost use Rattle.std.specs.Option.{option_copied};
ghost use Rattle.std.specs.Ordering.{nat_cmp};
ghost use Rattle.cns_terms.specs.Keys.{key_cmp};
ghost use Rattle.cns_prices.specs.Listed.{listed_above};
ghost use Rattle.cns_sheets.specs.Build.{prices_of};
ghost use Rattle.cns_sheets.specs.Condition.{CanBePaid, IsReady};
ghost use Rattle.cns_sheets.specs.Payments.{IsCut};
ghost use Rattle.cns_book.specs.Dated.{AreFalling, IsAfter, dated_sheet, is_dated, is_dated_by, last_dated, payments_by, sheet_as_of};

use cns_dividends::Due;
use cns_positions::Positions;
use cns_prices::Prices;
use cns_sheets::{Payment, Sheet};
use cns_terms::NoMemory;
use cns_units::Day;
use std::alloc::Allocator;
use std::marker::Model;
use std::sync::Arc;

/// The sheets of the closed days, each shared and never changed, in the order of their dates. Contracts see them from
/// the newest back.
#[derive(Drop)]
pub struct ClosedDays<A: Allocator + Drop + Clone> {
    alloc: A,
    sheets: Vec<Arc<Sheet<A>, A>, A>,
}

impl<A: Allocator + Drop + Clone> Model for ClosedDays<A> {
    ghost use Rattle.std.specs.Prelude.{List, map, reverse};
    ghost use Rattle.std.specs.Arc.{arc_value};
    ghost use Rattle.cns_terms.specs.Sheets.{DaySheet};
    ghost use Rattle.cns_book.specs.Dated.{AreFalling};

    ghost Value = { List DaySheet };

    ghost view = { λ d. reverse (map arc_value d.sheets.items) };

    ghost invariant = { λ d. AreFalling (reverse (map arc_value d.sheets.items)) };
}

// Where the sheet of the day with the date stands.
fn place<A: Allocator + Drop + Clone>(
    sheets: &[Arc<Sheet<A>, A>],
    date: Day,
) -> Result<usize, usize>
    requires { AreFalling (reverse (map arc_value sheets.now)) }
    ensures bound { IsSearchInRange result (length sheets.now) }
    ensures found { IfOk result (HoldsAt (λ a. is_dated date (arc_value a) ≡ true) sheets.now) }
    ensures absent { IfErr result
        (λ _. AllWithin (λ a. is_dated date (arc_value a) ≡ false) sheets.now 0 (length sheets.now)) }
{
    sheets.binary_search_by_key(&date, |sheet| sheet.date())
}

// How many of the sheets are of days on or before the date.
fn count_by<A: Allocator + Drop + Clone>(sheets: &[Arc<Sheet<A>, A>], date: Day) -> usize
    requires { AreFalling (reverse (map arc_value sheets.now)) }
    ensures bound { result ≤ length sheets.now }
    ensures parted { IsPartitionPoint (λ a. is_dated_by date (arc_value a) ≡ true)
        (λ a. is_dated_by date (arc_value a) ≡ false) sheets.now result }
{
    sheets.partition_point(|sheet| sheet.date() <= date)
}

impl<A: Allocator + Drop + Clone> ClosedDays<A> {
    /// No day is closed yet. `NoMemory` where the allocator could not be copied.
    pub fn new(alloc: A) -> Result<Self, NoMemory>
        ensures { IfOk result (λ d. d ≡ []) }
    {
        Ok(ClosedDays {
            sheets: Vec::new(alloc.clone()?),
            alloc,
        })
    }

    // The sheet of the day that was closed last.
    fn last(&self) -> Option<&Sheet<A>>
        ensures { option_copied result ≡ slice_get self.now 0 }
    {
        match self.sheets.as_slice().last() {
            Some(sheet) => Some(&**sheet),
            None => None,
        }
    }

    /// The date of the day that was closed last; None before the first close.
    pub fn last_date(&self) -> Option<Day>
        ensures { result ≡ last_dated self.now }
    {
        Some(self.last()?.date())
    }

    /// The sheet of the last closed day that is dated on or before the date; None where each is dated after it.
    #[tactic(auto, using(crate::proofs::ClosedDaysSearch::none_as_of))]
    pub fn as_of(&self, date: Day) -> Option<&Sheet<A>>
        ensures { option_copied result ≡ sheet_as_of self.now date }
    {
        let count = count_by(self.sheets.as_slice(), date);
        if count == 0 {
            return None;
        }
        Some(&*self.sheets[count - 1])
    }

    /// The sheet of the closed day with the date; None where no closed day has it.
    #[tactic(auto, using(crate::proofs::ClosedDaysSearch::nowhere_back))]
    pub fn find(&self, date: Day) -> Option<&Arc<Sheet<A>, A>>
        ensures { option_map arc_value (option_copied result) ≡ dated_sheet self.now date }
    {
        match place(self.sheets.as_slice(), date) {
            Ok(at) => Some(&self.sheets[at]),
            Err(_) => None,
        }
    }

    // The dividends that a close pays, each with the sheet of its record date. One that was recorded before the first close
    // is paid on nothing, and so is left out.
    fn payments(&self, due: Due<'_>) -> Result<Vec<Payment<'_, A>, A>, NoMemory>
        ensures { IfOk result
            (λ v. map (λ p. (p.declared, p.sheet.now.rows)) v.items ≡ payments_by self.now due.entry) }
    {
        let mut payments = Vec::new(self.alloc.clone()?);
        for declared in due {
            let declared = &declared;
            if let Some(sheet) = self.as_of(declared.recorded) {
                let declared = *declared;
                let Ok(()) = payments.push(Payment { declared, sheet }) else {
                    return Err(NoMemory);
                };
            }
        }
        Ok(payments)
    }

    /// The sheet that a close cuts now, with the dividends that it pays. Where memory is refused nothing has changed.
    pub fn cut<P: Positions<B>, B>(
        &self,
        positions: &P,
        prices: &Prices<A>,
        due: Due<'_>,
        date: Day,
    ) -> Result<Sheet<A>, NoMemory>
        requires ready { IsReady (slice_get self.now 0) prices.now (P.rows positions.now) (payments_by self.now due) }
        requires paid { CanBePaid (payments_by self.now due) }
        ensures date { IfOk result (λ s. s.date ≡ date) }
        ensures listed { IfOk result (λ s. s.prices ≡ listed_above prices.now None) }
        ensures cut { IfOk result
            (λ s. IsCut (prices_of (slice_get self.now 0)) prices.now (P.rows positions.now)
            (payments_by self.now due.entry) s.rows) }
        ensures prices { OnOk result (is_sorted (slice_cmp nat_cmp) prices.now ≡ true) }
        ensures rows { OnOk result (is_sorted key_cmp (P.rows positions.now) ≡ true) }
    {
        let payments = self.payments(due)?;
        Sheet::build(
            self.alloc.clone()?,
            positions,
            prices,
            self.last(),
            payments.as_slice(),
            date,
        )
    }

    /// Keeps the sheet of a day that is closed. Where memory is refused the days stay as they were.
    pub fn keep(&mut self, sheet: Sheet<A>) -> Result<(), NoMemory>
        requires { IsAfter sheet.date self.old }
        ensures ok { OnOk result (self.new ≡ sheet ∷ self.old) }
        ensures err { OnErr result (self.new ≡ self.old) }
    {
        let shared = Arc::new(self.alloc.clone()?, sheet)?;
        self.sheets.push(shared)?;
        Ok(())
    }
}
