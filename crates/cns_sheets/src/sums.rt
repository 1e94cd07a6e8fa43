// Sums over rows.
ghost use Rattle.std.specs.Prelude.{◌≡◌, ◌+◌, ◌+ℤ◌, ◌<◌, ◌^◌, FitsSigned, length, pos};
ghost use Rattle.std.specs.Int.{int_wrap, w128};
ghost use Rattle.cns_terms.specs.Sums.{total};

use crate::walks::{AccountRows, SheetRows};
use cns_terms::Row;
use cns_units::Cents;
use std::alloc::Allocator;

/// How many rows there are, and what they add up to.
#[derive(Drop)]
pub struct Totals {
    pub rows: u64,
    pub mark: Cents,
    pub dividend: Cents,
}

impl Totals {
    // Of no rows.
    fn none() -> Totals
        ensures { result ≡ record { rows = 0; mark = pos 0; dividend = pos 0 } }
    {
        Totals {
            rows: 0,
            mark: Cents::ZERO,
            dividend: Cents::ZERO,
        }
    }

    // With one row more. Nothing bounds the sums on the way over all rows of a sheet, so they wrap; where the whole sum
    // fits 128 bits it is exact.
    fn add(&mut self, row: &Row)
        requires { self.old.rows + 1 < 2 ^ 64 }
        ensures rows { self.new.rows ≡ self.old.rows + 1 }
        ensures mark { self.new.mark ≡ int_wrap w128 (self.old.mark +ℤ row.now.mark) }
        ensures dividend { self.new.dividend ≡ int_wrap w128 (self.old.dividend +ℤ row.now.dividend) }
    {
        self.rows += 1;
        self.mark = wrapped_sum(self.mark, row.mark);
        self.dividend = wrapped_sum(self.dividend, row.dividend);
    }
}

// The sum of two amounts, as much of it as fits.
#[tactic(auto, using(std::proofs::lemmas::Int::wraps))]
fn wrapped_sum(a: Cents, b: Cents) -> Cents
    ensures { result ≡ int_wrap w128 (a +ℤ b) }
{
    Cents::of(a.value().wrapping_add(b.value()))
}

/// The count of an account's rows, the sum of their marks, and that of their dividends.
#[tactic(auto, using(crate::proofs::Added::more, crate::proofs::RowSums::onward, std::proofs::lemmas::List::length_push))]
pub fn account_sums<A: Allocator + Clone>(rows: AccountRows<'_, A>) -> Totals
    requires few { length rows < 2 ^ 64 }
    requires mark { FitsSigned w128 (total (λ r. r.mark) rows) }
    requires dividend { FitsSigned w128 (total (λ r. r.dividend) rows) }
    ensures rows { result.rows ≡ length rows.entry }
    ensures mark { result.mark ≡ total (λ r. r.mark) rows.entry }
    ensures dividend { result.dividend ≡ total (λ r. r.dividend) rows.entry }
{
    let mut totals = Totals::none();
    for row in rows {
        totals.add(&row);
    }
    totals
}

/// The same of all rows of a sheet.
#[tactic(auto, using(crate::proofs::Added::more, crate::proofs::RowSums::onward, std::proofs::lemmas::List::length_push))]
pub fn sheet_sums<A: Allocator + Clone>(rows: SheetRows<'_, A>) -> Totals
    requires few { length rows < 2 ^ 64 }
    requires mark { FitsSigned w128 (total (λ r. r.mark) rows) }
    requires dividend { FitsSigned w128 (total (λ r. r.dividend) rows) }
    ensures rows { result.rows ≡ length rows.entry }
    ensures mark { result.mark ≡ total (λ r. r.mark) rows.entry }
    ensures dividend { result.dividend ≡ total (λ r. r.dividend) rows.entry }
{
    let mut totals = Totals::none();
    for row in rows {
        totals.add(&row);
    }
    totals
}
