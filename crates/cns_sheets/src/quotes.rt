// The prices of a day, looked up mostly in the order of issues.
ghost use Rattle.std.specs.Prelude.{◌≡◌, IfErr, IfOk, length, true};
ghost use Rattle.std.specs.Cmp.Lexicographic.{slice_cmp};
ghost use Rattle.std.specs.FinMap.{is_sorted};
ghost use Rattle.std.specs.List.{HoldsAt};
ghost use Rattle.std.specs.List.Sorted.{IsPartitionPoint, IsSearchInRange};
ghost use Rattle.std.specs.Ordering.{nat_cmp};
ghost use Rattle.std.specs.declared.cmp.Ordering.{Ordering};
ghost use Rattle.cns_sheets.specs.Build.{price_on};

use crate::prices::place;
use cns_units::{Cusip, Price};
use std::marker::Model;

// How many prices a lookup tries before it halves the list: of an account that is busy in most issues the next issue
// stands among them.
const NEAR: usize = 8;

/// The prices of a list, each lookup beginning where the last one ended. Any place does, since what stands there
/// counts only if it is the issue that was asked for.
#[derive(Drop)]
pub struct Quotes<'a> {
    prices: &'a [(Cusip, Price)],
    // Where the last lookup ended: past the issue that it found.
    next: usize,
    // How many prices it passed over on its way from where the lookup before had ended. The number of a way back wraps.
    passed: usize,
}

impl<'a> Model for Quotes<'a> {
    ghost use Rattle.std.specs.Prelude.{◌≡◌, true};
    ghost use Rattle.std.specs.Cmp.Lexicographic.{slice_cmp};
    ghost use Rattle.std.specs.FinMap.{is_sorted};
    ghost use Rattle.std.specs.Ordering.{nat_cmp};
    ghost use Rattle.cns_sheets.specs.Build.{PriceList};

    ghost Value = { PriceList };

    ghost view = { λ q. q.prices.now };

    ghost invariant = { λ q. is_sorted (slice_cmp nat_cmp) q.prices.now ≡ true };
}

impl<'a> Quotes<'a> {
    /// The prices of a list in the order of issues, looked up from its start.
    pub fn new(prices: &'a [(Cusip, Price)]) -> Self
        requires { is_sorted (slice_cmp nat_cmp) prices.now ≡ true }
        ensures { result ≡ prices.now }
    {
        Quotes {
            prices,
            next: 0,
            passed: 0,
        }
    }

    /// How many prices the last lookup passed over. On the list of another day the issue stands as many further on, but
    /// for the issues that only one of the two lists has.
    pub fn passed(&self) -> usize {
        self.passed
    }

    /// The price of an issue, looked for first as many prices further on as it is told, and then by halving.
    pub fn price(&mut self, issue: &Cusip, passed: usize) -> Option<Price>
        ensures price { result ≡ price_on self.old issue.now }
        ensures same { self.new ≡ self.old }
    {
        match place_near(self.prices, self.next.wrapping_add(passed), issue) {
            Ok(at) => {
                self.passed = at.wrapping_sub(self.next);
                self.next = at + 1;
                Some(self.prices[at].1)
            }
            Err(at) => {
                self.passed = at.wrapping_sub(self.next);
                self.next = at;
                None
            }
        }
    }
}

// Where an issue stands, or where it would: looked for among the few prices from a place on, and then in the whole list.
fn place_near(prices: &[(Cusip, Price)], start: usize, issue: &Cusip) -> Result<usize, usize>
    requires { is_sorted (slice_cmp nat_cmp) prices.now ≡ true }
    ensures bound { IsSearchInRange result (length prices.now) }
    ensures found { IfOk result (HoldsAt (λ e. slice_cmp nat_cmp e.0 issue.now ≡ Ordering.Equal) prices.now) }
    ensures absent { IfErr result
        (IsPartitionPoint (λ e. slice_cmp nat_cmp e.0 issue.now ≡ Ordering.Less)
        (λ e. slice_cmp nat_cmp e.0 issue.now ≡ Ordering.Greater) prices.now) }
{
    for at in start..prices.len().min(start.saturating_add(NEAR)) {
        if prices[at].0.cmp(issue).is_eq() {
            return Ok(at);
        }
    }
    place(prices, issue)
}
