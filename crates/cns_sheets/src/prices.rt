// The prices of a day.
ghost use Rattle.std.specs.Prelude.{◌≡◌, IfErr, IfOk, length, true, OnOk, None};
ghost use Rattle.std.specs.Cmp.Lexicographic.{slice_cmp};
ghost use Rattle.std.specs.FinMap.{is_sorted};
ghost use Rattle.std.specs.List.{HoldsAt};
ghost use Rattle.std.specs.List.Sorted.{IsPartitionPoint, IsSearchInRange};
ghost use Rattle.std.specs.Ordering.{nat_cmp};
ghost use Rattle.std.specs.declared.cmp.Ordering.{Ordering};
ghost use Rattle.cns_prices.specs.Listed.{listed_above};
ghost use Rattle.cns_sheets.specs.Build.{price_on};

use cns_prices::Prices;
use cns_terms::NoMemory;
use cns_units::{Cusip, Price};
use std::alloc::Allocator;

/// Where an issue stands, or where it would.
pub fn place(prices: &[(Cusip, Price)], issue: &Cusip) -> Result<usize, usize>
    requires { is_sorted (slice_cmp nat_cmp) prices.now ≡ true }
    ensures bound { IsSearchInRange result (length prices.now) }
    ensures found { IfOk result (HoldsAt (λ e. slice_cmp nat_cmp e.0 issue.now ≡ Ordering.Equal) prices.now) }
    ensures absent { IfErr result
        (IsPartitionPoint (λ e. slice_cmp nat_cmp e.0 issue.now ≡ Ordering.Less)
        (λ e. slice_cmp nat_cmp e.0 issue.now ≡ Ordering.Greater) prices.now) }
{
    prices.binary_search_by(|entry| entry.0.cmp(issue))
}

/// The price of an issue on a list in the order of issues.
pub fn price_on(prices: &[(Cusip, Price)], issue: &Cusip) -> Option<Price>
    requires { is_sorted (slice_cmp nat_cmp) prices.now ≡ true }
    ensures { result ≡ price_on prices.now issue.now }
{
    match place(prices, issue) {
        Ok(at) => Some(prices[at].1),
        Err(_) => None,
    }
}

/// The listed issues with their prices, in order, of which `room` are expected. Where memory is refused nothing has
/// changed.
pub fn listed<A: Allocator + Drop>(
    alloc: A,
    room: usize,
    prices: &Prices<A>,
) -> Result<Vec<(Cusip, Price), A>, NoMemory>
    ensures prices { IfOk result (λ v. v.items ≡ listed_above prices.now None) }
    ensures order { OnOk result (is_sorted (slice_cmp nat_cmp) prices.now ≡ true) }
{
    let mut list = Vec::with_capacity(alloc, room)?;
    let mut after = None;
    while let Some((issue, price)) = prices.next_listed(after) {
        let issue = &issue;
        list.push((*issue, price))?;
        after = Some(*issue);
    }
    Ok(list)
}
