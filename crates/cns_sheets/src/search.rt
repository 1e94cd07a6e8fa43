// Searches among the prices of a day, by halving.
ghost use Rattle.std.specs.Prelude.{◌≡◌, ◌≤◌, ◌∷◌, [], drop, length, MatchOption, Some, true};
ghost use Rattle.std.specs.Cmp.Lexicographic.{slice_cmp};
ghost use Rattle.std.specs.FinMap.{is_sorted};
ghost use Rattle.std.specs.Ordering.{nat_cmp};
ghost use Rattle.cns_sheets.specs.Search.{prices_above};

use crate::prices;
use cns_units::{Cusip, Price};

// How many prices stand before those of the issues above one.
#[tactic(auto, using(crate::proofs::Searched::all_prices, crate::proofs::Searched::prices_from_gap, crate::proofs::Searched::prices_past))]
fn past(prices: &[(Cusip, Price)], after: Option<Cusip>) -> usize
    requires { is_sorted (slice_cmp nat_cmp) prices.now ≡ true }
    ensures above { drop result prices.now ≡ prices_above prices.now after }
    ensures bound { result ≤ length prices.now }
{
    let Some(issue) = after else {
        return 0;
    };
    match prices::place(prices, &issue) {
        Ok(at) => at + 1,
        Err(at) => at,
    }
}

/// The first of the prices, or the first of an issue above another, among prices in the order of issues.
pub fn next_price(prices: &[(Cusip, Price)], after: Option<Cusip>) -> Option<(Cusip, Price)>
    requires { is_sorted (slice_cmp nat_cmp) prices.now ≡ true }
    ensures { MatchOption result (prices_above prices.now after ≡ [])
        (λ e. prices_above prices.now after ≡ e ∷ prices_above prices.now (Some e.0)) }
{
    prices.get(past(prices, after)).copied()
}
