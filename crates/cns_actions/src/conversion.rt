// What a position becomes in a split or an exchange.
ghost use Rattle.std.specs.Prelude.{◌≡◌, ◌^◌, ◌*◌, ◌≤◌, ◌*ℤ◌, pos, unsigned_abs};
ghost use Rattle.cns_terms.specs.Conversions.{converted, in_exchange, in_lieu};
ghost use Rattle.cns_terms.specs.Limits.{position_limit};

use cns_units::{Cents, Price, Ratio};

// Parts of a new share times the cents for a whole one.
fn priced(parts: i64, lieu: Price) -> i128
    requires { unsigned_abs parts ≤ 10 ^ 4 }
    ensures exact { result ≡ parts *ℤ pos lieu }
    ensures small { unsigned_abs result ≤ 10 ^ 13 }
{
    lieu.worth(parts)
}

// The cents for what the cut leaves, cut towards zero.
fn in_lieu(q: i64, ratio: Ratio, lieu: Price) -> i128
    requires { unsigned_abs q ≤ position_limit }
    ensures exact { result ≡ in_lieu ratio lieu q }
    ensures small { unsigned_abs result ≤ 10 ^ 13 }
{
    let (_, old) = ratio.parts();
    priced(ratio.rest(q), lieu) / i128::from(old)
}

// The cents that an exchange pays beside, for each old share.
fn in_cash(q: i64, cash: Price) -> i128
    requires { unsigned_abs q ≤ position_limit }
    ensures exact { result ≡ q *ℤ pos cash }
    ensures small { unsigned_abs result ≤ 10 ^ 19 }
{
    cash.worth(q)
}

/// What a position of `q` shares becomes in a split: the new position, and the cents in lieu of what the cut to whole
/// shares leaves (NSCC Procedure VII; the cuts are this project's profile).
///
/// Both are cut towards zero, for longs and for shorts. `lieu` is the cents for a whole new share. The position is
/// within a member's limits, 10^10 shares long or short; the new one may be beyond them.
pub fn split_of(q: i64, ratio: Ratio, lieu: Price) -> (i64, Cents)
    requires { unsigned_abs q ≤ position_limit }
    ensures shares { result.0 ≡ converted ratio q }
    ensures cents { result.1 ≡ in_lieu ratio lieu q }
    ensures few_shares { unsigned_abs result.0 ≤ 10 ^ 14 }
    ensures few_cents { unsigned_abs result.1 ≤ 10 ^ 13 }
{
    (ratio.whole(q), Cents::of(in_lieu(q, ratio, lieu)))
}

/// What a position of `q` shares becomes in an exchange: the position in the successor, and the cents in lieu of what
/// the cut to whole shares leaves, with `cash` cents for each old share (NSCC Procedure VII; the cuts are this
/// project's profile).
///
/// Shares and the cents in lieu are each cut towards zero, for longs and for shorts; a short owes the cash. The
/// position is within a member's limits, 10^10 shares long or short; the new one may be beyond them.
pub fn exchange_of(q: i64, ratio: Ratio, lieu: Price, cash: Price) -> (i64, Cents)
    requires { unsigned_abs q ≤ position_limit }
    ensures shares { result.0 ≡ converted ratio q }
    ensures cents { result.1 ≡ in_exchange ratio lieu cash q }
    ensures few_shares { unsigned_abs result.0 ≤ 10 ^ 14 }
    ensures few_cents { unsigned_abs result.1 ≤ 2 * 10 ^ 19 }
{
    (
        ratio.whole(q),
        Cents::of(in_lieu(q, ratio, lieu) + in_cash(q, cash)),
    )
}
