// What a sheet keeps of a row beside its key.
ghost use Rattle.std.specs.Prelude.{◌≡◌, ◌*◌, ◌^◌, ◌≤◌, ◌+ℤ◌, ◌-ℤ◌, unsigned_abs};
ghost use Rattle.cns_terms.specs.Limits.{amount_limit};
ghost use Rattle.cns_sheets.specs.Build.{HasSmallCents, IsMarked, columns_of, full_row, marked};

use cns_terms::{Holding, Key, Row};
use cns_units::{Cents, Price};
use std::marker::Model;

/// The columns of a row that neither its key nor the rule of the mark gives. The cents booked are small enough to be
/// marked.
#[derive(Clone, Copy)]
pub struct Columns {
    opening: i64,
    closing: i64,
    opening_price: Price,
    price: Price,
    money: Cents,
    dividend: Cents,
}

impl Model for Columns {
    ghost use Rattle.std.specs.Prelude.{◌≤◌, unsigned_abs};
    ghost use Rattle.cns_terms.specs.Limits.{amount_limit};
    ghost use Rattle.cns_sheets.specs.Build.{Columns as View};

    ghost Value = { View };

    ghost view = { λ c. record {
      opening = c.opening;
      closing = c.closing;
      opening_price = c.opening_price;
      price = c.price;
      money = c.money;
      dividend = c.dividend;
    } };

    ghost invariant = { λ c. unsigned_abs c.money ≤ amount_limit };

    ghost inverse = { λ v. record {
      opening = v.opening;
      closing = v.closing;
      opening_price = v.opening_price;
      price = v.price;
      money = v.money;
      dividend = v.dividend;
    } };
}

impl Columns {
    /// Those of a holding and the cents of dividends, by its issue's price at the close before and at this one.
    #[tactic(auto, using(crate::proofs::LowestCusip::from_lowest, crate::proofs::Gained::gained))]
    pub fn new(
        key: &Key,
        holding: &Holding,
        dividend: Cents,
        opening_price: Price,
        price: Price,
    ) -> Columns
        requires { HasSmallCents (key.now, holding.now) }
        ensures columns { result ≡ columns_of opening_price price dividend holding.entry.now }
        ensures marked { IsMarked (full_row (key.now, result)) }
    {
        // The calls let the proof use what the types keep: an issue is a CUSIP, accounts and prices have their limits.
        let _ = key.issue.bytes();
        let _ = key.account.value();
        let _ = opening_price.value();
        let _ = price.value();
        Columns {
            opening: holding.opening,
            closing: holding.now,
            opening_price,
            price,
            money: holding.contract,
            dividend,
        }
    }

    /// The row that they make at a key. The mark follows its rule (NSCC Procedure VII; the rule is this project's profile).
    pub fn row(&self, key: &Key) -> Row
        ensures { result ≡ full_row (key.now, self.now) }
    {
        let mark = marked(
            self.opening,
            self.closing,
            self.opening_price,
            self.price,
            self.money.value(),
        );
        Row {
            account: key.account,
            issue: key.issue,
            opening: self.opening,
            closing: self.closing,
            opening_price: self.opening_price,
            price: self.price,
            money: self.money,
            mark: Cents::of(mark),
            dividend: self.dividend,
        }
    }
}

// The mark of a day: what a position is worth now, less what it was worth at the close before, and the cents booked.
fn marked(opening: i64, closing: i64, opening_price: Price, price: Price, money: i128) -> i128
    requires { unsigned_abs money ≤ amount_limit }
    ensures exact { result ≡ marked opening closing opening_price price money }
    ensures small { unsigned_abs result ≤ 2 * amount_limit }
{
    let gained = less(price.worth(closing), opening_price.worth(opening));
    plus(gained, money)
}

// One amount less another.
fn less(now: i128, then: i128) -> i128
    requires now { unsigned_abs now ≤ 2 ^ 63 * 10 ^ 9 }
    requires then { unsigned_abs then ≤ 2 ^ 63 * 10 ^ 9 }
    ensures exact { result ≡ now -ℤ then }
    ensures small { unsigned_abs result ≤ 2 ^ 64 * 10 ^ 9 }
{
    now - then
}

// An amount and the cents booked.
fn plus(amount: i128, money: i128) -> i128
    requires amount { unsigned_abs amount ≤ 2 ^ 64 * 10 ^ 9 }
    requires money { unsigned_abs money ≤ amount_limit }
    ensures exact { result ≡ amount +ℤ money }
    ensures small { unsigned_abs result ≤ 2 * amount_limit }
{
    amount + money
}
