// A row of a closed day.
ghost use Rattle.std.specs.Prelude.{◌≡◌, ◌↔◌, true};
ghost use Rattle.cns_terms.specs.Keys.{row_key};

use crate::holding::Key;
use cns_units::{Account, Cents, Cusip, Price};

/// An account's row in an issue on a closed day's sheet.
#[derive(Clone, Copy, PartialEq, Eq)]
pub struct Row {
    pub account: Account,
    pub issue: Cusip,
    /// The position at the close before, in shares.
    pub opening: i64,
    /// The position at this close, in shares.
    pub closing: i64,
    /// The issue's price at the close before, in cents; 0 where it was not listed.
    pub opening_price: Price,
    /// The issue's price at this close, in cents.
    pub price: Price,
    /// The cents booked on the day.
    pub money: Cents,
    /// The day's mark, in cents: what the position is worth now, less what it was worth at the close before, and
    /// the cents booked (NSCC Procedure VII marks open positions to the market).
    pub mark: Cents,
    /// The dividends booked on the day, in cents.
    pub dividend: Cents,
}

impl Row {
    /// Its place, in the order of rows.
    pub fn key(&self) -> Key
        ensures { result ≡ row_key self.now }
    {
        Key {
            account: self.account,
            issue: self.issue,
        }
    }

    /// Whether both are the same value.
    pub fn is_same(&self, other: &Row) -> bool
        ensures { (result ≡ true) ↔ (self.now ≡ other.now) }
    {
        self.account == other.account
            && self.issue.is_same(&other.issue)
            && self.opening == other.opening
            && self.closing == other.closing
            && self.opening_price == other.opening_price
            && self.price == other.price
            && self.money == other.money
            && self.mark == other.mark
            && self.dividend == other.dividend
    }
}
