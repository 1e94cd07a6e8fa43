// Corporate actions: dividends, splits and exchanges.
ghost use Rattle.std.specs.Prelude.{◌≡◌, ◌↔◌, true};

use cns_units::{Cusip, Day, Price, Rate, Ratio};

/// A declared dividend. Who holds shares at the close of the record date is paid at the first close on or after the
/// payable date (NSCC Procedure VII credits dividends to longs and charges them to shorts).
#[derive(Clone, Copy)]
pub struct Declared {
    pub issue: Cusip,
    /// The record date.
    pub recorded: Day,
    /// The payable date.
    pub payable: Day,
    /// Millionths of a dollar for each share.
    pub rate: Rate,
}

/// A split: so many new shares for so many old ones, and cash in lieu of what is less than a share (NSCC Procedure VII).
#[derive(Clone, Copy)]
pub struct Split {
    pub issue: Cusip,
    pub ratio: Ratio,
    /// Cents for a whole new share; a fraction gets its part.
    pub lieu: Price,
}

/// An exchange of an issue for its successor, after which the old issue is retired (NSCC Procedure VII).
#[derive(Clone, Copy)]
pub struct Exchange {
    pub old: Cusip,
    pub successor: Cusip,
    pub ratio: Ratio,
    /// Cents for a whole share of the successor; a fraction gets its part.
    pub lieu: Price,
    /// Cents that are paid for each old share beside.
    pub cash: Price,
}

impl Declared {
    /// Whether both are the same value.
    pub fn is_same(&self, other: &Declared) -> bool
        ensures { (result ≡ true) ↔ (self.now ≡ other.now) }
    {
        self.issue.is_same(&other.issue)
            && self.recorded.is_same(&other.recorded)
            && self.payable.is_same(&other.payable)
            && self.rate == other.rate
    }
}

impl Split {
    /// Whether both are the same value.
    pub fn is_same(&self, other: &Split) -> bool
        ensures { (result ≡ true) ↔ (self.now ≡ other.now) }
    {
        self.issue.is_same(&other.issue) && self.ratio == other.ratio && self.lieu == other.lieu
    }
}

impl Exchange {
    /// Whether both are the same value.
    pub fn is_same(&self, other: &Exchange) -> bool
        ensures { (result ≡ true) ↔ (self.now ≡ other.now) }
    {
        self.old.is_same(&other.old)
            && self.successor.is_same(&other.successor)
            && self.ratio == other.ratio
            && self.lieu == other.lieu
            && self.cash == other.cash
    }
}
