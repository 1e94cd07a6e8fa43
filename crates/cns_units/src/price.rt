// Prices.
ghost use Rattle.std.specs.Prelude.{◌≡◌, ◌^◌, ◌≤◌, ◌*◌, ◌*ℤ◌, pos, unsigned_abs};
ghost use Rattle.cns_units.specs.Ranges.{within};

use crate::fault::UnitFault;
use std::marker::Model;

const MOST: u64 = 1_000_000_000;

/// The price of one share, in whole cents from 0 to 1,000,000,000 (this project's profile).
#[derive(Clone, Copy, PartialEq, Eq)]
pub struct Price {
    cents: u32,
}

impl Model for Price {
    ghost use Rattle.std.specs.Prelude.{ℕ, ◌≤◌, ◌^◌};

    ghost Value = { ℕ };

    ghost view = { λ p. p.cents };

    ghost invariant = { λ p. p.cents ≤ 10 ^ 9 };

    ghost inverse = { λ n. record { cents = n } };
}

impl Price {
    /// A price of no cents.
    pub const ZERO: Price = Price { cents: 0 };

    /// A price of that many cents. `OutOfRange` above 1,000,000,000.
    pub fn new(cents: u64) -> Result<Price, UnitFault>
        ensures { result ≡ within 0 (10 ^ 9) cents }
    {
        if cents > MOST {
            return Err(UnitFault::OutOfRange);
        }
        Ok(Price {
            cents: cents as u32,
        })
    }

    /// The price in cents.
    pub fn value(self) -> u64
        ensures value { result ≡ self }
        ensures range { self ≤ 10 ^ 9 }
    {
        u64::from(self.cents)
    }

    /// What that many shares are worth at the price, in cents: below 0 for a short position.
    pub fn worth(self, shares: i64) -> i128
        ensures exact { result ≡ shares *ℤ pos self }
        ensures small { unsigned_abs result ≤ 2 ^ 63 * 10 ^ 9 }
    {
        i128::from(shares) * i128::from(self.cents)
    }
}
