// The shares of a command.
ghost use Rattle.std.specs.Prelude.{◌≡◌, ◌^◌, ◌≤◌};
ghost use Rattle.cns_units.specs.Ranges.{within};

use crate::fault::UnitFault;
use std::marker::Model;

const MOST: u64 = 1_000_000_000;

/// The shares of one command: whole, from 1 to 1,000,000,000 (this project's profile).
#[derive(Clone, Copy, PartialEq, Eq)]
pub struct Shares {
    count: u32,
}

impl Model for Shares {
    ghost use Rattle.std.specs.Prelude.{ℕ, ◌≤◌, ◌^◌};

    ghost Value = { ℕ };

    ghost view = { λ s. s.count };

    ghost invariant = { λ s. (1 ≤ s.count) × (s.count ≤ 10 ^ 9) };

    ghost inverse = { λ n. record { count = n } };
}

impl Shares {
    /// That many shares. `OutOfRange` where there are none or more than 1,000,000,000.
    pub fn new(count: u64) -> Result<Shares, UnitFault>
        ensures { result ≡ within 1 (10 ^ 9) count }
    {
        if count < 1 {
            return Err(UnitFault::OutOfRange);
        }
        if count > MOST {
            return Err(UnitFault::OutOfRange);
        }
        Ok(Shares {
            count: count as u32,
        })
    }

    /// The number of shares.
    pub fn value(self) -> u64
        ensures value { result ≡ self }
        ensures range { (1 ≤ self) × (self ≤ 10 ^ 9) }
    {
        u64::from(self.count)
    }
}
