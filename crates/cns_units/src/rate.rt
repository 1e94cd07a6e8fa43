// Rates of dividends.
ghost use Rattle.std.specs.Prelude.{◌≡◌, ◌^◌, ◌≤◌};
ghost use Rattle.cns_units.specs.Ranges.{within};

use crate::fault::UnitFault;
use std::marker::Model;

const MOST: u64 = 100_000_000_000;

/// What a dividend pays for one share, in millionths of a dollar from 1 to 10^11 (this project's profile).
#[derive(Clone, Copy, PartialEq, Eq)]
pub struct Rate {
    millionths: u64,
}

impl Model for Rate {
    ghost use Rattle.std.specs.Prelude.{ℕ, ◌≤◌, ◌^◌};

    ghost Value = { ℕ };

    ghost view = { λ r. r.millionths };

    ghost invariant = { λ r. (1 ≤ r.millionths) × (r.millionths ≤ 10 ^ 11) };

    ghost inverse = { λ n. record { millionths = n } };
}

impl Rate {
    /// A rate of that many millionths of a dollar. `OutOfRange` at 0 and above 10^11.
    pub fn new(millionths: u64) -> Result<Rate, UnitFault>
        ensures { result ≡ within 1 (10 ^ 11) millionths }
    {
        if millionths < 1 {
            return Err(UnitFault::OutOfRange);
        }
        if millionths > MOST {
            return Err(UnitFault::OutOfRange);
        }
        Ok(Rate { millionths })
    }

    /// The rate in millionths of a dollar.
    pub fn value(self) -> u64
        ensures value { result ≡ self }
        ensures range { (1 ≤ self) × (self ≤ 10 ^ 11) }
    {
        self.millionths
    }
}
