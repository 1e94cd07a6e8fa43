// Who hands in commands.
ghost use Rattle.std.specs.Prelude.{◌≡◌, ◌≤◌};
ghost use Rattle.cns_units.specs.Ranges.{within};

use cns_units::UnitFault;
use std::marker::Model;

/// A worker, 1 to 64. Each worker's commands are numbered on their own.
#[derive(Clone, Copy, PartialEq, Eq)]
pub struct Worker {
    number: u8,
}

impl Model for Worker {
    ghost use Rattle.std.specs.Prelude.{ℕ, ◌≤◌};

    ghost Value = { ℕ };

    ghost view = { λ w. w.number };

    ghost invariant = { λ w. (1 ≤ w.number) × (w.number ≤ 64) };

    ghost inverse = { λ n. record { number = n } };
}

impl Worker {
    /// The first worker, under which a replay takes its commands.
    pub const FIRST: Worker = Worker { number: 1 };

    /// The worker with that number. `OutOfRange` at 0 and above 64.
    pub fn new(number: u8) -> Result<Worker, UnitFault>
        ensures { result ≡ within 1 64 number }
    {
        if number < 1 {
            return Err(UnitFault::OutOfRange);
        }
        if number > 64 {
            return Err(UnitFault::OutOfRange);
        }
        Ok(Worker { number })
    }

    /// The worker's number.
    pub fn value(self) -> u8
        ensures value { result ≡ self }
        ensures range { (1 ≤ self) × (self ≤ 64) }
    {
        self.number
    }
}
