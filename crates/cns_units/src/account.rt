// Accounts of the book: the corporation's and the members'.
ghost use Rattle.std.specs.Prelude.{◌≡◌, ◌≤◌};
ghost use Rattle.cns_units.specs.Ranges.{within};

use crate::fault::UnitFault;
use std::marker::Model;

const LAST: u16 = 9999;

/// An account, 0 to 9999. Account 0 is the clearing corporation's (this project's profile; the corporation stands
/// between buyer and seller by NSCC Rule 11).
#[derive(Clone, Copy, PartialEq, Eq)]
pub struct Account {
    number: u16,
}

impl Model for Account {
    ghost use Rattle.std.specs.Prelude.{ℕ, ◌≤◌};

    ghost Value = { ℕ };

    ghost view = { λ a. a.number };

    ghost invariant = { λ a. a.number ≤ 9999 };

    ghost inverse = { λ n. record { number = n } };
}

impl Account {
    /// The corporation's account.
    pub const CORPORATION: Account = Account { number: 0 };

    /// The account with that number. `OutOfRange` above 9999.
    pub fn new(number: u16) -> Result<Account, UnitFault>
        ensures { result ≡ within 0 9999 number }
    {
        if number > LAST {
            return Err(UnitFault::OutOfRange);
        }
        Ok(Account { number })
    }

    /// The account's number.
    pub fn value(self) -> u16
        ensures value { result ≡ self }
        ensures range { self ≤ 9999 }
    {
        self.number
    }
}

/// A member's number, 1 to 9999, which is that of its account.
#[derive(Clone, Copy, PartialEq, Eq, PartialOrd, Ord)]
pub struct Member {
    number: u16,
}

impl Model for Member {
    ghost use Rattle.std.specs.Prelude.{ℕ, ◌≤◌};

    ghost Value = { ℕ };

    ghost view = { λ m. m.number };

    ghost invariant = { λ m. (1 ≤ m.number) × (m.number ≤ 9999) };

    ghost inverse = { λ n. record { number = n } };
}

impl Member {
    /// The member with that number. `OutOfRange` at 0, which is the corporation's, and above 9999.
    pub fn new(number: u16) -> Result<Member, UnitFault>
        ensures { result ≡ within 1 9999 number }
    {
        if number < 1 {
            return Err(UnitFault::OutOfRange);
        }
        if number > LAST {
            return Err(UnitFault::OutOfRange);
        }
        Ok(Member { number })
    }

    /// The member's number.
    pub fn value(self) -> u16
        ensures value { result ≡ self }
        ensures range { (1 ≤ self) × (self ≤ 9999) }
    {
        self.number
    }

    /// The member's account.
    pub fn account(self) -> Account
        ensures value { result ≡ self }
        ensures range { (1 ≤ self) × (self ≤ 9999) }
    {
        Account {
            number: self.number,
        }
    }
}
