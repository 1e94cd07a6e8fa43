// Ratios of splits and exchanges.
ghost use Rattle.std.specs.Prelude.{◌≡◌, ◌^◌, ◌≤◌, ◌*ℤ◌, ◌-ℤ◌, int_div, pos, unsigned_abs};
ghost use Rattle.cns_units.specs.Ranges.{is_part, ratio_of};

use crate::fault::UnitFault;
use std::marker::Model;

const MOST: u16 = 10_000;

/// How many new shares stand for how many old ones, each from 1 to 10,000 (this project's profile). A ratio is kept as
/// it is written: 2 for 4 is not 1 for 2.
#[derive(Clone, Copy, PartialEq, Eq)]
pub struct Ratio {
    new: u16,
    old: u16,
}

impl Model for Ratio {
    ghost use Rattle.std.specs.Prelude.{◌≤◌, ◌^◌};
    ghost use Rattle.cns_units.specs.Ranges.{NewForOld};

    ghost Value = { NewForOld };

    ghost view = { λ r. record { new = r.new; old = r.old } };

    ghost invariant = { λ r. (1 ≤ r.new) × (r.new ≤ 10 ^ 4) × (1 ≤ r.old) × (r.old ≤ 10 ^ 4) };

    ghost inverse = { λ n. record { new = n.new; old = n.old } };
}

// Whether a ratio can have so many shares on one of its sides.
fn is_part(count: u16) -> bool
    ensures { result ≡ is_part count }
{
    count >= 1 && count <= MOST
}

impl Ratio {
    /// That many new shares for that many old ones. `OutOfRange` where either number is 0 or above 10,000.
    pub fn new(new: u16, old: u16) -> Result<Ratio, UnitFault>
        ensures { result ≡ ratio_of new old }
    {
        if !is_part(new) {
            return Err(UnitFault::OutOfRange);
        }
        if !is_part(old) {
            return Err(UnitFault::OutOfRange);
        }
        Ok(Ratio { new, old })
    }

    /// The new shares, and the old ones for which they stand.
    pub fn parts(self) -> (u16, u16)
        ensures new { result.0 ≡ self.new }
        ensures old { result.1 ≡ self.old }
        ensures new_range { (1 ≤ self.new) × (self.new ≤ 10 ^ 4) }
        ensures old_range { (1 ≤ self.old) × (self.old ≤ 10 ^ 4) }
    {
        (self.new, self.old)
    }
    // Old shares times the new ones.
    fn multiplied(self, shares: i64) -> i64
        requires { unsigned_abs shares ≤ 10 ^ 10 }
        ensures exact { result ≡ shares *ℤ pos self.new }
        ensures small { unsigned_abs result ≤ 10 ^ 14 }
    {
        shares * i64::from(self.new)
    }

    /// The whole new shares for up to 10^10 old ones, long or short, cut towards zero (this project's profile).
    pub fn whole(self, shares: i64) -> i64
        requires { unsigned_abs shares ≤ 10 ^ 10 }
        ensures exact { result ≡ int_div (shares *ℤ pos self.new) (pos self.old) }
        ensures small { unsigned_abs result ≤ 10 ^ 14 }
    {
        self.multiplied(shares) / i64::from(self.old)
    }

    /// What that cut leaves, in parts of a new share, of which one has as many as the ratio has old shares.
    #[tactic(auto, using(std::proofs::lemmas::Int::rem_is, crate::proofs::Quotients::rest_of))]
    pub fn rest(self, shares: i64) -> i64
        requires { unsigned_abs shares ≤ 10 ^ 10 }
        ensures exact { result
            ≡ (shares *ℤ pos self.new) -ℤ (int_div (shares *ℤ pos self.new) (pos self.old) *ℤ pos self.old) }
        ensures small { unsigned_abs result ≤ 10 ^ 4 }
    {
        self.multiplied(shares) % i64::from(self.old)
    }
}
