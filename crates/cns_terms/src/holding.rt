// What stands at an account's place in an issue, and what is booked there.
ghost use Rattle.std.specs.Prelude.{◌≡◌, ◌↔◌, true, ◌+◌, ◌*◌, ◌^◌, ◌<◌, take};
ghost use Rattle.std.specs.Int.{w64, from_be_bytes};
ghost use Rattle.std.specs.Ordering.{as_partial_cmp};
ghost use Rattle.std.specs.Cmp.{partial_order_from_own_ties};
ghost use Rattle.std.specs.Cmp.Rules.{comparing};
ghost use Rattle.std.proofs.Common.{rules};
ghost use Rattle.cns_units.specs.Cusip.{IsCusip};
ghost use Rattle.cns_terms.specs.Holdings.{oldest_of};
ghost use Rattle.cns_terms.specs.Keys.{entry_key, key_cmp};
ghost use Rattle.cns_terms.specs.Sums.{long};

use cns_units::{Account, Cents, Cusip};
use std::cmp::Ordering;

/// An account's place in an issue. Keys are in the order of accounts, and then of the bytes of the CUSIP.
#[derive(Clone, Copy, PartialEq, Eq)]
pub struct Key {
    pub account: Account,
    pub issue: Cusip,
}

impl Key {
    // The account and the issue as one number, in whose order keys are: a map compares keys all the way down.
    fn number(&self) -> u128
        ensures exact { result ≡ self.now.account * 2 ^ 64 + from_be_bytes w64 (take 8 self.now.issue) }
        ensures valid { IsCusip self.now.issue }
        ensures small { from_be_bytes w64 (take 8 self.now.issue) < 2 ^ 64 }
    {
        u128::from(self.account.value()) * (1 << 64) + u128::from(self.issue.body())
    }

    /// Whether both are the same value.
    pub fn is_same(&self, other: &Key) -> bool
        ensures { (result ≡ true) ↔ (self.now ≡ other.now) }
    {
        self.account == other.account && self.issue.is_same(&other.issue)
    }
}

impl Ord for Key {
    ghost cmp = { key_cmp };

    ghost total = { Prim.search (comparing, rules) };

    ghost matches_partial_cmp = { Prim.search (comparing, rules) };

    ghost matches_eq = { Prim.search (comparing, rules) };

    fn cmp(&self, other: &Key) -> Ordering {
        self.number().cmp(&other.number())
    }
}

impl PartialOrd for Key {
    ghost partial_cmp = { as_partial_cmp key_cmp };

    ghost laws = { partial_order_from_own_ties (Prim.search (comparing, rules))
        (Prim.search (comparing, rules)) };

    fn partial_cmp(&self, other: &Key) -> Option<Ordering> {
        Some(self.cmp(other))
    }
}

/// How many shares a member may be long or short in an issue (this project's profile).
pub const POSITION_LIMIT: i64 = 10_000_000_000;

/// How many shares a position is long: those above 0, and none of a short.
pub fn long(position: i64) -> u64
    ensures { result ≡ long position }
{
    if position > 0 { position as u64 } else { 0 }
}

/// What stands at a key. A key without a holding counts as zeros.
#[derive(Clone, Copy, PartialEq, Eq)]
pub struct Holding {
    /// The position in shares: above 0 it is due from the corporation, below 0 to it (NSCC Rule 11).
    pub now: i64,
    /// The position at the last close, in shares.
    pub opening: i64,
    /// The cents booked on the open day: since the last close, and by it for trades that were due.
    pub contract: Cents,
    /// The age of a short: at how many closes in a row, up to the last, the position was below 0, there or in an issue that
    /// was exchanged for this one.
    pub run: u32,
    /// The greatest age that the exchanges of the open day brought. The next close counts on from it where it is greater
    /// than the age.
    pub carried: u32,
}

impl Holding {
    /// What stands where nothing was ever booked.
    pub const ZEROS: Holding = Holding {
        now: 0,
        opening: 0,
        contract: Cents::ZERO,
        run: 0,
        carried: 0,
    };

    /// The age to which the next close adds itself, where the position is below 0 then: the greater of the age at the last
    /// close and of what exchanges brought since (this project's profile).
    pub fn oldest(&self) -> u32
        ensures { result ≡ oldest_of self.entry.now }
    {
        self.run.max(self.carried)
    }
}

/// Shares and cents that an activity books for an account in an issue.
#[derive(Clone, Copy)]
pub struct Entry {
    pub account: Account,
    pub issue: Cusip,
    /// Whole shares, to the account where positive.
    pub shares: i64,
    /// Cents, to the account where positive.
    pub cents: i128,
}

impl Entry {
    /// Where it is booked.
    pub fn key(&self) -> Key
        ensures { result ≡ entry_key self.now }
    {
        Key {
            account: self.account,
            issue: self.issue,
        }
    }
}
