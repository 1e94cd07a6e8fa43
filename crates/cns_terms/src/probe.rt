// Keys that are looked up under a count.
ghost use Rattle.std.specs.Prelude.{◌≡◌, ◌+◌, min};
ghost use Rattle.cns_terms.specs.Keys.{key_cmp};

use crate::holding::Key;
use std::cmp::Ordering;
use std::marker::Model;

/// A key to look up, and how often it was compared. Contracts see the key and the count.
///
/// No call gives the key back, and a probe is neither copied nor compared itself: who is handed one learns where its key
/// stands by `compare` alone, which counts.
#[derive(Drop)]
pub struct Probe {
    key: Key,
    count: u64,
}

impl Model for Probe {
    ghost use Rattle.std.specs.Prelude.{ℕ};
    ghost use Rattle.cns_terms.specs.declared.holding.Key.{Key};

    ghost Value = { Key × ℕ };

    ghost view = { λ p. (p.key, p.count) };
}

impl Probe {
    /// A probe of the key, which was not compared yet.
    pub fn new(key: Key) -> Probe
        ensures { result ≡ (key, 0) }
    {
        Probe { key, count: 0 }
    }

    /// How the key stands to another. Adds one to the count, which stays at `u64::MAX` once it is there.
    pub fn compare(&mut self, other: &Key) -> Ordering
        ensures order { result ≡ key_cmp self.old.0 other.now }
        ensures key { self.new.0 ≡ self.old.0 }
        ensures count { self.new.1 ≡ min (self.old.1 + 1) u64.MAX }
    {
        self.count = self.count.saturating_add(1);
        self.key.cmp(other)
    }

    /// How often the key was compared.
    pub fn count(&self) -> u64
        ensures { result ≡ self.now.1 }
    {
        self.count
    }
}
