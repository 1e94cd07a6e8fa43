// What members are to get and to give by trades that wait, added up by member and issue.
ghost use Rattle.std.specs.Prelude.{◌≡◌, ◌≤◌, ◌+◌, ◌<◌, ◌^◌, ◌↔◌, if◌then◌else◌, false, true, OnOk};
ghost use Rattle.std.specs.Ordering.{is_eq};
ghost use Rattle.cns_terms.specs.declared.holding.Key.{Key};
ghost use Rattle.cns_terms.specs.Keys.{key_cmp};
ghost use Rattle.cns_trades.specs.Sides.{has_sides, less, more, no_sides, sides_at};

use cns_terms::{Key, NoMemory};
use std::alloc::Allocator;
use std::collections::BTreeMap;
use std::marker::Model;

/// Shares on either side: what a member is to get in an issue, and what it is to give.
#[derive(Clone, Copy, PartialEq, Eq)]
pub struct Sides {
    pub bought: u128,
    pub sold: u128,
}

impl Sides {
    /// Nothing on either side.
    pub const NONE: Sides = Sides { bought: 0, sold: 0 };

    // Both together.
    fn more(&self, other: &Sides) -> Sides
        requires bought { self.now.bought + other.now.bought < 2 ^ 128 }
        requires sold { self.now.sold + other.now.sold < 2 ^ 128 }
        ensures { result ≡ more self.now other.now }
    {
        Sides {
            bought: self.bought + other.bought,
            sold: self.sold + other.sold,
        }
    }

    // What is left without the other.
    fn less(&self, other: &Sides) -> Sides
        requires bought { other.now.bought ≤ self.now.bought }
        requires sold { other.now.sold ≤ self.now.sold }
        ensures { result ≡ less self.now other.now }
    {
        Sides {
            bought: self.bought - other.bought,
            sold: self.sold - other.sold,
        }
    }

    // Whether there is nothing on either side.
    fn is_none(&self) -> bool
        ensures { (result ≡ true) ↔ (self.now ≡ no_sides) }
    {
        self.bought == 0 && self.sold == 0
    }
}

/// Sums of sides by member and issue. Contracts see the list of them.
#[derive(Drop)]
pub(crate) struct SideSums<A: Allocator + Drop> {
    sums: BTreeMap<Key, Sides, A>,
}

impl<A: Allocator + Drop> Model for SideSums<A> {
    ghost use Rattle.cns_trades.specs.Sides.{SidesByKey};

    ghost Value = { SidesByKey };

    ghost view = { λ s. s.sums.entries };
}

impl<A: Allocator + Drop> SideSums<A> {
    /// Nothing is added up yet. It takes no memory.
    pub fn new(alloc: A) -> Self
        ensures { (k : Key) → sides_at result k ≡ no_sides }
    {
        SideSums {
            sums: BTreeMap::new(alloc),
        }
    }

    /// The sums at a key.
    pub fn at(&self, key: Key) -> Sides
        ensures { result ≡ sides_at self.now key }
    {
        self.sums.get(&key).copied().unwrap_or(Sides::NONE)
    }

    /// Makes room for the sums at a key, so that `add` takes no memory there. `NoMemory` where the allocation failed.
    pub fn open(&mut self, key: Key) -> Result<(), NoMemory>
    where
        A: Clone,
        ensures same { (k : Key) → sides_at self.new k ≡ sides_at self.old k }
        ensures open { OnOk result (has_sides self.new key ≡ true) }
        ensures others { (k : Key) → has_sides self.old k ≡ true → has_sides self.new k ≡ true }
    {
        if self.sums.contains_key(&key) {
            return Ok(());
        }
        self.sums.insert(key, Sides::NONE)?;
        Ok(())
    }

    /// Adds to the sums at a key for which there is room.
    pub fn add(&mut self, key: Key, other: &Sides)
        requires there { has_sides self.old key ≡ true }
        requires bought { (sides_at self.old key).bought + other.now.bought < 2 ^ 128 }
        requires sold { (sides_at self.old key).sold + other.now.sold < 2 ^ 128 }
        ensures sums { (k : Key) → sides_at self.new k
            ≡ (if is_eq (key_cmp key k) then more (sides_at self.old k) other.now else sides_at self.old k) }
        ensures others { (k : Key) → has_sides self.old k ≡ true → has_sides self.new k ≡ true }
    {
        let Some(sides) = self.sums.get_mut(&key) else {
            return;
        };
        *sides = sides.more(other);
    }

    /// Takes from the sums at a key. Where nothing is left the key is given up.
    #[tactic(auto, using(crate::proofs::Summed::less_itself))]
    pub fn take(&mut self, key: Key, other: &Sides)
        requires bought { other.now.bought ≤ (sides_at self.old key).bought }
        requires sold { other.now.sold ≤ (sides_at self.old key).sold }
        ensures sums { (k : Key) → sides_at self.new k
            ≡ (if is_eq (key_cmp key k) then less (sides_at self.old k) other.now else sides_at self.old k) }
        ensures none { sides_at self.old key ≡ other.now → has_sides self.new key ≡ false }
    {
        let left = self.at(key).less(other);
        if left.is_none() {
            let _ = self.sums.remove(&key);
            return;
        }
        let Some(sides) = self.sums.get_mut(&key) else {
            return;
        };
        *sides = left;
    }
}
