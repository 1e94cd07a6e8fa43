// The references that accepted trades used.
ghost use Rattle.std.specs.Prelude.{◌≡◌, ℕ, ◌||◌, ◌==◌, ◌<◌, OnOk, OnErr, false};
ghost use Rattle.cns_trades.specs.Used.{bits_in, has_bit, is_used};

use cns_terms::NoMemory;
use std::alloc::Allocator;
use std::collections::BTreeMap;
use std::marker::Model;

// References on a page: one for each bit.
const PAGE: u64 = 64;

/// A set of references.
///
/// Feeds mostly count their references up, so they are kept as a page of bits for each 64 numbers, and the page that
/// was written last stands beside the others: most trades then look no further.
#[derive(Drop)]
pub struct References<A: Allocator + Drop> {
    page: u64,
    bits: u64,
    others: BTreeMap<u64, u64, A>,
}

impl<A: Allocator + Drop> Model for References<A> {
    ghost use Rattle.cns_trades.specs.Used.{Used};

    ghost Value = { Used };

    ghost view = { λ s. record { page = s.page; bits = s.bits; others = s.others.entries } };
}

// Whether a page of bits has the one at a place.
fn has_bit(bits: u64, place: u64) -> bool
    requires { place < 64 }
    ensures { result ≡ has_bit bits place }
{
    (bits >> place) & 1 == 1
}

// A page of bits with the one at a place.
#[tactic(auto, using(crate::proofs::Pages::bit_more))]
fn with_bit(bits: u64, place: u64) -> u64
    requires { place < 64 }
    ensures { (k : ℕ) → has_bit result k ≡ ((place == k) || has_bit bits k) }
{
    bits | 1 << place
}

impl<A: Allocator + Drop> References<A> {
    /// No reference was used yet.
    #[tactic(auto, unfolding(crate::specs::Used::is_used))]
    pub fn new(alloc: A) -> Self
        ensures { (r : ℕ) → is_used result r ≡ false }
    {
        References {
            page: 0,
            bits: 0,
            others: BTreeMap::new(alloc),
        }
    }

    // The bits of a page.
    fn bits_of(&self, page: u64) -> u64
        ensures { result ≡ bits_in self.now page }
    {
        if page == self.page {
            return self.bits;
        }
        match self.others.get(&page) {
            Some(bits) => *bits,
            None => 0,
        }
    }

    /// Whether the reference was used.
    #[tactic(auto, unfolding(crate::specs::Used::is_used))]
    pub fn contains(&self, reference: u64) -> bool
        ensures { result ≡ is_used self.now reference }
    {
        has_bit(self.bits_of(reference / PAGE), reference % PAGE)
    }

    // Puts the page that was written last among the others, and takes another in its place.
    fn turn_to(&mut self, page: u64) -> Result<(), NoMemory>
    where
        A: Clone,
        ensures page { OnOk result (self.new.page ≡ page) }
        ensures same { OnOk result ((p : ℕ) → bits_in self.new p ≡ bits_in self.old p) }
        ensures err { OnErr result (self.new ≡ self.old) }
    {
        if page == self.page {
            return Ok(());
        }
        let bits = self.bits_of(page);
        self.others.insert(self.page, self.bits)?;
        self.page = page;
        self.bits = bits;
        Ok(())
    }

    /// Uses a reference. Where memory is refused the set stays as it was.
    #[tactic(auto, unfolding(crate::specs::Used::is_used))]
    pub fn insert(&mut self, reference: u64) -> Result<(), NoMemory>
    where
        A: Clone,
        ensures ok { OnOk result ((r : ℕ) → is_used self.new r ≡ ((reference == r) || is_used self.old r)) }
        ensures err { OnErr result (self.new ≡ self.old) }
    {
        self.turn_to(reference / PAGE)?;
        self.bits = with_bit(self.bits, reference % PAGE);
        Ok(())
    }
}
