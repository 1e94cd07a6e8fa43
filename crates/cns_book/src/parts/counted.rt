// Look-ups whose comparisons are counted, where the positions are a tree.
ghost use Rattle.std.specs.Prelude.{◌≡◌, ◌+◌, ◌*◌, ◌≤◌, length, min};
ghost use Rattle.cns_terms.specs.Digits.{binary_digits};
ghost use Rattle.cns_book.specs.Follows.{Shows};
ghost use Rattle.cns_book.specs.Shown.{position_listed};

use crate::parts::Parts;
use cns_positions::TreePositions;
use cns_terms::{Holding, Key, Probe};
use std::alloc::Allocator;

impl<A: Allocator + Drop + Clone> Parts<TreePositions<A>, A> {
    /// How many rows the positions have, those of zeros too.
    pub fn position_rows(&self) -> usize
        ensures { result ≡ min (length self.now.rows) usize.MAX }
    {
        self.positions.len()
    }

    /// What a POSITION would show, as `position` answers, at a probe's key.
    pub fn position_counted(&self, key: Key, probe: &mut Probe) -> Option<Holding>
        requires { probe.old.0 ≡ key }
        ensures value { Shows self.now (λ J. result ≡ position_listed self.now.opening J key) }
        ensures key { probe.new.0 ≡ probe.old.0 }
        ensures count { probe.new.1 ≤ probe.old.1 + 2 * binary_digits (length self.now.rows) }
    {
        match self.position_refusal(key) {
            Some(_) => None,
            None => Some(self.positions.get_counted(probe)),
        }
    }
}
