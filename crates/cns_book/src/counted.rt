// Look-ups whose comparisons are counted, of a book over the tree of positions.
ghost use Rattle.std.specs.Prelude.{◌≡◌, ◌+◌, ◌*◌, ◌≤◌, length, min};
ghost use Rattle.cns_terms.specs.Digits.{binary_digits};
ghost use Rattle.cns_book.specs.Log.{state_of};
ghost use Rattle.cns_book.specs.Shown.{position_shown};

use crate::book::Book;
use cns_positions::TreePositions;
use cns_terms::{Holding, Key, Probe};
use cns_units::{Account, Cusip};
use std::alloc::Allocator;

impl<A: Allocator + Drop + Clone> Book<TreePositions<A>, A> {
    /// How many rows the positions have; past `usize::MAX`, which no memory holds, that number. Rows of zeros count too: a
    /// command that ran out of memory may leave some, so this alone may differ where all answers agree.
    pub fn position_rows(&self) -> usize
        ensures { result ≡ min (length self.now.rows) usize.MAX }
    {
        self.parts.position_rows()
    }

    /// What stands at an account's place in an issue, as `position` answers, after at most two comparisons for each binary
    /// digit of the number of rows. The probe is of that place.
    pub fn position_counted(
        &self,
        account: Account,
        cusip: Cusip,
        probe: &mut Probe,
    ) -> Option<Holding>
        requires { probe.old.0 ≡ record { account = account; issue = cusip } }
        ensures value { result ≡ position_shown (state_of self.now.log) (record { account = account; issue = cusip }) }
        ensures key { probe.new.0 ≡ probe.old.0 }
        ensures count { probe.new.1 ≤ probe.old.1 + 2 * binary_digits (length self.now.rows) }
    {
        self.parts.position_counted(
            Key {
                account,
                issue: cusip,
            },
            probe,
        )
    }
}
