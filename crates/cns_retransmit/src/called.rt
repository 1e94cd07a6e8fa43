// What is called in one issue.
ghost use Rattle.std.specs.Prelude.{◌≡◌, [], ◌∷◌, ◌+◌, ◌^◌, ◌<◌, IfOk, OnErr, OnOk};
ghost use Rattle.std.specs.Option.{option_to_list};
ghost use Rattle.cns_retransmit.specs.Calls.{batches_of, CanBeChosen, with_shares, with_short};

use crate::Batch;
use cns_terms::{NoMemory, Short};
use cns_units::Cusip;
use std::alloc::Allocator;
use std::marker::Model;

/// The shares that are called in an issue, and the members that are short there.
#[derive(Drop)]
pub(crate) struct Called<A: Allocator + Drop> {
    total: u64,
    shorts: Vec<Short, A>,
}

impl<A: Allocator + Drop> Model for Called<A> {
    ghost use Rattle.cns_retransmit.specs.Calls.{CalledIn};

    ghost Value = { CalledIn };

    ghost view = { λ c. record { total = c.total; shorts = c.shorts.items } };
}

impl<A: Allocator + Drop> Called<A> {
    /// So many shares are called, and nobody is short yet. It takes no memory.
    pub(crate) fn new(alloc: A, total: u64) -> Self
        ensures { result ≡ record { total = total; shorts = [] } }
    {
        Called {
            total,
            shorts: Vec::new(alloc),
        }
    }

    /// Calls more shares.
    pub(crate) fn add(&mut self, shares: u64)
        requires { self.old.total + shares < 2 ^ 64 }
        ensures { self.new ≡ with_shares shares self.old }
    {
        self.total += shares;
    }

    /// Adds a short after the others. Where memory is refused they stay as they were.
    pub(crate) fn push(&mut self, short: Short) -> Result<(), NoMemory>
        ensures ok { OnOk result (self.new ≡ with_short short self.old) }
        ensures err { OnErr result (self.new ≡ self.old) }
    {
        self.shorts.push(short)?;
        Ok(())
    }
}

impl<A: Allocator + Drop + Clone> Called<A> {
    /// Chooses who is liable.
    pub(crate) fn choose(&self, alloc: A, issue: Cusip) -> Result<Option<Batch<A>>, NoMemory>
        requires { CanBeChosen self.now }
        ensures { IfOk result (λ b. option_to_list b ≡ batches_of ((issue, self.now) ∷ [])) }
    {
        Batch::choose(alloc, issue, self.shorts.as_slice(), self.total)
    }
}
