// A notice, and what comes to it.
ghost use Rattle.std.specs.Prelude.{◌≡◌, ◌+◌, ◌^◌, ◌<◌};
ghost use Rattle.cns_terms.specs.Notices.{is_live};
ghost use Rattle.cns_notices.specs.Noticed.{brought_to, executes, has_received, new_notice, remaining_of};

use cns_terms::{Given, Stage, long};
use cns_units::Shares;

/// A notice of intention to buy in, with what came to it.
#[derive(Clone, Copy)]
pub struct Noticed {
    /// The notice as it was given.
    pub given: Given,
    pub stage: Stage,
    /// The shares of the issue that its member received while it was live.
    pub received: u64,
    /// The shares that were bought in on it.
    pub executed: u64,
}

impl Noticed {
    /// A notice that was given just now.
    pub fn new(given: Given) -> Self
        ensures { result ≡ new_notice given }
    {
        Noticed {
            given,
            stage: Stage::Live,
            received: 0,
            executed: 0,
        }
    }

    /// Whether the notice stands.
    pub fn is_live(&self) -> bool
        ensures { result ≡ is_live self.now.stage }
    {
        match self.stage {
            Stage::Live => true,
            Stage::Withdrawn | Stage::Ended | Stage::Expired => false,
        }
    }

    /// What remains of the notice where its member has this position, in shares.
    pub fn remaining(&self, position: i64) -> u64
        ensures { result ≡ remaining_of position self.now }
    {
        if !self.is_live() {
            return 0;
        }
        let left = self
            .given
            .shares
            .value()
            .saturating_sub(self.received)
            .saturating_sub(self.executed);
        left.min(long(position))
    }

    /// Brings a live notice to another stage. One that is not live stays as it is.
    pub fn bring_to(&mut self, stage: Stage)
        ensures { self.new ≡ brought_to stage self.old }
    {
        if self.is_live() {
            self.stage = stage;
        }
    }

    /// Adds shares that its member received.
    pub fn receive(&mut self, n: Shares)
        requires { self.old.received + n < 2 ^ 64 }
        ensures { self.new ≡ has_received n self.old }
    {
        self.received += n.value();
    }

    /// Adds shares that were bought in on it.
    pub fn execute(&mut self, n: Shares)
        requires { self.old.executed + n < 2 ^ 64 }
        ensures { self.new ≡ executes n self.old }
    {
        self.executed += n.value();
    }
}
