// A worker's seat at a book.
ghost use Rattle.std.specs.Prelude.{◌≡◌, ◌≤◌, IfOk, OnOk};
ghost use Rattle.cns_desk.specs.Seats.{AreFresh};

use cns_terms::{NoMemory, Worker};
use std::alloc::Global;
use std::marker::Model;
use std::sync::ledger::{Ledger, Share};

/// A worker's right to take commands at the book of the ledger L. Contracts see the worker, and how many commands were
/// taken under the seat.
#[derive(Drop)]
pub struct Seat<L: Ledger> {
    pub(crate) worker: Worker,
    pub(crate) count: u32,
    pub(crate) share: Share<L>,
}

impl<L: Ledger> Model for Seat<L> {
    ghost use Rattle.std.specs.Prelude.{◌≡◌};
    ghost use Rattle.cns_desk.specs.Seats.{Sitting};

    ghost Value = { Sitting };

    ghost view = { λ s. record { worker = s.worker; count = s.count } };

    ghost invariant = { λ s. (s.share.parts ≡ 1) × (s.share.amount ≡ s.count) };
}

impl<L: Ledger> Seat<L> {
    /// The worker.
    pub fn worker(&self) -> Worker
        ensures { result ≡ self.now.worker }
    {
        self.worker
    }

    /// How many commands were taken under the seat.
    pub fn count(&self) -> u32
        ensures { result ≡ self.now.count }
    {
        self.count
    }
}

// The worker with that number.
#[tactic(auto, using(std::proofs::lemmas::Bool::Decides::nat_tests))]
pub(crate) fn worker_of(number: u8) -> Worker
    requires { (1 ≤ number) × (number ≤ 64) }
    ensures { result ≡ number }
{
    let Ok(worker) = Worker::new(number) else {
        unreachable!()
    };
    worker
}

// Seats for the workers 1, 2 and so on, each with one part of the ledger. They take all the parts.
pub(crate) fn seats_of<L: Ledger>(
    alloc: Global,
    rest: &mut Share<L>,
    workers: usize,
) -> Result<Vec<Seat<L>>, NoMemory>
    requires few { workers ≤ 64 }
    requires parts { rest.old.parts ≡ workers }
    requires amount { rest.old.amount ≡ 0 }
    ensures seats { IfOk result (λ v. AreFresh workers v.items) }
    ensures parts { OnOk result (rest.new.parts ≡ 0) }
    ensures amount { OnOk result (rest.new.amount ≡ 0) }
{
    let mut seats = Vec::new(alloc);
    for place in 0..workers {
        let seat = Seat {
            worker: worker_of(place as u8 + 1),
            count: 0,
            share: rest.split_off(1, 0),
        };
        seats.push(seat)?;
    }
    Ok(seats)
}
