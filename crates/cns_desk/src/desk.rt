// A book under one lock.
ghost use Rattle.std.specs.Prelude.{◌≡◌, ◌≤◌, ◌<◌, ◌↔◌, ◌⊎◌, Err, IfOk, OnErr, length, option_map, vec_len};
ghost use Rattle.std.specs.Arc.{arc_value};
ghost use Rattle.cns_desk.specs.Handed.{Hands};
ghost use Rattle.cns_desk.specs.Seats.{AreFresh, Raised, counts_of};

use crate::fault::OpenFault;
use crate::kept::Kept;
use crate::seat::Seat;
use cns_book::{Book, Receipt, TakeFault};
use cns_positions::Positions;
use cns_sheets::Sheet;
use cns_terms::Command;
use cns_units::Day;
use std::alloc::Global;
use std::sync::ledger::{Blank, Ledger};
use std::sync::{Arc, Mutex, Wait};

/// A book under one lock. Each step is one command that is taken while the lock is held; nothing else changes the book. The
/// positions may have either form.
#[derive(Drop)]
pub struct Desk<L: Ledger, P: Positions<Global>> {
    kept: Mutex<Kept<L, P>>,
}

impl<L: Ledger, P: Positions<Global>> Desk<L, P> {
    /// A new book under a lock that opens on the date, and seats for the workers 1, 2 and so on. `Workers` where their
    /// number is not 1 to 64, else `NoMemory` where an allocation failed. The blank is the ledger before it is opened,
    /// with as many parts as workers.
    pub fn open(
        alloc: Global,
        blank: Blank,
        date: Day,
        workers: usize,
    ) -> Result<(Desk<L, P>, Vec<Seat<L>>), OpenFault>
        requires name { blank.name ≡ L.name }
        requires parts { blank.parts ≡ L.parts }
        requires one_each { 1 ≤ workers → workers ≤ 64 → blank.parts ≡ workers }
        ensures workers { (result ≡ Err OpenFault.Workers) ↔ ((workers < 1) ⊎ (64 < workers)) }
        ensures seats { IfOk result (λ o. AreFresh workers o.1.items) }
    {
        match Kept::open(alloc, blank, date, workers) {
            Ok((kept, seats)) => Ok((
                Desk {
                    kept: Mutex::new(kept),
                },
                seats,
            )),
            Err(fault) => Err(fault),
        }
    }

    /// Takes a command of the seat's worker: one `Kept::take` under the lock, for which it may wait. `Full` where the
    /// history is at its limit, `NoMemory` where an allocation failed; after either the seat is as it was.
    pub fn submit<R: Wait>(
        &self,
        rt: &R,
        seat: &mut Seat<L>,
        command: Command,
    ) -> Result<Receipt, TakeFault>
        ensures raised { IfOk result (λ _. Raised seat.old seat.new) }
        ensures err { OnErr result (seat.new ≡ seat.old) }
    {
        self.kept.lock(rt).take(seat, command)
    }

    /// Hands out the sheet of the closed day with the date, and takes the STATEMENT of account 0 on it, both under one
    /// lock, for which it may wait. The sheet never changes, so it is read without the lock. Faults as of `submit`;
    /// `NoMemory` also where the copy of the sheet's `Arc` is refused.
    pub fn sheet<R: Wait>(
        &self,
        rt: &R,
        seat: &mut Seat<L>,
        date: Day,
    ) -> Result<(Receipt, Option<Arc<Sheet<Global>>>), TakeFault>
        ensures raised { IfOk result (λ _. Raised seat.old seat.new) }
        ensures handed { IfOk result (λ r. Hands date r.0.reply (option_map arc_value r.1)) }
        ensures err { OnErr result (seat.new ≡ seat.old) }
    {
        self.kept.lock(rt).sheet(seat, date)
    }

    /// The book, once all the desk's seats are back, in any order: its history is as long as their counts add up to.
    pub fn finish(self, seats: Vec<Seat<L>>) -> Book<P, Global>
        requires { vec_len seats ≡ L.parts }
        ensures { length result.log.history ≡ counts_of seats.items }
    {
        let Desk { kept } = self;
        kept.into_inner().finish(seats)
    }
}
