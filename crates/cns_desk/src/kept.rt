// A book with its seats, as it lies under a desk's lock.
ghost use Rattle.std.specs.Prelude.{◌≡◌, ◌-◌, ◌^◌, ◌<◌, ◌≤◌, ◌↔◌, ◌⊎◌, Err, IfOk, OnErr, length, option_map, vec_len};
ghost use Rattle.std.specs.Arc.{arc_value};
ghost use Rattle.cns_terms.specs.declared.command.Command.TheVariants as command_is;
ghost use Rattle.cns_terms.specs.Machine.{journal_of};
ghost use Rattle.cns_terms.specs.Sheets.{sheet_on};
ghost use Rattle.cns_book.specs.Log.{TakesStep, empty_log, state_of};
ghost use Rattle.cns_desk.specs.Handed.{Hands};
ghost use Rattle.cns_desk.specs.Seats.{AreFresh, Raised, counts_of};

use crate::fault::OpenFault;
use crate::seat::{Seat, seats_of};
use cns_book::{Book, Receipt, TakeFault};
use cns_positions::Positions;
use cns_sheets::Sheet;
use cns_terms::{Command, NoMemory};
use cns_units::{Account, Day};
use std::alloc::Global;
use std::marker::Model;
use std::sync::Arc;
use std::sync::ledger::{Blank, Book as Total, Ledger, Share};

/// A book, with the total of the ledger of its seats, which is the length of the book's history. Contracts see the
/// book's log: its opening date, its limit and its history, which is legal. The positions may have either form.
#[derive(Drop)]
pub struct Kept<L: Ledger, P: Positions<Global>> {
    book: Book<P, Global>,
    total: Total<L>,
    // A share of no part and no amount, into which `finish` gathers the shares of the seats.
    gathered: Share<L>,
}

impl<L: Ledger, P: Positions<Global>> Model for Kept<L, P> {
    ghost use Rattle.std.specs.Prelude.{◌≡◌, length};
    ghost use Rattle.cns_book.specs.Log.{Log};

    ghost Value = { Log };

    ghost view = { λ k. k.book.log };

    ghost invariant = { λ k.
        (k.total.total ≡ length k.book.log.history) × (k.gathered.parts ≡ 0) × (k.gathered.amount ≡ 0) };
}

impl<L: Ledger, P: Positions<Global>> Kept<L, P> {
    /// A new book that opens on the date, and seats for the workers 1, 2 and so on. `Workers` where their number is not 1
    /// to 64, else `NoMemory` where an allocation failed. The blank is the ledger before it is opened, with as many parts
    /// as workers.
    pub fn open(
        alloc: Global,
        blank: Blank,
        date: Day,
        workers: usize,
    ) -> Result<(Kept<L, P>, Vec<Seat<L>>), OpenFault>
        requires name { blank.name ≡ L.name }
        requires parts { blank.parts ≡ L.parts }
        requires one_each { 1 ≤ workers → workers ≤ 64 → blank.parts ≡ workers }
        ensures workers { (result ≡ Err OpenFault.Workers) ↔ ((workers < 1) ⊎ (64 < workers)) }
        ensures book { IfOk result (λ o. o.0 ≡ empty_log date (2 ^ 32 - 1)) }
        ensures seats { IfOk result (λ o. AreFresh workers o.1.items) }
    {
        if workers < 1 || workers > 64 {
            return Err(OpenFault::Workers);
        }
        let (total, mut rest) = blank.open::<L>();
        let seats = seats_of(alloc, &mut rest, workers)?;
        let book = Book::new(alloc, date)?;
        Ok((
            Kept {
                book,
                total,
                gathered: rest,
            },
            seats,
        ))
    }

    /// The book.
    pub fn book(&self) -> &Book<P, Global>
        ensures { result.now.log ≡ self.now }
    {
        &self.book
    }

    /// Takes a command of the seat's worker: what `Book::take` does, and the seat's count rises by one. `Full` exactly where
    /// the history is at its limit; `NoMemory` where an allocation failed. After either the book and the seat are as they
    /// were.
    pub fn take(&mut self, seat: &mut Seat<L>, command: Command) -> Result<Receipt, TakeFault>
        ensures full { (result ≡ Err TakeFault.Full) ↔ (length self.old.history ≡ self.old.limit) }
        ensures ok { IfOk result (λ r. TakesStep self.old self.new seat.old.worker command r) }
        ensures raised { IfOk result (λ _. Raised seat.old seat.new) }
        ensures err { OnErr result ((self.new ≡ self.old) × (seat.new ≡ seat.old)) }
    {
        let Kept {
            book,
            total,
            gathered: _,
        } = self;
        let Seat {
            worker,
            count,
            share,
        } = seat;
        total.audit(share);
        let receipt = book.take(*worker, command)?;
        total.add(share, 1);
        *count += 1;
        Ok(receipt)
    }

    /// Hands out the book's sheet of the closed day with the date, and takes the STATEMENT of account 0 on it for the seat's
    /// worker. Where no closed day has the date, the command is refused and no sheet is handed out. `Full` exactly where the
    /// history is at its limit. `NoMemory` also where the copy of the sheet's `Arc` is refused, and then nothing is taken.
    /// After a fault the book and the seat are as they were.
    #[tactic(auto, using(crate::proofs::Handing::hands))]
    pub fn sheet(
        &mut self,
        seat: &mut Seat<L>,
        date: Day,
    ) -> Result<(Receipt, Option<Arc<Sheet<Global>>>), TakeFault>
        ensures full { (result ≡ Err TakeFault.Full) ↔ (length self.old.history ≡ self.old.limit) }
        ensures ok { IfOk result (λ r. TakesStep self.old self.new seat.old.worker (command_is.Statement 0 date) r.0) }
        ensures raised { IfOk result (λ _. Raised seat.old seat.new) }
        ensures handed { IfOk result (λ r. Hands date r.0.reply (option_map arc_value r.1)) }
        ensures own { IfOk result
            (λ r. option_map arc_value r.1 ≡ sheet_on self.old.opening (journal_of (state_of self.old)) date) }
        ensures err { OnErr result ((self.new ≡ self.old) × (seat.new ≡ seat.old)) }
    {
        if self.book.is_full() {
            return Err(TakeFault::Full);
        }
        let Ok(sheet) = self.copy_of(date) else {
            return Err(TakeFault::NoMemory);
        };
        let statement = Command::Statement {
            account: Account::CORPORATION,
            date,
        };
        match self.take(seat, statement) {
            Ok(receipt) => Ok((receipt, sheet)),
            Err(fault) => Err(fault),
        }
    }

    // A copy of the `Arc` of the book's sheet with the date, None where it has none.
    fn copy_of(&self, date: Day) -> Result<Option<Arc<Sheet<Global>>>, NoMemory>
        ensures { IfOk result
            (λ o. option_map arc_value o ≡ sheet_on self.now.opening (journal_of (state_of self.now)) date) }
    {
        let Some(sheet) = self.book.sheet(date) else {
            return Ok(None);
        };
        Ok(Some(Arc::try_clone(sheet)?))
    }

    /// The book, once all its seats are back, in any order: its history is as long as their counts add up to. That they
    /// are this book's seats is in their type; each has one part of the ledger, so as many as it has parts are all.
    pub fn finish(self, seats: Vec<Seat<L>>) -> Book<P, Global>
        requires { vec_len seats ≡ L.parts }
        ensures book { result.log ≡ self }
        ensures counts { length result.log.history ≡ counts_of seats.items }
    {
        let Kept {
            book,
            mut total,
            mut gathered,
        } = self;
        let mut seats = seats;
        while let Some(seat) = seats.pop() {
            let Seat {
                worker: _,
                count: _,
                share,
            } = seat;
            gathered.merge(share);
        }
        total.audit(&mut gathered);
        book
    }
}
