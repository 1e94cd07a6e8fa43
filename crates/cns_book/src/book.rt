// The book over its history.
ghost use Rattle.std.specs.Arc.{arc_value};
ghost use Rattle.std.specs.Option.{option_copied};
ghost use Rattle.std.specs.Prelude.{◌≡◌, ◌-◌, ◌<◌, ◌^◌, ◌↔◌, ◌⊎◌, [], None, true, option_map, length, IfOk, OnErr, OnOk, Err, replicate, reverse};
ghost use Rattle.cns_terms.specs.Days.{date, day};
ghost use Rattle.cns_terms.specs.History.{IsLegal, commands_of, count, replies_of};
ghost use Rattle.cns_terms.specs.Limits.{history_limit};
ghost use Rattle.cns_terms.specs.Machine.{journal_of, opened, replies};
ghost use Rattle.cns_terms.specs.Reached.{IsReached};
ghost use Rattle.cns_terms.specs.Sheets.{sheet_on};
ghost use Rattle.cns_book.specs.Shown.{batch_shown, batches_shown, entry_at, notice_shown, position_shown, price_shown};
ghost use Rattle.cns_terms.specs.Refusals.{refusal};
ghost use Rattle.cns_book.specs.Follows.{may_grow};
ghost use Rattle.cns_book.specs.Log.{TakesStep, empty_log, state_of};
ghost use Rattle.cns_book.specs.Places.{KeepsRows, PlacesStay, waiting};

use crate::history::History;
use crate::notice::Notice;
use crate::parts::Parts;
use crate::receipt::{Receipt, TakeFault};
use cns_positions::Positions;
use cns_retransmit::Batch;
use cns_sheets::Sheet;
use cns_terms::{Command, Holding, Key, NoMemory, Taken, Worker};
use cns_trades::Pending;
use cns_units::{Account, Cusip, Day, Price};
use std::alloc::Allocator;
use std::marker::Model;
use std::sync::Arc;

/// A book over any form of positions. Contracts see its log, which is its opening date, its limit and its history, the
/// newest first, the rows of its positions, and for how many entries more the history has room. All that a book answers
/// follows from its log.
///
/// The type keeps that the history is legal, that each reply in it is the machine's, and that every part shows what
/// the definitions say of the accepted activities.
pub struct Book<P: Positions<A>, A: Allocator + Drop + Clone> {
    limit: u32,
    history: History<A>,
    counts: [u32; 64],
    pub(crate) parts: Parts<P, A>,
}

impl<P: Positions<A>, A: Allocator + Drop + Clone> Drop for Book<P, A> {
    // A derived drop would be written out wherever a book may be let go, and be checked there.
    fn drop(self) {
        let Book {
            limit: _,
            history,
            counts: _,
            parts,
        } = self;
        drop(history);
        drop(parts);
    }
}

impl<P: Positions<A>, A: Allocator + Drop + Clone> Model for Book<P, A> {
    ghost use Rattle.std.specs.Prelude.{reverse};
    ghost use Rattle.cns_book.specs.Legal.{IsBook};
    ghost use Rattle.cns_book.specs.Log.{BookView};

    ghost Value = { BookView };

    ghost view = { λ b. record {
      log = record { opening = b.parts.opening; limit = b.limit; history = reverse b.history.taken };
      rows = b.parts.rows;
      room = b.history.room;
    } };

    ghost invariant = { λ b. IsBook b.limit (reverse b.history.taken) b.counts b.parts };
}

impl<P: Positions<A>, A: Allocator + Drop + Clone> Book<P, A> {
    /// A book that has taken nothing, opened on the date, for as many commands as a history may have: 4,294,967,295.
    /// `NoMemory` where the allocator could not be copied.
    pub fn new(alloc: A, date: Day) -> Result<Self, NoMemory>
        ensures log { IfOk result (λ b. b.log ≡ empty_log date (2 ^ 32 - 1)) }
        ensures rows { IfOk result (λ b. b.rows ≡ []) }
    {
        Book::with_limit(alloc, date, u32::MAX)
    }

    /// A book that has taken nothing, opened on the date, for at most that many commands.
    pub fn with_limit(alloc: A, date: Day, limit: u32) -> Result<Self, NoMemory>
        ensures log { IfOk result (λ b. b.log ≡ empty_log date limit) }
        ensures rows { IfOk result (λ b. b.rows ≡ []) }
    {
        Ok(Book {
            limit,
            history: History::new(alloc.clone()?)?,
            counts: no_counts(),
            parts: Parts::new(alloc, date)?,
        })
    }

    /// The open day's date: what the last close named, or the opening date.
    pub fn today(&self) -> Day
        ensures { result ≡ date self.now.log.opening (journal_of (state_of self.now.log)) }
    {
        self.parts.today()
    }

    /// The open day's number, from 1; one more than the days that were closed.
    pub fn day(&self) -> u64
        ensures { result ≡ day (journal_of (state_of self.now.log)) }
    {
        self.parts.day()
    }

    /// What stands at an account's place in an issue, as a POSITION shows it; None where a POSITION would be refused.
    pub fn position(&self, account: Account, cusip: Cusip) -> Option<Holding>
        ensures { result ≡ position_shown (state_of self.now.log) (record { account = account; issue = cusip }) }
    {
        self.parts.position(Key {
            account,
            issue: cusip,
        })
    }

    /// The price of an issue in cents, the last that was set; None where the issue is not listed.
    pub fn price(&self, cusip: Cusip) -> Option<Price>
        ensures { result ≡ price_shown (state_of self.now.log) cusip }
    {
        self.parts.price(cusip)
    }

    /// The sheet of the closed day with the date, which never changes; None where no closed day has it. It may be
    /// shared by a copy of its `Arc`.
    pub fn sheet(&self, date: Day) -> Option<&Arc<Sheet<A>, A>>
        ensures { option_map arc_value (option_copied result)
            ≡ sheet_on self.now.log.opening (journal_of (state_of self.now.log)) date }
    {
        self.parts.sheet(date)
    }

    /// A notice as it stands, by its number from 1; None where none has the number.
    pub fn notice(&self, number: u32) -> Option<Notice>
        ensures { result ≡ notice_shown (state_of self.now.log) number }
    {
        self.parts.notice(number)
    }

    /// The batch that the close of a day chose in an issue, with what is left of each liability now; None where nobody was
    /// liable there, or the day is not closed. Days are numbered from 1.
    pub fn batch(&self, day: u32, cusip: Cusip) -> Option<&Batch<A>>
        ensures { option_copied result ≡ batch_shown (state_of self.now.log) day cusip }
    {
        self.parts.batch(day, cusip)
    }

    /// The batches that the close of a day chose, in the order of the bytes of their issues; none where the day is not
    /// closed.
    pub fn batches(&self, day: u32) -> &[Batch<A>]
        ensures { result.now ≡ batches_shown (state_of self.now.log) day }
    {
        self.parts.batches(day)
    }

    /// The trades that wait for their date, in the order in which they were taken, with what each member is to get and to give
    /// in each issue by all of them.
    pub fn pending(&self) -> &Pending<A>
        ensures { result.now ≡ waiting self.now.log }
    {
        self.parts.pending()
    }

    /// The entry at a place of the history, from 1; None past its end.
    pub fn entry(&self, place: u32) -> Option<Taken>
        ensures { result ≡ entry_at self.now.log.history place }
    {
        if place == 0 {
            return None;
        }
        self.history.get(place as usize - 1)
    }

    /// A copy of the history, the oldest entry first: the commands with the replies that recomputing from them gives,
    /// each worker's numbered 1, 2, 3 and so on. `NoMemory` where an allocation failed.
    pub fn copy_history(&self) -> Result<Vec<Taken, A>, NoMemory>
        ensures copy { IfOk result (λ v. v.items ≡ reverse self.now.log.history) }
        ensures legal { IsLegal self.now.log.opening self.now.log.history }
        ensures reached { IsReached self.now.log.opening (state_of self.now.log).accepted }
        ensures few { length (state_of self.now.log).accepted < history_limit }
        ensures replies { OnOk result
            (replies_of self.now.log.history
            ≡ replies (opened self.now.log.opening) (commands_of self.now.log.history)) }
    {
        self.history.copied()
    }

    /// How many commands were taken. The activities accepted of them are in their ranges, none was refused, and there are
    /// fewer than 2^32; so the laws of [`crate::laws`] hold of them.
    pub fn history_len(&self) -> usize
        ensures len { result ≡ length self.now.log.history }
        ensures legal { IsLegal self.now.log.opening self.now.log.history }
        ensures reached { IsReached self.now.log.opening (state_of self.now.log).accepted }
        ensures few { length (state_of self.now.log).accepted < history_limit }
    {
        self.history.len()
    }

    /// How many commands of the worker were taken.
    pub fn count(&self, worker: Worker) -> u32
        ensures { result ≡ count self.now.log.history worker }
    {
        self.counts[worker.value() as usize - 1]
    }

    /// Whether the history is at its limit: no command is taken any more.
    pub fn is_full(&self) -> bool
        ensures { (result ≡ true) ↔ (length self.now.log.history ≡ self.now.log.limit) }
    {
        self.history.len() >= self.limit as usize
    }

    /// Takes a command: answers it as the machine does, and enters it and its reply into the history.
    ///
    /// `Full` exactly where the history is at its limit, before anything else is looked at. `NoMemory` where an allocation
    /// failed: that of the history, which comes first and is asked for only where it has no room left; or one of a command
    /// that no rule refuses and that is none of those that take no memory (`may_grow`). After either the book's log is as it
    /// was, and so is all that it answers; running out of memory may leave rows of zeros where the command would have booked. A
    /// command that the machine refuses is taken, and stands in the history with its refusal; the positions have the rows
    /// then that they had.
    pub fn take(&mut self, worker: Worker, command: Command) -> Result<Receipt, TakeFault>
        ensures full { (result ≡ Err TakeFault.Full) ↔ (length self.old.log.history ≡ self.old.log.limit) }
        ensures ok { IfOk result (λ r. TakesStep self.old.log self.new.log worker command r) }
        ensures err { OnErr result (self.new.log ≡ self.old.log) }
        ensures places { PlacesStay (waiting self.old.log) command self.old.rows self.new.rows }
        ensures same_rows { KeepsRows result self.old.rows self.new.rows }
        ensures memory { result ≡ Err TakeFault.NoMemory → (self.old.room ≡ 0)
            ⊎ ((refusal self.old.log.opening (journal_of (state_of self.old.log)) command ≡ None)
            × (may_grow command ≡ true)) }
    {
        if self.is_full() {
            return Err(TakeFault::Full);
        }
        let worker = &worker;
        let command = &command;
        self.history.reserve()?;
        let reply = self.parts.answer(command)?;
        let reply = &reply;
        let place = worker.value() as usize - 1;
        let seq = self.counts[place] + 1;
        self.counts[place] = seq;
        let taken = Taken {
            worker: *worker,
            seq,
            command: *command,
            reply: *reply,
        };
        self.history.push(&taken);
        Ok(Receipt {
            index: self.history.len() as u32,
            seq,
            reply: *reply,
        })
    }
}

// No worker has taken anything.
fn no_counts() -> [u32; 64]
    ensures { result ≡ replicate 64 0 }
{
    [0; 64]
}
