// Logs against the book.
ghost use Rattle.std.specs.Prelude.{◌≡◌, ◌≤◌, ◌↔◌, Ok, IfErr, IfNone, IfSome, length, option_map, true};
ghost use Rattle.std.specs.Arc.{arc_value};
ghost use Rattle.cns_desk.specs.Parts.{AreParts, DiffersFirst, Fits, IsPart, Mismatches, SheetFits, part_of};

use crate::log::{Log, LogItem};
use crate::seat::worker_of;
use cns_book::Book;
use cns_positions::Positions;
use cns_terms::{Command, Taken, Worker};
use std::alloc::Global;

/// Where the logs are not the workers' parts of the history.
#[derive(Clone, Copy, PartialEq, Eq)]
pub struct Mismatch {
    /// The least worker whose log is not.
    pub worker: Worker,
    /// The first place that differs, from 1. A place that only one of the two has differs.
    pub place: usize,
}

// Whether a sheet that was kept is the book's, of the day that the command states. No sheet fits anywhere.
fn sheet_fits<P: Positions<Global>>(book: &Book<P, Global>, item: &LogItem) -> bool
    ensures { (result ≡ true) ↔ SheetFits book.now.log item.now.command (option_map arc_value item.now.sheet) }
{
    let Some(kept) = &item.sheet else {
        return true;
    };
    let Command::Statement { account: _, date } = item.command else {
        return false;
    };
    let Some(sheet) = book.sheet(date) else {
        return false;
    };
    sheet.is_same(kept)
}

// Whether an item is what the history has at the worker's place, from 1.
fn fits<P: Positions<Global>>(
    book: &Book<P, Global>,
    worker: Worker,
    place: u32,
    item: &LogItem,
) -> bool
    ensures { (result ≡ true) ↔ Fits book.now.log worker place item.now }
{
    let Some(entry) = book.entry(item.receipt.index) else {
        return false;
    };
    let wanted = Taken {
        worker,
        seq: place,
        command: item.command,
        reply: item.receipt.reply,
    };
    item.receipt.seq == place && entry.is_same(&wanted) && sheet_fits(book, item)
}

// The first place, from 1, at which the items are not the worker's part of the history.
#[tactic(auto, using(crate::proofs::Differences::same_more, crate::proofs::Differences::too_many, crate::proofs::Differences::misfit, crate::proofs::Differences::too_few))]
fn first_difference<P: Positions<Global>>(
    book: &Book<P, Global>,
    worker: Worker,
    items: &[LogItem],
) -> Option<usize>
    ensures none { IfNone result (IsPart book.now.log worker items.now) }
    ensures some { IfSome result (λ j. DiffersFirst book.now.log worker items.now j) }
{
    let count = book.count(worker) as usize;
    for (at, item) in items.iter().enumerate() {
        if at >= count {
            return Some(at + 1);
        }
        if !fits(book, worker, at as u32 + 1, item) {
            return Some(at + 1);
        }
    }
    if items.len() < count {
        return Some(items.len() + 1);
    }
    None
}

// The items of the worker's log; none where it has no log.
fn items_of(logs: &[Log], worker: Worker) -> &[LogItem]
    ensures { result.now ≡ part_of logs.now worker }
{
    match logs.get(worker.value() as usize - 1) {
        Some(log) => log.items(),
        None => &[],
    }
}

/// Ok exactly where each worker's log is its part of the history: of the same length, and at each place the entry of that
/// worker with that number, with the command, the reply and, where a sheet was kept, the sheet of the log. The first log
/// is that of worker 1; a worker without a log has an empty one. At most 64 logs. Takes no memory and waits for nobody.
#[tactic(auto, using(crate::proofs::Differences::no_part))]
pub fn audit<P: Positions<Global>>(book: &Book<P, Global>, logs: &[Log]) -> Result<(), Mismatch>
    requires { length logs.now ≤ 64 }
    ensures ok { (result ≡ Ok tt) ↔ AreParts book.now.log logs.now }
    ensures err { IfErr result (λ m. Mismatches book.now.log logs.now m) }
{
    for number in 1..65u8 {
        let worker = worker_of(number);
        let items = items_of(logs, worker);
        if let Some(place) = first_difference(book, worker, items) {
            return Err(Mismatch { worker, place });
        }
    }
    Ok(())
}
