// Loads.
ghost use Rattle.std.specs.Prelude.{◌≡◌, ◌⊎◌, ◌-◌, ◌^◌, ◌<◌, ◌≤◌, List, length, IfOk, IfErr, IfSome, OnOk};
ghost use Rattle.cns_terms.specs.Machine.{opened};
ghost use Rattle.cns_book.specs.Log.{state_of};
ghost use Rattle.cns_feed.specs.Line.{Line};
ghost use Rattle.cns_feed.specs.Output.{Counts, lines_of, responses};
ghost use Rattle.cns_feed.specs.Records.{EndsReading, IsReady, Pending};
ghost use Rattle.cns_feed.specs.Replay.{HasRoomFor, blank_log, log_after};
ghost use Rattle.cns_feed.specs.declared.fault.ReplayFault.TheVariants as fault;

use crate::fault::ReplayFault;
use crate::records::{MOST_RECORDS, Records};
use crate::response::{ReplayBook, take_line};
use crate::summary::Summary;
use cns_book::Book;
use cns_positions::{Positions, TreePositions};
use cns_units::Day;
use std::alloc::Global;
use std::io::Read;

/// Takes the command of each record that is left, of which fewer than `most` are read up to the end, over any form of
/// positions.
#[tactic(auto, using(std::proofs::lemmas::Result::err_from_is_err_and))]
pub(crate) fn take_all<P: Positions<Global>, R: Read>(
    records: &mut Records<R>,
    book: &mut Book<P, Global>,
    most: u32,
) -> Result<Summary, ReplayFault>
    requires ready { IsReady records.old }
    requires room { HasRoomFor book.old.log most }
    requires most { most ≤ 2 ^ 32 - 1 }
    ensures few { OnOk result ((all : List Line) → Pending R.remaining records.old all → length all < most) }
    ensures after { OnOk result
        ((all : List Line) → Pending R.remaining records.old all → book.new.log ≡ log_after book.old.log all) }
    ensures counts { IfOk result (λ s. (all : List Line) → Pending R.remaining records.old all
        → Counts s (responses (state_of book.old.log) all)) }
    ensures err { IfErr result (λ e. (e ≡ fault.NoMemory)
        ⊎ EndsReading e records.new
        ((all : List Line) → Pending R.remaining records.old all → most ≤ length all)) }
{
    let mut summary = Summary::new();
    for _turn in 0..most {
        let Some(line) = records.read_line()? else {
            return Ok(summary);
        };
        let response = take_line(book, &line)?;
        summary.add(&response);
    }
    Err(ReplayFault::Read)
}

// The same of all that a reader gives.
fn take_from<P: Positions<Global>, R: Read + Drop>(
    alloc: Global,
    reader: R,
    book: &mut Book<P, Global>,
    most: u32,
) -> Result<Summary, ReplayFault>
    requires room { HasRoomFor book.old.log most }
    requires most { most ≤ 2 ^ 32 - 1 }
    ensures after { OnOk result (IfSome (R.remaining reader)
        (λ input. book.new.log ≡ log_after book.old.log (lines_of input))) }
    ensures counts { IfOk result (λ s. IfSome (R.remaining reader)
        (λ input. Counts s (responses (state_of book.old.log) (lines_of input)))) }
    ensures few { OnOk result (IfSome (R.remaining reader) (λ input. length (lines_of input) < most)) }
    ensures err { IfErr result (λ e. (e ≡ fault.NoMemory) ⊎ (e ≡ fault.Read)) }
{
    let mut records = Records::new(alloc, reader);
    take_all(&mut records, book, most)
}

/// The book after the command of each record of the reader, in order, all of the first worker, on a new book over the
/// form of positions `P` that opens on the date, and the counts; nothing is written. At most so many records are read.
///
/// An invalid record is counted and changes nothing. `Read` where the reader fails, or has given `most` records, also where
/// its input ends there; `NoMemory` where an allocation failed; no other fault comes.
pub fn load_up_to<P: Positions<Global>, R: Read + Drop>(
    alloc: Global,
    reader: R,
    date: Day,
    most: u32,
) -> Result<(Book<P, Global>, Summary), ReplayFault>
    ensures after { IfOk result (λ p. IfSome (R.remaining reader)
        (λ input. p.0.log ≡ log_after (blank_log date) (lines_of input))) }
    ensures counts { IfOk result (λ p. IfSome (R.remaining reader)
        (λ input. Counts p.1 (responses (opened date) (lines_of input)))) }
    ensures few { OnOk result (IfSome (R.remaining reader) (λ input. length (lines_of input) < most)) }
    ensures err { IfErr result (λ e. (e ≡ fault.NoMemory) ⊎ (e ≡ fault.Read)) }
{
    let mut book = Book::<P, Global>::new(alloc, date)?;
    let summary = take_from(alloc, reader, &mut book, most)?;
    Ok((book, summary))
}

/// The same as a `ReplayBook`, of all that the reader gives, up to 4,294,967,295 records.
///
/// Faults are those of `load_up_to`.
pub fn load<R: Read + Drop>(
    alloc: Global,
    reader: R,
    date: Day,
) -> Result<(ReplayBook, Summary), ReplayFault>
    ensures after { IfOk result (λ p. IfSome (R.remaining reader)
        (λ input. p.0.log ≡ log_after (blank_log date) (lines_of input))) }
    ensures counts { IfOk result (λ p. IfSome (R.remaining reader)
        (λ input. Counts p.1 (responses (opened date) (lines_of input)))) }
    ensures few { OnOk result (IfSome (R.remaining reader) (λ input. length (lines_of input) < 2 ^ 32 - 1)) }
    ensures err { IfErr result (λ e. (e ≡ fault.NoMemory) ⊎ (e ≡ fault.Read)) }
{
    load_up_to::<TreePositions<Global>, R>(alloc, reader, date, MOST_RECORDS)
}
