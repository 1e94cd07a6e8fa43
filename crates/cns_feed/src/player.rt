// Replays.
ghost use Rattle.std.specs.Prelude.{◌≡◌, ◌≢◌, ◌⊎◌, ◌-◌, ◌^◌, ◌<◌, ◌≤◌, List, None, length, OnOk, IfOk, IfErr, IfSome};
ghost use Rattle.std.specs.Io.KnownBytes.{Appends, Keeps};
ghost use Rattle.cns_terms.specs.Machine.{opened};
ghost use Rattle.cns_book.specs.Log.{state_of};
ghost use Rattle.cns_feed.specs.Line.{Line};
ghost use Rattle.cns_feed.specs.Output.{Counts, line_text, lines_of, response_of, responses, output, texts};
ghost use Rattle.cns_feed.specs.Records.{EndsReading, IsReady, Pending};
ghost use Rattle.cns_feed.specs.Replay.{HasRoomFor, LeavesAt, Stops, StopsReplay, log_after_line};
ghost use Rattle.cns_feed.specs.declared.fault.ReplayFault.TheVariants as fault;

use crate::fault::ReplayFault;
use crate::line::Line;
use crate::records::{MOST_RECORDS, Records};
use crate::response::{ReplayBook, Response, take_line, write_response};
use crate::summary::Summary;
use cns_book::Book;
use cns_positions::{Positions, TreePositions};
use cns_units::Day;
use std::alloc::Global;
use std::io::{Read, Write};
use std::mem;

// Takes the command that a record was read as, if it is one, and writes what it came to.
fn play_line<P: Positions<Global>, W: Write>(
    book: &mut Book<P, Global>,
    line: &Line,
    writer: &mut W,
) -> Result<Response, ReplayFault>
    requires room { HasRoomFor book.old.log 1 }
    ensures response { IfOk result (λ o. o ≡ response_of (state_of book.old.log) line.now) }
    ensures after { OnOk result (book.new.log ≡ log_after_line book.old.log line.now) }
    ensures text { OnOk result
        (Appends (W.contents writer.old) (W.contents writer.new) (line_text (state_of book.old.log) line.now)) }
    ensures err { IfErr result
        (λ e. LeavesAt e (W.contents writer.old) (W.contents writer.new) (line_text (state_of book.old.log) line.now)) }
{
    let response = take_line(book, line)?;
    match write_response(book, &response, writer) {
        Ok(()) => Ok(response),
        Err(_) => Err(ReplayFault::Write),
    }
}

// Hands on what was written, where the next record may cost a call of the reader: whoever gives the records may wait
// for the replies to those that it gave.
fn flush<R: Read, W: Write>(records: &Records<R>, writer: &mut W) -> Result<(), ReplayFault>
    ensures text { Keeps (W.contents writer.old) (W.contents writer.new) }
    ensures err { IfErr result (λ e. e ≡ fault.Write) }
{
    if !records.asks_reader() {
        return Ok(());
    }
    match writer.flush() {
        Ok(()) => Ok(()),
        Err(_) => Err(ReplayFault::Write),
    }
}

/// Each record that is left, of which fewer than `most` are read up to the end, over any form of positions.
#[tactic(auto, using(std::proofs::lemmas::Result::err_from_is_err_and))]
pub(crate) fn play<P: Positions<Global>, R: Read, W: Write>(
    records: &mut Records<R>,
    book: &mut Book<P, Global>,
    writer: &mut W,
    most: u32,
) -> Result<Summary, ReplayFault>
    requires ready { IsReady records.old }
    requires room { HasRoomFor book.old.log most }
    requires most { most ≤ 2 ^ 32 - 1 }
    ensures few { OnOk result ((all : List Line) → Pending R.remaining records.old all → length all < most) }
    ensures text { OnOk result ((all : List Line) → Pending R.remaining records.old all
        → Appends (W.contents writer.old) (W.contents writer.new) (texts (state_of book.old.log) all)) }
    ensures counts { IfOk result (λ s. (all : List Line) → Pending R.remaining records.old all
        → Counts s (responses (state_of book.old.log) all)) }
    ensures fault { IfErr result (λ e. (all : List Line) → Pending R.remaining records.old all
        → (s : Stops e (W.contents writer.old) (W.contents writer.new) (state_of book.old.log) all)
        × (s.waiting ≡ None → (e ≡ fault.Write) ⊎ EndsReading e records.new (length s.answered ≡ most))) }
    ensures room { IfErr result (λ e. e ≢ fault.Full) }
{
    let mut summary = Summary::new();
    for _turn in 0..most {
        flush(records, writer)?;
        let Some(line) = records.read_line()? else {
            return Ok(summary);
        };
        let response = play_line(book, &line, writer)?;
        summary.add(&response);
    }
    Err(ReplayFault::Read)
}

/// Takes the command of each record of the reader, in order, on a new book over the form of positions `P` that opens on
/// the date, and writes the reply to each; for an invalid record it writes `line` and the fault, and goes on. At most so
/// many records are read.
///
/// `Read` where the reader fails, or has given `most` records, also where its input ends there: all that were read are
/// answered. `NoMemory` where an allocation failed: the records before the one at which it was are answered. `Write` where
/// the writer fails, takes no byte or cannot be flushed: the records before are answered, and of the next reply a front was
/// written that is not all of it. `Full` does not come, since the history has room for as many commands.
///
/// Before the reader is asked for more, all records that it gave whole are answered, and the writer is flushed. After a
/// failure neither the reader nor the writer is called again. A buffer on the reader's side is not needed: blocks of
/// 8 KiB are read.
pub fn replay_up_to<P: Positions<Global>, R: Read + Drop, W: Write>(
    alloc: Global,
    reader: R,
    writer: &mut W,
    date: Day,
    most: u32,
) -> Result<Summary, ReplayFault>
    // All of the input is answered, and nothing else is written.
    ensures output { OnOk result (IfSome (R.remaining reader)
        (λ input. Appends (W.contents writer.old) (W.contents writer.new) (output date input))) }
    ensures counts { IfOk result (λ s. IfSome (R.remaining reader)
        (λ input. Counts s (responses (opened date) (lines_of input)))) }
    ensures few { OnOk result (IfSome (R.remaining reader) (λ input. length (lines_of input) < most)) }
    // The records before the fault are answered, and of the one that it came at, if any, what the fault leaves.
    ensures fault { IfErr result (λ e. IfSome (R.remaining reader)
        (λ input. StopsReplay e date input (W.contents writer.old) (W.contents writer.new))) }
    ensures room { IfErr result (λ e. e ≢ fault.Full) }
{
    let mut book = Book::<P, Global>::new(alloc, date)?;
    play(&mut Records::new(alloc, reader), &mut book, writer, most)
}

/// The same on a `ReplayBook`, of all that the reader gives, up to 4,294,967,295 records.
///
/// Faults, flushes and what was written at a fault are those of `replay_up_to`.
pub fn replay<R: Read + Drop, W: Write>(
    alloc: Global,
    reader: R,
    writer: &mut W,
    date: Day,
) -> Result<Summary, ReplayFault>
    ensures output { OnOk result (IfSome (R.remaining reader)
        (λ input. Appends (W.contents writer.old) (W.contents writer.new) (output date input))) }
    ensures counts { IfOk result (λ s. IfSome (R.remaining reader)
        (λ input. Counts s (responses (opened date) (lines_of input)))) }
    ensures few { OnOk result (IfSome (R.remaining reader) (λ input. length (lines_of input) < 2 ^ 32 - 1)) }
    ensures fault { IfErr result (λ e. IfSome (R.remaining reader)
        (λ input. StopsReplay e date input (W.contents writer.old) (W.contents writer.new))) }
    ensures room { IfErr result (λ e. e ≢ fault.Full) }
{
    replay_up_to::<TreePositions<Global>, R, W>(alloc, reader, writer, date, MOST_RECORDS)
}

/// The same as `replay`, as a program's last work: the book is forgotten, not dropped, so that no box of it is visited once
/// more. Its memory is the system's again when the program ends.
pub fn replay_last<R: Read + Drop, W: Write>(
    alloc: Global,
    reader: R,
    writer: &mut W,
    date: Day,
) -> Result<Summary, ReplayFault>
    ensures output { OnOk result (IfSome (R.remaining reader)
        (λ input. Appends (W.contents writer.old) (W.contents writer.new) (output date input))) }
    ensures counts { IfOk result (λ s. IfSome (R.remaining reader)
        (λ input. Counts s (responses (opened date) (lines_of input)))) }
    ensures few { OnOk result (IfSome (R.remaining reader) (λ input. length (lines_of input) < 2 ^ 32 - 1)) }
    ensures fault { IfErr result (λ e. IfSome (R.remaining reader)
        (λ input. StopsReplay e date input (W.contents writer.old) (W.contents writer.new))) }
    ensures room { IfErr result (λ e. e ≢ fault.Full) }
{
    let mut book = ReplayBook::new(alloc, date)?;
    let played = play(
        &mut Records::new(alloc, reader),
        &mut book,
        writer,
        MOST_RECORDS,
    );
    mem::forget(book);
    played
}
