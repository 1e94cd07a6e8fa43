// What a record comes to.
ghost use Rattle.std.specs.Prelude.{◌≡◌, IfOk, IfErr, OnOk};
ghost use Rattle.cns_units.specs.Output.{Writes};
ghost use Rattle.cns_book.specs.Log.{state_of};
ghost use Rattle.cns_feed.specs.Output.{response_of, response_text, rest_text, rows_stated};
ghost use Rattle.cns_statements.specs.Texts.{rows_text};
ghost use Rattle.cns_feed.specs.Replay.{HasRoomFor, log_after_line};
ghost use Rattle.cns_feed.specs.declared.fault.ReplayFault.TheVariants as fault;

use crate::fault::{LineFault, ReplayFault};
use crate::liable::write_batches;
use crate::line::Line;
use crate::text::{reply_text, write_fault};
use cns_book::Book;
use cns_positions::{Positions, TreePositions};
use cns_statements::write_rows;
use cns_terms::{Reply, Stated, Worker};
use cns_units::WriteFault;
use std::alloc::Global;
use std::io::Write;

/// The book that a replay or a load keeps.
pub type ReplayBook = Book<TreePositions<Global>, Global>;

// What a record comes to: the reply to its command, or its fault.
#[derive(Clone, Copy)]
pub(crate) enum Response {
    Replied(Reply),
    AtFault(LineFault),
}

// Takes the command that a record was read as, if it is one.
pub(crate) fn take_line<P: Positions<Global>>(
    book: &mut Book<P, Global>,
    line: &Line,
) -> Result<Response, ReplayFault>
    requires room { HasRoomFor book.old.log 1 }
    ensures response { IfOk result (λ o. o ≡ response_of (state_of book.old.log) line.now) }
    ensures after { OnOk result (book.new.log ≡ log_after_line book.old.log line.now) }
    ensures err { IfErr result (λ e. e ≡ fault.NoMemory) }
{
    let command = match line {
        Ok(command) => command,
        Err(LineFault::NoMemory) => return Err(ReplayFault::NoMemory),
        Err(fault) => return Ok(Response::AtFault(*fault)),
    };
    let receipt = book.take(Worker::FIRST, *command)?;
    Ok(Response::Replied(receipt.reply))
}

// Writes the rows of a statement, from the sheet of its day.
fn write_stated_rows<P: Positions<Global>, W: Write>(
    book: &Book<P, Global>,
    stated: &Stated,
    writer: &mut W,
) -> Result<(), WriteFault>
    ensures { Writes (W.contents writer.old) (W.contents writer.new)
        (rows_text (rows_stated (state_of book.now.log) stated.now)) result }
{
    match book.sheet(stated.date) {
        Some(sheet) => write_rows(sheet.rows_of(stated.account), writer),
        None => Ok(()),
    }
}

// Writes what follows the first line of a reply: the liable members of the day that a close ended, or a statement's rows.
fn write_rest<P: Positions<Global>, W: Write>(
    book: &Book<P, Global>,
    reply: &Reply,
    writer: &mut W,
) -> Result<(), WriteFault>
    ensures { Writes (W.contents writer.old) (W.contents writer.new)
        (rest_text (state_of book.now.log) reply.now) result }
{
    match reply {
        Reply::Closed(closed) => write_batches(book.batches(closed.day), writer),
        Reply::Stated(stated) => write_stated_rows(book, stated, writer),
        Reply::Accepted
        | Reply::Noticed(_)
        | Reply::Executed(_)
        | Reply::Held(_)
        | Reply::Refused(_) => Ok(()),
    }
}

// Writes the text of an response, with the book as it was left.
#[tactic(auto, using(std::proofs::lemmas::Result::err_from_is_err_and, cns_units::proofs::OutputLemmas::front_longer, cns_units::proofs::OutputLemmas::writes_then))]
pub(crate) fn write_response<P: Positions<Global>, W: Write>(
    book: &Book<P, Global>,
    response: &Response,
    writer: &mut W,
) -> Result<(), WriteFault>
    ensures { Writes (W.contents writer.old) (W.contents writer.new)
        (response_text (state_of book.now.log) response.now) result }
{
    match response {
        Response::Replied(reply) => {
            reply_text(reply, writer)?;
            write_rest(book, reply, writer)
        }
        Response::AtFault(fault) => write_fault(*fault, writer),
    }
}
