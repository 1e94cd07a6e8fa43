// Texts of replies and of invalid records.
ghost use Rattle.std.specs.Prelude.{◌≡◌, ◌∷◌, []};
ghost use Rattle.std.specs.Fmt.{decimal};
ghost use Rattle.std.specs.Option.{option_map_or};
ghost use Rattle.cns_units.specs.Output.{Writes};
ghost use Rattle.cns_feed.specs.Text.{noticed_line, executed_line, closed_line, held_line, refusal_detail, refused_line, reply_line, fault_name, fault_line};

use crate::fault::LineFault;
use cns_statements::write_stated;
use cns_terms::{Closed, Held, Refusal, Reply};
use cns_units::{Word, WriteFault, write_bytes, write_line};
use std::io::Write;

fn write_noticed<W: Write>(number: u32, writer: &mut W) -> Result<(), WriteFault>
    ensures { Writes (W.contents writer.old) (W.contents writer.new) (noticed_line number) result }
{
    write_line(b"notice", &[Word::Number(u64::from(number))], writer)
}

fn write_executed<W: Write>(members: u64, writer: &mut W) -> Result<(), WriteFault>
    ensures { Writes (W.contents writer.old) (W.contents writer.new) (executed_line members) result }
{
    write_line(b"executed", &[Word::Number(members)], writer)
}

fn write_closed<W: Write>(closed: &Closed, writer: &mut W) -> Result<(), WriteFault>
    ensures { Writes (W.contents writer.old) (W.contents writer.new) (closed_line closed.now) result }
{
    let words = [
        Word::Number(u64::from(closed.day)),
        Word::Date(closed.date),
        Word::Number(closed.rows),
        Word::Number(closed.liable),
    ];
    write_line(b"closed", &words, writer)
}

fn write_held<W: Write>(held: &Held, writer: &mut W) -> Result<(), WriteFault>
    ensures { Writes (W.contents writer.old) (W.contents writer.new) (held_line held.now) result }
{
    let words = [
        Word::Number(u64::from(held.key.account.value())),
        Word::Text(held.key.issue.bytes()),
        Word::Signed(held.position),
        Word::Signed(held.opening),
        Word::Amount(held.contract),
        Word::Number(u64::from(held.age)),
    ];
    write_line(b"position", &words, writer)
}

// What is written after a refusal's number.
fn detail(refusal: Refusal) -> Option<u64>
    ensures { option_map_or (λ n. decimal n ∷ []) result [] ≡ refusal_detail refusal }
{
    match refusal {
        Refusal::AlreadyNoticed { number } => Some(u64::from(number)),
        Refusal::NotLiable { room } => Some(room),
        _ => None,
    }
}

fn write_refused<W: Write>(refusal: Refusal, writer: &mut W) -> Result<(), WriteFault>
    ensures { Writes (W.contents writer.old) (W.contents writer.new) (refused_line refusal) result }
{
    let number = Word::Number(u64::from(refusal.number()));
    match detail(refusal) {
        Some(detail) => write_line(b"refused", &[number, Word::Number(detail)], writer),
        None => write_line(b"refused", &[number], writer),
    }
}

/// Writes the first line of a reply.
///
/// Where the writer fails or takes no byte it answers `WriteFault`, and a prefix of that line was written.
pub fn reply_text<W: Write>(reply: &Reply, writer: &mut W) -> Result<(), WriteFault>
    ensures { Writes (W.contents writer.old) (W.contents writer.new) (reply_line reply.now) result }
{
    match reply {
        Reply::Accepted => write_bytes(b"ok\n", writer),
        Reply::Noticed(number) => write_noticed(*number, writer),
        Reply::Executed(members) => write_executed(*members, writer),
        Reply::Closed(closed) => write_closed(closed, writer),
        Reply::Held(held) => write_held(held, writer),
        Reply::Stated(stated) => write_stated(stated, writer),
        Reply::Refused(refusal) => write_refused(*refusal, writer),
    }
}

fn name_of(fault: LineFault) -> &'static [u8]
    ensures { result.now ≡ fault_name fault }
{
    match fault {
        LineFault::Kind => b"Kind",
        LineFault::Count => b"Count",
        LineFault::Number => b"Number",
        LineFault::Date => b"Date",
        LineFault::Cusip => b"Cusip",
        LineFault::Range => b"Range",
        LineFault::NoMemory => b"NoMemory",
    }
}

// Writes the line of an invalid record.
pub(crate) fn write_fault<W: Write>(fault: LineFault, writer: &mut W) -> Result<(), WriteFault>
    ensures { Writes (W.contents writer.old) (W.contents writer.new) (fault_line fault) result }
{
    write_line(b"line", &[Word::Text(name_of(fault))], writer)
}
