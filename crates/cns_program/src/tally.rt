// The tally of a run as JSON: the program's line on standard output.
ghost use Rattle.std.specs.Prelude.{◌≡◌, IfOk, codes, map, pos, string_bytes};
ghost use Rattle.serde_json.specs.Data.{array, member, no_members, object, string};
ghost use Rattle.serde_json.specs.View.{items_of, view};
ghost use Rattle.cns_program.specs.Tally.{counts_to, lines_to, total_text, whole, workers_of};
ghost use Rattle.cns_program.specs.Ends.{text_of};

use cns_desk::{DeskBook, Log, LogItem, Outcome};
use cns_terms::{NoMemory, Reply, Worker};
use cns_units::{Cents, write_cents};
use serde_json::{Value, json};
use std::alloc::Global;

// The sums of the marks and of the dividends over the sheets of the closes that a worker's log has.
fn totals_of(book: &DeskBook, items: &[LogItem]) -> (Cents, Cents)
    ensures { result ≡ (pos 0, pos 0) }
{
    let mut marks = 0;
    let mut dividends = 0;
    for item in items {
        let Reply::Closed(closed) = &item.receipt.reply else {
            continue;
        };
        let Some(sheet) = book.sheet(closed.date) else {
            continue;
        };
        marks += sheet.total_marks().value();
        dividends += sheet.total_dividends().value();
    }
    (Cents::of(marks), Cents::of(dividends))
}

// The same over all logs, which have all closes of the history.
fn totals(outcome: &Outcome) -> (Cents, Cents)
    ensures { result ≡ (pos 0, pos 0) }
{
    let mut marks = 0;
    let mut dividends = 0;
    for log in outcome.logs.as_slice() {
        let (mark, dividend) = totals_of(&outcome.book, log.items());
        marks += mark.value();
        dividends += dividend.value();
    }
    (Cents::of(marks), Cents::of(dividends))
}

// An amount of cents as text.
#[tactic(auto, using(crate::proofs::Tallied::total_is_text))]
fn amount(alloc: Global, cents: Cents) -> Result<String, NoMemory>
    requires { cents ≡ pos 0 }
    ensures { IfOk result (λ s. string_bytes s ≡ total_text) }
{
    let mut bytes = Vec::new(alloc);
    let Ok(()) = write_cents(cents, &mut bytes) else {
        return Err(NoMemory);
    };
    let Ok(text) = String::from_utf8(bytes) else {
        unreachable!()
    };
    Ok(text)
}

// What a tally says of the workers.
#[derive(Drop)]
struct Counted {
    // How many commands of each worker were taken.
    counts: Vec<Value>,
    // The invalid records of all.
    lines: u64,
}

// Goes through the workers that have a log.
fn counted_of(alloc: Global, book: &DeskBook, logs: &[Log]) -> Result<Counted, NoMemory>
    ensures counts { IfOk result
        (λ t. map view t.counts.items ≡ map whole (counts_to book.now.log (workers_of logs.now))) }
    ensures lines { IfOk result (λ t. t.lines ≡ lines_to logs.now (workers_of logs.now)) }
{
    let mut counts = Vec::new(alloc);
    let mut lines = 0;
    for place in 0..logs.len().min(64) {
        let Ok(worker) = Worker::new(place as u8 + 1) else {
            unreachable!()
        };
        let Ok(()) = counts.push(Value::from(book.count(worker))) else {
            return Err(NoMemory);
        };
        lines += u64::from(logs[place].lines());
    }
    Ok(Counted { counts, lines })
}

// A tally as data.
fn members(
    alloc: Global,
    closes: u64,
    commands: u64,
    counted: Counted,
    dividends: &str,
    marks: &str,
) -> Result<Value, NoMemory>
    ensures { IfOk result (λ v. view v ≡ object (member (codes "closes") (whole closes)
        (member (codes "commands") (whole commands)
        (member (codes "counts") (array (items_of (map view counted.counts.items)))
        (member (codes "dividends") (string dividends.now)
        (member (codes "lines") (whole counted.lines)
        (member (codes "marks") (string marks.now) no_members))))))) }
{
    let Counted { counts, lines } = counted;
    let members = json!(in alloc; {
        "closes": closes,
        "commands": commands,
        "counts": Value::Array(counts),
        "dividends": dividends,
        "lines": lines,
        "marks": marks,
    })?;
    Ok(members)
}

/// The tally of an outcome: one line of JSON without a space, and a line feed. Its members are `closes`, the accepted
/// closes; `commands`, the length of the history; `counts`, how many commands of each worker were taken; `dividends` and
/// `marks`, the sums over the sheets of all closes, as texts of cents; `lines`, the invalid records of all workers.
pub fn tally_line(outcome: &Outcome) -> Result<String, NoMemory>
    ensures { IfOk result (λ s. string_bytes s ≡ text_of outcome.now) }
{
    let alloc = *outcome.logs.allocator();
    let (marks, dividends) = totals(outcome);
    let marks = amount(alloc, marks)?;
    let dividends = amount(alloc, dividends)?;
    let counted = counted_of(alloc, &outcome.book, outcome.logs.as_slice())?;
    let closes = outcome.book.day() - 1;
    let commands = outcome.book.history_len() as u64;
    let tally = members(
        alloc,
        closes,
        commands,
        counted,
        dividends.as_str(),
        marks.as_str(),
    )?;
    let mut line = tally.to_string(alloc)?;
    line.push('\n')?;
    Ok(line)
}
