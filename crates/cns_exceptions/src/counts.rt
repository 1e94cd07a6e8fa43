// Control totals, and how many exceptions a day has by what they are.
ghost use Rattle.std.specs.Prelude.{◌≡◌, IfOk, map};
ghost use Rattle.cns_exceptions.specs.Counts.{count_at, counted, counts, counts_shown, number, spans_shown};

use crate::finding::Outcome;
use crate::survey::Survey;
use crate::words::KINDS;
use cns_tables::{Piece, ROW, TableRow, write_line};
use cns_terms::NoMemory;
use std::alloc::{AllocError, Global};

/// Records of an input.
#[derive(Clone, Copy)]
pub struct Span {
    /// Which ones.
    pub name: &'static str,
    pub records: u64,
    pub exceptions: u64,
}

/// The control totals: of the records before the day, of the day, and of all.
pub fn spans_of(survey: &Survey) -> [Span; 3]
    ensures { map counts result ≡ spans_shown survey.now }
{
    let exceptions = survey.exceptions_of_day();
    [
        Span {
            name: "Before this day",
            records: survey.from,
            exceptions: survey.exceptions.saturating_sub(exceptions),
        },
        Span {
            name: "This day",
            records: survey.records_of_day(),
            exceptions,
        },
        Span {
            name: "All so far",
            records: survey.records,
            exceptions: survey.exceptions,
        },
    ]
}

impl TableRow for Span {
    ghost use Rattle.cns_exceptions.specs.Counts.{span_text};

    ghost text = { span_text };

    fn write_row(&self, out: &mut Vec<u8>) -> Result<(), AllocError> {
        let cells = [Piece::Count(self.records), Piece::Count(self.exceptions)];
        write_line(ROW, &Piece::Markup(self.name), &cells, out)
    }
}

/// Exceptions of one kind.
#[derive(Clone, Copy)]
pub struct Counted {
    /// The number of the refusal; 0 for invalid records.
    pub number: usize,
    pub name: &'static str,
    pub count: u64,
}

// The number of a refusal; 0 for an invalid record.
fn number_of(outcome: Outcome) -> usize
    ensures { result ≡ number outcome }
{
    match outcome {
        Outcome::AtFault(_) => 0,
        Outcome::Refused(refusal) => usize::from(refusal.number()),
    }
}

// How many exceptions are of the kind with the number. The count stops at 2^64 - 1.
fn count_of(reasons: &[Outcome], kind: usize) -> u64
    ensures { result ≡ count_at kind reasons.now }
{
    reasons
        .iter()
        .filter(|reason| number_of(**reason) == kind)
        .count() as u64
}

/// How many exceptions there are of each kind that there are any of, by their numbers.
pub fn counts_of(alloc: Global, reasons: &[Outcome]) -> Result<Vec<Counted>, NoMemory>
    ensures { IfOk result (λ v. map counted v.items ≡ counts_shown reasons.now) }
{
    let mut counts = Vec::new(alloc);
    for number in 0..KINDS.len() {
        let count = count_of(reasons, number);
        if count == 0 {
            continue;
        }
        counts.push(Counted {
            number,
            name: KINDS[number],
            count,
        })?;
    }
    Ok(counts)
}

impl TableRow for Counted {
    ghost use Rattle.cns_exceptions.specs.Counts.{counted_text};

    ghost text = { counted_text };

    fn write_row(&self, out: &mut Vec<u8>) -> Result<(), AllocError> {
        let name = Piece::Markup(self.name);
        write_line(ROW, &name, &[Piece::Count(self.count)], out)
    }
}
