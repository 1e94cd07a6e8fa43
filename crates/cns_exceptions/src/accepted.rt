// The accepted trades that have the references of refused ones.
ghost use Rattle.std.specs.Prelude.{◌≡◌, map};
ghost use Rattle.cns_history.specs.Entries.{looked_at};
ghost use Rattle.cns_exceptions.specs.Accepted.{record_at, with_entry, with_found, with_trade};

use crate::finding::{Accepted, Finding};
use cns_feed::ReplayBook;
use cns_history::accepted_trade;
use cns_terms::{Taken, Trade};

// The number of the record whose command has the place in the history, from 1, by the numbers of the invalid records, in order:
// each of these that stands before it makes it one higher.
fn record_at(invalid: &[u64], place: u32) -> u64
    ensures { result ≡ record_at invalid.now place }
{
    invalid.iter().fold(u64::from(place), |number, other| {
        if *other <= number {
            number.saturating_add(1)
        } else {
            number
        }
    })
}

// Notes an accepted trade at a place of the history, where the exception has its reference, and none before it had.
fn note_trade(finding: &mut Finding, invalid: &[u64], place: u32, trade: &Trade)
    ensures { finding.new ≡ with_trade invalid.now place trade.now finding.old }
{
    if finding.accepted.is_none() && finding.named.reference == Some(trade.reference) {
        finding.accepted = Some(Accepted {
            number: record_at(invalid, place),
            trade: *trade,
        });
    }
}

fn note_each(findings: &mut [Finding], invalid: &[u64], place: u32, trade: &Trade)
    ensures { findings.new ≡ map (with_trade invalid.now place trade.now) findings.old }
{
    for finding in findings.iter_mut() {
        note_trade(finding, invalid, place, trade);
    }
}

// Notes an entry of the history, where it is an accepted trade.
#[tactic(auto, using(crate::proofs::AcceptedLemmas::entry_noted, crate::proofs::AcceptedLemmas::no_trade))]
fn note_entry(findings: &mut [Finding], invalid: &[u64], place: u32, entry: &Taken)
    ensures { findings.new ≡ map (with_entry invalid.now place entry.now) findings.old }
{
    if let Some(trade) = accepted_trade(entry) {
        note_each(findings, invalid, place, &trade);
    }
}

/// Notes in each exception the accepted trade that has its reference, in one walk of the history; by the numbers of the invalid
/// records.
pub(crate) fn note_accepted(book: &ReplayBook, invalid: &[u64], findings: &mut [Finding])
    ensures { findings.new ≡ map (with_found invalid.now (looked_at book.now.log.history)) findings.old }
{
    for place in 1..u32::MAX {
        let Some(entry) = book.entry(place) else {
            return;
        };
        note_entry(findings, invalid, place, &entry);
    }
}
