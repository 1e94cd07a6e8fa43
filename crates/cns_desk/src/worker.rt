// What one worker does.
ghost use Rattle.std.specs.Prelude.{◌≡◌, ◌+◌, ◌^◌, ◌<◌, ◌≤◌, IfNone, IfSome, Some, None};
ghost use Rattle.cns_desk.specs.Worked.{Adds, EndsAtSubmit, StaysLogged, Steps, Worked};

use crate::desk::Desk;
use crate::end::End;
use crate::log::{Log, LogItem};
use crate::seat::Seat;
use cns_book::TakeFault;
use cns_positions::Positions;
use cns_terms::{Command, Gate, Item, Source, SourceFault};
use std::alloc::Global;
use std::sync::Wait;
use std::sync::ledger::Ledger;

// The most records that one worker reads.
const MOST_RECORDS: u32 = u32::MAX;

// What the workers of a run share.
#[derive(Drop)]
pub(crate) struct Shared<'e, L: Ledger, P: Positions<Global>, G: Gate, R> {
    pub(crate) rt: &'e R,
    pub(crate) alloc: Global,
    pub(crate) desk: &'e Desk<L, P>,
    pub(crate) gate: &'e G,
}

// What a worker hands back.
#[derive(Drop)]
pub(crate) struct Done<L: Ledger> {
    pub(crate) seat: Seat<L>,
    pub(crate) log: Log,
    pub(crate) end: End,
}

// Submits a command between the calls of the gate, also one that is not taken, and logs what it was answered. Room in the
// log comes first, so that a command that was taken is always logged. None where the worker goes on.
fn submit_one<L: Ledger, P: Positions<Global>, G: Gate, R: Wait>(
    shared: &Shared<'_, L, P, G, R>,
    seat: &mut Seat<L>,
    log: &mut Log,
    command: &Command,
) -> Option<End>
    requires { seat.old.count + 1 < 2 ^ 32 }
    ensures goes { IfNone result (Adds log.old log.new (Some command.now)) }
    ensures ends { IfSome result (λ e. StaysLogged log.old log.new × EndsAtSubmit e) }
    ensures seat { seat.new.count ≤ seat.old.count + 1 }
{
    if log.reserve().is_err() {
        return Some(End::NoMemory);
    }
    let worker = seat.worker();
    let seq = seat.count() + 1;
    shared.gate.before(shared.rt, worker, seq);
    let answer = shared.desk.submit(shared.rt, seat, *command);
    shared.gate.answered(shared.rt, worker, seq);
    match answer {
        Ok(receipt) => {
            log.push(LogItem {
                receipt,
                command: *command,
                sheet: None,
            });
            None
        }
        Err(TakeFault::Full) => Some(End::Full),
        Err(TakeFault::NoMemory) => Some(End::NoMemory),
    }
}

// Reads one record and submits its command, or counts it where it is invalid. None where the worker goes on.
fn step<L: Ledger, P: Positions<Global>, S: Source, G: Gate, R: Wait>(
    shared: &Shared<'_, L, P, G, R>,
    seat: &mut Seat<L>,
    source: &mut S,
    log: &mut Log,
) -> Option<End>
    requires count { seat.old.count + 1 < 2 ^ 32 }
    requires lines { log.old.lines + 1 < 2 ^ 32 }
    ensures told { IfSome (S.told source.old) (λ t. Steps S.may_fail t result (S.told source.new) log.old log.new) }
    ensures seat { seat.new.count ≤ seat.old.count + 1 }
    ensures lines { log.new.lines ≤ log.old.lines + 1 }
{
    match source.next() {
        Ok(Item::Given(command)) => submit_one(shared, seat, log, &command),
        Ok(Item::Line) => {
            log.line();
            None
        }
        Ok(Item::Finished) => Some(End::Complete),
        Err(fault) => Some(End::Source(fault)),
    }
}

// Submits what the source gives, until the source ends or a command is not taken.
pub(crate) fn work<L: Ledger, P: Positions<Global>, S: Source + Drop, G: Gate, R: Wait>(
    shared: &Shared<'_, L, P, G, R>,
    seat: Seat<L>,
    source: S,
) -> Done<L>
    requires { seat.count ≡ 0 }
    ensures { IfSome (S.told source) (λ t. Worked S.may_fail t result.log result.end) }
{
    let mut seat = seat;
    let mut source = source;
    let mut log = Log::new(shared.alloc);
    for _turn in 0..MOST_RECORDS {
        if let Some(end) = step(shared, &mut seat, &mut source, &mut log) {
            return Done { seat, log, end };
        }
    }
    Done {
        seat,
        log,
        end: End::Source(SourceFault::Read),
    }
}
