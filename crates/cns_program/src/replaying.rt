// The subcommand `replay`.
ghost use Rattle.std.specs.Prelude.{◌≡◌, ◌≤◌, IfErr, IfSome, OnOk};
ghost use Rattle.std.specs.Io.KnownBytes.{Appends};
ghost use Rattle.cns_feed.specs.Output.{output as output_of};
ghost use Rattle.cns_program.specs.Ends.{FailsReplay, TellsReplay};

use cns_feed::{ReplayFault, replay_last};
use cns_shell::{Ended, Fault, fail};
use cns_units::Day;
use std::alloc::Global;
use std::convert::From;
use std::io::{Read, Write};

// Replays the input, and flushes the output also where the input could not be read or memory was refused: what was
// answered is to be seen. A writer that failed is left alone; one that cannot be flushed then is the fault.
fn replay_input<I: Read + Drop, O: Write>(
    alloc: Global,
    opening: Day,
    input: I,
    output: &mut O,
) -> Result<(), ReplayFault>
    ensures output { OnOk result (IfSome (I.remaining input)
        (λ bytes. Appends (O.contents output.old) (O.contents output.new) (output_of opening bytes))) }
    ensures fault { IfErr result
        (λ f. FailsReplay f opening (I.remaining input) (O.contents output.old) (O.contents output.new)) }
{
    let played = replay_last(alloc, input, output, opening);
    if let Err(ReplayFault::Write) = played {
        return Err(ReplayFault::Write);
    }
    let flushed = output.flush();
    match flushed {
        Ok(()) => match played {
            Ok(_) => Ok(()),
            Err(fault) => Err(fault),
        },
        Err(_) => Err(ReplayFault::Write),
    }
}

/// Replays the input by a book that opens on the date, and tells a fault.
// It is not put in line: its frame has the reader, 16 KiB and more, and the other subcommands would have that in theirs.
#[inline(never)]
pub fn tell_replay<I: Read + Drop, O: Write, E: Write>(
    alloc: Global,
    opening: Day,
    input: I,
    output: &mut O,
    errors: &mut E,
) -> Ended
    ensures status { result.status ≤ 1 }
    ensures done { result.status ≡ 0 → IfSome (I.remaining input)
        (λ bytes. Appends (O.contents output.old) (O.contents output.new) (output_of opening bytes)) }
    ensures quiet { result.status ≡ 0 → errors.new ≡ errors.old }
    ensures told { result.status ≡ 1
        → TellsReplay opening (I.remaining input) (O.contents output.old) (O.contents output.new)
        (E.contents errors.old) (E.contents errors.new) result.told }
{
    match replay_input(alloc, opening, input, output) {
        Ok(()) => Ended::DONE,
        Err(fault) => fail(Fault::from(fault), errors),
    }
}
