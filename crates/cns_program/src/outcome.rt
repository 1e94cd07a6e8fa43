// What a run came to, as the program tells it.
ghost use Rattle.std.specs.Prelude.{◌≡◌, ◌≤◌, ◌↔◌, ◌⊎◌, IfErr, OnOk, Result, true, option_map, ⊤};
ghost use Rattle.std.specs.Io.KnownBytes.{Appends};
ghost use Rattle.cns_units.specs.Output.{Writes};
ghost use Rattle.cns_units.specs.declared.fault.WriteFault.{WriteFault};
ghost use Rattle.cns_shell.specs.declared.fault.Fault.{Fault};
ghost use Rattle.cns_shell.specs.Faults.{fault_line};
ghost use Rattle.cns_program.specs.Lines.{end_line, end_lines, end_name};
ghost use Rattle.cns_program.specs.Ends.{AreComplete, EndsEarly, FailsTally, text_of};

use crate::tally::tally_line;
use cns_desk::{End, Outcome};
use cns_shell::{Ended, Fault, fail};
use cns_terms::SourceFault;
use cns_units::{Word, WriteFault, write_bytes, write_line};
use std::io::Write;

// Writes the tally and hands it on. Nothing is written where it cannot be made, and a writer that failed is left alone.
fn write_tally<O: Write>(outcome: &Outcome, output: &mut O) -> Result<(), Fault>
    ensures ok { OnOk result (Appends (O.contents output.old) (O.contents output.new) (text_of outcome.now)) }
    ensures err { IfErr result (λ f. FailsTally f outcome.now (O.contents output.old) (O.contents output.new)) }
{
    let Ok(line) = tally_line(outcome) else {
        return Err(Fault::NoMemory);
    };
    if write_bytes(line.as_bytes(), output).is_err() || output.flush().is_err() {
        return Err(Fault::Write);
    }
    Ok(())
}

// The word for the end of a worker that ended early.
fn name_of(end: &End) -> Option<&'static [u8]>
    ensures { option_map (λ n. n.now) result ≡ end_name end.now }
{
    match end {
        End::Complete => None,
        End::Source(SourceFault::Read) => Some(b"Read"),
        End::Source(SourceFault::NoMemory) | End::NoMemory => Some(b"NoMemory"),
        End::Full => Some(b"Full"),
    }
}

// Writes the line of a worker, if it ended early.
fn write_end<E: Write>(number: u64, end: &End, errors: &mut E) -> Result<(), WriteFault>
    ensures { Writes (E.contents errors.old) (E.contents errors.new) (end_line number end.now) result }
{
    match name_of(end) {
        Some(name) => write_line(b"worker", &[Word::Number(number), Word::Text(name)], errors),
        None => Ok(()),
    }
}

// Writes the lines of the workers that ended early.
#[tactic(auto, using(std::proofs::lemmas::Result::err_from_is_err_and, crate::proofs::EndsTold::lines_more, crate::proofs::EndsTold::lines_failed))]
fn write_ends<E: Write>(ends: &[End], errors: &mut E) -> Result<(), WriteFault>
    ensures { Writes (E.contents errors.old) (E.contents errors.new) (end_lines 1 ends.now) result }
{
    for (place, end) in ends.iter().enumerate() {
        write_end(place as u64 + 1, end, errors)?;
    }
    Ok(())
}

// Whether all workers came to the end of their sources.
fn are_complete(ends: &[End]) -> bool
    ensures { (result ≡ true) ↔ AreComplete ends.now }
{
    ends.iter().all(|end| *end == End::Complete)
}

/// Writes the tally of a run to `output`, and to `errors` a line for each worker that ended early.
///
/// The status is 0 where all came to the end of their sources, and then nothing went to `errors`. Else it is 1: a worker
/// ended early, or the tally could not be made or written, and then the line of that fault is the only one.
pub fn tell_outcome<O: Write, E: Write>(outcome: &Outcome, output: &mut O, errors: &mut E) -> Ended
    ensures status { result.status ≤ 1 }
    ensures done { result.status ≡ 0 → AreComplete outcome.now.ends.items
        × Appends (O.contents output.old) (O.contents output.new) (text_of outcome.now) }
    ensures quiet { result.status ≡ 0 → errors.new ≡ errors.old }
    ensures told { result.status ≡ 1
        → EndsEarly outcome.now (O.contents output.old) (O.contents output.new) (E.contents errors.old)
        (E.contents errors.new) result.told
        ⊎ ((f : Fault) × FailsTally f outcome.now (O.contents output.old) (O.contents output.new)
        × Writes (E.contents errors.old) (E.contents errors.new) (fault_line f) result.told) }
{
    if let Err(fault) = write_tally(outcome, output) {
        return fail(fault, errors);
    }
    let ends = outcome.ends.as_slice();
    if are_complete(ends) {
        return Ended::DONE;
    }
    Ended {
        status: 1,
        told: write_ends(ends, errors),
    }
}

/// The status of `tell_outcome`, which it answers also where writing to `errors` fails.
pub fn write_outcome<O: Write, E: Write>(outcome: &Outcome, output: &mut O, errors: &mut E) -> u8
    ensures status { result ≤ 1 }
    ensures done { result ≡ 0 → AreComplete outcome.now.ends.items
        × Appends (O.contents output.old) (O.contents output.new) (text_of outcome.now) }
    ensures quiet { result ≡ 0 → errors.new ≡ errors.old }
    ensures told { result ≡ 1 → (told : Result ⊤ WriteFault)
        × (EndsEarly outcome.now (O.contents output.old) (O.contents output.new) (E.contents errors.old)
        (E.contents errors.new) told
        ⊎ ((f : Fault) × FailsTally f outcome.now (O.contents output.old) (O.contents output.new)
        × Writes (E.contents errors.old) (E.contents errors.new) (fault_line f) told)) }
{
    tell_outcome(outcome, output, errors).status
}
