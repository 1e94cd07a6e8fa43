// The subcommand `run`.
ghost use Rattle.std.specs.Prelude.{◌≡◌, ◌≤◌, IfErr, IfOk, List, length, vec_len};
ghost use Rattle.cns_program.specs.Ends.{IsOutcome, IsRun, ReadEach, Reads, TellsRun};
ghost use Rattle.cns_program.specs.Faults.{IsOfOpening, IsOfRun};

use crate::fault::run_fault;
use crate::outcome::tell_outcome;
use cns_desk::{Outcome, run_workers};
use cns_feed::CsvSource;
use cns_shell::{Ended, Fault, fail};
use cns_terms::{Item, NoGate, Source, SourceFault};
use cns_units::Day;
use std::alloc::Global;
use std::fs;
use std::io::{Read, Write};
use std::rt::Files;
use std::sync::Wait;
use std::thread::Threads;

// The source over a file. The tables and the buffer of its reader, 16 KiB, are on the heap, so that each frame that a source
// moves through has a pointer, and no copy of them.
struct FileSource<F: Read> {
    records: Box<CsvSource<F>>,
}

impl<F: Read + Drop> FileSource<F> {
    // No record was read yet. It is not put in line: its frame has the copy that the box is filled from.
    #[inline(never)]
    fn new(alloc: Global, file: F) -> Result<FileSource<F>, Fault>
        ensures told { IfOk result (λ s. Reads F.remaining file s.records.value.told) }
        ensures err { IfErr result (λ f. f ≡ Fault.NoMemory) }
    {
        let Ok(records) = Box::new(alloc, CsvSource::new(alloc, file)) else {
            return Err(Fault::NoMemory);
        };
        Ok(FileSource { records })
    }
}

impl<F: Read + Drop> Drop for FileSource<F> {
    // It is not put in line: a caller's frame would have what the box hands out.
    #[inline(never)]
    fn drop(self) {
        let FileSource { records } = self;
        drop(records);
    }
}

impl<F: Read> Source for FileSource<F> {
    ghost use Rattle.std.specs.Prelude.{true};

    ghost told = { λ s. s.records.value.told };

    ghost ended = { λ s. s.records.value.ended };

    ghost may_fail = { true };

    fn next(&mut self) -> Result<Item, SourceFault> {
        self.records.next()
    }
}

// Opens the files, from left to right, as the sources of the workers. It is not put in line: its frame has the copy of a
// name that is opened, 8 KiB, and is gone when the workers run.
#[inline(never)]
fn open_files<F: Read + Drop, R: AllocGlobal + Files<File = F>>(
    rt: &R,
    files: &[&str],
) -> Result<Vec<FileSource<F>>, Fault>
    ensures ok { IfOk result (λ v. vec_len v ≡ length files.now) }
    ensures read { IfOk result (λ v. (opened : List F) × (length opened ≡ length files.now)
        × ReadEach (λ s. s.records.value.told) F.remaining v.items opened) }
    ensures err { IfErr result (λ f. IsOfOpening (length files.now) f) }
{
    let mut sources = Vec::new(rt.alloc());
    for (place, name) in files.iter().enumerate() {
        let Ok(file) = fs::open(rt, *name) else {
            return Err(Fault::Open(place as u64 + 1));
        };
        let source = FileSource::new(rt.alloc(), file)?;
        let Ok(()) = sources.push(source) else {
            return Err(Fault::NoMemory);
        };
    }
    Ok(sources)
}

// Opens the files and runs a worker for each. Where one cannot be opened no worker is started.
#[tactic(auto, using(crate::proofs::Opened::ran_by))]
fn run_files<F: Read + Send + Drop, R: AllocGlobal + Files<File = F> + Threads + Wait + Sync>(
    rt: &R,
    opening: Day,
    files: &[&str],
) -> Result<Outcome, Fault>
    requires { (1 ≤ length files.now) × (length files.now ≤ 64) }
    ensures ok { IfOk result (IsOutcome F.remaining (length files.now)) }
    ensures err { IfErr result (λ f. IsOfRun (length files.now) f) }
{
    let sources = open_files(rt, files)?;
    match run_workers(rt, rt.alloc(), opening, sources, &NoGate) {
        Ok(outcome) => Ok(outcome),
        Err(fault) => Err(run_fault(fault)),
    }
}

/// Runs a worker for each of the files, of which there are 1 to 64, over a book that opens on the date, and tells what it
/// came to. Where a file cannot be opened no worker is started.
pub fn tell_run<
    F: Read + Send + Drop,
    R: AllocGlobal + Files<File = F> + Threads + Wait + Sync,
    O: Write,
    E: Write,
>(rt: &R, opening: Day, files: &[&str], output: &mut O, errors: &mut E) -> Ended
    requires { (1 ≤ length files.now) × (length files.now ≤ 64) }
    ensures status { result.status ≤ 1 }
    ensures done { result.status ≡ 0
        → IsRun F.remaining (length files.now) (O.contents output.old) (O.contents output.new) }
    ensures quiet { result.status ≡ 0 → errors.new ≡ errors.old }
    ensures told { result.status ≡ 1
        → TellsRun F.remaining (length files.now) (O.contents output.old) (O.contents output.new)
        (E.contents errors.old) (E.contents errors.new) result.told }
{
    match run_files(rt, opening, files) {
        Ok(outcome) => tell_outcome(&outcome, output, errors),
        Err(fault) => fail(fault, errors),
    }
}
