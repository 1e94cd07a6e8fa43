// The line of the program, done.
ghost use Rattle.std.specs.Prelude.{◌≡◌, ◌⊎◌, ◌≤◌, None, Result, Some, map, ⊤};
ghost use Rattle.cns_units.specs.Output.{Writes};
ghost use Rattle.cns_units.specs.declared.fault.WriteFault.{WriteFault};
ghost use Rattle.cns_shell.specs.declared.fault.Fault.TheVariants as faults;
ghost use Rattle.cns_program.specs.declared.asked.Asked.{Asked};
ghost use Rattle.cns_program.specs.Asks.{Asks, HasWorkers};
ghost use Rattle.cns_program.specs.Ends.{IsDone, TellsWork};
ghost use Rattle.cns_shell.specs.Faults.{fault_line};
ghost use Rattle.cns_program.specs.Lines.{IsTold, usage_line};

use crate::asked::{Asked, asked_of};
use crate::replaying::tell_replay;
use crate::running::tell_run;
use crate::stating::tell_statements;
use cns_shell::{Ended, Fault, fail, refuse_usage};
use std::convert::AsStr;
use std::io::{Read, Write};
use std::rt::Files;
use std::sync::Wait;
use std::thread::Threads;

/// The usage, for a line that is refused.
pub const USAGE: &[u8] =
    b"usage: cnsbook replay --open DATE | run --open DATE FILE... | statements --open DATE --day DATE --workers N\n";

// Does what a line asks for.
fn perform<
    F: Read + Send + Drop,
    R: AllocGlobal + Files<File = F> + Threads + Wait + Sync,
    I: Read + Drop,
    O: Write,
    E: Write,
>(rt: &R, asked: &Asked<'_>, input: I, output: &mut O, errors: &mut E) -> Ended
    requires { HasWorkers asked.now }
    ensures status { result.status ≤ 1 }
    ensures done { result.status ≡ 0
        → IsDone F.remaining asked.now (I.remaining input) (O.contents output.old) (O.contents output.new) }
    ensures quiet { result.status ≡ 0 → errors.new ≡ errors.old }
    ensures told { result.status ≡ 1
        → TellsWork F.remaining asked.now (I.remaining input) (O.contents output.old) (O.contents output.new)
        (E.contents errors.old) (E.contents errors.new) result.told }
{
    match asked {
        Asked::Replay(opening) => tell_replay(rt.alloc(), *opening, input, output, errors),
        Asked::Run(opening, files) => tell_run(rt, *opening, files.as_slice(), output, errors),
        Asked::Statements(opening, day, workers) => {
            tell_statements(rt, *opening, *day, *workers, input, output, errors)
        }
    }
}

// The same as `program`, and tells what writing its line to `errors` came to.
fn run_words<
    F: Read + Send + Drop,
    R: AllocGlobal + Files<File = F> + Threads + Wait + Sync,
    S: AsStr,
    I: Read + Drop,
    O: Write,
    E: Write,
>(rt: &R, words: &[S], input: I, output: &mut O, errors: &mut E) -> Ended
    ensures status { result.status ≤ 2 }
    ensures done { result.status ≡ 0 → (a : Asked) × Asks (map S.text words.now) (Some a)
        × IsDone F.remaining a (I.remaining input) (O.contents output.old) (O.contents output.new) }
    ensures quiet { result.status ≡ 0 → errors.new ≡ errors.old }
    // The fault is that of the work, or memory was refused before there was any.
    ensures told { result.status ≡ 1
        → ((a : Asked) × Asks (map S.text words.now) (Some a)
        × TellsWork F.remaining a (I.remaining input) (O.contents output.old) (O.contents output.new)
        (E.contents errors.old) (E.contents errors.new) result.told)
        ⊎ (Writes (E.contents errors.old) (E.contents errors.new) (fault_line faults.NoMemory) result.told
        × (output.new ≡ output.old)) }
    ensures refused { result.status ≡ 2 → Asks (map S.text words.now) None × (output.new ≡ output.old) }
    ensures usage { result.status ≡ 2 → Writes (E.contents errors.old) (E.contents errors.new) usage_line result.told }
{
    match asked_of(rt.alloc(), words) {
        Ok(Some(asked)) => perform(rt, &asked, input, output, errors),
        Ok(None) => refuse_usage(USAGE, errors),
        Err(_) => fail(Fault::NoMemory, errors),
    }
}

/// Runs the program on the words of its line, its name first, and answers its status.
///
/// 0: the work that the line asks for was done, all of the output is written and flushed, and nothing went to `errors`. 1: a
/// fault, whose line went to `errors`; what was written before stands in `output`. 2: the line is refused, or its date is
/// none, so nothing was read, nothing went to `output`, and the usage line to `errors`. A failure to write to `errors`
/// changes no status. `Asks` in `specs/Asks.antt` says what a line asks for.
pub fn program<
    F: Read + Send + Drop,
    R: AllocGlobal + Files<File = F> + Threads + Wait + Sync,
    S: AsStr,
    I: Read + Drop,
    O: Write,
    E: Write,
>(rt: &R, words: &[S], input: I, output: &mut O, errors: &mut E) -> u8
    ensures status { result ≤ 2 }
    // The work is what the words of the line ask for.
    ensures done { result ≡ 0 → (a : Asked) × Asks (map S.text words.now) (Some a)
        × IsDone F.remaining a (I.remaining input) (O.contents output.old) (O.contents output.new) }
    ensures quiet { result ≡ 0 → errors.new ≡ errors.old }
    // The fault is that of the work, or memory was refused before there was any.
    ensures told { result ≡ 1 → (told : Result ⊤ WriteFault)
        × (((a : Asked) × Asks (map S.text words.now) (Some a)
        × TellsWork F.remaining a (I.remaining input) (O.contents output.old) (O.contents output.new)
        (E.contents errors.old) (E.contents errors.new) told)
        ⊎ (Writes (E.contents errors.old) (E.contents errors.new) (fault_line faults.NoMemory) told
        × (output.new ≡ output.old))) }
    ensures refused { result ≡ 2 → Asks (map S.text words.now) None × (output.new ≡ output.old) }
    ensures usage { result ≡ 2 → IsTold (E.contents errors.old) (E.contents errors.new) usage_line }
{
    run_words(rt, words, input, output, errors).status
}
