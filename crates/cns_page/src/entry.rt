// The line of the program, done.
ghost use Rattle.std.specs.Prelude.{◌≡◌, ◌≤◌, IfSome, None, OnOk, Some, map};
ghost use Rattle.cns_units.specs.Output.{Writes};
ghost use Rattle.cns_shell.specs.Faults.{fault_line};
ghost use Rattle.cns_shell.specs.declared.fault.Fault.{Fault};
ghost use Rattle.cns_asked.specs.Asks.{question};
ghost use Rattle.cns_page.specs.Asked.{HasPage};
ghost use Rattle.cns_page.specs.Usage.{usage_line};

use crate::closed::is_folder;
use crate::files::{Folder, check_folder};
use crate::make::make;
use cns_asked::{About, Asked, When, asked_of};
use cns_exceptions::Input;
use cns_shell::{Ended, Fault, fail, refuse_usage};
use std::convert::AsStr;
use std::fs::File;
use std::io::{Read, Write};
use std::rt::Files;

/// The usage, for a line that is refused.
pub const USAGE: &[u8] =
    b"usage: cnspage --open DATE [--day DATE|today] [--account N [--issue CUSIP] | --folder DIR] < RECORDS\n";

// Checks what no record bears on, before anything is read: that a folder that pages are asked for in is there, and that what a day
// did to accounts is asked of a closed one.
fn check_asked<R: Files>(rt: &R, asked: &Asked, folder: &str) -> Result<(), Fault> {
    if is_folder(asked.about) {
        check_folder(rt, folder)?;
    }
    match (asked.about, asked.day) {
        (About::Account(_) | About::Folder, When::Today) => Err(Fault::NoSuchDay),
        _ => Ok(()),
    }
}

// Writes what is asked for, of all that a reader gives.
fn make_of<R: AllocGlobal + Files<File = File>, I: Read, O: Write>(
    rt: &R,
    asked: &Asked,
    folder: &str,
    input: &mut I,
    output: &mut O,
) -> Result<(), Fault>
    ensures { OnOk result (IfSome (I.remaining input.old)
        (λ bytes. HasPage asked.now bytes (O.contents output.old) (O.contents output.new))) }
{
    check_asked(rt, asked, folder)?;
    let alloc = rt.alloc();
    let records = Input::read(alloc, input)?;
    let mut folder = Folder { rt, path: folder };
    make(alloc, asked, records, &mut folder, output)
}

/// Runs the program on the words of its line, its name first, and tells what writing its line to `errors` came to.
///
/// Status 0: the page that the words ask for is written and flushed, or the pages stand in the folder, and nothing went to `errors`.
/// 1: a fault, whose line went to `errors`; what was written before stands in `output`. 2: the line is refused, or a date is none, so
/// nothing was read, nothing went to `output`, and the usage line to `errors`.
pub fn run_words<R: AllocGlobal + Files<File = File>, S: AsStr, I: Read, O: Write, E: Write>(
    rt: &R,
    words: &[S],
    input: &mut I,
    output: &mut O,
    errors: &mut E,
) -> Ended
    ensures status { result.status ≤ 2 }
    ensures page { result.status ≡ 0 → IfSome (I.remaining input.old) (λ bytes. (asked : Asked)
        × (question (map S.text words.now) ≡ Some asked)
        × HasPage asked bytes (O.contents output.old) (O.contents output.new)) }
    ensures quiet { result.status ≡ 0 → errors.new ≡ errors.old }
    ensures told { result.status ≡ 1
        → (f : Fault) × Writes (E.contents errors.old) (E.contents errors.new) (fault_line f) result.told }
    ensures asks { result.status ≡ 2 → question (map S.text words.now) ≡ None }
    ensures refused { result.status ≡ 2 → (output.new ≡ output.old) × (input.new ≡ input.old) }
    ensures usage { result.status ≡ 2
        → Writes (E.contents errors.old) (E.contents errors.new) usage_line result.told }
{
    let (asked, folder) = match asked_of(rt.alloc(), words) {
        Ok(Some(asked)) => asked,
        Ok(None) => return refuse_usage(USAGE, errors),
        Err(_) => return fail(Fault::NoMemory, errors),
    };
    match make_of(rt, &asked, folder, input, output) {
        Ok(()) => Ended::DONE,
        Err(fault) => fail(fault, errors),
    }
}
