//! The program `cnsbook`, version 0.1.0: the books of Continuous Net Settlement from a command line.
//!
//! `main` gathers the words of the line and lends standard input, output and error; `program` of `cns_program`, where to
//! start, does the rest.
#![tactic(auto)]

use cns_program::{USAGE, program};
use cns_shell::{Fault, fail, refuse_words};
use std::io;
use std::io::BufWriter;
use std::process::ExitCode;

fn main(rt: HostRuntime) -> ExitCode {
    let words = match std::env::args(&rt) {
        Ok(words) => words,
        Err(error) => return ExitCode::from(refuse_words(&error, USAGE, &mut rt.stderr()).status),
    };
    let Ok(words) = words.collect::<Vec<String>>(rt.alloc()) else {
        return ExitCode::from(fail(Fault::NoMemory, &mut rt.stderr()).status);
    };
    let Ok(mut output) = BufWriter::new(rt.alloc(), io::writer(&rt)) else {
        return ExitCode::from(fail(Fault::NoMemory, &mut rt.stderr()).status);
    };
    let status = program(
        &rt,
        words.as_slice(),
        rt.stdin(),
        &mut output,
        &mut rt.stderr(),
    );
    // What was to be written is flushed. What is left was refused, and a drop would hand it on once more.
    let (_writer, _refused) = output.into_parts();
    ExitCode::from(status)
}
