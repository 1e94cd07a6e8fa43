//! The program `cnspage`: a closed day of the book as a page for a browser.
//!
//! `main` gathers the words of the line and lends standard input, output and error; `run_words` of `cns_page`, where to
//! start, does the rest.
#![tactic(auto)]

use cns_page::{USAGE, run_words};
use cns_shell::{Fault, fail, refuse_words};
use std::io;
use std::io::BufWriter;
use std::process::ExitCode;

fn main(rt: HostRuntime) -> ExitCode {
    let words = match std::env::args(&rt) {
        Ok(words) => words,
        Err(error) => return ExitCode::from(refuse_words(&error, USAGE, &mut rt.stderr()).status),
    };
    let Ok(words) = words.collect::<Vec<String>>(rt.alloc()) else {
        return ExitCode::from(fail(Fault::NoMemory, &mut rt.stderr()).status);
    };
    let Ok(mut output) = BufWriter::new(rt.alloc(), io::writer(&rt)) else {
        return ExitCode::from(fail(Fault::NoMemory, &mut rt.stderr()).status);
    };
    let ended = run_words(
        &rt,
        words.as_slice(),
        &mut rt.stdin(),
        &mut output,
        &mut rt.stderr(),
    );
    // What was to be written is flushed. What is left was refused, and a drop would hand it on once more.
    let (_writer, _refused) = output.into_parts();
    ExitCode::from(ended.status)
}
