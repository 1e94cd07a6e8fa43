//! Plays records for tests from outside, which look at what it writes.
//!
//! With no word on its line it plays each book of standard input over both forms of positions, see `playing`; with `desk`
//! the records of standard input at a desk, see `desk`; with another word in a book of which it makes statements, see
//! `statements`. What each prints is compared by `tests/cases.py` and `tests/refused.sh`. Start with `playing`.
#![tactic(auto)]

mod calls;
mod desk;
mod playing;
mod statements;

use std::process::ExitCode;
use std::{env, io};

// The word after the program's name, if the line has one.
fn word(rt: &HostRuntime) -> io::Result<Option<String>> {
    let mut words = env::args(rt)?;
    let _name = words.next();
    Ok(words.next())
}

fn main(rt: HostRuntime) -> ExitCode {
    match word(&rt) {
        Ok(Some(word)) if word.as_str() == "desk" => desk::play(&rt, rt.stdin()),
        Ok(Some(_)) => statements::play(&rt, rt.stdin()),
        Ok(None) => playing::play(&rt, rt.stdin()),
        Err(_) => ExitCode::from(3),
    }
}
