//! The program `cnsbook` over any reader and writers: its line, its statuses, its subcommands.
//!
//! `program` takes the words of a line, a reader and two writers, and answers the status: 0 where the work was done, 1 at
//! a fault, of which `errors` gets one line, 2 for a line that is refused, where it gets the usage. `replay` answers
//! records with replies; `run` takes the records of several files side by side, one worker a file, and writes a tally;
//! `statements` writes the statements of all accounts for a closed day. The crate `cnsbook` lends it standard input,
//! output and error. Start with `program`.
#![tactic(auto)]

mod asked;
mod entry;
mod fault;
mod outcome;
mod replaying;
mod running;
mod stating;
mod tally;

pub use entry::{USAGE, program};
pub use outcome::write_outcome;
