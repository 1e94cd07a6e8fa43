//! What the programs share towards the shell that starts them: the words of a line, the status, and a fault's line.
//!
//! An option is read by its name (`option`, `date_of`), a line as `clap` takes it (`matches_of`). A program ends with a
//! status: 0 where the work was done, 1 at a fault, of which standard error gets one line (`fail`), 2 for a line that is
//! refused, where it gets the usage (`refuse_usage`). Start with `Fault`.
#![tactic(auto)]

mod ended;
mod fault;
mod options;

pub use ended::{Ended, fail, refuse_usage, refuse_words};
pub use fault::Fault;
pub use options::{bare_command, date_of, matches_of, option, required_option, value};
