//! The records of an input, played on a book one after another: which of them are exceptions, and what decided it.
//!
//! An input is held in memory (`Input`). `days_of` finds where its days end, by its closes alone. `play_first` takes the first records
//! of it, so many, and gives the memory of each back as it goes; it notes the exceptions after the first so many (`Survey`), and tells
//! the lines of what is watched (`cns_history`). An exception is a record that is no command, or a refused command. What records come to
//! is what the definitions `noted_all`, `looked_back` and `history` say of them, as `ComesTo` in `specs/Survey.antt` has it. The first 200
//! exceptions that are looked at are kept with their texts; a refused command with the facts that decided it (`facts.rt`), each as the
//! book shows it (`IsShown` in `specs/Facts.antt`), and a refused trade with the accepted one that has its reference (`accepted.rt`). An
//! exception, how many there are of each kind and the control totals are rows of tables. Start with `play.rt`, then `survey.rt`.
#![tactic(auto)]

mod accepted;
mod counts;
mod days;
mod exceptions;
mod facts;
mod finding;
mod given;
mod input;
mod play;
mod survey;
mod words;

pub use counts::{Counted, Span, counts_of, spans_of};
pub use days::{Close, Days, days_of};
pub use finding::{Accepted, Cited, Fact, Facts, Finding, Named, Outcome};
pub use input::Input;
pub use play::{Played, play_first};
pub use survey::Survey;
