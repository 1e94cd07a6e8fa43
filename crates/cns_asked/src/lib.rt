//! The line of `cnspage`, and what it asks for.
//!
//! `asked_of` reads the words of a line as `clap` does: the date on which the book opens, the day, and what a page is about. That this is
//! what the words ask for, and that all other lines are refused, is said by the definition `question` in `specs/Asks.antt`. Nothing here
//! knows of pages, so that the pages need not wait for it to be proved. Start with `Asked` in `asked.rt`.
#![tactic(auto)]

mod asked;

pub use asked::{About, Asked, When, asked_of, closed_date};
