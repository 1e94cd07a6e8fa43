//! The book: what was taken, and what it amounts to.
//!
//! `Book::take` answers each command with what recomputing from the accepted activities gives, and enters the command
//! and its reply into the history. Contracts see a book as its log, which is its opening date, its limit and its history,
//! and how many rows its positions have; every reading call is its definition over the log. After a refusal the log is
//! as it was but for the new entry, and wholly so where it runs out of memory or is at its limit. Start with `Book` in `book.rt`;
//! the parts that make its answers fast are in `parts.rt`, and what ties each to the history in `specs/Follows.antt`.
#![tactic(auto)]

mod book;
mod buy_in;
mod closed_days;
mod counted;
mod effect;
mod history;
pub mod laws;
mod members;
mod notice;
mod parts;
mod receipt;

pub use book::Book;
pub use cns_notices::Stage;
pub use notice::Notice;
pub use receipt::{Receipt, TakeFault};
