//! Trades and movements: what refuses one, what it books, the references of trades, and trades that wait for their date.
//!
//! The checks look at plain facts that the book hands in, so each answers by the rules alone: the first refusal by
//! number, or the two entries, whose shares and cents add up to zero, or none yet where a trade is to wait. The references
//! that accepted trades used are a set. Trades that wait are a list in the order in which they were taken, with what each
//! member is to get and to give by them added up beside it. Start with `Trades`.
#![tactic(auto)]

mod entries;
mod facts;
mod limits;
mod pending;
mod references;
mod sides;
mod trades;

pub use facts::{MoveFacts, TradeFacts};
pub use limits::is_beyond;
pub use pending::Pending;
pub use sides::Sides;
pub use trades::{Trades, check_issue, is_exceeded};
