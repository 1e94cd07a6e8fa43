//! What each record booked, as lines: at a position, or at all positions of an account or of all.
//!
//! `take_watched` takes a command and adds the lines of what is watched. A record has a line where the shares or the cents that stand at
//! the place are others after it than before it; an accepted close has one where the day's sheet has a row there, and a line of its own
//! below for trades that it booked. The lines are those of `history` in `specs/Lines.antt`, and `TableRow` says how each stands in the
//! history of a position, and what a record booked among those for an account. Start with `Watched` in `play.rt`.
#![tactic(auto)]

mod booked;
mod entries;
mod everywhere;
pub mod laws;
mod line;
mod play;
mod told;
mod words;

pub use booked::bookings_for;
pub use entries::{Entries, accepted_trade, entries_of};
pub use everywhere::{accounts_in, issues_of};
pub use line::{Booking, Closing, HistoryLine, worth};
pub use play::{Watched, Whose, take_watched};
pub use told::{shares_between, standing};
