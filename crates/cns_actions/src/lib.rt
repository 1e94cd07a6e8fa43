//! Splits, exchanges and openings: what shares become, and what is booked for it.
//!
//! `split_of` and `exchange_of` say what one position becomes, with the cents that are paid for what the cut to whole
//! shares leaves. `bookings_for` makes what a split or an exchange books, for every member that holds the issue, and the
//! opposite of the sums for the corporation: it finds the members account by account (`holder.rt`), and makes for each
//! (`change.rt`) an entry and the age that an exchange brings (`booking.rt`). `bookings_due` makes what the trades book
//! whose date has come with a close, added up by key (`due_amounts.rt`). Both give `Bookings`, which are then made in
//! positions: `enter` finds the rows, and `book` only writes. `next_positions` and `opened` make them in a copy, beside
//! the positions that they were given.
//!
//! The crate knows positions by their trait alone. Start with `Bookings`.
#![tactic(auto)]

mod acting;
mod action;
mod beside;
mod booking;
mod bookings;
mod change;
mod conversion;
mod due_amounts;
mod due_bookings;
mod fault;
mod holder;

pub use acting::bookings_for;
pub use action::Action;
pub use beside::{next_positions, opened};
pub use bookings::Bookings;
pub use cns_terms::{Exchange, Split};
pub use conversion::{exchange_of, split_of};
pub use due_bookings::bookings_due;
pub use fault::ActionFault;
