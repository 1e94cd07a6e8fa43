//! Retransmittal of notices: which shorts are liable for them, and what each execution gives and charges them.
//!
//! Notices of intention to buy in go on to the members that have been short longest. `Batch::choose` takes whole groups of
//! one age, the oldest first, until their shorts total what the notices of a day in an issue call for. An execution fills
//! the members of that batch in order, and each pays its part of the money: `fill` says who gets what, with the shares and
//! the cents adding up exactly, and `charge` lowers what is left of their liability.
//!
//! `Calls` collects at a close what is called in each issue and who is short there, and chooses the day's batches;
//! `Batches` keeps those of all closed days. Start with `Batch`; `Shorts` is what it has to know of the positions now.
#![tactic(auto)]

mod batch;
mod batches;
mod called;
mod calls;
mod choice;
mod day;
mod filling;

pub use batch::Batch;
pub use batches::Batches;
pub use calls::Calls;
pub use cns_terms::{Fill, Liable, Short};
pub use filling::Shorts;
