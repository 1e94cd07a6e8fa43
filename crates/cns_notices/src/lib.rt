//! Notices of intention to buy in: which of them are live, and what remains of each.
//!
//! `Notices` keeps each notice that a long member gave, numbered 1, 2, 3 in the order in which they were accepted, with its
//! stage, what its member received of the issue since, and what it bought in. A member has at most one live notice in an
//! issue. The contracts see the list of notices, so a caller reads each call as a change of that list. Only giving a notice
//! takes memory. Start with `Notices`.
#![tactic(auto)]

mod changes;
mod latest;
mod noticed;
mod notices;

pub use cns_terms::{Given, Stage};
pub use notices::Notices;
