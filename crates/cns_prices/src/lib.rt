//! The listed issues: the price of each, and which are retired.
//!
//! `Prices` is a finite map from issues to prices, with a set of retired issues among them. A price holds until it is
//! set anew; an issue that is retired stays listed. Only listing an issue takes memory. Start with `Prices`.
#![tactic(auto)]

mod prices;

pub use prices::{Prices, Quote};
