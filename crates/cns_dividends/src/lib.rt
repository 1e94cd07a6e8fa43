//! Declared dividends: which of them a close pays, and the cash of each position.
//!
//! `Dividends` keeps each declared dividend, in the order in which they are paid: by the payable date, and those of one
//! date in the order of declaration. A close asks for those that have become payable since the close before, at the cost
//! of a search and a step for each of them. Only declaring takes memory. Start with `Dividends`; `cash` says what a
//! position gets or owes for one of them.
#![tactic(auto)]

mod dividends;
mod payment;

pub use cns_terms::Declared;
pub use dividends::{Dividends, Due};
pub use payment::cash;
