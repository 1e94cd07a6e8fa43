//! The sheet of a closed day: a row for each account and issue with something to say, and the prices of the day.
//!
//! A sheet is built once, from positions, prices and the dividends that its close pays, and never changes. Its type
//! keeps that its rows are in the order of accounts and then of the bytes of the issues, that each row's mark follows
//! from its other columns, that in each issue the closing positions of all accounts add up to zero, and that all marks,
//! and all dividends, add up to zero cents. Its rows stand in a balanced tree, where a row, or the first of an account, is
//! one way down; of each the tree keeps the columns that neither its key nor the rule of the mark gives. A price is found
//! by halving. Start with `Sheet`; `Payment` is a dividend that a close pays.
#![tactic(auto)]

mod columns;
mod cutting;
mod in_issue;
mod in_order;
mod keyed;
mod lowest;
mod payments;
mod prices;
mod quotes;
mod same;
mod search;
mod sheet;
mod sums;
mod walks;

pub use cns_terms::Row;
pub use payments::Payment;
pub use sheet::Sheet;
pub use walks::{AccountRows, SheetRows};
