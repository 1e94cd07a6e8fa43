//! What a closed day did to an account: its rows of the sheet with what moved them, by cause, and what its marks come from.
//!
//! `moves_of_day` adds up what moved each position on a day, in one pass: the trades that settled, of the book's history, and the lines
//! of what the day's other records booked (`take_watched` of `cns_history`). By `laws.rt` this takes each position from its opening to
//! its closing, and comes to its mark. `rows_of` gives the rows of an account's statement, in order, each with what moved it, of the book
//! as the close left it and the day's sheet. What reaches back behind the day is noted from replies (`Past`): the dividends that the
//! close paid (`dividends_of`), and since when a short is short and what the price did to it (`fail_of`) come from that. `TableRow` says how
//! each is written, and `tables.rt` has their captions. Start with `row.rt`.
#![tactic(auto)]

mod day_moves;
mod dividends;
mod fails;
pub mod laws;
mod mark;
mod moves;
mod past;
mod row;
mod tables;

pub use day_moves::{DayMoves, moves_of_day};
pub use dividends::{PaidDividend, dividends_of};
pub use fails::{Fail, fail_of};
pub use mark::{Causes, MarkRow, marks_of, price_move};
pub use moves::{Moved, Moves, wrapped_shares, wrapped_sum};
pub use past::Past;
pub use row::{AccountRow, Totals, rows_of, totals_of};
pub use tables::{BOOKINGS, DIVIDENDS, FAILS, MARKS, POSITIONS};
