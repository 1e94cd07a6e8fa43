//! The words of the book: commands, replies, refusals and what is kept of them, as plain data, and the definitions.
//!
//! ```text
//! account     0, the corporation, or 1 to 9999, the members
//! issue       known by its CUSIP, with the price last set
//!
//!             account 101 -----+
//!                              +---- holding    now       position in shares: above 0 long, below 0 short
//!             issue 037833100 -+                opening   position at the last close
//!                                               contract  cents booked on the open day
//!                                               run       age of a short: closes in a row at which it was short
//!                                               carried   greatest age that the day's exchanges brought there
//!
//! day         opening date            CLOSE names the next date        CLOSE
//!             |                       |                                |
//!             |---- day 1, closed ----|--------- day 2, closed --------|---- day 3, open: trades, prices, ...
//!                                     |                                |
//! sheet                               sheet of day 1                   sheet of day 2         never changes
//!                                       date, price of each issue
//!                                       rows, by account and issue:
//!                                         opening, closing, opening price, price, money, mark, dividend
//!                                       statement of an account: its rows and their sums
//! ```
//!
//! The code here is data, and two traits that workers are handed: a `Source` gives commands, a `Gate` is called around
//! each step. What the book promises stands in `specs/`: every value is a sum, a count or a filter
//! over the list of accepted activities, the newest first, so that a reader can check a rule without the code. Start
//! with `specs/Machine.antt`, which recomputes each reply from the accepted activities; `specs/Refusals.antt` has the
//! rules by which a command is refused, `specs/Entries.antt` what an accepted one books, `specs/Laws.antt` what holds of
//! all of it.
#![tactic(auto)]

mod action;
mod buy_in;
mod command;
mod fault;
mod gate;
mod history;
mod holding;
mod pend;
mod probe;
mod refusal;
mod reply;
mod sheet;
mod source;
mod worker;

pub use action::{Declared, Exchange, Split};
pub use buy_in::{Execution, Fill, Given, Liable, Short, Stage};
pub use command::{Activity, Command, Listing, Movement, Trade};
pub use fault::NoMemory;
pub use gate::{Gate, NoGate};
pub use history::Taken;
pub use holding::{Entry, Holding, Key, POSITION_LIMIT, long};
pub use pend::Pend;
pub use probe::Probe;
pub use refusal::Refusal;
pub use reply::{Closed, Held, Reply, Stated};
pub use sheet::Row;
pub use source::{Item, Source, SourceFault};
pub use worker::Worker;
