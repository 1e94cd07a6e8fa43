//! The units of the book: shares, money, prices, rates, ratios, accounts, issues and days, and their texts.
//!
//! A value of one of these types is in its range, so nothing above checks a range again. `new` and `parse` are Ok
//! exactly by the range or the written form, and `value`, `bytes` and `number` give the value back. The calls that
//! write put exactly their text to a writer, or a prefix of it where the writer fails. Start with `Shares`, the
//! shortest type, then `Cusip` and `Day`, and `write_bytes`, on which every writing call stands: `write_line` writes
//! the lines of words that every text of the program is made of.
#![tactic(auto)]

mod account;
mod cusip;
mod day;
mod fault;
mod money;
mod output;
mod price;
mod rate;
mod ratio;
mod shares;
mod words;

pub use account::{Account, Member};
pub use cusip::Cusip;
pub use day::{Day, write_day};
pub use fault::{UnitFault, WriteFault};
pub use money::{Cents, Money, write_cents};
pub use output::write_bytes;
pub use price::Price;
pub use rate::Rate;
pub use ratio::Ratio;
pub use shares::Shares;
pub use words::{Word, write_line};
