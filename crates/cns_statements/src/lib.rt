//! Statements: what an account's rows of a closed day say, and the text of them.
//!
//! `statement` copies the rows of an account from a closed day's sheet, with the sums of their marks and of their
//! dividends, so that the statement may outlive the sheet. `write_statement` writes the text of a statement to any
//! writer: the line of `write_stated`, and then the lines of `write_rows`. Over a writer that tells its bytes, a call
//! that answers Ok has written exactly that text, and one that answers `WriteFault` a prefix of it. The texts stand in
//! `specs/Texts.antt`, where to start reading.
//!
//! `pack` makes the statements of all accounts that have a row on a sheet, by several workers at once. A sheet never
//! changes, so neither it nor `statement` waits for a lock. What a packing gives stands in `specs/Packs.antt`.
#![tactic(auto)]

mod contents;
mod cut;
mod fault;
mod packing;
mod rows;
mod text;
mod whole_day;
mod workers;

pub use contents::Statement;
pub use cut::statement;
pub use fault::PackFault;
pub use rows::Rows;
pub use text::{write_rows, write_stated, write_statement};
pub use whole_day::pack;
