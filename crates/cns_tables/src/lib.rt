//! A page for a browser as it is made, in memory: texts, and tables with their rows.
//!
//! A page is a head, tables and a foot. A `Table` has a title, a caption and columns, and its rows are what `TableRow` says of
//! their type; `Page::table` adds any of them and counts its rows, and its clause `HasMore` says byte for byte what is added. All
//! text is made of `Piece`: markup lives as long as the program, so no byte of a record is among it, and texts and issues are
//! escaped. `page_style` is how each page looks. Start with `table.rt`.
#![tactic(auto)]

mod escape;
mod grouped;
mod piece;
mod style;
mod table;

pub use escape::write_escaped;
pub use piece::{Piece, cents_of, write_form, write_markup, write_piece};
pub use style::{START, STYLE, page_style};
pub use table::{Page, ROW, Table, TableRow, write_line};
