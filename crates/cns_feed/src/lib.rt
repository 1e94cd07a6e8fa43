//! The feed: records of comma-separated fields in, replies as lines of text out.
//!
//! `command_of` says of each record which command it is, or its first fault; `replay` takes the commands of a reader on
//! a new book and writes each reply, `load` takes them without writing, and `reply_text` writes the first line of a
//! reply; `replay_up_to` and `load_up_to` are the first two over any form of positions, and read at most so many
//! records. `replay_last` is the `replay` of a program that ends after it: it forgets the book, and does not visit each
//! box to give it back. Who has to see each record reads with `Records` and takes with a book of its own. Over a reader
//! and a writer that tell their bytes, a replay that answers Ok has written `output` of all of the input and nothing
//! else; where one that ends with a fault stops is said by `Stops` in `specs/Replay.antt`. Replies are flushed before
//! the reader is asked for more; no clause says so, tests do. What a record is stands in `specs/Line.antt`, the texts in
//! `specs/Text.antt`, and what a whole input comes to in `specs/Output.antt`, where to start reading.
#![tactic(auto)]

mod counting;
mod digits;
mod fault;
mod fields;
mod liable;
mod line;
mod loader;
mod player;
mod records;
mod response;
mod scan;
mod source;
mod summary;
mod text;

pub use counting::read_some;
pub use fault::{LineFault, ReplayFault};
pub use fields::account_of;
pub use line::{Line, command_of};
pub use loader::{load, load_up_to};
pub use player::{replay, replay_last, replay_up_to};
pub use records::{MOST_RECORDS, Records};
pub use response::ReplayBook;
pub use scan::is_line_end;
pub use source::CsvSource;
pub use summary::Summary;
pub use text::reply_text;
