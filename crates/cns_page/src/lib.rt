//! A day of the book as a page for a browser: one HTML file that stands by itself.
//!
//! `run_words` takes the words of a line, a reader of records and two writers. It reads the records into memory, finds where their days
//! end, and plays them (`cns_exceptions`) up to the close of the day that the page is of (`source.rt`); so what comes after a close changes
//! nothing on its page, and stands on the page of the open day (`today.rt`). A closed day (`closed.rt`) is the book as its close left it,
//! with what was noted and watched. A page is made in memory: a head, tables in a fixed order (`captions.rt`), each gathered before it is
//! added, and a foot. What the day did to an account is a page too (`account.rt`), and so is the history of a position (`history.rt`). All
//! pages of a day are kept in a folder (`folder.rt`), each file whole or not at all (`files.rt`). At status 0 what was written is exactly
//! that, as `HasPage` in `specs/Asked.antt` says, for some captions. Start with `page.rt`.
#![tactic(auto)]

mod account;
mod captions;
mod closed;
mod entry;
mod files;
mod folder;
mod foot;
mod history;
mod make;
mod page;
mod source;
mod today;

pub use entry::{USAGE, run_words};
