//! The rows of a closed day over all accounts, as the tables of its page have them.
//!
//! Each call takes the book as the close left it and the day's sheet, and answers the rows of a table as values: the CNS accounting
//! summary with what each mark comes from (`lines_of`), the sums by issue (`issue_sums`), the members' fails to deliver (`shorts_of`),
//! the liable members (`liable_members`), the notices in force (`live_notices`), the trades that settle later (`dues_of`) with what is
//! due at each place (`all_due`, and `projected_all` of one account), and the figures of the last days (`line_of_days`). The clauses say
//! which rows these are, by the definitions of `specs`, and `TableRow` says how each is written. Start with `summary.rt`.
#![tactic(auto)]

mod due;
mod figures;
mod issues;
mod liable;
mod notices;
mod projection;
mod shorts;
mod summary;

pub use due::{DueAt, Later, Projected, all_due, later_shares, projected_all};
pub use figures::{Figures, line_of_days};
pub use issues::{IssueSums, SumsByIssue, issue_sums};
pub use liable::{Owing, liable_members};
pub use notices::{Numbered, live_notices};
pub use projection::{Due, dues_of};
pub use shorts::{Aged, shorts_of};
pub use summary::{SheetLine, Sums, lines_of};
