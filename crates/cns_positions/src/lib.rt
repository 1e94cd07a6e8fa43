//! Positions: what stands at each account's place in each issue.
//!
//! The trait `Positions` is a finite map from keys to holdings that counts an absent key as zeros; its clauses say all
//! that the layers above use, so one form can take another's place without a change there. `TreePositions` keeps the
//! rows in a balanced tree; replays stand on it. `FlatPositions` keeps them in one sorted list and halves it: it is the
//! form to read first, and the one that tests set beside the other. All memory is taken by `prepare`, `enter` and
//! `rebuilt`; `add`, `carry` and `roll` only write. Start with `Positions`; `run` shows every form at work.
#![tactic(auto)]

mod flat;
mod holding;
mod positions;
mod steps;
mod tree;

pub use flat::FlatPositions;
pub use holding::rolled;
pub use positions::{NextRows, Positions, ROWS_AT_ONCE};
pub use steps::{Step, run};
pub use tree::TreePositions;
