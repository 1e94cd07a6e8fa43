// Splits and exchanges, as one.
use cns_terms::{Exchange, Split};

/// What changes every position in an issue at once (NSCC Procedure VII).
#[derive(Clone, Copy)]
pub enum Action {
    /// So many new shares of the issue for so many old ones.
    Split(Split),
    /// The issue for its successor.
    Exchange(Exchange),
}
