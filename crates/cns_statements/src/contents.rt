// What a statement has.
use crate::rows::Rows;
use cns_units::{Account, Cents, Day};
use std::alloc::Allocator;

/// What an account's rows of a closed day say.
#[derive(Drop)]
pub struct Statement<A: Allocator + Drop> {
    pub account: Account,
    /// The closed day's date.
    pub date: Day,
    /// The account's rows of the day's sheet.
    pub rows: Rows<A>,
    /// The sum of their marks, in cents.
    pub mark: Cents,
    /// The sum of their dividends, in cents.
    pub dividend: Cents,
}
