// A notice, as the book shows it.
use cns_notices::Stage;
use cns_units::{Cusip, Member, Shares};

/// A notice of intention to buy in, as it stands.
#[derive(Clone, Copy, PartialEq, Eq)]
pub struct Notice {
    /// The member that gave it.
    pub member: Member,
    pub issue: Cusip,
    /// The shares that it was given for.
    pub shares: Shares,
    /// The number of the day on which it was given, from 1.
    pub given: u32,
    pub stage: Stage,
    /// The shares that remain of it now: 0 where it is not live.
    pub remaining: u64,
}
