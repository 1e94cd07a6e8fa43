// What checks look at.
use cns_units::Day;

/// What a trade is checked against.
#[derive(Clone, Copy)]
pub struct TradeFacts {
    /// The buyer's position in the issue, in shares; None where the buyer is no member.
    pub buyer: Option<i64>,
    /// The seller's position in the issue, in shares; None where the seller is no member.
    pub seller: Option<i64>,
    /// Whether the issue is listed.
    pub listed: bool,
    /// Whether the issue is retired.
    pub retired: bool,
    /// The open day.
    pub today: Day,
}

/// What a delivery or a receipt is checked against.
#[derive(Clone, Copy)]
pub struct MoveFacts {
    /// The member's position in the issue, in shares; None where it is no member.
    pub member: Option<i64>,
    /// The corporation's position in the issue, in shares.
    pub corporation: i64,
    /// Whether the issue is listed.
    pub listed: bool,
    /// Whether the issue is retired.
    pub retired: bool,
}
