// Why a command is refused.
ghost use Rattle.std.specs.Prelude.{◌≡◌};
ghost use Rattle.cns_terms.specs.Numbers.{refusal_number};

/// Why a command is refused. Where several conditions hold, the reply is the refusal of least number (this project's
/// profile).
#[derive(Clone, Copy, PartialEq, Eq)]
pub enum Refusal {
    /// 1: the member's number is taken.
    MemberExists,
    /// 2: a party is no member, or an account is neither the corporation's nor a member's.
    NoSuchMember,
    /// 3: the CUSIP was listed before.
    IssueExists,
    /// 4: the issue is not listed, or one of the two of an exchange.
    NoSuchIssue,
    /// 5: the issue is retired, or one of the two of an exchange.
    Retired,
    /// 6: buyer and seller are the same.
    SameParty,
    /// 7: old issue and successor are the same.
    SameIssue,
    /// 8: a trade's date is before today or more than five calendar days after it, a dividend's record date is before today
    /// or its payable date not after the record date, or the next date of a close is not after today.
    WrongDay,
    /// 9: an accepted trade has the reference.
    SeenReference,
    /// 10: more shares than the member is short, or than the position that a receipt or notice is taken from.
    ExceedsPosition,
    /// 11: the corporation has not been delivered that many shares.
    NotOnHand,
    /// 12: the member is not long.
    NotLong,
    /// 13: the member has a live notice in the issue, the one numbered so.
    AlreadyNoticed { number: u32 },
    /// 14: no notice has the number.
    NoSuchNotice,
    /// 15: the notice is not live.
    NotLive,
    /// 16: the notice cannot be executed yet.
    TooEarly,
    /// 17: more shares than the batch has room for.
    NotLiable { room: u64 },
    /// 18: a member would be beyond 10,000,000,000 shares in an issue, long with those that it is to get by trades that wait,
    /// or short with those that it is to give.
    TooLarge,
    /// 19: no closed day has the date.
    NoSuchDay,
    /// 20: a trade in the old issue of an exchange waits for its date.
    PendingTrades,
}

impl Refusal {
    /// The refusal's number, 1 to 20.
    pub fn number(self) -> u8
        ensures { result ≡ refusal_number self }
    {
        match self {
            Refusal::MemberExists => 1,
            Refusal::NoSuchMember => 2,
            Refusal::IssueExists => 3,
            Refusal::NoSuchIssue => 4,
            Refusal::Retired => 5,
            Refusal::SameParty => 6,
            Refusal::SameIssue => 7,
            Refusal::WrongDay => 8,
            Refusal::SeenReference => 9,
            Refusal::ExceedsPosition => 10,
            Refusal::NotOnHand => 11,
            Refusal::NotLong => 12,
            Refusal::AlreadyNoticed { .. } => 13,
            Refusal::NoSuchNotice => 14,
            Refusal::NotLive => 15,
            Refusal::TooEarly => 16,
            Refusal::NotLiable { .. } => 17,
            Refusal::TooLarge => 18,
            Refusal::NoSuchDay => 19,
            Refusal::PendingTrades => 20,
        }
    }
}
