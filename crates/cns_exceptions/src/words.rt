// Faults, refusals and stages in words.
ghost use Rattle.std.specs.Prelude.{◌≡◌};
ghost use Rattle.cns_feed.specs.Text.{fault_name};
ghost use Rattle.cns_exceptions.specs.Exceptions.{stage_name};

use cns_book::Stage;
use cns_feed::LineFault;
use cns_terms::{Activity, Command, Refusal};

/// The name of a fault.
pub(crate) fn fault_name(fault: LineFault) -> &'static str
    ensures { result.now ≡ fault_name fault }
{
    match fault {
        LineFault::Kind => "Kind",
        LineFault::Count => "Count",
        LineFault::Number => "Number",
        LineFault::Date => "Date",
        LineFault::Cusip => "Cusip",
        LineFault::Range => "Range",
        LineFault::NoMemory => "NoMemory",
    }
}

/// How a notice stands.
pub(crate) fn stage_name(stage: Stage) -> &'static str
    ensures { result.now ≡ stage_name stage }
{
    match stage {
        Stage::Live => "live",
        Stage::Withdrawn => "withdrawn",
        Stage::Ended => "ended by a split or an exchange",
        Stage::Expired => "expired",
    }
}

/// What is wrong with an invalid record, after the name of its fault.
pub(crate) fn fault_words(fault: LineFault) -> &'static str {
    match fault {
        LineFault::Kind =>
            ": the first field is none of the kinds of record; kinds are in capitals.",
        LineFault::Count => ": the kind takes another number of fields.",
        LineFault::Number => ": a field of digits is empty, or has something else than digits.",
        LineFault::Date => {
            ": a date is not written as year, month and day, or there is no such day."
        }
        LineFault::Cusip => {
            ": a text is no CUSIP: its length, a character or its check digit is wrong."
        }
        LineFault::Range => ": the number of a field is outside its range.",
        LineFault::NoMemory => ": there was no memory to read a field.",
    }
}

// Who is no member.
fn no_member_words(command: &Command) -> &'static str {
    match command {
        Command::Activity(Activity::Trade(_)) => ": the buyer or the seller is no member.",
        Command::Activity(_) => ": the member is none.",
        _ => ": the account is neither 0 nor a member's.",
    }
}

// The rule that a date broke.
fn wrong_day_words(command: &Command) -> &'static str {
    match command {
        Command::Activity(Activity::Trade(_)) => {
            ": a trade settles today or up to five calendar days later."
        }
        Command::Activity(Activity::Close(_)) => ": the next day is after today.",
        _ => ": a record date is not past, and before its payable date.",
    }
}

/// Why a command is refused, after the number of the refusal.
pub(crate) fn refusal_words(refusal: Refusal, command: &Command) -> &'static str {
    match refusal {
        Refusal::MemberExists => ": there is a member with this number already.",
        Refusal::NoSuchMember => no_member_words(command),
        Refusal::IssueExists => ": the issue was listed before.",
        Refusal::NoSuchIssue => ": an issue is not listed.",
        Refusal::Retired => ": an issue is retired, since it was exchanged for another.",
        Refusal::SameParty => ": buyer and seller are the same.",
        Refusal::SameIssue => ": the old issue and its successor are the same.",
        Refusal::WrongDay => wrong_day_words(command),
        Refusal::SeenReference => ": an accepted trade has this reference.",
        Refusal::ExceedsPosition =>
            ": more shares than the position allows, or than remain of the notice.",
        Refusal::NotOnHand => {
            ": the corporation has not that many shares on hand, which are the opposite of its position."
        }
        Refusal::NotLong => ": the member is not long in the issue.",
        Refusal::AlreadyNoticed { .. } => ": the member has a live notice in the issue.",
        Refusal::NoSuchNotice => ": no notice has this number.",
        Refusal::NotLive => ": the notice is not live any more.",
        Refusal::TooEarly => ": a notice is executed on the second day after its own.",
        Refusal::NotLiable { .. } => ": the liable members can be given fewer shares.",
        Refusal::TooLarge => {
            ": a position would be beyond 10,000,000,000 shares, pending trades counted."
        }
        Refusal::NoSuchDay => ": no closed day has this date.",
        Refusal::PendingTrades => ": a trade in the old issue is pending.",
    }
}

/// The kinds of exceptions: invalid records, and each refusal at its number.
pub(crate) const KINDS: [&str; 21] = [
    "Invalid record",
    "Refused 1, member exists",
    "Refused 2, no such member",
    "Refused 3, issue exists",
    "Refused 4, no such issue",
    "Refused 5, retired",
    "Refused 6, same party",
    "Refused 7, same issue",
    "Refused 8, wrong day",
    "Refused 9, seen reference",
    "Refused 10, exceeds position",
    "Refused 11, not on hand",
    "Refused 12, not long",
    "Refused 13, already noticed",
    "Refused 14, no such notice",
    "Refused 15, not live",
    "Refused 16, too early",
    "Refused 17, not liable",
    "Refused 18, too large",
    "Refused 19, no such day",
    "Refused 20, pending trades",
];
