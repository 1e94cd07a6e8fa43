//! The laws of the definitions. Each is the contract of a call that does nothing.
//!
//! Sums, positions, bounds and amounts are laws over accepted activities that commands reach (`IsReached`): each is in its
//! ranges and was not refused. A book's history is told to have reached such activities by `Book::history_len` and
//! `Book::copy_history`, and `reaches` says that any list of commands in their ranges does.
ghost use Rattle.cns_terms.specs.Laws.{Amounts, Bounds, ClosedDays, Positions, Reaches, RefusalOrder, ZeroSums};
ghost use Rattle.cns_book.specs.Closes.{CloseCounts};

/// What is accepted of any list of commands whose values are in their ranges, as those of [`cns_units`] are, was not
/// refused after what was accepted before it.
#[tactic(auto, using(cns_terms::proofs::Reached::reaches))]
pub fn reaches()
    ensures { Reaches }
{}

/// The marks of each closed day's sheet add up to zero cents over all accounts, the corporation's included, and so do
/// its dividends. The day is named by its place or by its date.
#[tactic(auto, using(cns_terms::proofs::SheetSums::zero_sums))]
pub fn zero_sums()
    ensures { ZeroSums }
{}

/// A closed day keeps its sheet, date, prices and rows, whatever is taken later, and each account its statement on it.
/// The day is named by its place or by its date.
#[tactic(auto, using(cns_terms::proofs::ClosedDays::closed_days))]
pub fn closed_days()
    ensures { ClosedDays }
{}

/// In each issue the positions of all accounts add up to zero shares, and so do the cents of the open day.
pub fn positions()
    ensures { Positions }
{}

/// In each issue a member's position stays within 10^10 shares, long with the shares that it is to get by trades that wait,
/// and short with those that it is to give, so that no close takes it beyond; and the corporation's within 10^14.
pub fn bounds()
    ensures { Bounds }
{}

/// No sum of a day is further than 10^34 cents from zero: on each closed day's sheet the cents booked, the values at the
/// close, the marks and the dividends, added up over any first rows, and the open day's cents of each account in each
/// issue, where there are fewer than 2^32 activities.
pub fn amounts()
    ensures { Amounts }
{}

/// The rules of each command stand in the order of their refusals' numbers, so that the first that holds is the one of
/// least number.
#[tactic(auto, using(cns_terms::proofs::RefusalOrder::refusal_order))]
pub fn refusal_order()
    ensures { RefusalOrder }
{}

/// An accepted close tells of its day the date, the number of rows of its sheet and how many members are liable by it:
/// as many as the batches of its day have, over all issues. So it is then, and whatever is taken later. Executions lower
/// what is left of a liability, and take no member out of its batch.
pub fn close_counts()
    ensures { CloseCounts }
{}
