// The members with a position or an age in an issue.
ghost use Rattle.std.specs.Prelude.{◌≡◌, ◌≤◌, ◌∷◌, [], IfSome, MatchOption, false, true, not, pos};
ghost use Rattle.std.specs.FinMap.{is_sorted};
ghost use Rattle.std.specs.Ordering.{int_eq, is_lt};
ghost use Rattle.cns_terms.specs.Keys.{key_cmp};
ghost use Rattle.cns_terms.specs.Limits.{member_limit};
ghost use Rattle.cns_actions.specs.Changes.{has_position_or_age};
ghost use Rattle.cns_actions.specs.Holding.{holder_at, holders_after, is_of_next};

use cns_positions::Positions;
use cns_terms::{Holding, Key};
use cns_units::{Account, Cusip};

/// A member with a position in an issue, or with the age of a short that it closed since.
#[derive(Clone, Copy)]
pub(crate) struct Holder {
    pub account: Account,
    /// The position in shares.
    pub shares: i64,
    /// The age to which the next close would add itself, in closes.
    pub oldest: u32,
}

impl Holder {
    /// Whether it has a position, and not an age alone.
    pub fn has_position(&self) -> bool
        ensures { result ≡ not (int_eq self.now.shares (pos 0)) }
    {
        self.shares != 0
    }
}

// The issue that comes last in the order of bytes: `Z` has the highest code of all characters that have a value. Only
// speed rests on it: if rows of an account came after it, they would be passed one by one.
#[tactic(auto, unfolding(cns_units::specs::Cusip::sum_of))]
fn last_issue() -> Cusip {
    let Ok(issue) = Cusip::parse(b"ZZZZZZZZ0") else {
        unreachable!()
    };
    issue
}

// A key from which on no rows of an account are left, and not before a row of it.
#[tactic(auto, using(cns_terms::proofs::Keys::keys_total, cns_terms::proofs::Finds::not_itself))]
fn past(row: &Key) -> Key
    ensures account { result.account ≡ row.now.account }
    ensures order { is_lt (key_cmp result row.now) ≡ false }
{
    let last = Key {
        account: row.account,
        issue: last_issue(),
    };
    if last < *row { *row } else { last }
}

// Whether a row is of another account than the one that was passed last.
fn is_of_next(passed: &Option<Key>, row: &Key) -> bool
    ensures { result ≡ is_of_next passed.now row.now }
{
    match passed {
        Some(last) => last.account != row.account,
        None => true,
    }
}

// Whether a position or an age stands there.
fn has_position_or_age(holding: &Holding) -> bool
    ensures { result ≡ has_position_or_age holding.entry.now }
{
    holding.now != 0 || holding.oldest() != 0
}

// An account as a member with a position or an age in an issue, if it is one.
fn holder_at<P: Positions<A>, A>(positions: &P, account: Account, issue: &Cusip) -> Option<Holder>
    ensures holder { result ≡ holder_at (P.rows positions.now) account issue.now }
    ensures range { IfSome result (λ h. h.account ≤ member_limit) }
{
    let holding = positions.get(Key {
        account,
        issue: *issue,
    });
    if account.value() == 0 || !has_position_or_age(&holding) {
        return None;
    }
    Some(Holder {
        account,
        shares: holding.now,
        oldest: holding.oldest(),
    })
}

/// The next member with a position or an age in an issue, after the accounts that are passed: those up to that of the
/// key.
///
/// An account costs two ways down, to its first row and to its place in the issue; its other rows are passed over.
#[tactic(auto, using(crate::proofs::Skipping::none_left, crate::proofs::Skipping::same_left))]
pub(crate) fn next_holder<P: Positions<A>, A>(
    positions: &P,
    issue: &Cusip,
    passed: &mut Option<Key>,
) -> Option<Holder>
    requires { is_sorted key_cmp (P.rows positions.now) ≡ true }
    ensures next { MatchOption result (holders_after (P.rows positions.now) issue.now passed.old ≡ [])
        (λ h. holders_after (P.rows positions.now) issue.now passed.old
        ≡ h ∷ holders_after (P.rows positions.now) issue.now passed.new) }
    ensures range { IfSome result (λ h. h.account ≤ member_limit) }
{
    while let Some((row, _)) = positions.next_row(*passed) {
        let is_new = is_of_next(passed, &row);
        *passed = Some(past(&row));
        if is_new {
            if let Some(holder) = holder_at(positions, row.account, issue) {
                return Some(holder);
            }
        }
    }
    None
}
