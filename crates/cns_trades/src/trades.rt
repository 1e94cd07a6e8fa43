// The checks, and the references.
ghost use Rattle.std.specs.Prelude.{◌≡◌, ℕ, ◌≤◌, ◌||◌, ◌==◌, ◌&&◌, ◌-ℤ◌, ◌++◌, ◌∷◌, [], filter, not, OnOk, OnErr, IfOk, IfErr, Some, unsigned_abs, false, true, nat_lt, int_le, int_lt, neg_ℤ, pos};
ghost use Rattle.std.specs.Option.{ForSome};
ghost use Rattle.cns_units.specs.Day.{day_number};
ghost use Rattle.cns_terms.specs.Limits.{position_limit};
ghost use Rattle.cns_terms.specs.Pending.{is_due, pend_of};
ghost use Rattle.cns_terms.specs.Refusals.{days_ahead, first_refusal, is_exceeded, is_past, is_too_far};
ghost use Rattle.cns_terms.specs.Sums.{short};
ghost use Rattle.cns_trades.specs.Used.{is_used};
ghost use Rattle.cns_trades.specs.Checks.{delivery_answer, issue_rules, party, receipt_answer, trade_answer, AreSmallEntries};

use crate::entries::{moved_in, moved_out};
use crate::facts::{MoveFacts, TradeFacts};
use crate::limits::{Party, book_now, waits_beyond};
use crate::pending::Pending;
use crate::references::References;
use cns_terms::{Entry, Movement, NoMemory, Pend, Refusal, Trade};
use cns_units::{Account, Cusip, Day, Member, Shares};
use std::alloc::Allocator;
use std::marker::Model;

// How many calendar days after today a trade may settle.
const DAYS_AHEAD: i64 = 5;

/// The references that accepted trades used, the trades that wait for their date, and the checks of trades and movements.
#[derive(Drop)]
pub struct Trades<A: Allocator + Drop> {
    references: References<A>,
    pending: Pending<A>,
}

impl<A: Allocator + Drop> Model for Trades<A> {
    ghost use Rattle.cns_trades.specs.Used.{Traded};

    ghost Value = { Traded };

    ghost view = { λ t. record { references = t.references; pending = t.pending } };
}

// How many calendar days after today a date comes; negative where it is past.
fn days_ahead(date: Day, today: Day) -> i64
    ensures { result ≡ day_number date -ℤ day_number today }
{
    i64::from(date.number()) - i64::from(today.number())
}

// Whether a trade may be handed in so many days before it settles.
fn is_ahead_in_time(ahead: i64) -> bool
    ensures { result ≡ (int_le (pos 0) ahead && int_le ahead (pos days_ahead)) }
{
    0 <= ahead && ahead <= DAYS_AHEAD
}

// Whether a trade may settle on a day: on today, or on one of the next five calendar days.
#[tactic(auto, using(crate::proofs::Checking::wide_fits, std::proofs::lemmas::Int::ints))]
fn is_in_time(date: Day, today: Day) -> bool
    ensures { result ≡ not (is_past date today || is_too_far date today) }
{
    is_ahead_in_time(days_ahead(date, today))
}

// Whether a delivery is of more shares than the member is short.
fn is_over_delivered(position: i64, shares: Shares) -> bool
    ensures { result ≡ nat_lt (short position) shares }
{
    position > -(shares.value() as i64)
}

/// Whether more shares are taken from a position than it is long. None are taken from one that is not long, so of that it
/// is not so.
pub fn is_exceeded(position: i64, shares: Shares) -> bool
    ensures { result ≡ is_exceeded position shares }
{
    position > 0 && position < shares.value() as i64
}

/// Whether an issue can be booked in, priced or paid on: it is listed, and not retired.
pub fn check_issue(listed: bool, retired: bool) -> Result<(), Refusal>
    ensures ok { IfOk result (λ _. (listed ≡ true) × (retired ≡ false)) }
    ensures err { IfErr result (λ r. first_refusal (issue_rules listed retired) ≡ Some r) }
{
    if !listed {
        return Err(Refusal::NoSuchIssue);
    }
    if retired {
        return Err(Refusal::Retired);
    }
    Ok(())
}

// Whether fewer shares were delivered to the corporation than a receipt takes.
fn is_not_on_hand(corporation: i64, shares: Shares) -> bool
    ensures { result ≡ int_lt (neg_ℤ (pos shares)) corporation }
{
    corporation > -(shares.value() as i64)
}

impl<A: Allocator + Drop> Trades<A> {
    /// No reference was used yet, and no trade waits. `NoMemory` where the allocator could not be copied.
    pub fn new(alloc: A) -> Result<Self, NoMemory>
    where
        A: Clone,
        ensures references { IfOk result (λ t. (r : ℕ) → is_used t.references r ≡ false) }
        ensures pending { IfOk result (λ t. t.pending ≡ []) }
    {
        Ok(Trades {
            references: References::new(alloc.clone()?),
            pending: Pending::new(alloc)?,
        })
    }

    /// Whether an accepted trade used the reference.
    pub fn seen(&self, reference: u64) -> bool
        ensures { result ≡ is_used self.now.references reference }
    {
        self.references.contains(reference)
    }

    /// Uses a reference. Where memory is refused the references stay as they were.
    pub fn note_reference(&mut self, reference: u64) -> Result<(), NoMemory>
    where
        A: Clone,
        ensures ok { OnOk result
            ((r : ℕ) → is_used self.new.references r ≡ ((reference == r) || is_used self.old.references r)) }
        ensures pending { self.new.pending ≡ self.old.pending }
        ensures err { OnErr result (self.new ≡ self.old) }
    {
        self.references.insert(reference)
    }

    /// Uses the trade's reference and keeps the trade, which is to wait for its date, after those that wait already. Where
    /// memory is refused it does neither (this project's profile).
    pub fn pend(&mut self, trade: &Trade) -> Result<(), NoMemory>
    where
        A: Clone,
        ensures references { OnOk result
            ((r : ℕ) → is_used self.new.references r ≡ ((trade.now.reference == r) || is_used self.old.references r)) }
        ensures pending { OnOk result (self.new.pending ≡ self.old.pending ++ (pend_of trade.now ∷ [])) }
        ensures err { OnErr result (self.new ≡ self.old) }
    {
        self.pending.push(&Pend::of(trade), &mut self.references)
    }

    /// The trades that wait for their date, in the order in which they were taken.
    pub fn pending(&self) -> &[Pend]
        ensures { result.now ≡ self.now.pending }
    {
        self.pending.list()
    }

    /// The trades that wait for their date, with what each member is to get and to give by them.
    pub fn waiting(&self) -> &Pending<A>
        ensures { result.now ≡ self.now.pending }
    {
        &self.pending
    }

    /// Drops the trades that a close books: those whose date is not after the next day, which it names. The others wait on,
    /// in the same order. All references stay used. It takes no memory.
    pub fn settle(&mut self, next: Day)
        ensures references { self.new.references ≡ self.old.references }
        ensures pending { self.new.pending ≡ filter (λ p. not (is_due next p)) self.old.pending }
    {
        self.pending.settle(next);
    }

    // A party of a trade, with what it is to get and to give by trades that wait.
    fn party(&self, position: i64, member: Member, issue: Cusip) -> Party
        ensures { result ≡ party self.now.pending position member issue }
    {
        Party {
            position,
            waiting: self.pending.sides(member.account(), issue),
        }
    }

    /// The first refusal of a trade by number, or what it books for its buyer and its seller; nothing yet where its date is
    /// later than today, so that it waits (NSCC Procedure VII: the obligations of a trade net into the parties' positions;
    /// how far ahead trades come is this project's profile). It takes no memory and uses no reference.
    pub fn check_trade(
        &self,
        facts: &TradeFacts,
        trade: &Trade,
    ) -> Result<Option<[Entry; 2]>, Refusal>
        requires buyer { ForSome facts.now.buyer (λ q. unsigned_abs q ≤ position_limit) }
        requires seller { ForSome facts.now.seller (λ q. unsigned_abs q ≤ position_limit) }
        ensures answer { result
            ≡ trade_answer facts.now self.now.pending (is_used self.now.references trade.now.reference) trade.now }
        ensures small { IfOk result (λ o. ForSome o AreSmallEntries) }
    {
        let Some(buyer) = facts.buyer else {
            return Err(Refusal::NoSuchMember);
        };
        let Some(seller) = facts.seller else {
            return Err(Refusal::NoSuchMember);
        };
        check_issue(facts.listed, facts.retired)?;
        if trade.buyer == trade.seller {
            return Err(Refusal::SameParty);
        }
        if !is_in_time(trade.date, facts.today) {
            return Err(Refusal::WrongDay);
        }
        if self.seen(trade.reference) {
            return Err(Refusal::SeenReference);
        }
        let pend = Pend::of(trade);
        let buyer = self.party(buyer, trade.buyer, trade.issue);
        let seller = self.party(seller, trade.seller, trade.issue);
        if pend.is_due(facts.today) {
            return book_now(&pend, &buyer, &seller);
        }
        if waits_beyond(&pend, &buyer, &seller) {
            return Err(Refusal::TooLarge);
        }
        Ok(None)
    }

    /// The first refusal of a delivery by number, or what it books for the member and the corporation: the shares come
    /// off the member's short, and the corporation owes them on (NSCC Rule 11). It takes no memory.
    pub fn check_delivery(
        &self,
        facts: &MoveFacts,
        movement: &Movement,
    ) -> Result<[Entry; 2], Refusal>
        ensures answer { result ≡ delivery_answer facts.now movement.now }
        ensures small { IfOk result AreSmallEntries }
    {
        let Some(position) = facts.member else {
            return Err(Refusal::NoSuchMember);
        };
        check_issue(facts.listed, facts.retired)?;
        if is_over_delivered(position, movement.shares) {
            return Err(Refusal::ExceedsPosition);
        }
        let member = movement.member.account();
        Ok([
            moved_in(member, movement),
            moved_out(Account::CORPORATION, movement),
        ])
    }

    /// The first refusal of a receipt by number, or what it books for the member and the corporation: the shares come
    /// off the member's long, out of those that were delivered to the corporation (NSCC Rule 11). It takes no memory.
    pub fn check_receipt(
        &self,
        facts: &MoveFacts,
        movement: &Movement,
    ) -> Result<[Entry; 2], Refusal>
        ensures answer { result ≡ receipt_answer facts.now movement.now }
        ensures small { IfOk result AreSmallEntries }
    {
        let Some(position) = facts.member else {
            return Err(Refusal::NoSuchMember);
        };
        check_issue(facts.listed, facts.retired)?;
        if is_exceeded(position, movement.shares) {
            return Err(Refusal::ExceedsPosition);
        }
        if is_not_on_hand(facts.corporation, movement.shares) {
            return Err(Refusal::NotOnHand);
        }
        if position <= 0 {
            return Err(Refusal::NotLong);
        }
        let member = movement.member.account();
        Ok([
            moved_out(member, movement),
            moved_in(Account::CORPORATION, movement),
        ])
    }
}
