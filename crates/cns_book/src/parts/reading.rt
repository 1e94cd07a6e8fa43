// What the parts show.
ghost use Rattle.std.specs.Prelude.{◌≡◌, ◌≤◌, Some, None, option_map, reverse, unsigned_abs, if◌then◌else◌};
ghost use Rattle.std.specs.Arc.{arc_value};
ghost use Rattle.std.specs.Option.{ForSome, option_copied};
ghost use Rattle.cns_terms.specs.declared.command.Command.TheVariants as command;
ghost use Rattle.cns_terms.specs.Days.{date, day};
ghost use Rattle.cns_terms.specs.Fills.{batches};
ghost use Rattle.cns_terms.specs.Limits.{position_limit};
ghost use Rattle.cns_terms.specs.Listings.{is_account, is_listed, is_member, is_retired};
ghost use Rattle.cns_terms.specs.Holdings.{holding};
ghost use Rattle.cns_terms.specs.Machine.{answer_over};
ghost use Rattle.cns_terms.specs.Pending.{pending};
ghost use Rattle.cns_terms.specs.Refusals.{first_refusal};
ghost use Rattle.cns_terms.specs.Sheets.{sheet_on};
ghost use Rattle.cns_trades.specs.Checks.{issue_rules};
ghost use Rattle.cns_positions.specs.Rows.{holding_at};
ghost use Rattle.cns_book.specs.Dated.{dated_sheet};
ghost use Rattle.cns_book.specs.Follows.{HasRoom, Refuses, Shows, member_position};
ghost use Rattle.cns_book.specs.Shown.{batch_listed, position_listed, notice_listed, price_listed};

use crate::notice::Notice;
use crate::parts::Parts;
use cns_positions::Positions;
use cns_retransmit::Batch;
use cns_sheets::Sheet;
use cns_terms::{Held, Holding, Key, Refusal, Reply};
use cns_trades::{Pending, check_issue};
use cns_units::{Account, Cusip, Day, Member, Price};
use std::alloc::Allocator;
use std::sync::Arc;

// The position of a holding, in shares. It stands apart since the proof of a longer function takes up each field of a holding
// that it has in hand, its cents too.
fn shares_of(holding: &Holding) -> i64
    ensures { result ≡ holding.entry.now.now }
{
    holding.now
}

impl<P: Positions<A>, A: Allocator + Drop + Clone> Parts<P, A> {
    /// The open day's date.
    pub fn today(&self) -> Day
        ensures { Shows self.now (λ J. result ≡ date self.now.opening J) }
    {
        self.today
    }

    /// The open day's number, from 1.
    pub fn day(&self) -> u64
        ensures { Shows self.now (λ J. result ≡ day J) }
    {
        u64::from(self.closes) + 1
    }

    /// The price of an issue, None where it is not listed.
    pub fn price(&self, issue: Cusip) -> Option<Price>
        ensures { Shows self.now (λ J. result ≡ price_listed J issue) }
    {
        self.prices.price(issue)
    }

    /// Whether the account is there: the corporation's always is.
    pub fn is_account(&self, account: Account) -> bool
        ensures { Shows self.now (λ J. result ≡ is_account J account) }
    {
        account == Account::CORPORATION || self.members.contains(account)
    }

    // Whether the issue is listed.
    fn is_listed(&self, issue: Cusip) -> bool
        ensures { Shows self.now (λ J. result ≡ is_listed J issue) }
    {
        self.prices.price(issue).is_some()
    }

    /// Whether the issue is listed, and whether it is retired.
    pub fn listed_and_retired(&self, issue: Cusip) -> (bool, bool)
        ensures listed { Shows self.now (λ J. result.0 ≡ is_listed J issue) }
        ensures retired { Shows self.now (λ J. result.1 ≡ is_retired J issue) }
    {
        match self.prices.quote(issue) {
            Some(quote) => (true, quote.retired),
            None => (false, false),
        }
    }

    /// Why an issue is not booked in, priced or paid on: it is not listed, or it is retired.
    pub fn issue_refusal(&self, issue: Cusip) -> Option<Refusal>
        ensures { Shows self.now (λ J. result ≡ first_refusal (issue_rules (is_listed J issue) (is_retired J issue))) }
    {
        let (listed, retired) = self.listed_and_retired(issue);
        match check_issue(listed, retired) {
            Ok(()) => None,
            Err(refusal) => Some(refusal),
        }
    }

    /// What stands at a key. Where only the position is asked for, no more than that is read.
    #[inline(always)]
    pub fn holding(&self, key: Key) -> Holding
        ensures now { result ≡ holding_at self.now.rows key }
        ensures member { HasRoom self.now → 1 ≤ key.account → unsigned_abs result.now ≤ position_limit }
        ensures value { Shows self.now (λ J. result ≡ holding J key.account key.issue) }
    {
        self.positions.get(key)
    }

    /// The positions at two accounts' places in an issue, in shares, which are looked up at once.
    #[inline(always)]
    pub fn two_positions(&self, first: Account, second: Account, issue: Cusip) -> (i64, i64)
        ensures first { Shows self.now (λ J. result.0 ≡ (holding J first issue).now) }
        ensures second { Shows self.now (λ J. result.1 ≡ (holding J second issue).now) }
        ensures first_member { HasRoom self.now → 1 ≤ first → unsigned_abs result.0 ≤ position_limit }
        ensures second_member { HasRoom self.now → 1 ≤ second → unsigned_abs result.1 ≤ position_limit }
    {
        let issue = &issue;
        let (first, second) = self.positions.get_two(
            Key {
                account: first,
                issue: *issue,
            },
            Key {
                account: second,
                issue: *issue,
            },
        );
        (shares_of(&first), shares_of(&second))
    }

    /// A position, None where the account that has it is no member's.
    pub fn if_member(&self, member: Member, position: i64) -> Option<i64>
        ensures value { Shows self.now (λ J. result ≡ (if is_member J member then Some position else None)) }
        ensures member { 1 ≤ member }
        ensures same { ForSome result (λ q. q ≡ position) }
    {
        if self.members.contains(member.account()) {
            Some(position)
        } else {
            None
        }
    }

    /// A member's position, None where it is no member.
    pub fn member_position(&self, member: Member, issue: Cusip) -> Option<i64>
        ensures value { Shows self.now (λ J. result ≡ member_position J member issue) }
        ensures member { 1 ≤ member }
        ensures small { HasRoom self.now → ForSome result (λ q. unsigned_abs q ≤ position_limit) }
    {
        let account = member.account();
        if self.members.contains(account) {
            Some(self.holding(Key { account, issue }).now)
        } else {
            None
        }
    }

    /// Why a POSITION is refused.
    pub fn position_refusal(&self, key: Key) -> Option<Refusal>
        ensures { Refuses self.now (command.Position key) result }
    {
        if !self.is_account(key.account) {
            return Some(Refusal::NoSuchMember);
        }
        if !self.is_listed(key.issue) {
            return Some(Refusal::NoSuchIssue);
        }
        None
    }

    /// What a POSITION would show, None where it would be refused.
    pub fn position(&self, key: Key) -> Option<Holding>
        ensures { Shows self.now (λ J. result ≡ position_listed self.now.opening J key) }
    {
        let key = &key;
        match self.position_refusal(*key) {
            Some(_) => None,
            None => Some(self.holding(*key)),
        }
    }

    /// POSITION.
    pub fn answer_position(&self, key: Key) -> Reply
        ensures { Shows self.now (λ J. result ≡ answer_over self.now.opening J (command.Position key)) }
    {
        let key = &key;
        match self.position_refusal(*key) {
            Some(refusal) => Reply::Refused(refusal),
            None => Reply::Held(Held::of(*key, self.holding(*key))),
        }
    }

    /// The trades that wait for their date, in the order in which they were taken.
    pub fn pending(&self) -> &Pending<A>
        ensures { Shows self.now (λ J. result.now ≡ reverse (pending self.now.opening J)) }
    {
        self.trades.waiting()
    }

    /// The sheet of the closed day with the date; None where no closed day has it.
    #[tactic(auto, using(crate::proofs::ClosedDaysSearch::sheet_found))]
    pub fn sheet(&self, date: Day) -> Option<&Arc<Sheet<A>, A>>
        ensures now { option_map arc_value (option_copied result) ≡ dated_sheet self.now.sheets date }
        ensures value { Shows self.now
            (λ J. option_map arc_value (option_copied result) ≡ sheet_on self.now.opening J date) }
    {
        self.closed.find(date)
    }

    /// A notice as it stands; None where none has the number.
    #[tactic(auto, using(crate::proofs::NoticeSteps::notice_missing, crate::proofs::NoticeSteps::notice_read))]
    pub fn notice(&self, number: u32) -> Option<Notice>
        ensures { Shows self.now (λ J. result ≡ notice_listed J number) }
    {
        if !self.is_noticed(number) {
            return None;
        }
        let given = self.notices.given(number);
        Some(Notice {
            member: given.member,
            issue: given.issue,
            shares: given.shares,
            given: given.day,
            stage: self.notices.stage(number),
            remaining: self.remaining(number),
        })
    }

    /// The batches of a day, in the order of the bytes of their issues; none where the day is not closed.
    #[tactic(auto, using(crate::proofs::ExecutionRefusals::on_day))]
    pub fn batches(&self, day: u32) -> &[Batch<A>]
        ensures { Shows self.now (λ J. result.now ≡ batches J day) }
    {
        self.batches.of_day(u64::from(day))
    }

    /// The batch of a day in an issue; None where nobody is liable there.
    #[tactic(auto, using(crate::proofs::ExecutionRefusals::on_day))]
    pub fn batch(&self, day: u32, cusip: Cusip) -> Option<&Batch<A>>
        ensures { Shows self.now (λ J. option_copied result ≡ batch_listed J day cusip) }
    {
        self.batches.find(u64::from(day), cusip)
    }

    /// STATEMENT.
    #[tactic(auto, using(crate::proofs::ClosedDaysSearch::sheet_found))]
    pub fn answer_statement(&self, account: Account, date: Day) -> Reply
        ensures { Shows self.now (λ J. result ≡ answer_over self.now.opening J (command.Statement account date)) }
    {
        if !self.is_account(account) {
            return Reply::Refused(Refusal::NoSuchMember);
        }
        match self.sheet(date) {
            Some(sheet) => Reply::Stated(sheet.stated(account)),
            None => Reply::Refused(Refusal::NoSuchDay),
        }
    }
}
