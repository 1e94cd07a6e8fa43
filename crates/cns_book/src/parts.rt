// What the accepted activities amount to, part by part.
ghost use Rattle.std.specs.Prelude.{◌≡◌, ℕ, IfOk, OnErr, [], None, false, true};
ghost use Rattle.cns_units.specs.declared.cusip.Cusip.{Cusip};
ghost use Rattle.cns_prices.specs.Listed.{price_in, retired_in};
ghost use Rattle.cns_trades.specs.Used.{is_used};
ghost use Rattle.cns_book.specs.Members.{has_member};
ghost use Rattle.cns_terms.specs.declared.command.Activity.{Activity};
ghost use Rattle.cns_terms.specs.declared.command.Command.TheVariants as command;
ghost use Rattle.cns_book.specs.Follows.{Answers, Follows, HasRoom, may_grow};
ghost use Rattle.cns_book.specs.Places.{PlacesStay, StaysIfRefused};

use crate::closed_days::ClosedDays;
use crate::members::Members;
use cns_dividends::Dividends;
use cns_notices::Notices;
use cns_positions::Positions;
use cns_prices::Prices;
use cns_retransmit::Batches;
use cns_terms::{Activity, Command, NoMemory, Reply};
use cns_trades::Trades;
use cns_units::Day;
use std::alloc::Allocator;
use std::marker::Model;

mod actions;
mod closing;
mod counted;
mod dividend;
mod execution;
mod listing;
mod notice;
mod opening;
mod reading;
mod retransmittal;
mod trading;

/// The parts of a book: each a map, a set or a number that shows what the definitions say of the accepted activities.
///
/// Each command is one method here. Its clause says, for every list of activities that the parts follow, that the
/// answer is the machine's and that the parts follow what comes next; so nothing above names a part.
#[derive(Drop)]
pub struct Parts<P: Positions<A>, A: Allocator + Drop + Clone> {
    alloc: A,
    opening: Day,
    today: Day,
    closes: u32,
    members: Members<A>,
    prices: Prices<A>,
    trades: Trades<A>,
    dividends: Dividends<A>,
    positions: P,
    closed: ClosedDays<A>,
    notices: Notices<A>,
    batches: Batches<A>,
}

impl<P: Positions<A>, A: Allocator + Drop + Clone> Model for Parts<P, A> {
    ghost use Rattle.cns_book.specs.Contents.{Contents};

    ghost Value = { Contents };

    ghost view = { λ a. record {
      opening = a.opening;
      today = a.today;
      closes = a.closes;
      members = a.members;
      prices = a.prices;
      trades = a.trades;
      dividends = a.dividends;
      rows = P.rows a.positions;
      sheets = a.closed;
      notices = a.notices;
      batches = a.batches;
    } };
}

impl<P: Positions<A>, A: Allocator + Drop + Clone> Parts<P, A> {
    // What is listed before anything was accepted.
    fn new_listings(alloc: &A) -> Result<(Members<A>, Prices<A>, Trades<A>), NoMemory>
        ensures members { IfOk result (λ t. (m : ℕ) → has_member t.0 m ≡ false) }
        ensures price { IfOk result (λ t. (c : Cusip) → price_in t.1 c ≡ None) }
        ensures retired { IfOk result (λ t. (c : Cusip) → retired_in t.1 c ≡ false) }
        ensures references { IfOk result (λ t. (r : ℕ) → is_used t.2.references r ≡ false) }
        ensures pending { IfOk result (λ t. t.2.pending ≡ []) }
    {
        let members = Members::new(alloc.clone()?);
        let prices = Prices::new(alloc.clone()?);
        let trades = Trades::new(alloc.clone()?)?;
        Ok((members, prices, trades))
    }

    // What closes leave before anything was accepted.
    fn new_closings(alloc: &A) -> Result<(ClosedDays<A>, Notices<A>, Batches<A>), NoMemory>
        ensures closed { IfOk result (λ t. t.0 ≡ []) }
        ensures notices { IfOk result (λ t. t.1 ≡ []) }
        ensures batches { IfOk result (λ t. t.2 ≡ []) }
    {
        let closed = ClosedDays::new(alloc.clone()?)?;
        let notices = Notices::new(alloc.clone()?);
        let batches = Batches::new(alloc.clone()?);
        Ok((closed, notices, batches))
    }

    /// The parts before anything was accepted.
    pub fn new(alloc: A, opening: Day) -> Result<Self, NoMemory>
        ensures opening { IfOk result (λ s. s.opening ≡ opening) }
        ensures rows { IfOk result (λ s. s.rows ≡ []) }
        ensures follows { IfOk result (λ s. Follows [] s) }
    {
        let (for_dividends, for_positions) = (alloc.clone()?, alloc.clone()?);
        let (members, prices, trades) = Parts::<P, A>::new_listings(&alloc)?;
        let (closed, notices, batches) = Parts::<P, A>::new_closings(&alloc)?;
        Ok(Parts {
            opening,
            today: opening,
            closes: 0,
            members,
            prices,
            trades,
            dividends: Dividends::new(for_dividends),
            closed,
            notices,
            batches,
            positions: P::new(for_positions),
            alloc,
        })
    }

    // An activity, refused or accepted.
    fn act(&mut self, activity: &Activity) -> Result<Reply, NoMemory>
        requires { HasRoom self.old }
        ensures opening { self.new.opening ≡ self.old.opening }
        ensures step { Answers self.old (command.Activity activity.now) result self.new }
        ensures places { PlacesStay self.old.trades.pending (command.Activity activity.now) self.old.rows self.new.rows }
        ensures refused { StaysIfRefused result self.old self.new }
        ensures grows { OnErr result (may_grow (command.Activity activity.now) ≡ true) }
    {
        match activity {
            Activity::Member(member) => self.add_member(*member),
            Activity::Issue(listing) => self.list_issue(*listing),
            Activity::Trade(trade) => self.book_trade(trade),
            Activity::Price(listing) => Ok(self.set_price(*listing)),
            Activity::Deliver(movement) => self.deliver(movement),
            Activity::Receive(movement) => Ok(self.receive(movement)),
            Activity::Dividend(declared) => self.declare_dividend(declared),
            Activity::Split(split) => self.split(split),
            Activity::Exchange(exchange) => self.exchange(exchange),
            Activity::Notice(movement) => self.give_notice(movement),
            Activity::Withdraw(number) => Ok(self.withdraw(*number)),
            Activity::Execute(execution) => self.execute(execution),
            Activity::Close(next) => self.close_day(*next),
        }
    }

    /// The reply to a command, and what it does.
    pub fn answer(&mut self, command: &Command) -> Result<Reply, NoMemory>
        requires { HasRoom self.old }
        ensures opening { self.new.opening ≡ self.old.opening }
        ensures step { Answers self.old command.now result self.new }
        ensures places { PlacesStay self.old.trades.pending command.now self.old.rows self.new.rows }
        ensures refused { StaysIfRefused result self.old self.new }
        ensures grows { OnErr result (may_grow command.now ≡ true) }
    {
        match command {
            Command::Activity(activity) => self.act(activity),
            Command::Position(key) => Ok(self.answer_position(*key)),
            Command::Statement { account, date } => Ok(self.answer_statement(*account, *date)),
        }
    }
}
