// Trades, deliveries and receipts.
ghost use Rattle.std.specs.Prelude.{◌≡◌, ◌≤◌, Ok, unsigned_abs};
ghost use Rattle.std.specs.Option.{ForSome};
ghost use Rattle.cns_terms.specs.declared.command.Activity.TheVariants as activity;
ghost use Rattle.cns_terms.specs.declared.command.Command.TheVariants as command;
ghost use Rattle.cns_terms.specs.Limits.{position_limit};
ghost use Rattle.cns_book.specs.Follows.{AreMoveFacts, AreTradeFacts, Answers, HasRoom, Shows};
ghost use Rattle.cns_book.specs.Places.{PlacesStay, StaysIfRefused};

use crate::effect::{book, prepare, stands};
use crate::parts::Parts;
use cns_positions::Positions;
use cns_terms::{Movement, NoMemory, Reply, Trade};
use cns_trades::{MoveFacts, TradeFacts};
use cns_units::Account;
use std::alloc::Allocator;

impl<P: Positions<A>, A: Allocator + Drop + Clone> Parts<P, A> {
    // What a trade is checked against.
    fn trade_facts(&self, trade: &Trade) -> TradeFacts
        requires { HasRoom self.now }
        ensures facts { Shows self.now (λ J. AreTradeFacts self.now.opening J trade.now result) }
        ensures buyer { ForSome result.buyer (λ q. unsigned_abs q ≤ position_limit) }
        ensures seller { ForSome result.seller (λ q. unsigned_abs q ≤ position_limit) }
    {
        // The positions first: their rows may be far away, and what follows needn't wait for them.
        let (buyer, seller) = self.two_positions(
            trade.buyer.account(),
            trade.seller.account(),
            trade.issue,
        );
        let (listed, retired) = self.listed_and_retired(trade.issue);
        TradeFacts {
            buyer: self.if_member(trade.buyer, buyer),
            seller: self.if_member(trade.seller, seller),
            listed,
            retired,
            today: self.today,
        }
    }

    // What a delivery or a receipt is checked against.
    fn move_facts(&self, movement: &Movement) -> MoveFacts
        ensures facts { Shows self.now (λ J. AreMoveFacts J movement.now result) }
    {
        let (member, corporation) = self.two_positions(
            movement.member.account(),
            Account::CORPORATION,
            movement.issue,
        );
        let (listed, retired) = self.listed_and_retired(movement.issue);
        MoveFacts {
            member: self.if_member(movement.member, member),
            corporation,
            listed,
            retired,
        }
    }

    /// TRADE. One that comes ahead of its date waits, and books nothing yet.
    pub fn book_trade(&mut self, trade: &Trade) -> Result<Reply, NoMemory>
        requires { HasRoom self.old }
        ensures opening { self.new.opening ≡ self.old.opening }
        ensures step { Answers self.old (command.Activity (activity.Trade trade.now)) result self.new }
        ensures places { PlacesStay self.old.trades.pending (command.Activity (activity.Trade trade.now)) self.old.rows self.new.rows }
        ensures refused { StaysIfRefused result self.old self.new }
    {
        let facts = self.trade_facts(trade);
        let entries = match self.trades.check_trade(&facts, trade) {
            Ok(Some(entries)) => entries,
            Ok(None) => {
                // The money is within its limit; the call tells the prover.
                let _ = trade.money.value();
                self.trades.pend(trade)?;
                return Ok(Reply::Accepted);
            }
            Err(refusal) => return Ok(Reply::Refused(refusal)),
        };
        let have_rows = stands(facts.buyer) && stands(facts.seller);
        prepare(&mut self.positions, &entries, have_rows)?;
        self.trades.note_reference(trade.reference)?;
        book(&mut self.positions, &entries);
        Ok(Reply::Accepted)
    }

    /// DELIVER.
    pub fn deliver(&mut self, movement: &Movement) -> Result<Reply, NoMemory>
        requires { HasRoom self.old }
        ensures opening { self.new.opening ≡ self.old.opening }
        ensures step { Answers self.old (command.Activity (activity.Deliver movement.now)) result self.new }
        ensures places { PlacesStay self.old.trades.pending (command.Activity (activity.Deliver movement.now)) self.old.rows self.new.rows }
        ensures refused { StaysIfRefused result self.old self.new }
    {
        let facts = self.move_facts(movement);
        let entries = match self.trades.check_delivery(&facts, movement) {
            Ok(entries) => entries,
            Err(refusal) => return Ok(Reply::Refused(refusal)),
        };
        let have_rows = stands(facts.member) && stands(Some(facts.corporation));
        prepare(&mut self.positions, &entries, have_rows)?;
        book(&mut self.positions, &entries);
        Ok(Reply::Accepted)
    }

    /// RECEIVE. The shares count for the member's live notice in the issue. Its position is above zero and the corporation's
    /// below, so both have rows, and it takes no memory.
    pub fn receive(&mut self, movement: &Movement) -> Reply
        requires { HasRoom self.old }
        ensures opening { self.new.opening ≡ self.old.opening }
        ensures step { Answers self.old (command.Activity (activity.Receive movement.now)) (Ok result) self.new }
        ensures places { PlacesStay self.old.trades.pending (command.Activity (activity.Receive movement.now)) self.old.rows self.new.rows }
        ensures refused { StaysIfRefused (Ok result) self.old self.new }
    {
        let facts = self.move_facts(movement);
        let entries = match self.trades.check_receipt(&facts, movement) {
            Ok(entries) => entries,
            Err(refusal) => return Reply::Refused(refusal),
        };
        // The shares are within their limit; the call tells the prover.
        let _ = movement.shares.value();
        book(&mut self.positions, &entries);
        self.notices
            .received(movement.member, movement.issue, movement.shares);
        Reply::Accepted
    }
}
