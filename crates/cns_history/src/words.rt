// What booked, in the field's words.
ghost use Rattle.std.specs.Prelude.{◌≡◌, ◌++◌, OnOk};
ghost use Rattle.cns_history.specs.Words.{exchange_text, trade_text, what_text};

use cns_tables::{Piece, write_form, write_markup};
use cns_terms::{Activity, Exchange, Trade};
use cns_units::Account;
use std::alloc::AllocError;

// A trade, as the account sees it: from whom it bought, or to whom it sold.
const BOUGHT: &str = "Trade _: bought from member _";

const SOLD: &str = "Trade _: sold to member _";

const DELIVERED: &str = "Delivered by member _";

const RECEIVED: &str = "Received by member _";

const SPLIT: &str = "Split: _ new for _ old";

const EXCHANGE: &str = "Exchange of _ for _: _ new for _ old";

const BUY_IN: &str = "Buy-in execution of notice _";

const DUE: &str = "Trades that were due, booked by the close";

fn write_trade(account: Account, trade: &Trade, out: &mut Vec<u8>) -> Result<(), AllocError>
    ensures { OnOk result (out.new.items ≡ out.old.items ++ trade_text account trade.now) }
{
    let reference = Piece::Number(trade.reference);
    let buyer = Piece::Number(u64::from(trade.buyer.value()));
    let seller = Piece::Number(u64::from(trade.seller.value()));
    if trade.buyer.account() == account {
        write_form(BOUGHT, &[reference, seller], out)
    } else {
        write_form(SOLD, &[reference, buyer], out)
    }
}

fn write_exchange(exchange: &Exchange, out: &mut Vec<u8>) -> Result<(), AllocError>
    ensures { OnOk result (out.new.items ≡ out.old.items ++ exchange_text exchange.now) }
{
    let (new, old) = exchange.ratio.parts();
    let pieces = [
        Piece::Issue(exchange.old),
        Piece::Issue(exchange.successor),
        Piece::Number(u64::from(new)),
        Piece::Number(u64::from(old)),
    ];
    write_form(EXCHANGE, &pieces, out)
}

/// Adds what an activity was, for an account at whose place it booked. The activities that never book have no words.
pub(crate) fn write_what(
    account: Account,
    activity: &Activity,
    out: &mut Vec<u8>,
) -> Result<(), AllocError>
    ensures { OnOk result (out.new.items ≡ out.old.items ++ what_text account activity.now) }
{
    match activity {
        Activity::Trade(trade) => write_trade(account, trade, out),
        Activity::Deliver(movement) => {
            let member = Piece::Number(u64::from(movement.member.value()));
            write_form(DELIVERED, &[member], out)
        }
        Activity::Receive(movement) => {
            let member = Piece::Number(u64::from(movement.member.value()));
            write_form(RECEIVED, &[member], out)
        }
        Activity::Split(split) => {
            let (new, old) = split.ratio.parts();
            let pieces = [Piece::Number(u64::from(new)), Piece::Number(u64::from(old))];
            write_form(SPLIT, &pieces, out)
        }
        Activity::Exchange(exchange) => write_exchange(exchange, out),
        Activity::Execute(execution) => {
            let notice = Piece::Number(u64::from(execution.notice));
            write_form(BUY_IN, &[notice], out)
        }
        Activity::Close(_) => write_markup(DUE, out),
        Activity::Member(_)
        | Activity::Issue(_)
        | Activity::Price(_)
        | Activity::Dividend(_)
        | Activity::Notice(_)
        | Activity::Withdraw(_) => Ok(()),
    }
}
