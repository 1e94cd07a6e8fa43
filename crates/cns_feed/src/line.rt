// Records, and the commands that they are.
ghost use Rattle.std.specs.Prelude.{◌≡◌, false, codes};
ghost use Rattle.std.specs.Str.{bytes_eq};
ghost use Rattle.csv.specs.Records.{fields_of};
ghost use Rattle.cns_feed.specs.Line.{field, member_line, listing_at, issue_line, price_line, trade_line, movement_at, deliver_line, receive_line, dividend_line, split_line, exchange_line, notice_line, withdraw_line, execute_line, close_line, position_line, statement_line, line_of};

use crate::fault::LineFault;
use crate::fields::{
    account, cusip, date, field, member, money, notice, price, rate, ratio, reference, shares,
};
use cns_terms::{
    Activity, Command, Declared, Exchange, Execution, Key, Listing, Movement, Split, Trade,
};
use csv::ByteRecord;

/// What a record is read as: a command, or its first fault.
pub type Line = Result<Command, LineFault>;

#[tactic(auto, unfolding(crate::specs::Line::member_line))]
fn member_of(row: &ByteRecord) -> Result<Command, LineFault>
    ensures { result ≡ member_line (fields_of row.now) }
{
    if row.len() != 2 {
        return Err(LineFault::Count);
    }
    let member = member(row, 1)?;
    Ok(Command::Activity(Activity::Member(member)))
}

// An issue and a price.
#[tactic(auto, unfolding(crate::specs::Line::listing_at))]
fn listing(row: &ByteRecord) -> Result<Listing, LineFault>
    ensures { result ≡ listing_at (fields_of row.now) }
{
    if row.len() != 3 {
        return Err(LineFault::Count);
    }
    let issue = cusip(row, 1)?;
    let price = price(row, 2)?;
    Ok(Listing { issue, price })
}

#[tactic(auto, unfolding(crate::specs::Line::issue_line))]
fn issue_of(row: &ByteRecord) -> Result<Command, LineFault>
    ensures { result ≡ issue_line (fields_of row.now) }
{
    let listing = listing(row)?;
    Ok(Command::Activity(Activity::Issue(listing)))
}

#[tactic(auto, unfolding(crate::specs::Line::price_line))]
fn price_of(row: &ByteRecord) -> Result<Command, LineFault>
    ensures { result ≡ price_line (fields_of row.now) }
{
    let listing = listing(row)?;
    Ok(Command::Activity(Activity::Price(listing)))
}

// Apart from the loop over records, in which what a trade is read as would be put together piece by piece.
#[inline(never)]
#[tactic(auto, unfolding(crate::specs::Line::trade_line))]
fn trade_of(row: &ByteRecord) -> Result<Command, LineFault>
    ensures { result ≡ trade_line (fields_of row.now) }
{
    if row.len() != 8 {
        return Err(LineFault::Count);
    }
    let reference = reference(row, 1)?;
    let buyer = member(row, 2)?;
    let seller = member(row, 3)?;
    let issue = cusip(row, 4)?;
    let shares = shares(row, 5)?;
    let money = money(row, 6)?;
    let date = date(row, 7)?;
    Ok(Command::Activity(Activity::Trade(Trade {
        reference,
        money,
        shares,
        buyer,
        seller,
        date,
        issue,
    })))
}

// A member, an issue and the shares that move, or that it means to buy in.
#[tactic(auto, unfolding(crate::specs::Line::movement_at))]
fn movement(row: &ByteRecord) -> Result<Movement, LineFault>
    ensures { result ≡ movement_at (fields_of row.now) }
{
    if row.len() != 4 {
        return Err(LineFault::Count);
    }
    let member = member(row, 1)?;
    let issue = cusip(row, 2)?;
    let shares = shares(row, 3)?;
    Ok(Movement {
        member,
        issue,
        shares,
    })
}

#[tactic(auto, unfolding(crate::specs::Line::deliver_line))]
fn deliver_of(row: &ByteRecord) -> Result<Command, LineFault>
    ensures { result ≡ deliver_line (fields_of row.now) }
{
    let movement = movement(row)?;
    Ok(Command::Activity(Activity::Deliver(movement)))
}

#[tactic(auto, unfolding(crate::specs::Line::receive_line))]
fn receive_of(row: &ByteRecord) -> Result<Command, LineFault>
    ensures { result ≡ receive_line (fields_of row.now) }
{
    let movement = movement(row)?;
    Ok(Command::Activity(Activity::Receive(movement)))
}

#[tactic(auto, unfolding(crate::specs::Line::dividend_line))]
fn dividend_of(row: &ByteRecord) -> Result<Command, LineFault>
    ensures { result ≡ dividend_line (fields_of row.now) }
{
    if row.len() != 5 {
        return Err(LineFault::Count);
    }
    let issue = cusip(row, 1)?;
    let recorded = date(row, 2)?;
    let payable = date(row, 3)?;
    let rate = rate(row, 4)?;
    Ok(Command::Activity(Activity::Dividend(Declared {
        issue,
        recorded,
        payable,
        rate,
    })))
}

#[tactic(auto, unfolding(crate::specs::Line::split_line))]
fn split_of(row: &ByteRecord) -> Result<Command, LineFault>
    ensures { result ≡ split_line (fields_of row.now) }
{
    if row.len() != 5 {
        return Err(LineFault::Count);
    }
    let issue = cusip(row, 1)?;
    let ratio = ratio(row, 2, 3)?;
    let lieu = price(row, 4)?;
    Ok(Command::Activity(Activity::Split(Split { issue, ratio, lieu })))
}

#[tactic(auto, unfolding(crate::specs::Line::exchange_line))]
fn exchange_of(row: &ByteRecord) -> Result<Command, LineFault>
    ensures { result ≡ exchange_line (fields_of row.now) }
{
    if row.len() != 7 {
        return Err(LineFault::Count);
    }
    let old = cusip(row, 1)?;
    let successor = cusip(row, 2)?;
    let ratio = ratio(row, 3, 4)?;
    let lieu = price(row, 5)?;
    let cash = price(row, 6)?;
    Ok(Command::Activity(Activity::Exchange(Exchange {
        old,
        successor,
        ratio,
        lieu,
        cash,
    })))
}

#[tactic(auto, unfolding(crate::specs::Line::notice_line))]
fn notice_of(row: &ByteRecord) -> Result<Command, LineFault>
    ensures { result ≡ notice_line (fields_of row.now) }
{
    let movement = movement(row)?;
    Ok(Command::Activity(Activity::Notice(movement)))
}

#[tactic(auto, unfolding(crate::specs::Line::withdraw_line))]
fn withdraw_of(row: &ByteRecord) -> Result<Command, LineFault>
    ensures { result ≡ withdraw_line (fields_of row.now) }
{
    if row.len() != 2 {
        return Err(LineFault::Count);
    }
    let notice = notice(row, 1)?;
    Ok(Command::Activity(Activity::Withdraw(notice)))
}

#[tactic(auto, unfolding(crate::specs::Line::execute_line))]
fn execute_of(row: &ByteRecord) -> Result<Command, LineFault>
    ensures { result ≡ execute_line (fields_of row.now) }
{
    if row.len() != 4 {
        return Err(LineFault::Count);
    }
    let notice = notice(row, 1)?;
    let shares = shares(row, 2)?;
    let money = money(row, 3)?;
    Ok(Command::Activity(Activity::Execute(Execution {
        notice,
        shares,
        money,
    })))
}

#[tactic(auto, unfolding(crate::specs::Line::close_line))]
fn close_of(row: &ByteRecord) -> Result<Command, LineFault>
    ensures { result ≡ close_line (fields_of row.now) }
{
    if row.len() != 2 {
        return Err(LineFault::Count);
    }
    let date = date(row, 1)?;
    Ok(Command::Activity(Activity::Close(date)))
}

#[tactic(auto, unfolding(crate::specs::Line::position_line))]
fn position_of(row: &ByteRecord) -> Result<Command, LineFault>
    ensures { result ≡ position_line (fields_of row.now) }
{
    if row.len() != 3 {
        return Err(LineFault::Count);
    }
    let account = account(row, 1)?;
    let issue = cusip(row, 2)?;
    Ok(Command::Position(Key { account, issue }))
}

#[tactic(auto, unfolding(crate::specs::Line::statement_line))]
fn statement_of(row: &ByteRecord) -> Result<Command, LineFault>
    ensures { result ≡ statement_line (fields_of row.now) }
{
    if row.len() != 3 {
        return Err(LineFault::Count);
    }
    let account = account(row, 1)?;
    let date = date(row, 2)?;
    Ok(Command::Statement { account, date })
}

// The command of a record of a rarer kind, or its first fault. It stands apart, so that the code for trades, which most
// records are, stays small.
#[inline(never)]
#[tactic(auto, unfolding(crate::specs::Line::line_of))]
fn other_of(row: &ByteRecord) -> Result<Command, LineFault>
    requires trade { bytes_eq (field (fields_of row.now) 0) (codes "TRADE") ≡ false }
    requires position { bytes_eq (field (fields_of row.now) 0) (codes "POSITION") ≡ false }
    ensures { result ≡ line_of (fields_of row.now) }
{
    let kind = field(row, 0);
    if kind == b"MEMBER".as_slice() {
        member_of(row)
    } else if kind == b"ISSUE".as_slice() {
        issue_of(row)
    } else if kind == b"PRICE".as_slice() {
        price_of(row)
    } else if kind == b"DELIVER".as_slice() {
        deliver_of(row)
    } else if kind == b"RECEIVE".as_slice() {
        receive_of(row)
    } else if kind == b"DIVIDEND".as_slice() {
        dividend_of(row)
    } else if kind == b"SPLIT".as_slice() {
        split_of(row)
    } else if kind == b"EXCHANGE".as_slice() {
        exchange_of(row)
    } else if kind == b"NOTICE".as_slice() {
        notice_of(row)
    } else if kind == b"WITHDRAW".as_slice() {
        withdraw_of(row)
    } else if kind == b"EXECUTE".as_slice() {
        execute_of(row)
    } else if kind == b"CLOSE".as_slice() {
        close_of(row)
    } else if kind == b"STATEMENT".as_slice() {
        statement_of(row)
    } else {
        Err(LineFault::Kind)
    }
}

/// The command of a record, or its first fault: the kind, the count of fields, and then the fields from left to right.
///
/// The first field is the kind. No field takes memory to read, so `NoMemory` never comes.
pub fn command_of(row: &ByteRecord) -> Result<Command, LineFault>
    ensures { result ≡ line_of (fields_of row.now) }
{
    let kind = field(row, 0);
    if kind == b"TRADE".as_slice() {
        trade_of(row)
    } else if kind == b"POSITION".as_slice() {
        position_of(row)
    } else {
        other_of(row)
    }
}
