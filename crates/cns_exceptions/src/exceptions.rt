// Exceptions as rows: invalid records and refused commands, with the reasons.
ghost use Rattle.std.specs.Prelude.{◌≡◌, ◌++◌, OnOk};
ghost use Rattle.std.specs.List.{flat_map};
ghost use Rattle.cns_exceptions.specs.Exceptions.{accepted_text, fact_text, notice_text, put_right_text, reason_text, record_text, seen_text, some_accepted_text, some_fact_text};

use crate::finding::{Accepted, Cited, Fact, Finding, Outcome};
use crate::words::{fault_name, stage_name};
use cns_book::Notice;
use cns_tables::{Piece, TableRow, write_form, write_markup};
use cns_terms::Refusal;
use std::alloc::AllocError;

// A row: the number of the record and what was given, why it is an exception, its facts, and the record that put it right.
const RECORD: &str = "<tr><th scope=row>_<td><code>_</code><td>";

const INVALID: &str = "<strong>Invalid record</strong>. __<td>";

const REFUSED: &str = "<strong>Refused _</strong>_<td>";

const PUT_RIGHT: &str = ". Put right by record _";

// The facts.
const TODAY: &str = "Today was _, day _";

const NOTICE: &str = ". Notice _ of member _ in _: given on day _, _, _ of _ shares remain";

const PRICE: &str = ". Price of _: _";

const EXCHANGED: &str = ". The issue _ was exchanged for _";

const POSITION: &str = ". Position of _ in _: _";

const WAITING: &str = " (pending: _ bought, _ sold)";

const SEEN: &str = ". Trade _ of record _: member _ bought _ of _ from member _, for _";

const PENDING: &str = ". Trade _, for _, is pending";

const ROOM: &str = ". Shares that they can be given: _";

fn write_fact(fact: &Fact, out: &mut Vec<u8>) -> Result<(), AllocError>
    ensures { OnOk result (out.new.items ≡ out.old.items ++ some_fact_text fact.now) }
{
    match fact {
        Fact::Today(date, day) => {
            let pieces = [Piece::Date(*date), Piece::Number(*day)];
            write_form(TODAY, &pieces, out)
        }
        Fact::Notice(number, notice) => write_notice(*number, notice, out),
        Fact::Price(issue, price) => {
            let pieces = [Piece::Issue(*issue), Piece::Price(*price)];
            write_form(PRICE, &pieces, out)
        }
        Fact::Exchanged(exchange) => {
            let pieces = [Piece::Issue(exchange.old), Piece::Issue(exchange.successor)];
            write_form(EXCHANGED, &pieces, out)
        }
        Fact::Position(key, position) => {
            let account = Piece::Number(u64::from(key.account.value()));
            let pieces = [account, Piece::Issue(key.issue), Piece::Position(*position)];
            write_form(POSITION, &pieces, out)
        }
        Fact::Waiting(waiting) => {
            let pieces = [Piece::Count(waiting.bought), Piece::Count(waiting.sold)];
            write_form(WAITING, &pieces, out)
        }
        Fact::Pending(pend) => {
            let pieces = [Piece::Number(pend.reference), Piece::Date(pend.date)];
            write_form(PENDING, &pieces, out)
        }
        Fact::Room(room) => write_form(ROOM, &[Piece::Count(*room)], out),
    }
}

// The accepted trade that has a reference.
fn write_seen(accepted: &Accepted, out: &mut Vec<u8>) -> Result<(), AllocError>
    ensures { OnOk result (out.new.items ≡ out.old.items ++ seen_text accepted.now) }
{
    let trade = &accepted.trade;
    let pieces = [
        Piece::Number(trade.reference),
        Piece::Number(accepted.number),
        Piece::Number(u64::from(trade.buyer.value())),
        Piece::Count(trade.shares.value()),
        Piece::Issue(trade.issue),
        Piece::Number(u64::from(trade.seller.value())),
        Piece::Date(trade.date),
    ];
    write_form(SEEN, &pieces, out)
}

// A notice as it stood.
fn write_notice(number: u32, notice: &Notice, out: &mut Vec<u8>) -> Result<(), AllocError>
    ensures { OnOk result (out.new.items ≡ out.old.items ++ notice_text number notice.now) }
{
    let pieces = [
        Piece::Number(u64::from(number)),
        Piece::Number(u64::from(notice.member.value())),
        Piece::Issue(notice.issue),
        Piece::Number(u64::from(notice.given)),
        Piece::Markup(stage_name(notice.stage)),
        Piece::Count(notice.remaining),
        Piece::Count(notice.shares.value()),
    ];
    write_form(NOTICE, &pieces, out)
}

// Adds the facts that there are, one after another.
#[tactic(auto, using(std::proofs::lemmas::Grind::common_steps))]
fn write_facts(facts: &[Option<Fact>], out: &mut Vec<u8>) -> Result<(), AllocError>
    ensures { OnOk result (out.new.items ≡ out.old.items ++ flat_map fact_text facts.now) }
{
    for fact in facts {
        write_if_any(fact, out)?;
    }
    Ok(())
}

fn write_if_any(fact: &Option<Fact>, out: &mut Vec<u8>) -> Result<(), AllocError>
    ensures { OnOk result (out.new.items ≡ out.old.items ++ fact_text fact.now) }
{
    match fact {
        None => Ok(()),
        Some(fact) => write_fact(fact, out),
    }
}

// The record that put the one with the number right, where it comes after it.
fn write_put_right(number: u64, accepted: &Accepted, out: &mut Vec<u8>) -> Result<(), AllocError>
    ensures { OnOk result (out.new.items ≡ out.old.items ++ put_right_text number accepted.now) }
{
    if accepted.number > number {
        write_form(PUT_RIGHT, &[Piece::Number(accepted.number)], out)
    } else {
        Ok(())
    }
}

fn write_some_accepted(
    finding: &Finding,
    accepted: &Accepted,
    out: &mut Vec<u8>,
) -> Result<(), AllocError>
    ensures { OnOk result (out.new.items ≡ out.old.items ++ some_accepted_text finding.now.record finding.now.outcome accepted.now) }
{
    match finding.outcome {
        Outcome::Refused(Refusal::SeenReference) => write_seen(accepted, out),
        _ => write_put_right(finding.record, accepted, out),
    }
}

// The accepted trade, where the record was refused for its reference; else, if it came later, the record that put this one right.
fn write_accepted(finding: &Finding, out: &mut Vec<u8>) -> Result<(), AllocError>
    ensures { OnOk result (out.new.items ≡ out.old.items ++ accepted_text finding.now) }
{
    match &finding.accepted {
        Some(accepted) => write_some_accepted(finding, accepted, out),
        None => Ok(()),
    }
}

// Why a record is an exception.
fn write_reason(finding: &Finding, out: &mut Vec<u8>) -> Result<(), AllocError>
    ensures { OnOk result (out.new.items ≡ out.old.items ++ reason_text finding.now.outcome finding.now.words.now) }
{
    let words = Piece::Markup(finding.words);
    match finding.outcome {
        Outcome::AtFault(fault) => {
            let pieces = [Piece::Markup(fault_name(fault)), words];
            write_form(INVALID, &pieces, out)
        }
        Outcome::Refused(refusal) => {
            let pieces = [Piece::Number(u64::from(refusal.number())), words];
            write_form(REFUSED, &pieces, out)
        }
    }
}

// An exception's number and its text as given.
fn write_record(finding: &Finding, out: &mut Vec<u8>) -> Result<(), AllocError>
    ensures { OnOk result (out.new.items ≡ out.old.items ++ record_text finding.now) }
{
    let pieces = [
        Piece::Number(finding.record),
        Piece::Text(finding.text.as_str()),
    ];
    write_form(RECORD, &pieces, out)
}

impl<'a> TableRow for Cited<'a> {
    ghost use Rattle.cns_exceptions.specs.Exceptions.{finding_text};

    ghost text = { λ c. finding_text c.finding.now };

    fn write_row(&self, out: &mut Vec<u8>) -> Result<(), AllocError> {
        self.finding.write_row(out)
    }
}

impl TableRow for Finding {
    ghost use Rattle.cns_exceptions.specs.Exceptions.{finding_text};

    ghost text = { finding_text };

    #[tactic(auto, using(cns_tables::proofs::Written::after))]
    fn write_row(&self, out: &mut Vec<u8>) -> Result<(), AllocError> {
        write_record(self, out)?;
        write_reason(self, out)?;
        write_facts(&self.facts, out)?;
        write_accepted(self, out)?;
        write_markup("\n", out)
    }
}
