// The facts that decided a refusal.
ghost use Rattle.std.specs.Prelude.{◌≡◌, ◌-◌, ◌^◌, IfSome, List, None, min, slice_get};
ghost use Rattle.cns_terms.specs.declared.action.Exchange.{Exchange};
ghost use Rattle.cns_terms.specs.declared.refusal.Refusal.{Refusal};
ghost use Rattle.cns_book.specs.Log.{state_of};
ghost use Rattle.std.specs.List.{find};
ghost use Rattle.cns_terms.specs.Sums.{same_issue};
ghost use Rattle.cns_book.specs.Log.{Log};
ghost use Rattle.cns_exceptions.specs.Facts.{AreShown, IsShown, today_in, waiting_at};
ghost use Rattle.cns_exceptions.specs.Survey.{reference_of};

use crate::finding::{Decided, Fact, Facts, NOTHING, Named, Waiting};
use cns_feed::ReplayBook;
use cns_terms::{Activity, Command, Exchange, Key, Pend, Refusal};
use cns_units::{Account, Cusip};

fn named(account: Option<Account>, issue: Option<Cusip>, notice: Option<u32>) -> Named
    ensures { result.reference ≡ None }
{
    Named {
        account,
        issue,
        notice,
        ..NOTHING
    }
}

// It is written out, so that a new activity cannot be without it.
fn names_in(activity: &Activity) -> Named
    ensures { result.reference ≡ reference_of (Command.Activity activity.now) }
{
    match activity {
        Activity::Close(_) => NOTHING,
        Activity::Member(member) => named(Some(member.account()), None, None),
        Activity::Issue(listing) | Activity::Price(listing) => {
            named(None, Some(listing.issue), None)
        }
        Activity::Trade(trade) => Named {
            other: Some(trade.seller.account()),
            beside: Some(trade.seller.account()),
            reference: Some(trade.reference),
            ..named(Some(trade.buyer.account()), Some(trade.issue), None)
        },
        Activity::Deliver(movement) | Activity::Notice(movement) => {
            named(Some(movement.member.account()), Some(movement.issue), None)
        }
        Activity::Receive(movement) => Named {
            beside: Some(Account::CORPORATION),
            ..named(Some(movement.member.account()), Some(movement.issue), None)
        },
        Activity::Dividend(declared) => named(None, Some(declared.issue), None),
        Activity::Split(split) => named(None, Some(split.issue), None),
        Activity::Exchange(exchange) => Named {
            successor: Some(exchange.successor),
            ..named(None, Some(exchange.old), None)
        },
        Activity::Withdraw(number) => named(None, None, Some(*number)),
        Activity::Execute(execution) => named(None, None, Some(execution.notice)),
    }
}

/// What a command names.
pub fn names_of(command: &Command) -> Named
    ensures { result.reference ≡ reference_of command.now }
{
    match command {
        Command::Activity(activity) => names_in(activity),
        Command::Position(key) => named(Some(key.account), Some(key.issue), None),
        Command::Statement { account, .. } => named(Some(*account), None, None),
    }
}

// An issue's price now.
fn price(book: &ReplayBook, issue: Option<Cusip>) -> Option<Fact>
    ensures { (xs : List Exchange) (r : Refusal) → IfSome result (IsShown xs book.now.log r) }
{
    let issue = issue?;
    let price = book.price(issue).map(|price| price.value());
    Some(Fact::Price(issue, price))
}

// An account's position in an issue now.
fn position(book: &ReplayBook, account: Option<Account>, issue: Option<Cusip>) -> Option<Fact>
    ensures { (xs : List Exchange) (r : Refusal) → IfSome result (IsShown xs book.now.log r) }
{
    let (account, issue) = (account?, issue?);
    let position = book.position(account, issue).map(|holding| holding.now);
    Some(Fact::Position(Key { account, issue }, position))
}

// A sum of shares, as far as a figure goes.
fn figure_of(shares: u128) -> u64
    ensures { result ≡ min shares (2 ^ 64 - 1) }
{
    shares.min(u128::from(u64::MAX)) as u64
}

// What waits at a place.
fn waiting_at(book: &ReplayBook, key: Key) -> Waiting
    ensures { result ≡ waiting_at book.now.log key }
{
    let sides = book.pending().sides(key.account, key.issue);
    Waiting {
        key,
        bought: figure_of(sides.bought),
        sold: figure_of(sides.sold),
    }
}

// What waits beside it.
fn waiting(book: &ReplayBook, account: Option<Account>, issue: Option<Cusip>) -> Option<Fact>
    ensures { (xs : List Exchange) → IfSome result (IsShown xs book.now.log Refusal.TooLarge) }
{
    let (account, issue) = (account?, issue?);
    Some(Fact::Waiting(waiting_at(book, Key { account, issue })))
}

// The exchange of an issue, among the accepted ones.
fn exchange_of(exchanges: &[Exchange], issue: &Cusip) -> Option<Exchange>
    ensures { result ≡ find (λ x. same_issue x.old issue.now) exchanges.now }
{
    exchanges
        .iter()
        .find(|exchange| exchange.old.is_same(issue))
        .copied()
}

// The exchange that retired an issue.
fn exchanged(exchanges: &[Exchange], issue: Option<Cusip>) -> Option<Fact>
    ensures { (log : Log) → IfSome result (IsShown exchanges.now log Refusal.Retired) }
{
    let issue = &issue?;
    Some(Fact::Exchanged(exchange_of(exchanges, issue)?))
}

// The first of trades in an issue.
fn first_in(trades: &[Pend], issue: &Cusip) -> Option<Pend>
    ensures { result ≡ find (λ p. same_issue p.issue issue.now) trades.now }
{
    trades
        .iter()
        .find(|trade| trade.issue.is_same(issue))
        .copied()
}

// The first pending trade in an issue.
fn pending(book: &ReplayBook, issue: Option<Cusip>) -> Option<Fact>
    ensures { (xs : List Exchange) → IfSome result (IsShown xs book.now.log Refusal.PendingTrades) }
{
    let issue = &issue?;
    let trades = book.pending().list();
    Some(Fact::Pending(first_in(trades, issue)?))
}

// A notice as it stands now.
fn notice(book: &ReplayBook, number: Option<u32>) -> Option<Fact>
    ensures { (xs : List Exchange) (r : Refusal) → IfSome result (IsShown xs book.now.log r) }
{
    let number = number?;
    Some(Fact::Notice(number, book.notice(number)?))
}

// What else a refusal looks at than the day and a notice.
fn decided(book: &ReplayBook, exchanges: &[Exchange], named: &Named, refusal: Refusal) -> Decided
    ensures { AreShown exchanges.now book.now.log refusal result }
{
    match refusal {
        Refusal::IssueExists | Refusal::NoSuchIssue => {
            [
                price(book, named.issue),
                price(book, named.successor),
                None,
                None,
            ]
        }
        Refusal::Retired => [
            price(book, named.issue),
            price(book, named.successor),
            exchanged(exchanges, named.issue),
            exchanged(exchanges, named.successor),
        ],
        Refusal::NoSuchMember | Refusal::ExceedsPosition | Refusal::NotOnHand | Refusal::NotLong =>
            [
                position(book, named.account, named.issue),
                position(book, named.beside, named.issue),
                None,
                None,
            ],
        Refusal::TooLarge => [
            position(book, named.account, named.issue),
            waiting(book, named.account, named.issue),
            position(book, named.beside, named.issue),
            waiting(book, named.beside, named.issue),
        ],
        Refusal::PendingTrades => [pending(book, named.issue), None, None, None],
        Refusal::NotLiable { room } => [Some(Fact::Room(room)), None, None, None],
        _ => [None, None, None, None],
    }
}

/// What decided that the book refused the command, by the accepted exchanges so far. A refusal changes nothing that the book's calls
/// tell, so the book is asked after it.
pub fn facts_of(
    book: &ReplayBook,
    exchanges: &[Exchange],
    command: &Command,
    refusal: Refusal,
) -> Facts
    ensures today { slice_get result 0 ≡ Some (Some (today_in (state_of book.now.log))) }
    ensures shown { AreShown exchanges.now book.now.log refusal result }
{
    let named = names_of(command);
    let others = decided(book, exchanges, &named, refusal);
    let number = match refusal {
        Refusal::AlreadyNoticed { number } => Some(number),
        _ => named.notice,
    };
    [
        Some(Fact::Today(book.today(), book.day())),
        notice(book, number),
        others[0],
        others[1],
        others[2],
        others[3],
    ]
}
