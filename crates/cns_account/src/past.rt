// What replies tell of closed days, exchanges and dividends.
ghost use Rattle.std.specs.Prelude.{◌≡◌, [], ◌++◌, OnOk};
ghost use Rattle.std.specs.List.{cons_option};
ghost use Rattle.cns_terms.specs.Common.{exchanged};
ghost use Rattle.cns_terms.specs.Dividends.{declared};
ghost use Rattle.cns_history.specs.Entries.{accepted_of};
ghost use Rattle.cns_account.specs.Past.{IsNoted, date_told};

use cns_terms::{Activity, Command, Declared, Exchange, NoMemory, Reply};
use cns_units::Day;
use std::alloc::Global;

/// What replies to commands told of closed days, exchanges and dividends.
#[derive(Drop)]
pub struct Past {
    /// The dates of the closed days, in order.
    pub days: Vec<Day>,
    /// The accepted exchanges, in order.
    pub exchanges: Vec<Exchange>,
    /// The accepted dividends, in the order in which they were declared.
    pub dividends: Vec<Declared>,
}

// The date of the day that a reply tells as closed.
fn date_told(reply: &Reply) -> Option<Day>
    ensures { result ≡ date_told reply.now }
{
    match reply {
        Reply::Closed(closed) => Some(closed.date),
        _ => None,
    }
}

// The exchange that a command is, where it was accepted.
fn exchange_of(command: &Command, reply: &Reply) -> Option<Exchange>
    ensures { result ≡ accepted_of exchanged command.now reply.now }
{
    match (command, reply) {
        (Command::Activity(Activity::Exchange(exchange)), Reply::Accepted) => Some(*exchange),
        _ => None,
    }
}

// The dividend that a command is, where it was accepted.
fn dividend_of(command: &Command, reply: &Reply) -> Option<Declared>
    ensures { result ≡ accepted_of declared command.now reply.now }
{
    match (command, reply) {
        (Command::Activity(Activity::Dividend(declared)), Reply::Accepted) => Some(*declared),
        _ => None,
    }
}

/// Adds an item, where there is one.
pub(crate) fn add_if_any<T: Copy>(items: &mut Vec<T>, item: Option<T>) -> Result<(), NoMemory>
    ensures { OnOk result (items.new.items ≡ items.old.items ++ cons_option item []) }
{
    match item {
        Some(item) => {
            items.push(item)?;
            Ok(())
        }
        None => Ok(()),
    }
}

impl Past {
    /// Of no command. It takes no memory.
    pub fn new(alloc: Global) -> Past
        ensures days { result.days.items ≡ [] }
        ensures exchanges { result.exchanges.items ≡ [] }
        ensures dividends { result.dividends.items ≡ [] }
    {
        Past {
            days: Vec::new(alloc),
            exchanges: Vec::new(alloc),
            dividends: Vec::new(alloc),
        }
    }

    /// Adds what the reply to a command tells.
    pub fn note(&mut self, command: &Command, reply: &Reply) -> Result<(), NoMemory>
        ensures { OnOk result (IsNoted command.now reply.now self.old self.new) }
    {
        add_if_any(&mut self.days, date_told(reply))?;
        add_if_any(&mut self.exchanges, exchange_of(command, reply))?;
        add_if_any(&mut self.dividends, dividend_of(command, reply))
    }
}
