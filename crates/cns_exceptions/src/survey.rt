// What the records of an input come to, one after another.
ghost use Rattle.std.specs.Prelude.{◌≡◌, ◌<◌, ◌+◌, ◌-◌, ◌^◌, if◌then◌else◌, None, OnOk, Some, length, min, nat_lt, option_map};
ghost use Rattle.cns_exceptions.specs.Survey.{counted, is_question, known, looked_back, nothing, one_invalid, ranked, replied, wanted};

use crate::accepted::note_accepted;
use crate::facts::{facts_of, names_of};
use crate::finding::{Facts, Finding, NO_FACTS, NOTHING, Outcome};
use crate::given::given;
use crate::words::{fault_words, refusal_words};
use cns_account::Past;
use cns_feed::{LineFault, ReplayBook};
use cns_terms::{Command, NoMemory, Refusal, Reply};
use std::alloc::Global;

/// The most exceptions of a day that a page shows with their records.
const MOST: usize = 200;

/// What the records of an input came to.
#[derive(Drop)]
pub struct Survey {
    /// How many records come before those whose exceptions are looked at closely.
    pub from: u64,
    /// How many records there are.
    pub records: u64,
    /// How many of them are exceptions: invalid, or refused commands.
    pub exceptions: u64,
    /// Why those that are looked at are exceptions that are, in order.
    pub reasons: Vec<Outcome>,
    /// The first of them, 200 at most; refused questions stand last.
    pub findings: Vec<Finding>,
    /// The first refused questions, 200 at most, until all records were noted.
    pub questions: Vec<Finding>,
    /// The numbers of the invalid records, in order.
    pub invalid: Vec<u64>,
    /// What replies told of closed days, exchanges and dividends.
    pub past: Past,
}

impl Survey {
    /// Of no records. Those after the first so many will be looked at closely.
    pub(crate) fn new(alloc: Global, from: u64) -> Survey
        ensures { known result ≡ nothing from }
    {
        Survey {
            from,
            records: 0,
            exceptions: 0,
            reasons: Vec::new(alloc),
            findings: Vec::new(alloc),
            questions: Vec::new(alloc),
            invalid: Vec::new(alloc),
            past: Past::new(alloc),
        }
    }

    /// Counts a record.
    pub(crate) fn count(&mut self)
        requires { self.old.records < 2 ^ 64 - 1 }
        ensures { known self.new ≡ counted (known self.old) }
    {
        self.records += 1;
    }

    // Whether the last record is looked at closely.
    fn is_looking(&self) -> bool
        ensures { result ≡ nat_lt self.now.from self.now.records }
    {
        self.records > self.from
    }

    /// The number of the first record after the close before the day.
    pub fn first_of_day(&self) -> u64
        ensures { result ≡ min (self.now.from + 1) (2 ^ 64 - 1) }
    {
        self.from.saturating_add(1)
    }

    /// How many records there are from that one on.
    pub fn records_of_day(&self) -> u64
        ensures { result ≡ self.now.records - self.now.from }
    {
        self.records.saturating_sub(self.from)
    }

    /// How many of the day's records are exceptions.
    pub fn exceptions_of_day(&self) -> u64
        ensures { result ≡ length self.now.reasons.items }
    {
        self.reasons.len() as u64
    }

    /// Notes the reply to a command, whose record has the text: what it tells of days, exchanges and dividends, and a
    /// refusal with what decided it.
    pub(crate) fn note(
        &mut self,
        book: &ReplayBook,
        text: &[u8],
        command: &Command,
        reply: &Reply,
    ) -> Result<(), NoMemory>
        ensures { OnOk result (known self.new ≡ replied (known self.old) command.now reply.now) }
    {
        self.past.note(command, reply)?;
        match reply {
            Reply::Refused(refusal) => self.note_refusal(book, text, command, *refusal),
            _ => Ok(()),
        }
    }

    fn note_refusal(
        &mut self,
        book: &ReplayBook,
        text: &[u8],
        command: &Command,
        refusal: Refusal,
    ) -> Result<(), NoMemory>
        ensures { OnOk result (known self.new ≡ wanted (known self.old) (Outcome.Refused refusal) (Some command.now)) }
    {
        let facts = if self.is_looking() && self.has_room(is_question(command)) {
            facts_of(book, self.past.exchanges.as_slice(), command, refusal)
        } else {
            NO_FACTS
        };
        let words = refusal_words(refusal, command);
        self.note_exception(text, Outcome::Refused(refusal), words, facts, Some(command))
    }

    /// Notes that a record with the text is invalid.
    pub(crate) fn note_fault(&mut self, text: &[u8], fault: LineFault) -> Result<(), NoMemory>
        ensures { OnOk result (known self.new ≡ wanted (one_invalid (known self.old)) (Outcome.AtFault fault) None) }
    {
        self.invalid.push(self.records)?;
        let words = fault_words(fault);
        self.note_exception(text, Outcome::AtFault(fault), words, NO_FACTS, None)
    }

    // Whether one more of the exceptions that are questions, or of the others, is one of the first.
    fn has_room(&self, is_question: bool) -> bool
        ensures { result ≡ nat_lt (length (if is_question then self.now.questions.items else self.now.findings.items)) 200 }
    {
        let others = if is_question {
            &self.questions
        } else {
            &self.findings
        };
        others.len() < MOST
    }

    // Notes why a record with the text is an exception, and what decided it, of a command if it was one.
    fn note_exception(
        &mut self,
        text: &[u8],
        outcome: Outcome,
        words: &'static str,
        facts: Facts,
        command: Option<&Command>,
    ) -> Result<(), NoMemory>
        ensures { OnOk result (known self.new ≡ wanted (known self.old) outcome (option_map (λ c. c.now) command.entry)) }
    {
        self.exceptions = self.exceptions.saturating_add(1);
        if !self.is_looking() {
            return Ok(());
        }
        self.reasons.push(outcome)?;
        let is_question = command.is_some_and(is_question);
        if !self.has_room(is_question) {
            return Ok(());
        }
        let finding = Finding {
            record: self.records,
            text: given(*self.findings.allocator(), text)?,
            outcome,
            words,
            facts,
            named: command.map_or(NOTHING, names_of),
            accepted: None,
        };
        if is_question {
            self.questions.push(finding)?;
        } else {
            self.findings.push(finding)?;
        }
        Ok(())
    }

    /// Puts the refused questions behind the other exceptions, so that there are 200 at most.
    pub(crate) fn rank(&mut self) -> Result<(), NoMemory>
        ensures { OnOk result (known self.new ≡ ranked (known self.old)) }
    {
        self.questions
            .truncate(MOST.saturating_sub(self.findings.len()));
        self.findings.append(&mut self.questions)?;
        Ok(())
    }

    /// Notes in the exceptions the accepted trades that have their references, of the book's history.
    pub(crate) fn look_back(&mut self, book: &ReplayBook)
        ensures { known self.new ≡ looked_back book.now.log.history (known self.old) }
    {
        note_accepted(book, self.invalid.as_slice(), self.findings.as_mut_slice());
    }
}

// Whether a command asks and changes nothing.
fn is_question(command: &Command) -> bool
    ensures { result ≡ is_question command.now }
{
    !matches!(command, Command::Activity(_))
}
