// A source over the records of a reader.
ghost use Rattle.std.specs.Prelude.{◌≡◌, ◌-◌, ◌^◌, IfSome, None, Some};
ghost use Rattle.cns_terms.specs.Sources.{Ends, Gives, Repeats};
ghost use Rattle.cns_feed.specs.Output.{lines_of};
ghost use Rattle.cns_feed.specs.Records.{IsReady};
ghost use Rattle.cns_feed.specs.Source.{FailsRead, ReadsItem, answer_of, end_of, told_of};

use crate::fault::{LineFault, ReplayFault};
use crate::records::{MOST_RECORDS, Records};
use cns_terms::{Item, Source, SourceFault};
use std::alloc::Global;
use std::io::Read;
use std::marker::Model;

// How the records of a source ended.
#[derive(Clone, Copy)]
enum SourceEnd {
    Finished,
    Fault(SourceFault),
}

impl SourceEnd {
    // The end that an answer is, if it is one.
    fn of(answer: &Result<Item, SourceFault>) -> Option<SourceEnd>
        ensures { result ≡ end_of answer.now }
    {
        match answer {
            Ok(Item::Given(_) | Item::Line) => None,
            Ok(Item::Finished) => Some(SourceEnd::Finished),
            Err(fault) => Some(SourceEnd::Fault(*fault)),
        }
    }

    // The answer that it is.
    fn answer(self) -> Result<Item, SourceFault>
        ensures { result ≡ answer_of self }
    {
        match self {
            SourceEnd::Finished => Ok(Item::Finished),
            SourceEnd::Fault(fault) => Err(fault),
        }
    }
}

// Reads the next record, where one more may be read.
fn read_item<R: Read>(records: &mut Records<R>, left: u32) -> Result<Item, SourceFault>
    requires { IsReady records.old }
    ensures { ReadsItem R.remaining left records.old records.new result }
{
    if left == 0 {
        return Err(SourceFault::Read);
    }
    match records.read_line() {
        Ok(Some(Ok(command))) => Ok(Item::Given(command)),
        Ok(Some(Err(LineFault::NoMemory))) => Err(SourceFault::NoMemory),
        Ok(Some(Err(_))) => Ok(Item::Line),
        Ok(None) => Ok(Item::Finished),
        Err(ReplayFault::NoMemory) => Err(SourceFault::NoMemory),
        Err(_) => Err(SourceFault::Read),
    }
}

/// The commands of a reader's records, in order.
///
/// An invalid record is `Line`. After the last record it is finished. `Read` comes where the reader fails, or has given
/// 4,294,967,295 records, also where its input ends there; `NoMemory` where an allocation failed. After each of these it
/// answers the same again, and the reader is not called any more.
#[derive(Drop)]
pub struct CsvSource<R: Read> {
    records: Records<R>,
    left: u32,
    ended: Option<SourceEnd>,
}

impl<R: Read> Model for CsvSource<R> {
    ghost use Rattle.std.specs.Prelude.{◌≡◌, None, option_map};
    ghost use Rattle.csv.specs.Reading.{has_failed};
    ghost use Rattle.cns_feed.specs.Records.{IsReady};
    ghost use Rattle.cns_feed.specs.Source.{Telling, answer_of, lines_left, told_at};

    ghost Value = { Telling };

    ghost view = { λ s. record {
      told = told_at s.ended s.left (lines_left R.remaining s.records);
      ended = option_map answer_of s.ended;
      left = s.left;
      failed = has_failed s.records.rows;
    } };

    ghost invariant = { λ s. s.ended ≡ None → IsReady s.records };
}

impl<R: Read> CsvSource<R> {
    /// No record was read yet.
    pub fn new(alloc: Global, reader: R) -> CsvSource<R>
        ensures told { IfSome (R.remaining reader)
            (λ input. result.told ≡ Some (told_of (2 ^ 32 - 1) (lines_of input))) }
        ensures ended { result.ended ≡ None }
        ensures left { result.left ≡ 2 ^ 32 - 1 }
    {
        CsvSource::up_to(alloc, reader, MOST_RECORDS)
    }

    /// The same with another number of records: `Read` comes where the reader has given `most` of them, also where its
    /// input ends there.
    pub fn up_to(alloc: Global, reader: R, most: u32) -> CsvSource<R>
        ensures told { IfSome (R.remaining reader) (λ input. result.told ≡ Some (told_of most (lines_of input))) }
        ensures ended { result.ended ≡ None }
        ensures left { result.left ≡ most }
    {
        CsvSource {
            records: Records::new(alloc, reader),
            left: most,
            ended: None,
        }
    }
}

impl<R: Read> Source for CsvSource<R> {
    ghost use Rattle.std.specs.Prelude.{true};

    ghost told = { λ s. s.told };

    ghost ended = { λ s. s.ended };

    ghost may_fail = { true };

    #[tactic(auto, using(crate::proofs::SourceLemmas::gives_told))]
    fn next(&mut self) -> Result<Item, SourceFault>
        ensures gives { Gives true self.old.told result self.new.told }
        ensures repeats { Repeats self.old.ended result self.new.ended }
        ensures ends { Ends result self.new.ended }
        ensures read { FailsRead self.old result self.new }
    {
        if let Some(end) = self.ended {
            return end.answer();
        }
        let answer = read_item(&mut self.records, self.left);
        self.ended = SourceEnd::of(&answer);
        self.left = self.left.saturating_sub(1);
        answer
    }
}
