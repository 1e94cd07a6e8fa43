// The records of a reader, one after another.
ghost use Rattle.std.specs.Prelude.{◌≡◌, IfSome};
ghost use Rattle.csv.specs.Reading.{error_kind};
ghost use Rattle.csv.specs.Records.{fields_of};
ghost use Rattle.cns_feed.specs.Output.{lines_of};
ghost use Rattle.cns_feed.specs.Records.{IsReady, Pending, ReadsLine, fault_of};

use crate::counting::CountingReader;
use crate::fault::ReplayFault;
use crate::line::{Line, command_of};
use csv::{ByteRecord, ErrorKind, Reader, ReaderBuilder};
use std::alloc::Global;
use std::io::Read;

/// The most records that one replay or load reads.
pub const MOST_RECORDS: u32 = u32::MAX;

/// The records of a reader, one after another: fields between commas, double quotes, no header record, no trimming, any
/// number of fields.
#[derive(Drop)]
pub struct Records<R> {
    rows: Reader<CountingReader<R>>,
    row: ByteRecord,
}

// What an error of the reader is to a replay.
fn fault_of(error: csv::Error) -> ReplayFault
    ensures { result ≡ fault_of (error_kind error) }
{
    match error.kind() {
        ErrorKind::OutOfMemory => ReplayFault::NoMemory,
        _ => ReplayFault::Read,
    }
}

impl<R: Read> Records<R> {
    /// No record was read yet.
    pub fn new(alloc: Global, reader: R) -> Records<R>
        ensures ready { IsReady result }
        ensures pending { IfSome (R.remaining reader) (λ input. Pending R.remaining result (lines_of input)) }
    {
        let rows = ReaderBuilder::new()
            .has_headers(false)
            .flexible(true)
            .from_reader(alloc, CountingReader::new(reader));
        Records {
            rows,
            row: ByteRecord::new(alloc),
        }
    }

    /// Whether the next record may cost a call of the reader.
    pub(crate) fn asks_reader(&self) -> bool {
        self.end() >= self.rows.get_ref().whole()
    }

    /// At which byte of the input the record that was read last ends, with the line end behind it.
    pub fn end(&self) -> u64 {
        self.rows.position().byte()
    }

    /// The next record, as the command that it is or its first fault; None where there is no more.
    ///
    /// `Read` where the reader fails, `NoMemory` where an allocation failed; no more is to be read then.
    pub fn read_line(&mut self) -> Result<Option<Line>, ReplayFault>
        requires { IsReady self.old }
        ensures { ReadsLine R.remaining self.old self.new result }
    {
        match self.rows.read_byte_record(&mut self.row) {
            Ok(true) => Ok(Some(command_of(&self.row))),
            Ok(false) => Ok(None),
            Err(error) => Err(fault_of(error)),
        }
    }
}
