// A reader that tells up to where it gave whole records.
ghost use Rattle.std.specs.Prelude.{◌≡◌};
ghost use Rattle.std.specs.Io.KnownBytes.{ReadConsumes};
ghost use Rattle.std.specs.Io.{ReadsAtMost};
ghost use Rattle.cns_feed.specs.Records.{remaining_under};

use crate::scan::ScanState;
use std::io;
use std::io::{ErrorKind, Read};

/// Passes on the bytes of a reader, and counts them. Up to `whole` the records among them can be read without a call of
/// the reader.
///
/// No clause speaks of the numbers and the state: a wrong one costs time or a late reply, never a wrong reply.
#[derive(Drop)]
pub(crate) struct CountingReader<R> {
    reader: R,
    count: u64,
    whole: u64,
    // Where in a record the bytes that were given end.
    state: ScanState,
}

impl<R> CountingReader<R> {
    /// No byte was given yet.
    pub(crate) fn new(reader: R) -> CountingReader<R>
        ensures { result.reader ≡ reader }
    {
        CountingReader {
            reader,
            count: 0,
            whole: 0,
            state: ScanState::START,
        }
    }

    /// The place among the bytes just past the end of the last record that was given whole.
    pub(crate) fn whole(&self) -> u64 {
        self.whole
    }
}

impl<R: Read> Read for CountingReader<R> {
    ghost remaining = { remaining_under R.remaining };

    fn read(&mut self, buf: &mut [u8]) -> io::Result<usize> {
        let count = read_some(&mut self.reader, buf)?;
        let end = self.state.pass(&buf[..count]);
        self.whole = past(self.count, end, self.whole);
        self.count = self.count.saturating_add(count as u64);
        Ok(count)
    }
}

/// One call of `read`, made again where a signal interrupts it, as std's `read_exact` and `read_to_end` do.
pub fn read_some<R: Read>(reader: &mut R, buf: &mut [u8]) -> io::Result<usize>
    ensures bound { ReadsAtMost result buf.new }
    ensures bytes { ReadConsumes (R.remaining reader.old) (R.remaining reader.new) result buf.new }
{
    for _ in 0..u32::MAX {
        match reader.read(buf) {
            Err(error) if error.kind() == ErrorKind::Interrupted => {}
            result => return result,
        }
    }
    Err(io::Error::from(ErrorKind::Interrupted))
}

// A place of a block that follows so many bytes, counted from the first of all; another one where it has none.
fn past(count: u64, end: Option<usize>, other: u64) -> u64 {
    match end {
        Some(end) => count.saturating_add(end as u64),
        None => other,
    }
}
