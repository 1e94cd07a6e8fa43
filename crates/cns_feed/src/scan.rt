// Where in a record an input stands.
ghost use Rattle.std.specs.Prelude.{◌≡◌, ◌==◌, ◌||◌};

use memchr::memchr;

/// Where in a record the bytes of an input end, so that the next one can be told to end the record or not.
#[derive(Clone, Copy, PartialEq, Eq)]
pub(crate) enum ScanState {
    /// In the byte order mark that an input may begin with, after so many bytes of it.
    Mark(u8),
    /// Before a record.
    Record,
    /// At the start of a field that is not its record's first.
    Field,
    /// In a field, outside of quotes.
    Bare,
    /// Between the quotes of a field.
    Quoted,
    /// After a quote of such a field: the closing one, or the first of two.
    Closed,
}

/// Whether a byte ends a record, outside of quotes.
pub fn is_line_end(byte: u8) -> bool
    ensures { result ≡ (byte == 10 || byte == 13) }
{
    byte == b'\n' || byte == b'\r'
}

// The place just past the line end that ends the last record of a block without quotes, if one does. Of a run of line ends
// the first ends a record, and the others stand for none.
fn end_of_records(block: &[u8]) -> Option<usize> {
    let last = block.iter().rposition(|&byte| is_line_end(byte))?;
    match block[..last].iter().rposition(|&byte| !is_line_end(byte)) {
        Some(content) => Some(content + 2),
        None => Some(1),
    }
}

impl ScanState {
    /// Before the first byte.
    pub(crate) const START: ScanState = ScanState::Mark(0);

    /// Whether it is past the mark and outside of quotes, so that without a quote more each line end may end a record.
    pub(crate) fn is_plain(self) -> bool {
        match self {
            ScanState::Mark(_) | ScanState::Quoted => false,
            ScanState::Record | ScanState::Field | ScanState::Bare | ScanState::Closed => true,
        }
    }

    /// Whether a byte ends the record here. A line end before a record is an empty line.
    pub(crate) fn is_ended_by(self, byte: u8) -> bool {
        match self {
            ScanState::Mark(0) | ScanState::Record | ScanState::Quoted => false,
            ScanState::Mark(_) | ScanState::Field | ScanState::Bare | ScanState::Closed =>
                is_line_end(byte),
        }
    }

    /// The place after a byte.
    pub(crate) fn after(self, byte: u8) -> ScanState {
        match (self, byte) {
            (ScanState::Mark(0), 0xEF) => ScanState::Mark(1),
            (ScanState::Mark(1), 0xBB) => ScanState::Mark(2),
            (ScanState::Mark(2), 0xBF) => ScanState::Record,
            (ScanState::Quoted, b'"') => ScanState::Closed,
            (ScanState::Quoted, _) => ScanState::Quoted,
            (ScanState::Mark(0) | ScanState::Record | ScanState::Field | ScanState::Closed, b'"') =>
                ScanState::Quoted,
            (_, b',') => ScanState::Field,
            (_, b'\n' | b'\r') => ScanState::Record,
            (_, _) => ScanState::Bare,
        }
    }

    /// Goes on by a block. The place in it just past the end of the last record that it ends, if it ends one.
    pub(crate) fn pass(&mut self, block: &[u8]) -> Option<usize> {
        if self.is_plain() && memchr(b'"', block).is_none() {
            self.pass_plain(block)
        } else {
            self.pass_quoted(block)
        }
    }

    // The same by a block without quotes that does not begin inside of one: each line end may end a record.
    fn pass_plain(&mut self, block: &[u8]) -> Option<usize> {
        if let Some(last) = block.last() {
            *self = self.after(*last);
        }
        end_of_records(block)
    }

    // The same a byte at a time.
    fn pass_quoted(&mut self, block: &[u8]) -> Option<usize> {
        let mut end = None;
        for (at, byte) in block.iter().enumerate() {
            if self.is_ended_by(*byte) {
                end = Some(at + 1);
            }
            *self = self.after(*byte);
        }
        end
    }
}
