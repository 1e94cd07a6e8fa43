// What a worker reads.
use cns_feed::CsvSource;
use std::alloc::Global;
use std::io;
use std::io::{Error, ErrorKind, Read};

// The bytes of a text, after which it ends or fails.
#[derive(Drop)]
pub(crate) struct Input<'a> {
    bytes: &'a [u8],
    fails: bool,
}

impl Read for Input<'_> {
    fn read(&mut self, buf: &mut [u8]) -> io::Result<usize> {
        if self.fails && self.bytes.is_empty() {
            return Err(Error::from(ErrorKind::Other));
        }
        self.bytes.read(buf)
    }
}

pub(crate) type Records<'a> = CsvSource<Input<'a>>;

// Records, after which the source is finished.
pub(crate) fn ending(alloc: Global, bytes: &[u8]) -> Records<'_> {
    CsvSource::new(
        alloc,
        Input {
            bytes,
            fails: false,
        },
    )
}

// Records, after which the source fails.
pub(crate) fn failing(alloc: Global, bytes: &[u8]) -> Records<'_> {
    CsvSource::new(alloc, Input { bytes, fails: true })
}
