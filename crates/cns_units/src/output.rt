// Writing to any writer.
ghost use Rattle.std.specs.Io.KnownBytes.{WriteAppends};
ghost use Rattle.std.specs.Io.{WritesAtMost};
ghost use Rattle.cns_units.specs.Output.{Writes};

use crate::fault::WriteFault;
use std::io;
use std::io::{ErrorKind, Write};

/// Writes the bytes by as many calls of `write` as it takes.
///
/// The first call that fails or takes no byte ends it with `WriteFault`; what was taken before is a prefix of the bytes,
/// and not all of them. A call that a signal interrupts has failed nothing and is made again, as in std's `write_all`.
pub fn write_bytes<W: Write>(bytes: &[u8], writer: &mut W) -> Result<(), WriteFault>
    ensures { Writes (W.contents writer.old) (W.contents writer.new) bytes.now result }
{
    let mut at = 0;
    while at < bytes.len() {
        match write_some(&bytes[at..], writer) {
            Ok(0) => return Err(WriteFault),
            Ok(count) => at += count,
            Err(_) => return Err(WriteFault),
        }
    }
    Ok(())
}

// One call of `write`, made again where a signal interrupts it.
fn write_some<W: Write>(bytes: &[u8], writer: &mut W) -> io::Result<usize>
    ensures bound { WritesAtMost result bytes.now }
    ensures bytes { WriteAppends (W.contents writer.old) (W.contents writer.new) result bytes.now }
{
    for _ in 0..u32::MAX {
        match writer.write(bytes) {
            Err(error) if error.kind() == ErrorKind::Interrupted => {}
            result => return result,
        }
    }
    Err(io::Error::from(ErrorKind::Interrupted))
}
