// The lines of the members that a close made liable.
ghost use Rattle.cns_units.specs.Output.{Writes};
ghost use Rattle.cns_feed.specs.Text.{liable_line, batch_text, batches_text};

use cns_retransmit::{Batch, Liable};
use cns_units::{Cusip, Word, WriteFault, write_line};
use std::alloc::Allocator;
use std::io::Write;

fn write_liable<W: Write>(issue: Cusip, liable: &Liable, writer: &mut W) -> Result<(), WriteFault>
    ensures { Writes (W.contents writer.old) (W.contents writer.new) (liable_line issue liable.now) result }
{
    let words = [
        Word::Text(issue.bytes()),
        Word::Number(u64::from(liable.member.value())),
        Word::Number(liable.closing),
        Word::Number(u64::from(liable.age)),
    ];
    write_line(b"liable", &words, writer)
}

// A line for each member of a batch, in the order of filling.
fn write_batch<A: Allocator + Drop, W: Write>(
    batch: &Batch<A>,
    writer: &mut W,
) -> Result<(), WriteFault>
    ensures { Writes (W.contents writer.old) (W.contents writer.new) (batch_text batch.now) result }
{
    let issue = batch.cusip();
    for liable in batch.members() {
        write_liable(issue, liable, writer)?;
    }
    Ok(())
}

/// Writes a line for each member of each batch: `liable CUSIP MEMBER SHARES AGE`, with the short at the close and its age.
///
/// Where the writer fails or takes no byte it answers `WriteFault`, and a prefix of those lines was written.
pub(crate) fn write_batches<A: Allocator + Drop, W: Write>(
    batches: &[Batch<A>],
    writer: &mut W,
) -> Result<(), WriteFault>
    ensures { Writes (W.contents writer.old) (W.contents writer.new) (batches_text batches.now) result }
{
    for batch in batches {
        write_batch(batch, writer)?;
    }
    Ok(())
}
