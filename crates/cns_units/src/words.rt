// Lines of words.
ghost use Rattle.std.specs.Prelude.{◌∷◌};
ghost use Rattle.cns_units.specs.Output.{Writes};
ghost use Rattle.cns_units.specs.Words.{word_text, words_text, words_line};

use crate::day::{Day, write_day};
use crate::fault::WriteFault;
use crate::money::{Cents, write_cents};
use crate::output::write_bytes;
use itoa::Buffer;
use std::io::Write;

/// A word of a line.
#[derive(Clone, Copy)]
pub enum Word<'a> {
    /// Bytes as they are.
    Text(&'a [u8]),
    /// A number in plain decimal.
    Number(u64),
    /// A number in plain decimal, after a minus sign where it is negative.
    Signed(i64),
    /// An amount of cents, with a point before its last two digits.
    Amount(Cents),
    /// A date as `YYYY-MM-DD`.
    Date(Day),
}

fn write_word<W: Write>(word: &Word<'_>, writer: &mut W) -> Result<(), WriteFault>
    ensures { Writes (W.contents writer.old) (W.contents writer.new) (word_text word.now) result }
{
    let mut buffer = Buffer::new();
    match word {
        Word::Text(text) => write_bytes(text, writer),
        Word::Number(number) => write_bytes(buffer.format(*number).as_bytes(), writer),
        Word::Signed(number) => write_bytes(buffer.format(*number).as_bytes(), writer),
        Word::Amount(cents) => write_cents(*cents, writer),
        Word::Date(day) => write_day(*day, writer),
    }
}

// A space and a word.
fn write_next<W: Write>(word: &Word<'_>, writer: &mut W) -> Result<(), WriteFault>
    ensures { Writes (W.contents writer.old) (W.contents writer.new) (32 ∷ word_text word.now) result }
{
    write_bytes(b" ", writer)?;
    write_word(word, writer)
}

// Each word after a space.
fn write_words<W: Write>(words: &[Word<'_>], writer: &mut W) -> Result<(), WriteFault>
    ensures { Writes (W.contents writer.old) (W.contents writer.new) (words_text words.now) result }
{
    for word in words {
        write_next(word, writer)?;
    }
    Ok(())
}

/// Writes a line: a first word and others, with a space between two, and a line feed.
///
/// Where the writer fails or takes no byte it answers `WriteFault`, and a prefix of that line was written.
pub fn write_line<W: Write>(
    first: &[u8],
    others: &[Word<'_>],
    writer: &mut W,
) -> Result<(), WriteFault>
    ensures { Writes (W.contents writer.old) (W.contents writer.new) (words_line first.now others.now) result }
{
    write_bytes(first, writer)?;
    write_words(others, writer)?;
    write_bytes(b"\n", writer)
}
