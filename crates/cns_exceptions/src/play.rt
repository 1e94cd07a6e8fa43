// The records of an input, played on a book one after another.
ghost use Rattle.std.specs.Prelude.{◌≡◌, ◌<◌, ◌+◌, ◌-◌, ◌^◌, ◌++◌, [], IfOk, List, OnOk, take};
ghost use Rattle.cns_book.specs.Log.{state_of};
ghost use Rattle.cns_feed.specs.Line.{Line};
ghost use Rattle.cns_feed.specs.Output.{lines_of};
ghost use Rattle.cns_feed.specs.Records.{IsReady, Pending};
ghost use Rattle.cns_feed.specs.Replay.{log_after_line};
ghost use Rattle.cns_history.specs.Lines.{lines_of as watched_at};
ghost use Rattle.cns_exceptions.specs.Survey.{Came, ComesTo, Steps, known, noted};

use crate::input::Input;
use crate::survey::Survey;
use cns_feed::{Line, LineFault, Records, ReplayBook, ReplayFault};
use cns_history::{HistoryLine, Watched, take_watched};
use cns_units::Day;
use std::alloc::Global;
use std::io::Read;

/// What records of an input came to: what is known of them, the lines of what was watched, and the book.
#[derive(Drop)]
pub struct Played {
    pub survey: Survey,
    pub lines: Vec<HistoryLine>,
    pub book: ReplayBook,
}

// The texts of the records of an input, one after another. No clause speaks of them.
#[derive(Drop)]
struct Texts {
    input: Input,
    // Where the last one ends.
    end: u64,
    text: Vec<u8>,
}

impl Texts {
    // Goes on to the text of the record that ends there.
    fn pass(&mut self, end: u64) -> Result<(), ReplayFault> {
        let bytes = end.saturating_sub(self.end);
        self.end = end;
        self.text.clear();
        match self.input.by_ref().take(bytes).read_to_end(&mut self.text) {
            Ok(_) => Ok(()),
            Err(_) => Err(ReplayFault::NoMemory),
        }
    }
}

// Takes the command that a record with the text was read as, if it is one, notes what came of it, and adds the lines of what is
// watched.
fn take(
    book: &mut ReplayBook,
    watched: &Watched,
    line: &Line,
    text: &[u8],
    survey: &mut Survey,
    lines: &mut Vec<HistoryLine>,
) -> Result<(), ReplayFault>
    requires { survey.old.records < 2 ^ 64 - 1 }
    ensures after { OnOk result (book.new.log ≡ log_after_line book.old.log line.now) }
    ensures known { OnOk result (known survey.new ≡ noted (known survey.old) (state_of book.old.log) line.now) }
    ensures lines { OnOk result (lines.new.items
        ≡ lines.old.items ++ watched_at watched.now (survey.old.records + 1) (state_of book.old.log) line.now) }
{
    survey.count();
    match line {
        Ok(command) => {
            let number = survey.records;
            let reply = take_watched(book, watched, number, command, lines)?;
            survey.note(book, text, command, &reply)?;
        }
        Err(LineFault::NoMemory) => return Err(ReplayFault::NoMemory),
        Err(fault) => survey.note_fault(text, *fault)?,
    }
    Ok(())
}

// Takes the next record, notes what came of it, and adds the lines of what is watched. Answers whether there was none.
fn step<R: Read>(
    records: &mut Records<R>,
    texts: &mut Texts,
    book: &mut ReplayBook,
    watched: &Watched,
    survey: &mut Survey,
    lines: &mut Vec<HistoryLine>,
) -> Result<bool, ReplayFault>
    requires ready { IsReady records.old }
    requires few { survey.old.records < 2 ^ 64 - 1 }
    ensures { IfOk result (Steps R.remaining records.old records.new watched.now book.old.log book.new.log survey.old survey.new
        lines.old.items lines.new.items) }
{
    let Some(line) = records.read_line()? else {
        return Ok(true);
    };
    texts.pass(records.end())?;
    take(book, watched, &line, texts.text.as_slice(), survey, lines)?;
    Ok(false)
}

// The same for the first records, so many.
fn play_with<R: Read>(
    records: &mut Records<R>,
    most: u64,
    texts: &mut Texts,
    book: &mut ReplayBook,
    watched: &Watched,
    survey: &mut Survey,
    lines: &mut Vec<HistoryLine>,
) -> Result<(), ReplayFault>
    requires ready { IsReady records.old }
    requires none { (survey.old.records ≡ 0) × (lines.old.items ≡ []) }
    ensures { OnOk result ((all : List Line) → Pending R.remaining records.old all
        → Came watched.now book.old.log book.new.log (known survey.old) survey.new lines.new.items (take most all)) }
{
    for _turn in 0..most {
        if step(records, texts, book, watched, survey, lines)? {
            return Ok(());
        }
    }
    Ok(())
}

/// Takes the commands of the first records of an input, so many, in order, on a new book that opens on the date; notes the exceptions,
/// those after the first `from` records closely, and tells the lines of what is watched. The input's memory is given back as it is read.
///
/// `NoMemory` where an allocation failed. `Full` comes only after 4,294,967,295 commands, and no `Read`, since the input is in memory.
pub fn play_first(
    alloc: Global,
    input: Input,
    opening: Day,
    from: u64,
    most: u64,
    watched: &Watched,
) -> Result<Played, ReplayFault>
    ensures { IfOk result (ComesTo opening from watched.now (take most (lines_of input))) }
{
    let mut texts = Texts {
        input: input.copied(alloc)?,
        end: 0,
        text: Vec::new(alloc),
    };
    let mut records = Records::new(alloc, input);
    let mut book = ReplayBook::new(alloc, opening)?;
    let mut survey = Survey::new(alloc, from);
    let mut lines = Vec::new(alloc);
    play_with(
        &mut records,
        most,
        &mut texts,
        &mut book,
        watched,
        &mut survey,
        &mut lines,
    )?;
    survey.rank()?;
    survey.look_back(&book);
    Ok(Played {
        survey,
        lines,
        book,
    })
}
