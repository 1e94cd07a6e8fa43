// The foot of a page: how it is made again, from which bytes it was made, and how many rows it has, so that a page that was cut is
// seen.
ghost use Rattle.std.specs.Prelude.{◌≡◌, ◌++◌, IfOk, IfSome, OnOk};
ghost use Rattle.cns_page.specs.Foot.{IsOrigin, about_text, day_word, foot_text, made_text};
ghost use Rattle.cns_tables.specs.Pieces.{piece_text};

use crate::source::Source;
use cns_asked::About;
use cns_shell::Fault;
use cns_tables::{Piece, write_form};
use cns_units::Day;
use sha2::{Digest, Sha256};
use std::alloc::{AllocError, Global};
use std::io::Read;

/// What a page was made of.
#[derive(Drop)]
pub struct Origin {
    /// How many bytes.
    pub bytes: u64,
    /// Their SHA-256, in hexadecimal digits.
    pub digest: String,
}

// The line that makes a page again, but for its end: the opening date and the day.
const AGAIN: &str = "</main>
<footer>
<p>This line makes the page again, from the same records:</p>
<pre tabindex=0><code>cnspage --open _ --day _";

const TODAY: &str = "today";

// Its options for an account, and for an account's place in an issue.
const ACCOUNT: &str = " --account _";

const PLACE: &str = " --account _ --issue _";

// Its end, how many bytes the page was made of, their digest, and how many rows its tables have.
const MADE: &str = " &lt; records &gt; page.html</code></pre>
<p>Made by cnspage 0.1.0 of the first _ bytes of the records, whose SHA-256 is <code>_</code>.</p>
<p>End of the page. Its tables have so many rows: _</p>
</footer>
</html>
";

/// What all bytes of a reader are, for the foot of a page that is made of them.
pub(crate) fn origin_of<R: Read + Drop>(alloc: Global, reader: R) -> Result<Origin, Fault>
    ensures { IfOk result (λ o. IfSome (R.remaining reader) (λ bytes. IsOrigin bytes o)) }
{
    let mut reader = reader;
    let mut hasher = Sha256::new();
    let mut bytes: u64 = 0;
    let mut block = [0; 8192];
    for _ in 0..u64::MAX {
        let count = match reader.read(&mut block) {
            Ok(count) => count,
            Err(_) => return Err(Fault::Read),
        };
        if count == 0 {
            let Ok(digest) = hex::encode(alloc, &hasher.finalize()) else {
                return Err(Fault::NoMemory);
            };
            return Ok(Origin { bytes, digest });
        }
        hasher.update(&block[..count]);
        bytes = bytes.saturating_add(count as u64);
    }
    Err(Fault::Read)
}

// What `--day` takes for a closed day, or for the day that is open.
fn day_word(day: Option<Day>) -> Piece<'static>
    ensures { piece_text result ≡ day_word day }
{
    match day {
        Some(day) => Piece::Date(day),
        None => Piece::Markup(TODAY),
    }
}

// Adds the options for what a page is about.
fn write_about(about: About, out: &mut Vec<u8>) -> Result<(), AllocError>
    ensures { OnOk result (out.new.items ≡ out.old.items ++ about_text about) }
{
    match about {
        About::All | About::Folder => Ok(()),
        About::Account(account) => {
            let number = Piece::Number(u64::from(account.value()));
            write_form(ACCOUNT, &[number], out)
        }
        About::Place(key) => {
            let number = Piece::Number(u64::from(key.account.value()));
            write_form(PLACE, &[number, Piece::Issue(key.issue)], out)
        }
    }
}

// Adds what a page was made of, and how many rows its tables have.
#[tactic(auto, unfolding(crate::specs::Foot::made_text))]
fn write_made(origin: &Origin, rows: u64, out: &mut Vec<u8>) -> Result<(), AllocError>
    ensures { OnOk result (out.new.items ≡ out.old.items ++ made_text origin.now rows) }
{
    let pieces = [
        Piece::Number(origin.bytes),
        Piece::Text(origin.digest.as_str()),
        Piece::Number(rows),
    ];
    write_form(MADE, &pieces, out)
}

/// Adds the foot of a page of some records: of a closed day or of the open one, with so many rows.
#[tactic(auto, using(cns_tables::proofs::Written::after))]
pub(crate) fn write_foot(
    source: &Source,
    day: Option<Day>,
    about: About,
    rows: u64,
    out: &mut Vec<u8>,
) -> Result<(), AllocError>
    ensures { OnOk result (out.new.items ≡ out.old.items ++ foot_text source.now day about rows) }
{
    let opening = Piece::Date(source.opening);
    write_form(AGAIN, &[opening, day_word(day)], out)?;
    write_about(about, out)?;
    write_made(&source.origin, rows, out)
}
