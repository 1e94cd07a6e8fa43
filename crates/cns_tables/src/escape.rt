// A stranger's text in a page.
ghost use Rattle.std.specs.Prelude.{◌≡◌, ◌∷◌, [], ◌++◌, OnOk, true};
ghost use Rattle.std.specs.List.{list_all};
ghost use Rattle.std.specs.Option.{option_map_or};
ghost use Rattle.cns_tables.specs.Escape.{escaped, escaped_byte, is_control, is_plain};

use std::alloc::AllocError;

// Whether a byte is one of a control character. Line ends stay.
fn is_control(byte: u8) -> bool
    ensures { result ≡ is_control byte }
{
    byte == 127 || byte < 32 && byte != b'\n' && byte != b'\r'
}

// The character reference that stands for a byte, where one does.
fn reference_of(byte: u8) -> Option<&'static [u8]>
    ensures { option_map_or (λ r. r.now) result (byte ∷ []) ≡ escaped_byte byte }
{
    if byte == b'&' {
        Some(b"&amp;")
    } else if byte == b'<' {
        Some(b"&lt;")
    } else if byte == b'>' {
        Some(b"&gt;")
    } else if byte == b'"' {
        Some(b"&quot;")
    } else if byte == b'\'' {
        Some(b"&#39;")
    } else if is_control(byte) {
        Some(b"&#xFFFD;")
    } else {
        None
    }
}

fn write_byte(byte: u8, out: &mut Vec<u8>) -> Result<(), AllocError>
    ensures { OnOk result (out.new.items ≡ out.old.items ++ escaped_byte byte) }
{
    match reference_of(byte) {
        Some(reference) => out.extend_from_slice(reference),
        None => out.extend_from_slice(&[byte]),
    }
}

/// Adds a text so that none of it can be taken for markup: `&`, `<`, `>` and quotes become character references, and so
/// do control characters but for line ends, as U+FFFD. The other bytes stay.
///
/// `AllocError` where there is no memory; some of that text may be there then.
#[tactic(auto, using(crate::proofs::EscapeLemmas::text_plain, std::proofs::lemmas::Grind::common_steps))]
pub fn write_escaped(text: &[u8], out: &mut Vec<u8>) -> Result<(), AllocError>
    ensures text { OnOk result (out.new.items ≡ out.old.items ++ escaped text.now) }
    ensures plain { list_all is_plain (escaped text.now) ≡ true }
{
    for byte in text {
        write_byte(*byte, out)?;
    }
    Ok(())
}
