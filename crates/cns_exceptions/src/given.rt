// The text of a record as a page shows it.
use cns_terms::NoMemory;
use itoa::Buffer;
use std::alloc::Global;

// The most bytes of a field that are shown.
const MOST: usize = 200;

// Whether a page cannot show a character as it is: it is a control character, or it turns the writing round.
fn is_hidden(character: char) -> bool {
    match character {
        '\n' | '\r' => false,
        '\u{202A}'..='\u{202E}' | '\u{2066}'..='\u{2069}' => true,
        _ => character.is_control(),
    }
}

// How long a field is that was cut.
fn push_cut(text: &mut String, bytes: usize) -> Result<(), NoMemory> {
    if bytes > MOST {
        text.push_str("… (")?;
        text.push_str(Buffer::new().format(bytes as u64))?;
        text.push_str(" bytes)")?;
    }
    Ok(())
}

/// A record as it was given, without the line ends around it and what a page cannot show: bytes that are no text, control characters
/// but for line ends, and marks that turn the writing round are U+FFFD, and of a field of more than 200 bytes there are the first ones
/// and its length.
pub(crate) fn given(alloc: Global, record: &[u8]) -> Result<String, NoMemory> {
    let whole = String::from_utf8_lossy(alloc, record)?;
    let mut text = String::new(alloc);
    let mut bytes: usize = 0;
    let mut is_quoted = false;
    for character in whole.as_str().trim_matches(['\n', '\r']).chars() {
        is_quoted ^= character == '"';
        if character == ',' && !is_quoted {
            push_cut(&mut text, bytes)?;
            text.push(character)?;
            bytes = 0;
            continue;
        }
        if bytes < MOST {
            text.push(if is_hidden(character) {
                '\u{FFFD}'
            } else {
                character
            })?;
        }
        bytes = bytes.saturating_add(character.len_utf8());
    }
    push_cut(&mut text, bytes)?;
    Ok(text)
}
