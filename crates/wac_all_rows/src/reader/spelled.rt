//! Bytes that are spelled as words.

use std::alloc::Global;

/// What stands between quotes.
fn quoted(word: &str) -> Option<&str> {
    word.strip_prefix('"')?.strip_suffix('"')
}

/// Adds a byte, if it is one.
fn push_byte(bytes: &mut Vec<u8>, byte: usize) -> Option<()> {
    bytes.push(u8::try_from(byte).ok()?).ok()
}

/// Adds what a word spells: of a text in quotes its length and its bytes, of any other word its hex digits.
fn push_word(bytes: &mut Vec<u8>, alloc: Global, word: &str) -> Option<()> {
    match quoted(word) {
        Some(text) => {
            push_byte(bytes, text.len())?;
            bytes.extend_from_slice(text.as_bytes()).ok()
        }
        None => bytes
            .extend_from_slice(&hex::decode(alloc, word).ok()?)
            .ok(),
    }
}

/// The bytes that the words of a text spell.
pub(crate) fn spelled(alloc: Global, text: &str) -> Option<Vec<u8>> {
    let mut bytes = Vec::new(alloc);
    for word in text.split_whitespace() {
        push_word(&mut bytes, alloc, word)?;
    }
    Some(bytes)
}

/// Adds the section of a line: its id, the size of its contents (less than 128 bytes), and these.
fn push_section(bytes: &mut Vec<u8>, alloc: Global, line: &str) -> Option<()> {
    let section = spelled(alloc, line)?;
    let (id, contents) = section.split_first()?;
    if contents.len() > 127 {
        return None;
    }
    bytes.push(*id).ok()?;
    push_byte(bytes, contents.len())?;
    bytes.extend_from_slice(contents).ok()
}

/// The component of these sections, one a line: an id and contents of less than 128 bytes.
pub(crate) fn component_of(alloc: Global, sections: &str) -> Option<Vec<u8>> {
    let mut bytes = spelled(alloc, "0061736d 0d000100")?;
    for line in sections.split('\n') {
        push_section(&mut bytes, alloc, line)?;
    }
    Some(bytes)
}
