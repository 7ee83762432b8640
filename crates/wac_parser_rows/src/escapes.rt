//! Escapes in the sources of rows.

use wac_rows::Words;

/// The character that stands in braces as a number in hexadecimal digits, and what is behind it.
fn numbered(text: &str) -> Option<(char, &str)> {
    let (digits, rest) = text.split_once('}')?;
    let number = u32::from_str_radix(digits, 16).ok()?;
    Some((char::from_u32(number)?, rest))
}

/// The character that an escape means, given what stands behind its backslash, and what is behind it.
fn escaped(text: &str) -> Option<(char, &str)> {
    if let Some(rest) = text.strip_prefix('n') {
        return Some(('\n', rest));
    }
    if let Some(rest) = text.strip_prefix('r') {
        return Some(('\r', rest));
    }
    if let Some(rest) = text.strip_prefix('t') {
        return Some(('\t', rest));
    }
    numbered(text.strip_prefix("u{")?)
}

/// Adds what stands behind a backslash.
fn push_piece(plain: &mut String, words: &mut Words<'_>, piece: &str) {
    let (character, rest) = match escaped(piece) {
        Some(it) => it,
        None => {
            words.refuse("no such escape");
            ('?', piece)
        }
    };
    if plain.push(character).is_err() || plain.push_str(rest).is_err() {
        words.refuse("out of memory");
    }
}

/// What is left, with a character for each of its escapes `\n`, `\r`, `\t` and `\u{..}`.
pub(crate) fn take_unescaped(words: &mut Words<'_>) -> String {
    let mut pieces = words.rest().split('\\');
    let mut plain = words.own(pieces.next().unwrap_or(""));
    for piece in pieces {
        push_piece(&mut plain, words, piece);
    }
    plain
}
