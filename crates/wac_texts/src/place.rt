//! Places in sources, as compilers show them.

ghost use Rattle.std.specs.Prelude.{◌≡◌, ◌+◌};
ghost use Rattle.wac_texts.specs.Places.{begins_character, newlines, characters, first_line, behind_newline, IsFront, IsPlace};

use std::alloc::{AllocError, Global};
use wac_parser_lexer::SourceSpan;

/// Where a span begins in a source.
#[derive(Clone, Copy, Debug, PartialEq, Eq)]
pub struct Place<'a> {
    /// Which line, from 1 on.
    pub line: usize,
    /// Which character of the line, from 1 on.
    pub column: usize,
    /// How many characters of the line the span has: at least one, so that there is something to show.
    pub width: usize,
    /// The line, without its end.
    pub text: &'a str,
}

/// Whether a byte begins a character.
fn begins_character(byte: u8) -> bool
    ensures { result ≡ begins_character byte }
{
    byte < 128 || 192 <= byte
}

/// The front of a text, of at most so many bytes, to the end of a character.
fn front(text: &str, length: usize) -> &str
    ensures { IsFront text.now «length» result.now }
{
    &text[..text.floor_char_boundary(length)]
}

/// The line and the column at which a text ends.
fn end_of(text: &str) -> (usize, usize)
    ensures line { result.0 ≡ 1 + newlines text.now }
    ensures column { result.1 ≡ 1 + behind_newline text.now }
{
    let mut line: usize = 1;
    let mut column: usize = 1;
    for byte in text.as_bytes() {
        if *byte == b'\n' {
            line += 1;
            column = 1;
        } else if begins_character(*byte) {
            column += 1;
        }
    }
    (line, column)
}

/// How many characters the first line of a text has.
fn width_of(text: &str) -> usize
    ensures { result ≡ characters (first_line text.now) }
{
    let mut width: usize = 0;
    for byte in text.as_bytes() {
        if *byte == b'\n' {
            return width;
        }
        if begins_character(*byte) {
            width += 1;
        }
    }
    width
}

/// Where a span stands in a source. Behind the end of the source it stands at the end.
pub fn place_of(source: &str, span: SourceSpan) -> Place<'_>
    ensures place { IsPlace source.now span result }
{
    let before = front(source, span.offset);
    let behind = &source[before.len()..];
    let (line, column) = end_of(before);
    let width = width_of(front(behind, span.length)).max(1);
    let text = source.split('\n').nth(line.saturating_sub(1)).unwrap_or("");
    Place {
        line,
        column,
        width,
        text: text.trim_end_matches('\r'),
    }
}

/// Adds a character so many times.
fn push_many(text: &mut String, c: char, count: usize) -> Result<(), AllocError> {
    for _ in 0..count {
        text.push(c)?;
    }
    Ok(())
}

/// Where a span stands in a source, with the line and carets under the span:
///
/// ```text
///  --> 2:9
///   |
/// 2 | let x = y;
///   |         ^
/// ```
pub fn show_place(alloc: Global, source: &str, span: SourceSpan) -> Result<String, AllocError> {
    let place = place_of(source, span);
    let Place {
        line,
        column,
        width,
        text,
    } = place;
    let number = format!(in alloc; "{line}")?;
    let mut margin = String::new(alloc);
    push_many(&mut margin, ' ', number.len())?;
    let mut shown = format!(in alloc;
        "{margin}--> {line}:{column}\n{margin} |\n{line} | {text}\n{margin} | "
    )?;
    push_many(&mut shown, ' ', column.saturating_sub(1))?;
    push_many(&mut shown, '^', width)?;
    shown.push('\n')?;
    Ok(shown)
}
