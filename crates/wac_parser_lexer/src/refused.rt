//! The characters that may not stand in a source.

ghost use Rattle.std.specs.Prelude.{◌≡◌, ◌<◌, ◌≤◌, length, drop, map, not};
ghost use Rattle.std.specs.Simd.Lanes.{mask_l};
ghost use Rattle.std.specs.List.{prefix_len};
ghost use Rattle.std.specs.Str.{chars, IsCharBoundary};
ghost use Rattle.wac_parser_lexer.specs.Plain as plain;
ghost use Rattle.wac_parser_lexer.specs.Refused as spec;

use crate::error::Error;
use crate::span::SourceSpan;
use std::simd::prelude::*;

/// Whether a character changes the direction of the text.
fn is_bidirectional(c: char) -> bool
    ensures { result ≡ spec.is_bidirectional c }
{
    matches!(c, '\u{202a}'..='\u{202e}' | '\u{2066}'..='\u{2069}')
}

/// Whether Unicode deprecates or discourages a character.
fn is_discouraged(c: char) -> bool
    ensures { result ≡ spec.is_discouraged c }
{
    c == '\u{149}'
        || c == '\u{673}'
        || c == '\u{f77}'
        || c == '\u{f79}'
        || c == '\u{17a3}'
        || c == '\u{17a4}'
        || c == '\u{17b4}'
        || c == '\u{17b5}'
}

/// The fault that a character is.
#[tactic(auto, unfolding(crate::specs::Refused::refusal))]
fn refusal(c: char) -> Option<Error>
    ensures { result ≡ spec.refusal c }
{
    if is_bidirectional(c) {
        Some(Error::DisallowedBidirectionalOverride(c))
    } else if is_discouraged(c) {
        Some(Error::DiscouragedUnicodeCodepoint(c))
    } else if c == '\t' || c == '\n' || c == '\r' {
        None
    } else if c.is_control() {
        Some(Error::DisallowedControlCode(c))
    } else {
        None
    }
}

/// Whether a byte is a character that is never refused: printed ASCII, a tab, a line feed or a carriage return.
fn is_plain(b: u8) -> bool
    ensures { result ≡ plain.is_plain b }
{
    32 <= b && b <= 126 || b == b'\t' || b == b'\n' || b == b'\r'
}

/// How many bytes at the front are plain, byte by byte.
fn plain_tail_len(z: &[u8]) -> usize
    ensures value { result ≡ prefix_len plain.is_plain z.now }
    ensures fits { result ≤ length z.now }
{
    z.iter().take_while(|b| is_plain(**b)).count()
}

/// Which of 16 bytes are not plain, by a bit for each.
fn odd_lanes(v: u8x16) -> u64
    ensures { result ≡ mask_l (map (λ b. not (plain.is_plain b)) v) }
{
    let control = v.simd_lt(u8x16::splat(b' '))
        & v.simd_ne(u8x16::splat(b'\t'))
        & v.simd_ne(u8x16::splat(b'\n'))
        & v.simd_ne(u8x16::splat(b'\r'));
    (control | v.simd_ge(u8x16::splat(0x7f))).to_bitmask()
}

/// How many bytes at the front are plain.
fn plain_len(z: &[u8]) -> usize
    ensures value { result ≡ prefix_len plain.is_plain z.now }
    ensures fits { result ≤ length z.now }
{
    let mut at = 0;
    'lanes: while z.len() - at >= 16 {
        let odd = odd_lanes(u8x16::from_slice(&z[at..]));
        if odd != 0 {
            return at + odd.trailing_zeros() as usize;
        }
        at += 16;
    }
    at + plain_tail_len(&z[at..])
}

/// The place behind the plain bytes at a place.
fn skip_plain(source: &str, at: usize) -> usize
    requires { IsCharBoundary source.now at }
    ensures place { IsCharBoundary source.now result }
    ensures same { spec.refused_from result (chars (drop result source.now))
        ≡ spec.refused_from at (chars (drop at source.now)) }
    ensures behind { at ≤ result }
{
    at + plain_len(&source.as_bytes()[at..])
}

/// The first refused character of a source, with its span.
pub(crate) fn first_refused(source: &str) -> Option<(Error, SourceSpan)>
    ensures { result ≡ spec.first_refused source.now }
{
    let mut at = 0;
    'text: while at < source.len() {
        let odd = skip_plain(source, at);
        let Some(c) = source[odd..].chars().next() else {
            return None;
        };
        let length = c.len_utf8();
        if let Some(error) = refusal(c) {
            return Some((
                error,
                SourceSpan {
                    offset: odd,
                    length,
                },
            ));
        }
        at = odd + length;
    }
    None
}
