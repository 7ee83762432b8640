//! A text cut into blanks, comments, tokens and faults.

ghost use Rattle.std.specs.Prelude.{◌≡◌, ◌<◌, ◌≤◌, true, length, slice_index, IfSome};
ghost use Rattle.std.specs.List.{prefix_len};
ghost use Rattle.wac_parser_lexer.specs.Pieces as spec;
ghost use Rattle.wac_parser_lexer.specs.Words as words;

use crate::LexerResult;
use crate::error::Error;
use crate::front::token_at;
use crate::scan::block_comment_len;
use crate::token::Token;

/// Whether a byte is a blank: a space, a tab, a carriage return or a line feed.
pub(crate) fn is_blank(b: u8) -> bool
    ensures { result ≡ spec.is_blank b }
{
    b == b' ' || b == b'\t' || b == b'\r' || b == b'\n'
}

fn is_continuation(b: u8) -> bool
    ensures { result ≡ spec.is_continuation b }
{
    127 < b && b < 192
}

fn is_comment(token: Token) -> bool
    ensures { result ≡ spec.is_comment token }
{
    matches!(token, Token::Comment | Token::BlockComment)
}

/// Whether the text begins with `/*`.
fn opens_block(z: &[u8]) -> bool
    ensures { result ≡ words.opens_comment (slice_index z.now 0) (slice_index z.now 1) }
{
    match z {
        [b'/', b'*', ..] => true,
        _ => false,
    }
}

/// A comment between `/*` and `*/`, or the fault where it has no end.
fn block_piece(z: &[u8]) -> (Option<LexerResult<Token>>, usize)
    requires some { 0 < length z.now }
    requires opens { words.opens_comment (slice_index z.now 0) (slice_index z.now 1) ≡ true }
    ensures value { result ≡ spec.front_piece z.now }
    ensures fits { (1 ≤ result.1) × (result.1 ≤ length z.now) }
{
    let len = block_comment_len(z);
    if len == 0 {
        return (Some(Err(Error::UnterminatedComment)), z.len());
    }
    (None, len)
}

fn continuations_len(z: &[u8]) -> usize
    ensures value { result ≡ prefix_len spec.is_continuation z.now }
    ensures fits { result ≤ length z.now }
{
    z.iter().take_while(|b| is_continuation(**b)).count()
}

/// How many bytes the first character has.
fn char_len(z: &[u8]) -> usize
    requires { 0 < length z.now }
    ensures value { result ≡ spec.char_len z.now }
    ensures fits { (1 ≤ result) × (result ≤ length z.now) }
{
    1 + continuations_len(&z[1..])
}

/// A token, or the fault at a character that begins none.
fn token_or_fault(z: &[u8], found: Option<(Token, usize)>) -> (Option<LexerResult<Token>>, usize)
    requires some { 0 < length z.now }
    requires within { IfSome found (λ t. (1 ≤ t.1) × (t.1 ≤ length z.now)) }
    ensures value { result ≡ spec.token_or_fault z.now found }
    ensures fits { (1 ≤ result.1) × (result.1 ≤ length z.now) }
{
    match found {
        Some((token, len)) if is_comment(token) => (None, len),
        Some((token, len)) => (Some(Ok(token)), len),
        None if z[0] == b'"' => (Some(Err(Error::UnterminatedString)), 1),
        None => (Some(Err(Error::UnexpectedToken)), char_len(z)),
    }
}

/// What stands at the front of a text, nothing for blanks and comments, and how long it is.
#[tactic(auto, unfolding(crate::specs::Pieces::front_piece))]
pub(crate) fn front_piece(z: &[u8]) -> (Option<LexerResult<Token>>, usize)
    requires { 0 < length z.now }
    ensures value { result ≡ spec.front_piece z.now }
    ensures fits { (1 ≤ result.1) × (result.1 ≤ length z.now) }
{
    if is_blank(z[0]) {
        return (None, 1);
    }
    if opens_block(z) {
        return block_piece(z);
    }
    token_or_fault(z, token_at(z))
}
