//! The token at the front of a text.

ghost use Rattle.std.specs.Prelude.{◌≡◌, ◌<◌, ◌≤◌, true, length, map, slice_index, IfSome, Some, Ok};
ghost use Rattle.wac_parser_lexer.specs.Begun as begun;
ghost use Rattle.wac_parser_lexer.specs.Front as spec;
ghost use Rattle.wac_parser_lexer.specs.Pieces as pieces;
ghost use Rattle.wac_parser_lexer.specs.Scan as scan;
ghost use Rattle.wac_parser_lexer.specs.Words as words;

use crate::scan::{
    block_comment_len, ident_len, is_letter, label_len, line_comment_len, names_len,
    package_name_len, package_path_len, path_len, string_len,
};
use crate::spellings::spellings_by;
use crate::token::Token;

/// The longer of two, the first where they are equally long.
fn longer(a: (Token, usize), b: (Token, usize)) -> (Token, usize)
    ensures { result ≡ spec.longer a b }
{
    if a.1 < b.1 { b } else { a }
}

/// The longest entry of a table that the text begins with.
fn spelled_in(mut table: &[(&str, Token)], z: &[u8]) -> (Token, usize)
    ensures value { result ≡ spec.spelled_from (Token.Ident, 0) (map (λ entry. (entry.0.now, entry.1)) table.entry.now) z.now }
    ensures fits { result.1 ≤ length z.now }
{
    let mut best = (Token::Ident, 0);
    'table: while let [(text, token), rest @ ..] = table {
        if z.starts_with(text.as_bytes()) {
            best = longer(best, (*token, text.len()));
        }
        table = rest;
    }
    best
}

/// The longest keyword or symbol.
fn spelled_at(z: &[u8]) -> (Token, usize)
    requires { 0 < length z.now }
    ensures value { result ≡ spec.spelled_at z.now }
    ensures fits { result.1 ≤ length z.now }
{
    spelled_in(spellings_by(z[0]), z)
}

/// The keyword that a word is, or an identifier.
#[inline(always)]
fn keyword(word: &[u8]) -> Token
    requires { 0 < length word.now }
    ensures { result ≡ begun.keyword_in (begun.spellings_by (slice_index word.now 0)) word.now }
{
    let mut table = spellings_by(word[0]);
    'table: while let [(text, token), rest @ ..] = table {
        if text.as_bytes() == word {
            return *token;
        }
        table = rest;
    }
    Token::Ident
}

/// The longer of a keyword or symbol and an identifier, which has been measured.
fn spelled_or_ident(z: &[u8], ident: usize) -> (Token, usize)
    requires some { 0 < length z.now }
    requires measured { ident ≡ scan.ident_len z.now }
    requires within { ident ≤ length z.now }
    ensures value { result ≡ spec.longer (spec.spelled_at z.now) (Token.Ident, scan.ident_len z.now) }
    ensures fits { result.1 ≤ length z.now }
{
    if ident == 0 {
        return spelled_at(z);
    }
    (keyword(&z[..ident]), ident)
}

/// The longest token where no string and no comment begins: the identifiers are walked over once.
fn longest_word(z: &[u8]) -> (Token, usize)
    requires some { 0 < length z.now }
    requires words { (scan.string_len z.now ≡ 0) × (scan.line_comment_len z.now ≡ 0) × (scan.block_comment_len z.now ≡ 0) }
    ensures value { result ≡ spec.longest_at z.now }
    ensures fits { result.1 ≤ length z.now }
{
    let ident = ident_len(z);
    let best = spelled_or_ident(z, ident);
    if ident == 0 {
        return best;
    }
    let names = names_len(z, ident);
    if names == 0 {
        return best;
    }
    let best = longer(best, (Token::PackageName, package_name_len(z, names)));
    let path = path_len(z, names);
    longer(best, (Token::PackagePath, package_path_len(z, path)))
}

/// Whether a text begins with a colon and what begins an identifier behind it.
fn names_go_on(z: &[u8]) -> bool
    ensures { result ≡ scan.names_go_on z.now }
{
    match z {
        [b':', first, ..] => is_letter(*first) || *first == b'%',
        _ => false,
    }
}

/// The word at the front of a text that begins with a letter. Where no names go on behind its label, that is all of it.
#[inline(never)]
pub(crate) fn word_piece(z: &[u8]) -> (Token, usize)
    requires some { 0 < length z.now }
    requires letter { words.is_letter (slice_index z.now 0) ≡ true }
    ensures value { pieces.front_piece z.now ≡ (Some (Ok result.0), result.1) }
    ensures fits { (1 ≤ result.1) × (result.1 ≤ length z.now) }
{
    let label = label_len(z);
    if names_go_on(&z[label..]) {
        return longest_word(z);
    }
    (keyword(&z[..label]), label)
}

/// The longest token of any kind, a keyword or a symbol where another kind is as long. Only a string
/// begins with a quote, and only a comment or a symbol with a slash.
fn longest_at(z: &[u8]) -> (Token, usize)
    requires { 0 < length z.now }
    ensures value { result ≡ spec.longest_at z.now }
    ensures fits { result.1 ≤ length z.now }
{
    match z[0] {
        b'"' => longer(spelled_at(z), (Token::String, string_len(z))),
        b'/' => {
            let best = longer(spelled_at(z), (Token::Comment, line_comment_len(z)));
            longer(best, (Token::BlockComment, block_comment_len(z)))
        }
        _ => longest_word(z),
    }
}

/// The longest token at the front of a text, and its length.
#[tactic(auto, unfolding(crate::specs::Front::token_at))]
pub(crate) fn token_at(z: &[u8]) -> Option<(Token, usize)>
    requires { 0 < length z.now }
    ensures value { result ≡ spec.token_at z.now }
    ensures fits { IfSome result (λ t. (1 ≤ t.1) × (t.1 ≤ length z.now)) }
{
    let best = longest_at(z);
    if best.1 == 0 { None } else { Some(best) }
}
