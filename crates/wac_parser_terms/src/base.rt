//! One token at a time.

ghost use Rattle.wac_parser_grammar.specs.declared.error.Error.TheVariants.{Memory};
ghost use Rattle.wac_parser_grammar.specs.Places.{IsBehind};
ghost use Rattle.std.specs.Prelude.{◌≡◌, ◌≢◌, ◌∷◌, ◌++◌, ◌<◌, ◌≤◌, false, true, length, IfErr, IfOk, OnErr, OnOk, Some};
ghost use Rattle.wac_parser_grammar.specs.Faults.{fault_of};
ghost use Rattle.wac_parser_lexer.specs.Pieces.{IsSpanIn};
ghost use Rattle.wac_parser_grammar.specs.Ahead as ahead;
ghost use Rattle.wac_parser_grammar.specs.Rules as rules;
ghost use Rattle.wac_parser_grammar.specs.Reads.{Reads};
ghost use Rattle.wac_parser_terms.specs.Absent as spec;
ghost use Rattle.wac_parser_terms.specs.Parts as parts;

use crate::lookahead::{Lookahead, same_token};
use wac_parser_grammar::{Error, ParseResult};
use wac_parser_lexer::{Lexer, SourceSpan, Token};

/// The fault where this token is missing. The item that stands there is taken.
#[cold]
#[inline(never)]
#[tactic(auto, using(crate::proofs::Places::places), unfolding(wac_parser_grammar::specs::Ahead::missed))]
fn missed(lexer: &mut Lexer<'_>, expected: Token) -> Error
    ensures fault { fault_of result ≡ ahead.missed expected lexer.old }
    ensures goes_on { IsBehind lexer.new lexer.old }
    ensures told { result ≢ Memory }
{
    match lexer.next() {
        None => Error::Expected {
            expected,
            found: None,
            span: lexer.span(),
        },
        Some((Err(error), span)) => Error::Lexer { error, span },
        Some((Ok(found), span)) => Error::Expected {
            expected,
            found: Some(found),
            span,
        },
    }
}

/// Takes the next item, which must be this token, and gives its span.
#[tactic(auto, using(crate::proofs::Places::places))]
pub fn parse_token(lexer: &mut Lexer<'_>, expected: Token) -> ParseResult<SourceSpan>
    ensures value { Reads (λ x. x) (rules.token expected) lexer.old result lexer.new }
    ensures within { IfOk result (λ span. IsSpanIn lexer.new.source span) }
    ensures takes { OnOk result (rules.left lexer.new < rules.left lexer.old) }
    ensures goes_on { IsBehind lexer.new lexer.old }
    ensures told { IfErr result (λ e. e ≢ Memory) }
{
    match lexer.take(expected) {
        Some(span) => Ok(span),
        None => Err(missed(lexer, expected)),
    }
}

/// The value before this token, which is taken.
#[inline(always)]
#[tactic(auto, using(crate::proofs::Places::places, crate::proofs::Tokens::taken_span))]
pub fn ended<T: Drop>(value: T, lexer: &mut Lexer<'_>, end: Token) -> ParseResult<T>
    ensures read { Reads (λ x. rules.span_of_items lexer.old.items) (rules.token end) lexer.old result lexer.new }
    ensures same { IfOk result (λ x. x ≡ value) }
    ensures takes { OnOk result (rules.left lexer.new < rules.left lexer.old) }
    ensures goes_on { IsBehind lexer.new lexer.old }
    ensures told { IfErr result (λ e. e ≢ Memory) }
{
    parse_token(lexer, end)?;
    Ok(value)
}

/// The token that comes next, if one does.
#[inline(always)]
fn next_token(lexer: &Lexer<'_>) -> Option<Token>
    ensures { result ≡ ahead.next_token lexer.now }
{
    lexer.token()
}

/// Whether this token comes next.
#[tactic(auto, unfolding(wac_parser_grammar::specs::Ahead::sees))]
pub fn sees(lexer: &Lexer<'_>, token: Token) -> bool
    ensures { result ≡ ahead.sees token lexer.now }
{
    match next_token(lexer) {
        Some(found) => same_token(found, token),
        None => false,
    }
}

/// Whether the token is one of these.
fn is_any(tokens: &[Token], found: Token) -> bool
    ensures { result ≡ ahead.is_any tokens.now (Some found) }
{
    for token in tokens {
        if same_token(found, *token) {
            return true;
        }
    }
    false
}

/// Whether one of these tokens comes next.
#[tactic(auto, unfolding(wac_parser_grammar::specs::Ahead::sees_any))]
pub fn sees_any(lexer: &Lexer<'_>, tokens: &[Token]) -> bool
    ensures { result ≡ ahead.sees_any tokens.now lexer.now }
{
    match next_token(lexer) {
        Some(found) => is_any(tokens, found),
        None => false,
    }
}

/// The fault where one of these tokens is expected.
pub fn none_of(lexer: &Lexer<'_>, tokens: &[Token]) -> Error
    requires { 0 < length tokens.now }
    ensures { fault_of result ≡ ahead.none_of tokens.now lexer.now }
{
    let mut lookahead = Lookahead::new(lexer);
    lookahead.add_all(tokens);
    lookahead.error()
}

/// The fault where one of these tokens, or one of the others after them, is expected.
pub fn neither_of(lexer: &Lexer<'_>, tokens: &[Token], others: &[Token]) -> Error
    requires { 0 < length tokens.now }
    ensures { fault_of result ≡ ahead.none_of (tokens.now ++ others.now) lexer.now }
{
    let mut lookahead = Lookahead::new(lexer);
    lookahead.add_all(tokens);
    lookahead.add_all(others);
    lookahead.error()
}

/// The span of the next item.
pub(crate) fn next_span(lexer: &Lexer<'_>) -> SourceSpan
    ensures { result ≡ rules.span_of_items lexer.now.items }
{
    match lexer.peek() {
        Some((_, span)) => span,
        None => SourceSpan::new(0, 0),
    }
}

/// The fault where nothing may begin, since the depth is spent.
pub(crate) fn too_deep(lexer: &Lexer<'_>, first: &[Token]) -> Error
    requires { 0 < length first.now }
    ensures { fault_of result ≡ parts.too_deep first.now lexer.now }
{
    if sees_any(lexer, first) {
        return Error::NestedTooDeep {
            span: next_span(lexer),
        };
    }
    none_of(lexer, first)
}

/// Whether any token comes next.
#[tactic(auto, unfolding(wac_parser_grammar::specs::Rules::sees_token))]
fn sees_token(lexer: &Lexer<'_>) -> bool
    ensures { result ≡ rules.sees_token lexer.now }
{
    matches!(next_token(lexer), Some(_))
}

/// That an optional token is not there; a faulty item is refused.
#[tactic(auto, unfolding(wac_parser_grammar::specs::Rules::fault_ahead))]
fn absent(lexer: &Lexer<'_>) -> ParseResult<bool>
    ensures value { Reads (λ x. x) spec.absent lexer.now result lexer.now }
    ensures told { IfErr result (λ e. e ≢ Memory) }
{
    match lexer.peek() {
        Some((Err(error), span)) => Err(Error::Lexer { error, span }),
        _ => Ok(false),
    }
}

/// Takes the token where it comes next, and answers whether it did; a faulty item is refused.
#[tactic(auto, using(crate::proofs::Places::places))]
pub fn optional(lexer: &mut Lexer<'_>, token: Token) -> ParseResult<bool>
    ensures value { Reads (λ x. x) (rules.optional token) lexer.old result lexer.new }
    ensures keeps { OnOk result (rules.left lexer.new ≤ rules.left lexer.old) }
    ensures goes_on { IsBehind lexer.new lexer.old }
    ensures told { IfErr result (λ e. e ≢ Memory) }
{
    match lexer.take(token) {
        Some(_) => Ok(true),
        None => absent(lexer),
    }
}

/// Takes what stands behind a value of a list.
#[tactic(auto, using(crate::proofs::Places::places), unfolding(wac_parser_grammar::specs::Rules::behind))]
pub fn behind(lexer: &mut Lexer<'_>, until: Token, with_commas: bool) -> ParseResult<()>
    ensures value { Reads (λ x. x) (rules.behind until with_commas) lexer.old result lexer.new }
    ensures keeps { OnOk result (rules.left lexer.new ≤ rules.left lexer.old) }
    ensures goes_on { IsBehind lexer.new lexer.old }
    ensures told { IfErr result (λ e. e ≢ Memory) }
{
    if sees(lexer, until) {
        return Ok(());
    }
    if with_commas && sees_token(lexer) {
        parse_token(lexer, Token::Comma)?;
    }
    Ok(())
}

/// Refuses where neither the token that ends a list comes next nor one that begins a value.
pub(crate) fn expect_value(lexer: &Lexer<'_>, until: Token, first: &[Token]) -> ParseResult<()>
    requires { ahead.sees until lexer.now ≡ false }
    ensures some { OnOk result (ahead.sees_any first.now lexer.now ≡ true) }
    ensures none { OnErr result (ahead.sees_any first.now lexer.now ≡ false) }
    ensures fault { IfErr result (λ e. fault_of e ≡ ahead.none_of (until ∷ first.now) lexer.now) }
{
    let mut lookahead = Lookahead::new(lexer);
    lookahead.peek(until);
    if lookahead.peek_any(first) {
        return Ok(());
    }
    Err(lookahead.error())
}
