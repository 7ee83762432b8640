//! The lexer.

ghost use Rattle.std.specs.Prelude.{◌≡◌, ◌+◌, ◌<◌, ◌≤◌, ◌==◌, ◌↔◌, ◌∷◌, true, length, drop, slice_index, map, IfSome, IfOk, IfErr, OnOk, IsTrue, Some, None, Ok, [], ◌++◌};
ghost use Rattle.std.specs.Str.{IsCharBoundary};
ghost use Rattle.std.specs.Iterator.{at_most};
ghost use Rattle.std.specs.Option.{option_map};
ghost use Rattle.wac_parser_lexer.specs.Pieces.{pieces_at, piece_by, IsSpanIn, text_at};
ghost use Rattle.wac_parser_lexer.specs.Words as words;
ghost use Rattle.wac_parser_lexer.specs.Items.{ahead, behind, input_of, first_item, second_item, rest_input, docs_ahead, doc_in, shown_span, docs_before, found_by, is_end, next_token, token_part, fault_part, IsScanned, Gives, Takes};
ghost use Rattle.wac_parser_lexer.specs.Docs.{doc_of};
ghost use Rattle.wac_parser_lexer.specs.Refused.{first_refused as refused_in};

use crate::LexerResult;
use crate::docs::doc_text;
use crate::error::Error;
use crate::front::word_piece;
use crate::pieces::{front_piece, is_blank};
use crate::refused::first_refused;
use crate::scan::is_letter;
use crate::span::{SourceSpan, span_in};
use crate::spellings::lone_symbol;
use crate::token::Token;
use std::alloc::{AllocError, Global};
use std::marker::Model;

type Found = (LexerResult<Token>, SourceSpan);

/// The piece at a place: the item that it is, and how long it is.
#[inline(never)]
fn piece_at(source: &str, at: usize) -> (Option<LexerResult<Token>>, usize)
    requires begins { IsCharBoundary source.now at }
    requires more { at < length source.now }
    ensures cut { pieces_at source.now at ≡ piece_by at (drop at source.now) result ∷ pieces_at source.now (at + result.1) }
    ensures some { 1 ≤ result.1 }
    ensures ends { IsCharBoundary source.now (at + result.1) }
{
    front_piece(&source.as_bytes()[at..])
}

/// The word at a place where a letter stands, and how long it is.
#[inline(always)]
fn word_at(source: &str, at: usize) -> (Token, usize)
    requires begins { IsCharBoundary source.now at }
    requires more { at < length source.now }
    requires letter { words.is_letter (slice_index source.now at) ≡ true }
    ensures cut { pieces_at source.now at
        ≡ piece_by at (drop at source.now) (Some (Ok result.0), result.1) ∷ pieces_at source.now (at + result.1) }
    ensures ends { IsCharBoundary source.now (at + result.1) }
{
    word_piece(&source.as_bytes()[at..])
}

/// The symbol that stands alone at a place, if one does.
#[inline(always)]
fn symbol_at(source: &str, at: usize) -> Option<Token>
    requires { IsCharBoundary source.now at }
    ensures cut { IfSome result (λ symbol. pieces_at source.now at
        ≡ piece_by at (drop at source.now) (Some (Ok symbol), 1) ∷ pieces_at source.now (at + 1)) }
    ensures ends { IfSome result (λ symbol. IsCharBoundary source.now (at + 1)) }
{
    if at < source.len() {
        lone_symbol(source.as_bytes()[at])
    } else {
        None
    }
}

/// The place behind the blanks at a place.
#[inline(always)]
fn skip_blanks(source: &str, start: usize) -> usize
    requires { IsCharBoundary source.now start }
    ensures first { ahead (pieces_at source.now result) ≡ ahead (pieces_at source.now start) }
    ensures rest { behind (pieces_at source.now result) ≡ behind (pieces_at source.now start) }
    ensures docs { docs_before [] (pieces_at source.now result) ≡ docs_before [] (pieces_at source.now start) }
    ensures place { IsCharBoundary source.now result }
{
    let bytes = source.as_bytes();
    let mut at = start;
    'blanks: while at < source.len() && is_blank(bytes[at]) {
        at += 1;
    }
    at
}

/// The first item from a place on, where it stands, and whether only blanks stand before it.
#[inline(never)]
fn item_behind(source: &str, start: usize) -> (Option<LexerResult<Token>>, SourceSpan, bool)
    requires { IsCharBoundary source.now start }
    ensures found { option_map (λ token. (token, result.1)) result.0 ≡ ahead (pieces_at source.now start) }
    ensures rest { pieces_at source.now (result.1.offset + result.1.length) ≡ behind (pieces_at source.now start) }
    ensures within { IsSpanIn source.now result.1 }
    ensures bare { IsTrue result.2 → docs_before [] (pieces_at source.now start) ≡ [] }
{
    let bytes = source.as_bytes();
    let mut at = start;
    let mut bare = true;
    'pieces: while at < source.len() {
        if is_blank(bytes[at]) {
            at += 1;
            continue 'pieces;
        }
        let (token, length) = piece_at(source, at);
        if token.is_some() {
            return (token, SourceSpan { offset: at, length }, bare);
        }
        at += length;
        bare = false;
    }
    let span = SourceSpan {
        offset: at,
        length: 0,
    };
    (None, span, bare)
}

/// What is scanned ahead of a place.
#[derive(Drop)]
struct Ahead {
    // the next item's token, if it is one
    token: Option<Token>,
    // where the next item stands
    span: SourceSpan,
    // the place behind the next item
    rest: usize,
    // whether only blanks stand before the next item
    bare: bool,
    // the fault that the next item is, if it is no token; none at the end
    fault: Option<Error>,
}

impl Ahead {
    /// Before anything is scanned.
    fn new() -> Self {
        Ahead {
            token: None,
            span: SourceSpan {
                offset: 0,
                length: 0,
            },
            rest: 0,
            bare: false,
            fault: None,
        }
    }

    /// The next item.
    #[inline(always)]
    fn found(&self) -> Option<Found>
        ensures { result ≡ found_by self.now.token self.now.fault self.now.span }
    {
        match (self.token, self.fault) {
            (Some(token), _) => Some((Ok(token), self.span)),
            (None, Some(fault)) => Some((Err(fault), self.span)),
            (None, None) => None,
        }
    }

    /// Whether no item comes next.
    #[inline(always)]
    fn is_end(&self) -> bool
        ensures { result ≡ is_end self.now.token self.now.fault }
    {
        matches!((self.token, self.fault), (None, None))
    }

    /// Notes a token behind blanks.
    #[inline(always)]
    fn note(&mut self, token: Token, span: SourceSpan, rest: usize)
        ensures token { self.new.token ≡ Some token }
        ensures span { self.new.span ≡ span }
        ensures rest { self.new.rest ≡ rest }
        ensures bare { self.new.bare ≡ true }
    {
        self.token = Some(token);
        self.span = span;
        self.rest = rest;
        self.bare = true;
    }
}

/// The token that an item is, if it is one.
fn token_of(item: Option<LexerResult<Token>>) -> Option<Token>
    ensures { result ≡ token_part item }
{
    match item {
        Some(Ok(token)) => Some(token),
        _ => None,
    }
}

/// The fault that an item is, if it is one.
fn fault_of(item: Option<LexerResult<Token>>) -> Option<Error>
    ensures { result ≡ fault_part item }
{
    match item {
        Some(Err(fault)) => Some(fault),
        _ => None,
    }
}

/// Scans the first item from a place on, whatever it is.
#[inline(never)]
fn scan_any(next: &mut Ahead, source: &str, start: usize)
    requires { IsCharBoundary source.now start }
    ensures { IsScanned source.now start next.new.token next.new.fault next.new.span next.new.rest next.new.bare }
{
    let (item, span, bare) = item_behind(source, start);
    next.token = token_of(item);
    next.fault = fault_of(item);
    next.rest = span.offset + span.length;
    next.span = span;
    next.bare = bare;
}

/// Scans the first item from a place on.
#[inline(always)]
fn scan(next: &mut Ahead, source: &str, start: usize)
    requires { IsCharBoundary source.now start }
    ensures { IsScanned source.now start next.new.token next.new.fault next.new.span next.new.rest next.new.bare }
{
    let bytes = source.as_bytes();
    let at = skip_blanks(source, start);
    if at < source.len() && is_letter(bytes[at]) {
        let (word, length) = word_at(source, at);
        next.note(word, SourceSpan { offset: at, length }, at + length);
        return;
    }
    if let Some(symbol) = symbol_at(source, at) {
        let span = SourceSpan {
            offset: at,
            length: 1,
        };
        next.note(symbol, span, at + 1);
        return;
    }
    scan_any(next, source, at);
}

/// Adds a comment, if it is a doc comment.
fn add_doc<'a>(
    docs: &mut Vec<(&'a str, SourceSpan)>,
    comment: &'a str,
    span: SourceSpan,
) -> Result<(), AllocError>
    ensures { OnOk result (map doc_of docs.new.items ≡ map doc_of docs.old.items ++ doc_in span comment.now) }
{
    if let Some(text) = doc_text(comment) {
        docs.push((text, span))?;
    }
    Ok(())
}

/// The doc comments before the first item from a place on.
#[inline(never)]
fn docs_from<'a>(
    alloc: Global,
    source: &'a str,
    start: usize,
) -> Result<Vec<(&'a str, SourceSpan)>, AllocError>
    requires { IsCharBoundary source.now start }
    ensures { IfOk result (λ v. map doc_of v.items ≡ docs_before [] (pieces_at source.now start)) }
{
    let mut docs = Vec::new(alloc);
    let bytes = source.as_bytes();
    let mut at = start;
    'pieces: while at < source.len() {
        if is_blank(bytes[at]) {
            at += 1;
            continue 'pieces;
        }
        if bytes[at] != b'/' {
            return Ok(docs);
        }
        let (token, length) = piece_at(source, at);
        if token.is_some() {
            return Ok(docs);
        }
        let comment = &source[at..at + length];
        add_doc(&mut docs, comment, SourceSpan { offset: at, length })?;
        at += length;
    }
    Ok(docs)
}

/// A lexer over a source. It keeps the next item, so that each is scanned once.
#[derive(Drop)]
pub struct Lexer<'a> {
    source: &'a str,
    // the place behind the last item
    at: usize,
    // the span of the last item
    last: SourceSpan,
    next: Ahead,
}

impl<'a> Model for Lexer<'a> {
    ghost use Rattle.wac_parser_lexer.specs.Items.{Input, input_at, found_by, IsReady};

    ghost Value = { Input };

    ghost view = { λ l. input_at l.source.now l.at l.last };

    ghost invariant = { λ l. IsReady l.source.now l.at l.last
        (found_by l.next.token l.next.fault l.next.span) l.next.rest l.next.bare };
}

impl<'a> Lexer<'a> {
    /// A lexer at the start of a source.
    pub fn new(source: &'a str) -> Result<Self, (Error, SourceSpan)>
        ensures start { IfOk result (λ l. l ≡ input_of source.now) }
        ensures accepted { OnOk result (refused_in source.now ≡ None) }
        ensures refused { IfErr result (λ e. refused_in source.now ≡ Some e) }
    {
        if let Some(refused) = first_refused(source) {
            return Err(refused);
        }
        let mut next = Ahead::new();
        scan(&mut next, source, 0);
        Ok(Lexer {
            source,
            at: 0,
            last: SourceSpan {
                offset: 0,
                length: 0,
            },
            next,
        })
    }

    /// The text at a span of the source.
    pub fn source(&self, span: SourceSpan) -> &'a str
        requires { IsSpanIn self.now.source span }
        ensures { result.now ≡ text_at self.now.source span }
    {
        &self.source[span.offset..span.offset + span.length]
    }

    /// Whether a span lies in the source, on the bounds of characters.
    pub fn span_in(&self, span: SourceSpan) -> bool
        ensures { IsTrue result ↔ IsSpanIn self.now.source span }
    {
        span_in(self.source, span)
    }

    /// The span of the item that was given last, at first the empty span at the start, and behind the
    /// last item the empty span at the end. One that ends at the source's end is shown as the byte
    /// before its start.
    pub fn span(&self) -> SourceSpan
        ensures { result ≡ shown_span self.now }
    {
        if self.last.offset + self.last.length == self.source.len() {
            return SourceSpan {
                offset: self.last.offset.saturating_sub(1),
                length: 1,
            };
        }
        self.last
    }

    /// The next item, which stays.
    pub fn peek(&self) -> Option<(LexerResult<Token>, SourceSpan)>
        ensures value { result ≡ first_item self.now }
        ensures within { IfSome result (λ r. IsSpanIn self.now.source r.1) }
    {
        self.next.found()
    }

    /// The next item's token, if it is one; the item stays.
    #[inline(always)]
    pub fn token(&self) -> Option<Token>
        ensures { result ≡ next_token self.now }
    {
        self.next.token
    }

    /// The item behind the next one, which stays too.
    pub fn peek2(&self) -> Option<(LexerResult<Token>, SourceSpan)>
        ensures value { result ≡ second_item self.now }
        ensures within { IfSome result (λ r. IsSpanIn self.now.source r.1) }
    {
        let mut second = Ahead::new();
        scan(&mut second, self.source, self.next.rest);
        second.found()
    }

    /// The doc comments before the next item, or before the end: the text of each, and where the whole comment stands.
    #[inline(always)]
    pub fn comments(&self, alloc: Global) -> Result<Vec<(&'a str, SourceSpan)>, AllocError>
        ensures { IfOk result (λ v. map doc_of v.items ≡ docs_ahead self.now) }
    {
        if self.next.bare {
            return Ok(Vec::new(alloc));
        }
        docs_from(alloc, self.source, self.at)
    }

    /// Goes on behind the next item, or to the end.
    #[inline(never)]
    fn advance(&mut self)
        ensures { self.new ≡ rest_input self.old }
    {
        if self.next.is_end() {
            self.at = self.source.len();
            self.last = SourceSpan {
                offset: self.source.len(),
                length: 0,
            };
        } else {
            self.at = self.next.rest;
            self.last = self.next.span;
        }
        scan(&mut self.next, self.source, self.at);
    }

    /// Takes the next item if it is this token, and gives its span.
    #[inline(always)]
    pub fn take(&mut self, token: Token) -> Option<SourceSpan>
        ensures { Takes token self.old result self.new }
    {
        let Some(found) = self.next.token else {
            return None;
        };
        if found != token {
            return None;
        }
        let span = self.next.span;
        self.advance();
        Some(span)
    }
}

impl<'a> Iterator for Lexer<'a> {
    type Item = (LexerResult<Token>, SourceSpan);

    ghost next_gives = { Gives };

    ghost remaining = { λ s. at_most (length s.items) };

    fn next(&mut self) -> Option<(LexerResult<Token>, SourceSpan)> {
        let found = self.next.found();
        self.advance();
        found
    }
}
