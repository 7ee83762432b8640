//! Types of values.
#![tactic(auto, using(crate::proofs::Places::places))]

ghost use Rattle.wac_parser_grammar.specs.declared.error.Error.TheVariants.{Memory};
ghost use Rattle.wac_parser_grammar.specs.Places.{IsBehind};
ghost use Rattle.std.specs.Prelude.{◌≡◌, ◌≢◌, ◌<◌, ◌≤◌, IfErr, OnOk, OnSome};
ghost use Rattle.std.specs.Option.{option_map};
ghost use Rattle.wac_parser_tree.specs.Views.{view_ty, view_boxed_ty};
ghost use Rattle.wac_parser_terms.specs.Views.{view_all, view_maybe, view_payload};
ghost use Rattle.wac_parser_lexer.specs.Items.{rest_input};
ghost use Rattle.wac_parser_grammar.specs.Rules.{left};
ghost use Rattle.wac_parser_grammar.specs.Reads.{Reads};
ghost use Rattle.wac_parser_grammar.specs.ValueTypes as grammar;
ghost use Rattle.wac_parser_terms.specs.Ends.{HasEnd};
ghost use Rattle.wac_parser_terms.specs.Parts as parts;

use crate::base::{
    behind, expect_value, neither_of, next_span, none_of, optional, parse_token, sees, sees_any,
    too_deep,
};
use crate::text::ident;
use std::alloc::Global;
use wac_parser_grammar::{Error, ParseResult};
use wac_parser_lexer::{Lexer, SourceSpan, Token};
use wac_parser_tree::Type;

/// How deep types and expressions may be nested.
pub const MAX_LEVELS: usize = 128;

/// The tokens with which a type begins.
pub const TYPE_FIRST: [Token; 22] = [
    Token::U8Keyword,
    Token::S8Keyword,
    Token::U16Keyword,
    Token::S16Keyword,
    Token::U32Keyword,
    Token::S32Keyword,
    Token::U64Keyword,
    Token::S64Keyword,
    Token::F32Keyword,
    Token::F64Keyword,
    Token::CharKeyword,
    Token::BoolKeyword,
    Token::StringKeyword,
    Token::TupleKeyword,
    Token::ListKeyword,
    Token::OptionKeyword,
    Token::ResultKeyword,
    Token::BorrowKeyword,
    Token::StreamKeyword,
    Token::FutureKeyword,
    Token::ErrorContextKeyword,
    Token::Ident,
];

/// From the start of one span to the end of another.
pub(crate) fn through(a: SourceSpan, b: SourceSpan) -> SourceSpan
    requires { HasEnd b }
    ensures { result ≡ grammar.through a b }
{
    SourceSpan {
        offset: a.offset,
        length: (b.offset + b.length).saturating_sub(a.offset),
    }
}

/// The type that a keyword is by itself.
fn keyword_type<'a>(token: Token, span: SourceSpan) -> Option<Type<'a>>
    ensures { option_map view_ty result ≡ option_map (λ make. make span) (grammar.keyword_type token) }
{
    match token {
        Token::U8Keyword => Some(Type::U8(span)),
        Token::S8Keyword => Some(Type::S8(span)),
        Token::U16Keyword => Some(Type::U16(span)),
        Token::S16Keyword => Some(Type::S16(span)),
        Token::U32Keyword => Some(Type::U32(span)),
        Token::S32Keyword => Some(Type::S32(span)),
        Token::U64Keyword => Some(Type::U64(span)),
        Token::S64Keyword => Some(Type::S64(span)),
        Token::F32Keyword => Some(Type::F32(span)),
        Token::F64Keyword => Some(Type::F64(span)),
        Token::CharKeyword => Some(Type::Char(span)),
        Token::BoolKeyword => Some(Type::Bool(span)),
        Token::StringKeyword => Some(Type::String(span)),
        Token::ErrorContextKeyword => Some(Type::ErrorContext(span)),
        _ => None,
    }
}

/// Takes the next item where it is a type by itself.
fn next_keyword_type<'a>(lexer: &mut Lexer<'a>) -> Option<Type<'a>>
    ensures value { grammar.TakesKeyword (option_map view_ty result) lexer.old lexer.new }
    ensures takes { OnSome result (left lexer.new < left lexer.old) }
    ensures goes_on { IsBehind lexer.new lexer.old }
{
    match lexer.peek() {
        Some((Ok(token), span)) => {
            let ty = keyword_type(token, span)?;
            lexer.next();
            Some(ty)
        }
        _ => None,
    }
}

/// A type.
#[tactic(auto, using(crate::proofs::Places::places), unfolding(wac_parser_grammar::specs::ValueTypes::value_type))]
pub fn value_ty<'a>(alloc: Global, lexer: &mut Lexer<'a>) -> ParseResult<Type<'a>>
    ensures value { Reads view_ty grammar.value_type lexer.old result lexer.new }
    ensures takes { OnOk result (left lexer.new < left lexer.old) }
    ensures goes_on { IsBehind lexer.new lexer.old }
{
    ty_within(alloc, lexer, MAX_LEVELS)
}

/// A type nested no deeper than so many levels.
#[cycle(ty)]
fn ty_within<'a>(alloc: Global, lexer: &mut Lexer<'a>, levels: usize) -> ParseResult<Type<'a>>
    ensures value { Reads view_ty (grammar.ty levels) lexer.old result lexer.new }
    ensures takes { OnOk result (left lexer.new < left lexer.old) }
    ensures goes_on { IsBehind lexer.new lexer.old }
{
    if levels == 0 {
        return Err(too_deep(lexer, &TYPE_FIRST));
    }
    ty_level(alloc, lexer, levels - 1)
}

#[cycle(ty)]
fn ty_level<'a>(alloc: Global, lexer: &mut Lexer<'a>, inside: usize) -> ParseResult<Type<'a>>
    ensures value { Reads view_ty (grammar.ty_level (grammar.ty inside)) lexer.old result lexer.new }
    ensures takes { OnOk result (left lexer.new < left lexer.old) }
    ensures goes_on { IsBehind lexer.new lexer.old }
{
    match next_keyword_type(lexer) {
        Some(ty) => Ok(ty),
        None => composed_ty(alloc, lexer, inside),
    }
}

#[cycle(ty)]
#[tactic(auto, using(crate::proofs::Places::places), unfolding(wac_parser_grammar::specs::ValueTypes::composed_ty))]
fn composed_ty<'a>(alloc: Global, lexer: &mut Lexer<'a>, inside: usize) -> ParseResult<Type<'a>>
    ensures value { Reads view_ty (grammar.composed_ty (grammar.ty inside)) lexer.old result lexer.new }
    ensures takes { OnOk result (left lexer.new < left lexer.old) }
    ensures goes_on { IsBehind lexer.new lexer.old }
{
    if sees(lexer, Token::TupleKeyword) {
        tuple_ty(alloc, lexer, inside)
    } else if sees(lexer, Token::ListKeyword) {
        list_ty(alloc, lexer, inside)
    } else if sees(lexer, Token::OptionKeyword) {
        option_ty(alloc, lexer, inside)
    } else if sees(lexer, Token::ResultKeyword) {
        result_ty(alloc, lexer, inside)
    } else if sees(lexer, Token::BorrowKeyword) {
        borrow_ty(lexer)
    } else if sees(lexer, Token::StreamKeyword) {
        stream_ty(alloc, lexer, inside)
    } else if sees(lexer, Token::FutureKeyword) {
        future_ty(alloc, lexer, inside)
    } else if sees(lexer, Token::Ident) {
        Ok(Type::Ident(ident(lexer)?))
    } else {
        Err(none_of(lexer, &TYPE_FIRST))
    }
}

#[cycle(ty)]
#[tactic(auto, using(crate::proofs::Places::places), unfolding(wac_parser_grammar::specs::ValueTypes::tuple_ty))]
fn tuple_ty<'a>(alloc: Global, lexer: &mut Lexer<'a>, inside: usize) -> ParseResult<Type<'a>>
    ensures value { Reads view_ty (grammar.tuple_ty (grammar.ty inside)) lexer.old result lexer.new }
    ensures takes { OnOk result (left lexer.new < left lexer.old) }
    ensures goes_on { IsBehind lexer.new lexer.old }
{
    let start = parse_token(lexer, Token::TupleKeyword)?;
    parse_token(lexer, Token::OpenAngle)?;
    if !sees_any(lexer, &TYPE_FIRST) {
        return Err(none_of(lexer, &TYPE_FIRST));
    }
    let types = types(alloc, lexer, inside)?;
    let close = parse_token(lexer, Token::CloseAngle)?;
    Ok(Type::Tuple(types, through(start, close)))
}

/// The types up to a closing angle.
#[cycle(ty)]
fn types<'a>(alloc: Global, lexer: &mut Lexer<'a>, inside: usize) -> ParseResult<Vec<Type<'a>>>
    ensures value { Reads (view_all view_ty) (parts.types inside) lexer.old result lexer.new }
    ensures keeps { OnOk result (left lexer.new ≤ left lexer.old) }
    ensures goes_on { IsBehind lexer.new lexer.old }
{
    let mut types = Vec::new(alloc);
    'types: while !sees(lexer, Token::CloseAngle) {
        expect_value(lexer, Token::CloseAngle, &TYPE_FIRST)?;
        types.push(ty_within(alloc, lexer, inside)?)?;
        behind(lexer, Token::CloseAngle, true)?;
    }
    Ok(types)
}

#[cycle(ty)]
#[tactic(auto, using(crate::proofs::Places::places), unfolding(wac_parser_grammar::specs::ValueTypes::list_ty))]
fn list_ty<'a>(alloc: Global, lexer: &mut Lexer<'a>, inside: usize) -> ParseResult<Type<'a>>
    ensures value { Reads view_ty (grammar.list_ty (grammar.ty inside)) lexer.old result lexer.new }
    ensures takes { OnOk result (left lexer.new < left lexer.old) }
    ensures goes_on { IsBehind lexer.new lexer.old }
{
    let start = parse_token(lexer, Token::ListKeyword)?;
    parse_token(lexer, Token::OpenAngle)?;
    let ty = boxed_ty(alloc, lexer, inside)?;
    let close = parse_token(lexer, Token::CloseAngle)?;
    Ok(Type::List(ty, through(start, close)))
}

#[cycle(ty)]
#[tactic(auto, using(crate::proofs::Places::places), unfolding(wac_parser_grammar::specs::ValueTypes::option_ty))]
fn option_ty<'a>(alloc: Global, lexer: &mut Lexer<'a>, inside: usize) -> ParseResult<Type<'a>>
    ensures value { Reads view_ty (grammar.option_ty (grammar.ty inside)) lexer.old result lexer.new }
    ensures takes { OnOk result (left lexer.new < left lexer.old) }
    ensures goes_on { IsBehind lexer.new lexer.old }
{
    let start = parse_token(lexer, Token::OptionKeyword)?;
    parse_token(lexer, Token::OpenAngle)?;
    let ty = boxed_ty(alloc, lexer, inside)?;
    let close = parse_token(lexer, Token::CloseAngle)?;
    Ok(Type::Option(ty, through(start, close)))
}

#[tactic(auto, using(crate::proofs::Places::places), unfolding(wac_parser_grammar::specs::ValueTypes::borrow_ty))]
fn borrow_ty<'a>(lexer: &mut Lexer<'a>) -> ParseResult<Type<'a>>
    ensures value { Reads view_ty grammar.borrow_ty lexer.old result lexer.new }
    ensures takes { OnOk result (left lexer.new < left lexer.old) }
    ensures goes_on { IsBehind lexer.new lexer.old }
    ensures told { IfErr result (λ e. e ≢ Memory) }
{
    let start = parse_token(lexer, Token::BorrowKeyword)?;
    parse_token(lexer, Token::OpenAngle)?;
    let id = ident(lexer)?;
    let close = parse_token(lexer, Token::CloseAngle)?;
    Ok(Type::Borrow(id, through(start, close)))
}

/// A type in a box.
#[cycle(ty)]
fn boxed_ty<'a>(alloc: Global, lexer: &mut Lexer<'a>, inside: usize) -> ParseResult<Box<Type<'a>>>
    ensures value { Reads view_boxed_ty (grammar.ty inside) lexer.old result lexer.new }
    ensures takes { OnOk result (left lexer.new < left lexer.old) }
    ensures goes_on { IsBehind lexer.new lexer.old }
{
    let ty = ty_within(alloc, lexer, inside)?;
    Ok(Box::new(alloc, ty)?)
}

/// `_` or a type.
#[cycle(ty)]
#[tactic(auto, using(crate::proofs::Places::places), unfolding(wac_parser_grammar::specs::ValueTypes::omitted_or))]
fn omitted_or<'a>(
    alloc: Global,
    lexer: &mut Lexer<'a>,
    inside: usize,
) -> ParseResult<Option<Box<Type<'a>>>>
    ensures value { Reads view_maybe (grammar.omitted_or (grammar.ty inside)) lexer.old result lexer.new }
    ensures takes { OnOk result (left lexer.new < left lexer.old) }
    ensures goes_on { IsBehind lexer.new lexer.old }
{
    if sees(lexer, Token::Underscore) {
        parse_token(lexer, Token::Underscore)?;
        return Ok(None);
    }
    if !sees_any(lexer, &TYPE_FIRST) {
        return Err(neither_of(lexer, &[Token::Underscore], &TYPE_FIRST));
    }
    Ok(Some(boxed_ty(alloc, lexer, inside)?))
}

#[cycle(ty)]
#[tactic(auto, using(crate::proofs::Places::places), unfolding(wac_parser_grammar::specs::ValueTypes::second_part))]
fn second_part<'a>(
    alloc: Global,
    lexer: &mut Lexer<'a>,
    inside: usize,
) -> ParseResult<Option<Box<Type<'a>>>>
    ensures value { Reads view_maybe (grammar.second_part (grammar.ty inside)) lexer.old result lexer.new }
    ensures keeps { OnOk result (left lexer.new ≤ left lexer.old) }
    ensures goes_on { IsBehind lexer.new lexer.old }
{
    if optional(lexer, Token::Comma)? {
        return omitted_or(alloc, lexer, inside);
    }
    Ok(None)
}

#[cycle(ty)]
#[tactic(auto, using(crate::proofs::Places::places), unfolding(wac_parser_grammar::specs::ValueTypes::result_ty, wac_parser_grammar::specs::ValueTypes::result_parts))]
fn result_ty<'a>(alloc: Global, lexer: &mut Lexer<'a>, inside: usize) -> ParseResult<Type<'a>>
    ensures value { Reads view_ty (grammar.result_ty (grammar.ty inside)) lexer.old result lexer.new }
    ensures takes { OnOk result (left lexer.new < left lexer.old) }
    ensures goes_on { IsBehind lexer.new lexer.old }
{
    let start = parse_token(lexer, Token::ResultKeyword)?;
    if !optional(lexer, Token::OpenAngle)? {
        return Ok(Type::Result {
            ok: None,
            err: None,
            span: start,
        });
    }
    let ok = omitted_or(alloc, lexer, inside)?;
    let err = second_part(alloc, lexer, inside)?;
    let close = parse_token(lexer, Token::CloseAngle)?;
    Ok(Type::Result {
        ok,
        err,
        span: through(start, close),
    })
}

/// What stands behind a keyword: nothing, or a type in angles; and the span of all.
#[cycle(ty)]
#[tactic(auto, using(crate::proofs::Places::places), unfolding(wac_parser_grammar::specs::ValueTypes::payload))]
fn payload<'a>(
    alloc: Global,
    lexer: &mut Lexer<'a>,
    start: SourceSpan,
    inside: usize,
) -> ParseResult<(Option<Box<Type<'a>>>, SourceSpan)>
    ensures value { Reads view_payload (grammar.payload (grammar.ty inside) start) lexer.old result lexer.new }
    ensures keeps { OnOk result (left lexer.new ≤ left lexer.old) }
    ensures goes_on { IsBehind lexer.new lexer.old }
{
    if !optional(lexer, Token::OpenAngle)? {
        return Ok((None, start));
    }
    let ty = boxed_ty(alloc, lexer, inside)?;
    let close = parse_token(lexer, Token::CloseAngle)?;
    Ok((Some(ty), through(start, close)))
}

/// Takes the next item, a keyword, and what stands behind it: nothing, or a type in angles, which
/// is given with the span of all.
#[tactic(auto, using(crate::proofs::Places::places), unfolding(wac_parser_grammar::specs::ValueTypes::value_type))]
pub fn parse_optional_payload<'a>(
    alloc: Global,
    lexer: &mut Lexer<'a>,
) -> ParseResult<(Option<Box<Type<'a>>>, SourceSpan)>
    requires { 0 < left lexer.old }
    ensures value { Reads view_payload (parts.payload_at lexer.old) (rest_input lexer.old) result lexer.new }
    ensures goes_on { IsBehind lexer.new lexer.old }
{
    let start = next_span(lexer);
    lexer.next();
    payload(alloc, lexer, start, MAX_LEVELS)
}

#[cycle(ty)]
#[tactic(auto, using(crate::proofs::Places::places), unfolding(wac_parser_grammar::specs::ValueTypes::stream_ty))]
fn stream_ty<'a>(alloc: Global, lexer: &mut Lexer<'a>, inside: usize) -> ParseResult<Type<'a>>
    ensures value { Reads view_ty (grammar.stream_ty (grammar.ty inside)) lexer.old result lexer.new }
    ensures takes { OnOk result (left lexer.new < left lexer.old) }
    ensures goes_on { IsBehind lexer.new lexer.old }
{
    let start = parse_token(lexer, Token::StreamKeyword)?;
    let (ty, span) = payload(alloc, lexer, start, inside)?;
    Ok(Type::Stream(ty, span))
}

#[cycle(ty)]
#[tactic(auto, using(crate::proofs::Places::places), unfolding(wac_parser_grammar::specs::ValueTypes::future_ty))]
fn future_ty<'a>(alloc: Global, lexer: &mut Lexer<'a>, inside: usize) -> ParseResult<Type<'a>>
    ensures value { Reads view_ty (grammar.future_ty (grammar.ty inside)) lexer.old result lexer.new }
    ensures takes { OnOk result (left lexer.new < left lexer.old) }
    ensures goes_on { IsBehind lexer.new lexer.old }
{
    let start = parse_token(lexer, Token::FutureKeyword)?;
    let (ty, span) = payload(alloc, lexer, start, inside)?;
    Ok(Type::Future(ty, span))
}
