//! Types of functions.
#![tactic(auto, using(crate::proofs::Places::places))]

ghost use Rattle.wac_parser_grammar.specs.Places.{IsBehind};
ghost use Rattle.std.specs.Prelude.{◌<◌, ◌≤◌, OnOk};
ghost use Rattle.wac_parser_tree.specs.Views.{view_named_type, view_result_list, view_func_type, view_func_type_ref};
ghost use Rattle.wac_parser_terms.specs.Views.{view_all};
ghost use Rattle.wac_parser_grammar.specs.Rules.{left};
ghost use Rattle.wac_parser_grammar.specs.Reads.{Reads};
ghost use Rattle.wac_parser_grammar.specs.ValueTypes as grammar;
ghost use Rattle.wac_parser_terms.specs.Parts as parts;

use crate::base::{behind, expect_value, none_of, optional, parse_token, sees, sees_any};
use crate::text::ident;
use crate::value_type::{TYPE_FIRST, value_ty};
use std::alloc::Global;
use wac_parser_grammar::ParseResult;
use wac_parser_lexer::{Lexer, Token};
use wac_parser_tree::{FuncType, FuncTypeRef, NamedType, ResultList};

/// The tokens with which a function type begins.
pub const FUNC_FIRST: [Token; 2] = [Token::AsyncKeyword, Token::FuncKeyword];

/// The tokens with which a parameter begins.
const PARAM_FIRST: [Token; 1] = [Token::Ident];

/// A name, a colon and a type.
#[tactic(auto, using(crate::proofs::Places::places), unfolding(wac_parser_grammar::specs::ValueTypes::named_type))]
pub fn named_type<'a>(alloc: Global, lexer: &mut Lexer<'a>) -> ParseResult<NamedType<'a>>
    ensures value { Reads view_named_type grammar.named_type lexer.old result lexer.new }
    ensures takes { OnOk result (left lexer.new < left lexer.old) }
    ensures goes_on { IsBehind lexer.new lexer.old }
{
    let id = ident(lexer)?;
    parse_token(lexer, Token::Colon)?;
    let ty = value_ty(alloc, lexer)?;
    Ok(NamedType { id, ty })
}

/// A type where one begins.
#[tactic(auto, using(crate::proofs::Places::places), unfolding(wac_parser_grammar::specs::ValueTypes::result_list))]
pub fn result_list<'a>(alloc: Global, lexer: &mut Lexer<'a>) -> ParseResult<ResultList<'a>>
    ensures value { Reads view_result_list grammar.result_list lexer.old result lexer.new }
    ensures keeps { OnOk result (left lexer.new ≤ left lexer.old) }
    ensures goes_on { IsBehind lexer.new lexer.old }
{
    if sees_any(lexer, &TYPE_FIRST) {
        return Ok(ResultList::Scalar(value_ty(alloc, lexer)?));
    }
    Ok(ResultList::Empty)
}

/// An arrow and a type, or nothing.
#[tactic(auto, using(crate::proofs::Places::places), unfolding(wac_parser_grammar::specs::ValueTypes::func_results))]
fn func_results<'a>(alloc: Global, lexer: &mut Lexer<'a>) -> ParseResult<ResultList<'a>>
    ensures value { Reads view_result_list grammar.func_results lexer.old result lexer.new }
    ensures keeps { OnOk result (left lexer.new ≤ left lexer.old) }
    ensures goes_on { IsBehind lexer.new lexer.old }
{
    if optional(lexer, Token::Arrow)? {
        return result_list(alloc, lexer);
    }
    Ok(ResultList::Empty)
}

/// The parameters up to a closing parenthesis.
fn params<'a>(alloc: Global, lexer: &mut Lexer<'a>) -> ParseResult<Vec<NamedType<'a>>>
    ensures value { Reads (view_all view_named_type) parts.params lexer.old result lexer.new }
    ensures keeps { OnOk result (left lexer.new ≤ left lexer.old) }
    ensures goes_on { IsBehind lexer.new lexer.old }
{
    let mut params = Vec::new(alloc);
    'params: while !sees(lexer, Token::CloseParen) {
        expect_value(lexer, Token::CloseParen, &PARAM_FIRST)?;
        params.push(named_type(alloc, lexer)?)?;
        behind(lexer, Token::CloseParen, true)?;
    }
    Ok(params)
}

/// Parameters in parentheses.
#[tactic(auto, using(crate::proofs::Places::places), unfolding(wac_parser_grammar::specs::ValueTypes::func_params))]
pub fn func_params<'a>(alloc: Global, lexer: &mut Lexer<'a>) -> ParseResult<Vec<NamedType<'a>>>
    ensures value { Reads (view_all view_named_type) grammar.func_params lexer.old result lexer.new }
    ensures takes { OnOk result (left lexer.new < left lexer.old) }
    ensures goes_on { IsBehind lexer.new lexer.old }
{
    parse_token(lexer, Token::OpenParen)?;
    let params = params(alloc, lexer)?;
    parse_token(lexer, Token::CloseParen)?;
    Ok(params)
}

/// A function type.
#[tactic(auto, using(crate::proofs::Places::places), unfolding(wac_parser_grammar::specs::ValueTypes::func_type))]
pub fn func_type<'a>(alloc: Global, lexer: &mut Lexer<'a>) -> ParseResult<FuncType<'a>>
    ensures value { Reads view_func_type grammar.func_type lexer.old result lexer.new }
    ensures takes { OnOk result (left lexer.new < left lexer.old) }
    ensures goes_on { IsBehind lexer.new lexer.old }
{
    let is_async = optional(lexer, Token::AsyncKeyword)?;
    parse_token(lexer, Token::FuncKeyword)?;
    let params = func_params(alloc, lexer)?;
    let results = func_results(alloc, lexer)?;
    Ok(FuncType {
        is_async,
        params,
        results,
    })
}

/// A function type, or the name of one.
#[tactic(auto, using(crate::proofs::Places::places), unfolding(wac_parser_grammar::specs::ValueTypes::func_type_ref))]
pub fn func_type_ref<'a>(alloc: Global, lexer: &mut Lexer<'a>) -> ParseResult<FuncTypeRef<'a>>
    ensures value { Reads view_func_type_ref grammar.func_type_ref lexer.old result lexer.new }
    ensures takes { OnOk result (left lexer.new < left lexer.old) }
    ensures goes_on { IsBehind lexer.new lexer.old }
{
    if sees_any(lexer, &FUNC_FIRST) {
        return Ok(FuncTypeRef::Func(func_type(alloc, lexer)?));
    }
    if sees(lexer, Token::Ident) {
        return Ok(FuncTypeRef::Ident(ident(lexer)?));
    }
    Err(none_of(
        lexer,
        &[Token::AsyncKeyword, Token::FuncKeyword, Token::Ident],
    ))
}
