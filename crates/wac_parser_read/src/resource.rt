//! Declarations of resources.

ghost use Rattle.wac_parser_grammar.specs.declared.error.Error.TheVariants.{Memory};
ghost use Rattle.wac_parser_grammar.specs.Places.{IsBehind};
ghost use Rattle.std.specs.Prelude.{◌≡◌, ◌≢◌, ◌<◌, ◌≤◌, true, IfErr, OnOk};
ghost use Rattle.wac_parser_tree.specs.Trees as t;
ghost use Rattle.wac_parser_tree.specs.Views.{view_constructor, view_method, view_resource_method, view_resource_decl};
ghost use Rattle.wac_parser_terms.specs.Views.{view_all};
ghost use Rattle.wac_parser_grammar.specs.Rules.{left};
ghost use Rattle.wac_parser_grammar.specs.Reads.{Reads};
ghost use Rattle.wac_parser_grammar.specs.Declarations as grammar;

use crate::parse::{Parse, braced};
use std::alloc::Global;
use wac_parser_grammar::ParseResult;
use wac_parser_lexer::{Lexer, Token};
use wac_parser_terms::{
    METHOD_FIRST, doc_comments, ended, func_params, ident, none_of, parse_token, sees,
};
use wac_parser_tree::{Constructor, FuncType, Method, ResourceDecl, ResourceMethod};

impl<'a> Parse<'a> for Constructor<'a> {
    ghost Plain = { t.Constructor };

    ghost view = { view_constructor };

    ghost rule = { grammar.constructor };

    ghost nonempty = { true };

    #[tactic(auto, using(wac_parser_terms::proofs::Places::places), unfolding(wac_parser_grammar::specs::Declarations::constructor))]
    fn parse(alloc: Global, lexer: &mut Lexer<'a>) -> ParseResult<Constructor<'a>> {
        let docs = doc_comments(alloc, lexer)?;
        let span = parse_token(lexer, Token::ConstructorKeyword)?;
        let params = func_params(alloc, lexer)?;
        parse_token(lexer, Token::Semicolon)?;
        Ok(Constructor { docs, span, params })
    }
}

/// Takes `static` where it comes next, and answers whether it did.
#[tactic(auto, using(wac_parser_terms::proofs::Places::places), unfolding(wac_parser_grammar::specs::Declarations::static_mark))]
fn static_mark(lexer: &mut Lexer<'_>) -> ParseResult<bool>
    ensures value { Reads (λ x. x) grammar.static_mark lexer.old result lexer.new }
    ensures keeps { OnOk result (left lexer.new ≤ left lexer.old) }
    ensures goes_on { IsBehind lexer.new lexer.old }
    ensures told { IfErr result (λ e. e ≢ Memory) }
{
    if !sees(lexer, Token::StaticKeyword) {
        return Ok(false);
    }
    parse_token(lexer, Token::StaticKeyword)?;
    Ok(true)
}

impl<'a> Parse<'a> for Method<'a> {
    ghost Plain = { t.Method };

    ghost view = { view_method };

    ghost rule = { grammar.method };

    ghost nonempty = { true };

    #[tactic(auto, using(wac_parser_terms::proofs::Places::places), unfolding(wac_parser_grammar::specs::Declarations::method))]
    fn parse(alloc: Global, lexer: &mut Lexer<'a>) -> ParseResult<Method<'a>> {
        let docs = doc_comments(alloc, lexer)?;
        let id = ident(lexer)?;
        parse_token(lexer, Token::Colon)?;
        let is_static = static_mark(lexer)?;
        let ty = ended(FuncType::parse(alloc, lexer)?, lexer, Token::Semicolon)?;
        Ok(Method {
            docs,
            id,
            is_static,
            ty,
        })
    }
}

impl<'a> Parse<'a> for ResourceMethod<'a> {
    ghost Plain = { t.ResourceMethod };

    ghost view = { view_resource_method };

    ghost rule = { grammar.resource_method };

    ghost nonempty = { true };

    #[tactic(auto, using(wac_parser_terms::proofs::Places::places), unfolding(wac_parser_grammar::specs::Declarations::resource_method))]
    fn parse(alloc: Global, lexer: &mut Lexer<'a>) -> ParseResult<ResourceMethod<'a>> {
        if sees(lexer, Token::ConstructorKeyword) {
            return Ok(ResourceMethod::Constructor(Constructor::parse(alloc, lexer)?));
        }
        if sees(lexer, Token::Ident) {
            return Ok(ResourceMethod::Method(Method::parse(alloc, lexer)?));
        }
        Err(none_of(lexer, &METHOD_FIRST))
    }
}

/// A semicolon, or methods in braces.
#[tactic(auto, using(wac_parser_terms::proofs::Places::places), unfolding(wac_parser_grammar::specs::Declarations::resource_methods))]
fn resource_methods<'a>(
    alloc: Global,
    lexer: &mut Lexer<'a>,
) -> ParseResult<Vec<ResourceMethod<'a>>>
    ensures value { Reads (view_all view_resource_method) grammar.resource_methods lexer.old result lexer.new }
    ensures takes { OnOk result (left lexer.new < left lexer.old) }
    ensures goes_on { IsBehind lexer.new lexer.old }
{
    if sees(lexer, Token::Semicolon) {
        parse_token(lexer, Token::Semicolon)?;
        return Ok(Vec::new(alloc));
    }
    if !sees(lexer, Token::OpenBrace) {
        return Err(none_of(lexer, &[Token::Semicolon, Token::OpenBrace]));
    }
    braced(alloc, lexer, false)
}

impl<'a> Parse<'a> for ResourceDecl<'a> {
    ghost Plain = { t.ResourceDecl };

    ghost view = { view_resource_decl };

    ghost rule = { grammar.resource_decl };

    ghost nonempty = { true };

    #[tactic(auto, using(wac_parser_terms::proofs::Places::places), unfolding(wac_parser_grammar::specs::Declarations::resource_decl))]
    fn parse(alloc: Global, lexer: &mut Lexer<'a>) -> ParseResult<ResourceDecl<'a>> {
        let docs = doc_comments(alloc, lexer)?;
        parse_token(lexer, Token::ResourceKeyword)?;
        let id = ident(lexer)?;
        let methods = resource_methods(alloc, lexer)?;
        Ok(ResourceDecl { docs, id, methods })
    }
}
