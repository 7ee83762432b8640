//! Expressions.
#![tactic(auto, using(crate::proofs::Places::places))]

ghost use Rattle.wac_parser_grammar.specs.declared.error.Error.TheVariants.{Memory};
ghost use Rattle.wac_parser_grammar.specs.Places.{IsBehind};
ghost use Rattle.std.specs.Prelude.{◌≡◌, ◌≢◌, ◌<◌, ◌≤◌, map, IfErr, IfOk, OnOk};
ghost use Rattle.wac_parser_tree.specs.Accessors.{postfix_expr_span};
ghost use Rattle.wac_parser_tree.specs.Views.{view_expr, view_primary_expr, view_new_expr, view_nested_expr};
ghost use Rattle.wac_parser_tree.specs.Views.{view_instantiation_argument, view_named_instantiation_argument};
ghost use Rattle.wac_parser_tree.specs.Views.{view_access_expr, view_named_access_expr, view_postfix_expr};
ghost use Rattle.wac_parser_terms.specs.Views.{view_all};
ghost use Rattle.wac_parser_grammar.specs.Rules.{left};
ghost use Rattle.wac_parser_grammar.specs.Reads.{Reads};
ghost use Rattle.wac_parser_grammar.specs.Expressions as grammar;
ghost use Rattle.wac_parser_terms.specs.Ends.{HasEnd};
ghost use Rattle.wac_parser_terms.specs.Parts as parts;

use crate::base::{behind, expect_value, none_of, parse_token, sees, sees_any, too_deep};
use crate::package::new_package;
use crate::text::{ident, string};
use crate::value_type::through;
use std::alloc::Global;
use wac_parser_grammar::{Error, ParseResult};
use wac_parser_lexer::{Lexer, SourceSpan, Token};
use wac_parser_tree::{
    AccessExpr, Expr, InstantiationArgument, InstantiationArgumentName, NamedAccessExpr,
    NamedInstantiationArgument, NestedExpr, NewExpr, PostfixExpr, PrimaryExpr,
};

/// The tokens with which an expression begins.
const EXPR_FIRST: [Token; 3] = [Token::NewKeyword, Token::OpenParen, Token::Ident];

/// The tokens with which an access begins.
const POSTFIX_FIRST: [Token; 2] = [Token::Dot, Token::OpenBracket];

/// The tokens with which an argument begins.
pub const ARGUMENT_FIRST: [Token; 3] = [Token::Ellipsis, Token::Ident, Token::String];

/// An expression nested no deeper than so many levels.
#[cycle(expr)]
pub fn expr_within<'a>(alloc: Global, lexer: &mut Lexer<'a>, levels: usize) -> ParseResult<Expr<'a>>
    ensures value { Reads view_expr (grammar.expr levels) lexer.old result lexer.new }
    ensures takes { OnOk result (left lexer.new < left lexer.old) }
    ensures goes_on { IsBehind lexer.new lexer.old }
{
    if levels == 0 {
        return Err(too_deep(lexer, &EXPR_FIRST));
    }
    expr_level(alloc, lexer, levels - 1)
}

#[cycle(expr)]
#[tactic(auto, using(crate::proofs::Places::places), unfolding(wac_parser_grammar::specs::Expressions::expr_level))]
fn expr_level<'a>(alloc: Global, lexer: &mut Lexer<'a>, inside: usize) -> ParseResult<Expr<'a>>
    ensures value { Reads view_expr (grammar.expr_level (grammar.expr inside)) lexer.old result lexer.new }
    ensures takes { OnOk result (left lexer.new < left lexer.old) }
    ensures goes_on { IsBehind lexer.new lexer.old }
{
    let primary = primary_expr(alloc, lexer, inside)?;
    let (postfix, span) = postfix_exprs(alloc, lexer, primary.span())?;
    Ok(Expr {
        span,
        primary,
        postfix,
    })
}

#[cycle(expr)]
#[tactic(auto, using(crate::proofs::Places::places), unfolding(wac_parser_grammar::specs::Expressions::primary_expr))]
pub fn primary_expr<'a>(
    alloc: Global,
    lexer: &mut Lexer<'a>,
    inside: usize,
) -> ParseResult<PrimaryExpr<'a>>
    ensures value { Reads view_primary_expr (grammar.primary_expr (grammar.expr inside)) lexer.old result lexer.new }
    ensures takes { OnOk result (left lexer.new < left lexer.old) }
    ensures goes_on { IsBehind lexer.new lexer.old }
{
    if sees(lexer, Token::NewKeyword) {
        return Ok(PrimaryExpr::New(new_expr(alloc, lexer, inside)?));
    }
    if sees(lexer, Token::OpenParen) {
        return Ok(PrimaryExpr::Nested(nested_expr(alloc, lexer, inside)?));
    }
    if sees(lexer, Token::Ident) {
        return Ok(PrimaryExpr::Ident(ident(lexer)?));
    }
    Err(none_of(lexer, &EXPR_FIRST))
}

#[cycle(expr)]
#[tactic(auto, using(crate::proofs::Places::places), unfolding(wac_parser_grammar::specs::Expressions::nested_expr))]
pub fn nested_expr<'a>(
    alloc: Global,
    lexer: &mut Lexer<'a>,
    inside: usize,
) -> ParseResult<NestedExpr<'a>>
    ensures value { Reads view_nested_expr (grammar.nested_expr (grammar.expr inside)) lexer.old result lexer.new }
    ensures takes { OnOk result (left lexer.new < left lexer.old) }
    ensures goes_on { IsBehind lexer.new lexer.old }
{
    let start = parse_token(lexer, Token::OpenParen)?;
    let inner = Box::new(alloc, expr_within(alloc, lexer, inside)?)?;
    let close = parse_token(lexer, Token::CloseParen)?;
    Ok(NestedExpr {
        span: through(start, close),
        inner,
    })
}

#[cycle(expr)]
#[tactic(auto, using(crate::proofs::Places::places), unfolding(wac_parser_grammar::specs::Expressions::new_expr))]
pub fn new_expr<'a>(alloc: Global, lexer: &mut Lexer<'a>, inside: usize) -> ParseResult<NewExpr<'a>>
    ensures value { Reads view_new_expr (grammar.new_expr (grammar.expr inside)) lexer.old result lexer.new }
    ensures takes { OnOk result (left lexer.new < left lexer.old) }
    ensures goes_on { IsBehind lexer.new lexer.old }
{
    let start = parse_token(lexer, Token::NewKeyword)?;
    let (package, track) = new_package(alloc, lexer)?;
    parse_token(lexer, Token::OpenBrace)?;
    let arguments = arguments(alloc, lexer, inside)?;
    let close = parse_token(lexer, Token::CloseBrace)?;
    Ok(NewExpr {
        span: through(start, close),
        package,
        track,
        arguments,
    })
}

/// The arguments up to a closing brace.
#[cycle(expr)]
fn arguments<'a>(
    alloc: Global,
    lexer: &mut Lexer<'a>,
    inside: usize,
) -> ParseResult<Vec<InstantiationArgument<'a>>>
    ensures value { Reads (view_all view_instantiation_argument) (parts.arguments inside) lexer.old result lexer.new }
    ensures keeps { OnOk result (left lexer.new ≤ left lexer.old) }
    ensures goes_on { IsBehind lexer.new lexer.old }
{
    let mut items = Vec::new(alloc);
    'items: while !sees(lexer, Token::CloseBrace) {
        expect_value(lexer, Token::CloseBrace, &ARGUMENT_FIRST)?;
        items.push(instantiation_argument(alloc, lexer, inside)?)?;
        behind(lexer, Token::CloseBrace, true)?;
    }
    Ok(items)
}

#[cycle(expr)]
#[tactic(auto, using(crate::proofs::Places::places), unfolding(wac_parser_grammar::specs::Expressions::instantiation_argument))]
pub fn instantiation_argument<'a>(
    alloc: Global,
    lexer: &mut Lexer<'a>,
    inside: usize,
) -> ParseResult<InstantiationArgument<'a>>
    ensures value { Reads view_instantiation_argument (parts.argument inside) lexer.old result lexer.new }
    ensures takes { OnOk result (left lexer.new < left lexer.old) }
    ensures goes_on { IsBehind lexer.new lexer.old }
{
    if sees(lexer, Token::Ellipsis) {
        return spread_or_fill(lexer);
    }
    if sees(lexer, Token::Ident) {
        return ident_argument(alloc, lexer, inside);
    }
    if sees(lexer, Token::String) {
        return string_argument(alloc, lexer, inside);
    }
    Err(none_of(lexer, &ARGUMENT_FIRST))
}

/// `...`, with an identifier behind it or not.
#[tactic(auto, using(crate::proofs::Places::places), unfolding(wac_parser_grammar::specs::Expressions::spread_or_fill))]
fn spread_or_fill<'a>(lexer: &mut Lexer<'a>) -> ParseResult<InstantiationArgument<'a>>
    ensures value { Reads view_instantiation_argument grammar.spread_or_fill lexer.old result lexer.new }
    ensures takes { OnOk result (left lexer.new < left lexer.old) }
    ensures goes_on { IsBehind lexer.new lexer.old }
    ensures told { IfErr result (λ e. e ≢ Memory) }
{
    let span = parse_token(lexer, Token::Ellipsis)?;
    if sees_any(lexer, &[Token::Comma, Token::CloseBrace]) {
        return Ok(InstantiationArgument::Fill(span));
    }
    Ok(InstantiationArgument::Spread(ident(lexer)?))
}

/// An identifier, which a colon makes the name of an argument.
#[cycle(expr)]
#[tactic(auto, using(crate::proofs::Places::places), unfolding(wac_parser_grammar::specs::Expressions::ident_argument))]
fn ident_argument<'a>(
    alloc: Global,
    lexer: &mut Lexer<'a>,
    inside: usize,
) -> ParseResult<InstantiationArgument<'a>>
    ensures value { Reads view_instantiation_argument (grammar.ident_argument (grammar.expr inside)) lexer.old result lexer.new }
    ensures takes { OnOk result (left lexer.new < left lexer.old) }
    ensures goes_on { IsBehind lexer.new lexer.old }
{
    let id = ident(lexer)?;
    if !sees(lexer, Token::Colon) {
        return Ok(InstantiationArgument::Inferred(id));
    }
    let name = InstantiationArgumentName::Ident(id);
    Ok(InstantiationArgument::Named(argument_value(alloc, lexer, name, inside)?))
}

/// A string, which only a colon makes an argument.
#[cycle(expr)]
#[tactic(auto, using(crate::proofs::Places::places), unfolding(wac_parser_grammar::specs::Expressions::string_argument))]
fn string_argument<'a>(
    alloc: Global,
    lexer: &mut Lexer<'a>,
    inside: usize,
) -> ParseResult<InstantiationArgument<'a>>
    ensures value { Reads view_instantiation_argument
        (grammar.string_argument (grammar.expr inside)) lexer.old result lexer.new }
    ensures takes { OnOk result (left lexer.new < left lexer.old) }
    ensures goes_on { IsBehind lexer.new lexer.old }
{
    let string = string(lexer)?;
    if !sees(lexer, Token::Colon) {
        return Err(Error::Expected {
            expected: Token::Ident,
            found: Some(Token::String),
            span: string.span,
        });
    }
    let name = InstantiationArgumentName::String(string);
    Ok(InstantiationArgument::Named(argument_value(alloc, lexer, name, inside)?))
}

/// The colon and the expression behind the name of an argument.
#[cycle(expr)]
#[tactic(auto, using(crate::proofs::Places::places), unfolding(wac_parser_grammar::specs::Expressions::argument_value))]
pub fn argument_value<'a>(
    alloc: Global,
    lexer: &mut Lexer<'a>,
    name: InstantiationArgumentName<'a>,
    inside: usize,
) -> ParseResult<NamedInstantiationArgument<'a>>
    ensures value { Reads view_named_instantiation_argument (parts.value_behind name.entry inside) lexer.old result lexer.new }
    ensures takes { OnOk result (left lexer.new < left lexer.old) }
    ensures goes_on { IsBehind lexer.new lexer.old }
{
    parse_token(lexer, Token::Colon)?;
    let expr = expr_within(alloc, lexer, inside)?;
    Ok(NamedInstantiationArgument { name, expr })
}

#[tactic(auto, using(crate::proofs::Places::places), unfolding(wac_parser_grammar::specs::Expressions::postfix_expr))]
fn postfix_expr<'a>(lexer: &mut Lexer<'a>) -> ParseResult<PostfixExpr<'a>>
    ensures value { Reads view_postfix_expr grammar.postfix_expr lexer.old result lexer.new }
    ensures small { IfOk result (λ p. HasEnd (postfix_expr_span (view_postfix_expr p))) }
    ensures takes { OnOk result (left lexer.new < left lexer.old) }
    ensures goes_on { IsBehind lexer.new lexer.old }
    ensures told { IfErr result (λ e. e ≢ Memory) }
{
    if sees(lexer, Token::Dot) {
        return Ok(PostfixExpr::Access(access_expr(lexer)?));
    }
    Ok(PostfixExpr::NamedAccess(named_access_expr(lexer)?))
}

#[tactic(auto, using(crate::proofs::Places::places), unfolding(wac_parser_grammar::specs::Expressions::access_expr))]
pub fn access_expr<'a>(lexer: &mut Lexer<'a>) -> ParseResult<AccessExpr<'a>>
    ensures value { Reads view_access_expr grammar.access_expr lexer.old result lexer.new }
    ensures small { IfOk result (λ p. HasEnd p.span) }
    ensures takes { OnOk result (left lexer.new < left lexer.old) }
    ensures goes_on { IsBehind lexer.new lexer.old }
    ensures told { IfErr result (λ e. e ≢ Memory) }
{
    let start = parse_token(lexer, Token::Dot)?;
    let id = ident(lexer)?;
    Ok(AccessExpr {
        span: through(start, id.span),
        id,
    })
}

#[tactic(auto, using(crate::proofs::Places::places), unfolding(wac_parser_grammar::specs::Expressions::named_access_expr))]
pub fn named_access_expr<'a>(lexer: &mut Lexer<'a>) -> ParseResult<NamedAccessExpr<'a>>
    ensures value { Reads view_named_access_expr grammar.named_access_expr lexer.old result lexer.new }
    ensures small { IfOk result (λ p. HasEnd p.span) }
    ensures takes { OnOk result (left lexer.new < left lexer.old) }
    ensures goes_on { IsBehind lexer.new lexer.old }
    ensures told { IfErr result (λ e. e ≢ Memory) }
{
    let start = parse_token(lexer, Token::OpenBracket)?;
    let string = string(lexer)?;
    let close = parse_token(lexer, Token::CloseBracket)?;
    Ok(NamedAccessExpr {
        span: through(start, close),
        string,
    })
}

/// The accesses behind an expression, and the span from its start to the last one's end.
fn postfix_exprs<'a>(
    alloc: Global,
    lexer: &mut Lexer<'a>,
    start: SourceSpan,
) -> ParseResult<(Vec<PostfixExpr<'a>>, SourceSpan)>
    ensures value { Reads (λ p. view_all view_postfix_expr p.0) parts.accesses lexer.old result lexer.new }
    ensures span { IfOk result (λ p. p.1 ≡ grammar.spanning start (map view_postfix_expr p.0.items)) }
    ensures keeps { OnOk result (left lexer.new ≤ left lexer.old) }
    ensures goes_on { IsBehind lexer.new lexer.old }
{
    let mut postfix = Vec::new(alloc);
    let mut span = start;
    'postfix: while sees_any(lexer, &POSTFIX_FIRST) {
        let access = postfix_expr(lexer)?;
        span = through(span, access.span());
        postfix.push(access)?;
    }
    Ok((postfix, span))
}
