//! Expressions and their parts.
#![tactic(auto, using(wac_parser_terms::proofs::Places::places))]

ghost use Rattle.wac_parser_grammar.specs.Places.{IsBehind};
ghost use Rattle.std.specs.Prelude.{◌≡◌, ◌<◌, ◌≤◌, true, OnOk};
ghost use Rattle.wac_parser_tree.specs.Trees as t;
ghost use Rattle.wac_parser_tree.specs.Views.{view_expr, view_primary_expr, view_new_expr, view_nested_expr, view_instantiation_argument, view_named_instantiation_argument, view_instantiation_argument_name, view_access_expr, view_named_access_expr};
ghost use Rattle.wac_parser_grammar.specs.Expressions as grammar;

use crate::parse::Parse;
use std::alloc::Global;
use wac_parser_grammar::ParseResult;
use wac_parser_lexer::{Lexer, Token};
use wac_parser_terms::{
    MAX_LEVELS, NAME_FIRST, access_expr, argument_value, expr_within, instantiation_argument,
    named_access_expr, nested_expr, new_expr, none_of, primary_expr, sees,
};
use wac_parser_tree::{
    AccessExpr, Expr, Ident, InstantiationArgument, InstantiationArgumentName, NamedAccessExpr,
    NamedInstantiationArgument, NestedExpr, NewExpr, PrimaryExpr, String,
};

impl<'a> Parse<'a> for Expr<'a> {
    ghost Plain = { t.Expr };

    ghost view = { view_expr };

    ghost rule = { grammar.expression };

    ghost nonempty = { true };

    #[tactic(auto, using(wac_parser_terms::proofs::Places::places), unfolding(wac_parser_grammar::specs::Expressions::expression))]
    fn parse(alloc: Global, lexer: &mut Lexer<'a>) -> ParseResult<Expr<'a>> {
        expr_within(alloc, lexer, MAX_LEVELS)
    }
}

impl<'a> Parse<'a> for PrimaryExpr<'a> {
    ghost Plain = { t.PrimaryExpr };

    ghost view = { view_primary_expr };

    ghost rule = { grammar.primary_expr (grammar.expr 127) };

    ghost nonempty = { true };

    fn parse(alloc: Global, lexer: &mut Lexer<'a>) -> ParseResult<PrimaryExpr<'a>> {
        primary_expr(alloc, lexer, MAX_LEVELS - 1)
    }
}

impl<'a> Parse<'a> for NewExpr<'a> {
    ghost Plain = { t.NewExpr };

    ghost view = { view_new_expr };

    ghost rule = { grammar.new_expr (grammar.expr 127) };

    ghost nonempty = { true };

    fn parse(alloc: Global, lexer: &mut Lexer<'a>) -> ParseResult<NewExpr<'a>> {
        new_expr(alloc, lexer, MAX_LEVELS - 1)
    }
}

impl<'a> Parse<'a> for NestedExpr<'a> {
    ghost Plain = { t.NestedExpr };

    ghost view = { view_nested_expr };

    ghost rule = { grammar.nested_expr (grammar.expr 127) };

    ghost nonempty = { true };

    fn parse(alloc: Global, lexer: &mut Lexer<'a>) -> ParseResult<NestedExpr<'a>> {
        nested_expr(alloc, lexer, MAX_LEVELS - 1)
    }
}

impl<'a> Parse<'a> for InstantiationArgument<'a> {
    ghost Plain = { t.InstantiationArgument };

    ghost view = { view_instantiation_argument };

    ghost rule = { grammar.instantiation_argument (grammar.expr 127) };

    ghost nonempty = { true };

    fn parse(alloc: Global, lexer: &mut Lexer<'a>) -> ParseResult<InstantiationArgument<'a>> {
        instantiation_argument(alloc, lexer, MAX_LEVELS - 1)
    }
}

impl<'a> Parse<'a> for NamedInstantiationArgument<'a> {
    ghost Plain = { t.NamedInstantiationArgument };

    ghost view = { view_named_instantiation_argument };

    ghost rule = { grammar.named_argument (grammar.expr 127) };

    ghost nonempty = { true };

    #[tactic(auto, using(wac_parser_terms::proofs::Places::places), unfolding(wac_parser_grammar::specs::Expressions::named_argument))]
    fn parse(alloc: Global, lexer: &mut Lexer<'a>) -> ParseResult<NamedInstantiationArgument<'a>> {
        let name = InstantiationArgumentName::parse(alloc, lexer)?;
        argument_value(alloc, lexer, name, MAX_LEVELS - 1)
    }
}

impl<'a> Parse<'a> for InstantiationArgumentName<'a> {
    ghost Plain = { t.InstantiationArgumentName };

    ghost view = { view_instantiation_argument_name };

    ghost rule = { grammar.argument_name };

    ghost nonempty = { true };

    #[tactic(auto, using(wac_parser_terms::proofs::Places::places), unfolding(wac_parser_grammar::specs::Expressions::argument_name))]
    fn parse(alloc: Global, lexer: &mut Lexer<'a>) -> ParseResult<InstantiationArgumentName<'a>> {
        if sees(lexer, Token::Ident) {
            return Ok(InstantiationArgumentName::Ident(Ident::parse(alloc, lexer)?));
        }
        if sees(lexer, Token::String) {
            return Ok(InstantiationArgumentName::String(String::parse(alloc, lexer)?));
        }
        Err(none_of(lexer, &NAME_FIRST))
    }
}

impl<'a> Parse<'a> for AccessExpr<'a> {
    ghost Plain = { t.AccessExpr };

    ghost view = { view_access_expr };

    ghost rule = { grammar.access_expr };

    ghost nonempty = { true };

    fn parse(_alloc: Global, lexer: &mut Lexer<'a>) -> ParseResult<AccessExpr<'a>> {
        access_expr(lexer)
    }
}

impl<'a> Parse<'a> for NamedAccessExpr<'a> {
    ghost Plain = { t.NamedAccessExpr };

    ghost view = { view_named_access_expr };

    ghost rule = { grammar.named_access_expr };

    ghost nonempty = { true };

    fn parse(_alloc: Global, lexer: &mut Lexer<'a>) -> ParseResult<NamedAccessExpr<'a>> {
        named_access_expr(lexer)
    }
}
