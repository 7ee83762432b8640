//! Types of values and of functions.
#![tactic(auto, using(wac_parser_terms::proofs::Places::places))]

ghost use Rattle.wac_parser_grammar.specs.Places.{IsBehind};
ghost use Rattle.std.specs.Prelude.{◌≡◌, ◌<◌, ◌≤◌, true, false, OnOk};
ghost use Rattle.wac_parser_tree.specs.Trees as t;
ghost use Rattle.wac_parser_tree.specs.Views.{view_ty, view_named_type, view_result_list, view_func_type, view_func_type_ref};
ghost use Rattle.wac_parser_grammar.specs.ValueTypes as grammar;

use crate::parse::Parse;
use std::alloc::Global;
use wac_parser_grammar::ParseResult;
use wac_parser_lexer::Lexer;
use wac_parser_terms::{func_type, func_type_ref, named_type, result_list, value_ty};
use wac_parser_tree::{FuncType, FuncTypeRef, NamedType, ResultList, Type};

impl<'a> Parse<'a> for Type<'a> {
    ghost Plain = { t.Ty };

    ghost view = { view_ty };

    ghost rule = { grammar.value_type };

    ghost nonempty = { true };

    fn parse(alloc: Global, lexer: &mut Lexer<'a>) -> ParseResult<Type<'a>> {
        value_ty(alloc, lexer)
    }
}

impl<'a> Parse<'a> for NamedType<'a> {
    ghost Plain = { t.NamedType };

    ghost view = { view_named_type };

    ghost rule = { grammar.named_type };

    ghost nonempty = { true };

    fn parse(alloc: Global, lexer: &mut Lexer<'a>) -> ParseResult<NamedType<'a>> {
        named_type(alloc, lexer)
    }
}

impl<'a> Parse<'a> for ResultList<'a> {
    ghost Plain = { t.ResultList };

    ghost view = { view_result_list };

    ghost rule = { grammar.result_list };

    ghost nonempty = { false };

    fn parse(alloc: Global, lexer: &mut Lexer<'a>) -> ParseResult<ResultList<'a>> {
        result_list(alloc, lexer)
    }
}

impl<'a> Parse<'a> for FuncType<'a> {
    ghost Plain = { t.FuncType };

    ghost view = { view_func_type };

    ghost rule = { grammar.func_type };

    ghost nonempty = { true };

    fn parse(alloc: Global, lexer: &mut Lexer<'a>) -> ParseResult<FuncType<'a>> {
        func_type(alloc, lexer)
    }
}

impl<'a> Parse<'a> for FuncTypeRef<'a> {
    ghost Plain = { t.FuncTypeRef };

    ghost view = { view_func_type_ref };

    ghost rule = { grammar.func_type_ref };

    ghost nonempty = { true };

    fn parse(alloc: Global, lexer: &mut Lexer<'a>) -> ParseResult<FuncTypeRef<'a>> {
        func_type_ref(alloc, lexer)
    }
}
