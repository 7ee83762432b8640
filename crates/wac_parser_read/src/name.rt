//! Names, strings and paths.
#![tactic(auto, using(wac_parser_terms::proofs::Places::places))]

ghost use Rattle.wac_parser_grammar.specs.Places.{IsBehind};
ghost use Rattle.std.specs.Prelude.{◌≡◌, ◌<◌, ◌≤◌, List, true, false, map, OnOk};
ghost use Rattle.wac_parser_tree.specs.Trees as t;
ghost use Rattle.wac_parser_tree.specs.Views.{view_doc_comment, view_ident, view_string, view_package_name, view_package_path};
ghost use Rattle.wac_parser_grammar.specs.Names as grammar;

use crate::parse::Parse;
use std::alloc::Global;
use wac_parser_grammar::ParseResult;
use wac_parser_lexer::{Lexer, Token};
use wac_parser_terms::{doc_comments, ident, package_name, package_path, string};
use wac_parser_tree::{DocComment, Ident, PackageName, PackagePath, String};

impl<'a> Parse<'a> for Vec<DocComment<'a>> {
    ghost Plain = { List t.DocComment };

    ghost view = { λ v. map view_doc_comment v.items };

    ghost rule = { grammar.docs };

    ghost nonempty = { false };

    fn parse(alloc: Global, lexer: &mut Lexer<'a>) -> ParseResult<Vec<DocComment<'a>>> {
        doc_comments(alloc, lexer)
    }
}

impl<'a> Parse<'a> for Ident<'a> {
    ghost Plain = { t.Ident };

    ghost view = { view_ident };

    ghost rule = { grammar.ident };

    ghost nonempty = { true };

    fn parse(_alloc: Global, lexer: &mut Lexer<'a>) -> ParseResult<Ident<'a>> {
        ident(lexer)
    }
}

impl<'a> Parse<'a> for String<'a> {
    ghost Plain = { t.StringLiteral };

    ghost view = { view_string };

    ghost rule = { grammar.string };

    ghost nonempty = { true };

    fn parse(_alloc: Global, lexer: &mut Lexer<'a>) -> ParseResult<String<'a>> {
        string(lexer)
    }
}

impl<'a> Parse<'a> for PackageName<'a> {
    ghost Plain = { t.PackageName };

    ghost view = { view_package_name };

    ghost rule = { grammar.package_name };

    ghost nonempty = { true };

    fn parse(alloc: Global, lexer: &mut Lexer<'a>) -> ParseResult<PackageName<'a>> {
        package_name(alloc, lexer)
    }
}

impl<'a> Parse<'a> for PackagePath<'a> {
    ghost Plain = { t.PackagePath };

    ghost view = { view_package_path };

    ghost rule = { grammar.package_path };

    ghost nonempty = { true };

    fn parse(alloc: Global, lexer: &mut Lexer<'a>) -> ParseResult<PackagePath<'a>> {
        package_path(alloc, lexer)
    }
}
