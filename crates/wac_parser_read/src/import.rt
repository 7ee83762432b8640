//! Imports.

ghost use Rattle.std.specs.Prelude.{◌≡◌, ◌<◌, ◌≤◌, true, OnOk};
ghost use Rattle.wac_parser_tree.specs.Trees as t;
ghost use Rattle.wac_parser_tree.specs.Views.{view_extern_name, view_import_type, view_import_statement};
ghost use Rattle.wac_parser_grammar.specs.Documents as grammar;

use crate::parse::{Parse, parse_optional};
use std::alloc::Global;
use wac_parser_grammar::ParseResult;
use wac_parser_lexer::{Lexer, Token};
use wac_parser_terms::{
    FUNC_FIRST, NAME_FIRST, doc_comments, ended, ident, none_of, parse_token, sees, sees_any,
};
use wac_parser_tree::{
    ExternName, FuncType, Ident, ImportStatement, ImportType, InlineInterface, PackagePath, String,
};

/// The tokens with which the type of an import begins.
const IMPORT_TYPE_FIRST: [Token; 5] = [
    Token::AsyncKeyword,
    Token::FuncKeyword,
    Token::InterfaceKeyword,
    Token::PackagePath,
    Token::Ident,
];

impl<'a> Parse<'a> for ExternName<'a> {
    ghost Plain = { t.ExternName };

    ghost view = { view_extern_name };

    ghost rule = { grammar.extern_name };

    ghost nonempty = { true };

    #[tactic(auto, using(wac_parser_terms::proofs::Places::places), unfolding(wac_parser_grammar::specs::Documents::extern_name))]
    fn parse(alloc: Global, lexer: &mut Lexer<'a>) -> ParseResult<ExternName<'a>> {
        if sees(lexer, Token::Ident) {
            return Ok(ExternName::Ident(Ident::parse(alloc, lexer)?));
        }
        if sees(lexer, Token::String) {
            return Ok(ExternName::String(String::parse(alloc, lexer)?));
        }
        Err(none_of(lexer, &NAME_FIRST))
    }
}

impl<'a> Parse<'a> for ImportType<'a> {
    ghost Plain = { t.ImportType };

    ghost view = { view_import_type };

    ghost rule = { grammar.import_type };

    ghost nonempty = { true };

    #[tactic(auto, using(wac_parser_terms::proofs::Places::places), unfolding(wac_parser_grammar::specs::Documents::import_type))]
    fn parse(alloc: Global, lexer: &mut Lexer<'a>) -> ParseResult<ImportType<'a>> {
        if sees_any(lexer, &FUNC_FIRST) {
            return Ok(ImportType::Func(FuncType::parse(alloc, lexer)?));
        }
        if sees(lexer, Token::InterfaceKeyword) {
            return Ok(ImportType::Interface(InlineInterface::parse(alloc, lexer)?));
        }
        if sees(lexer, Token::PackagePath) {
            return Ok(ImportType::Package(PackagePath::parse(alloc, lexer)?));
        }
        if sees(lexer, Token::Ident) {
            return Ok(ImportType::Ident(Ident::parse(alloc, lexer)?));
        }
        Err(none_of(lexer, &IMPORT_TYPE_FIRST))
    }
}

impl<'a> Parse<'a> for ImportStatement<'a> {
    ghost Plain = { t.ImportStatement };

    ghost view = { view_import_statement };

    ghost rule = { grammar.import_statement };

    ghost nonempty = { true };

    #[tactic(auto, using(wac_parser_terms::proofs::Places::places), unfolding(wac_parser_grammar::specs::Documents::import_statement, wac_parser_grammar::specs::Documents::import_name))]
    fn parse(alloc: Global, lexer: &mut Lexer<'a>) -> ParseResult<ImportStatement<'a>> {
        let docs = doc_comments(alloc, lexer)?;
        parse_token(lexer, Token::ImportKeyword)?;
        let id = ident(lexer)?;
        let name = parse_optional(alloc, lexer, Token::AsKeyword)?;
        parse_token(lexer, Token::Colon)?;
        let ty = ended(ImportType::parse(alloc, lexer)?, lexer, Token::Semicolon)?;
        Ok(ImportStatement { docs, id, name, ty })
    }
}
