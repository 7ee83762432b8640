//! Exports.

ghost use Rattle.wac_parser_grammar.specs.Places.{IsBehind};
ghost use Rattle.std.specs.Prelude.{◌≡◌, ◌<◌, ◌≤◌, true, false, OnOk};
ghost use Rattle.wac_parser_tree.specs.Trees as t;
ghost use Rattle.wac_parser_tree.specs.Views.{view_export_options, view_export_statement};
ghost use Rattle.wac_parser_grammar.specs.Rules.{left};
ghost use Rattle.wac_parser_grammar.specs.Reads.{Reads};
ghost use Rattle.wac_parser_grammar.specs.Documents as grammar;

use crate::parse::Parse;
use std::alloc::Global;
use wac_parser_grammar::ParseResult;
use wac_parser_lexer::{Lexer, Token};
use wac_parser_terms::{doc_comments, parse_token, sees};
use wac_parser_tree::{ExportOptions, ExportStatement, Expr, ExternName};

impl<'a> Parse<'a> for ExportOptions<'a> {
    ghost Plain = { t.ExportOptions };

    ghost view = { view_export_options };

    ghost rule = { grammar.export_options };

    ghost nonempty = { false };

    #[tactic(auto, using(wac_parser_terms::proofs::Places::places), unfolding(wac_parser_grammar::specs::Documents::export_options))]
    fn parse(alloc: Global, lexer: &mut Lexer<'a>) -> ParseResult<ExportOptions<'a>> {
        if sees(lexer, Token::Ellipsis) {
            return Ok(ExportOptions::Spread(parse_token(lexer, Token::Ellipsis)?));
        }
        if sees(lexer, Token::AsKeyword) {
            parse_token(lexer, Token::AsKeyword)?;
            return Ok(ExportOptions::Rename(ExternName::parse(alloc, lexer)?));
        }
        Ok(ExportOptions::None)
    }
}

impl<'a> Parse<'a> for ExportStatement<'a> {
    ghost Plain = { t.ExportStatement };

    ghost view = { view_export_statement };

    ghost rule = { grammar.export_statement };

    ghost nonempty = { true };

    #[tactic(auto, using(wac_parser_terms::proofs::Places::places), unfolding(wac_parser_grammar::specs::Documents::export_statement))]
    fn parse(alloc: Global, lexer: &mut Lexer<'a>) -> ParseResult<ExportStatement<'a>> {
        let docs = doc_comments(alloc, lexer)?;
        parse_token(lexer, Token::ExportKeyword)?;
        let expr = Expr::parse(alloc, lexer)?;
        let options = ExportOptions::parse(alloc, lexer)?;
        parse_token(lexer, Token::Semicolon)?;
        Ok(ExportStatement {
            docs,
            expr,
            options,
        })
    }
}
