//! Names for expressions.

ghost use Rattle.std.specs.Prelude.{◌≡◌, ◌<◌, ◌≤◌, true, OnOk};
ghost use Rattle.wac_parser_tree.specs.Trees as t;
ghost use Rattle.wac_parser_tree.specs.Views.{view_let_statement};
ghost use Rattle.wac_parser_grammar.specs.Rules.{left};
ghost use Rattle.wac_parser_grammar.specs.Reads.{Reads};
ghost use Rattle.wac_parser_grammar.specs.Documents as grammar;

use crate::parse::Parse;
use std::alloc::Global;
use wac_parser_grammar::ParseResult;
use wac_parser_lexer::{Lexer, Token};
use wac_parser_terms::{doc_comments, ended, ident, parse_token};
use wac_parser_tree::{Expr, LetStatement};

impl<'a> Parse<'a> for LetStatement<'a> {
    ghost Plain = { t.LetStatement };

    ghost view = { view_let_statement };

    ghost rule = { grammar.let_statement };

    ghost nonempty = { true };

    #[tactic(auto, using(wac_parser_terms::proofs::Places::places), unfolding(wac_parser_grammar::specs::Documents::let_statement))]
    fn parse(alloc: Global, lexer: &mut Lexer<'a>) -> ParseResult<LetStatement<'a>> {
        let docs = doc_comments(alloc, lexer)?;
        parse_token(lexer, Token::LetKeyword)?;
        let id = ident(lexer)?;
        parse_token(lexer, Token::Equals)?;
        let expr = ended(Expr::parse(alloc, lexer)?, lexer, Token::Semicolon)?;
        Ok(LetStatement { docs, id, expr })
    }
}
