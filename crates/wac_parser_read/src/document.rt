//! Documents.

ghost use Rattle.std.specs.Prelude.{◌≡◌, ◌≢◌, ◌<◌, ◌≤◌, true, IfErr, OnOk};
ghost use Rattle.wac_parser_terms.specs.Views.{view_all};
ghost use Rattle.wac_parser_grammar.specs.Rules.{all_of};
ghost use Rattle.wac_parser_tree.specs.Trees as t;
ghost use Rattle.wac_parser_tree.specs.Views.{view_type_statement, view_statement, view_package_directive, view_document};
ghost use Rattle.wac_parser_grammar.specs.Rules.{Rule, left};
ghost use Rattle.wac_parser_grammar.specs.Reads.{Reads, ReadsSource};
ghost use Rattle.wac_parser_grammar.specs.Documents as grammar;
ghost use Rattle.wac_parser_grammar.specs.Faults.{fault_of};
ghost use Rattle.wac_parser_grammar.specs.Laws.{StandsIn};
ghost use Rattle.wac_parser_grammar.specs.declared.error.Error.TheVariants.{Memory};
ghost use Rattle.wac_parser_read.specs.Parsing.{Parses};

use crate::parse::{Parse, parse_optional};
use std::alloc::Global;
use wac_parser_grammar::{Error, ParseResult, document_faults_stand, documents_are_their_forms};
use wac_parser_lexer::{Lexer, Token};
use wac_parser_terms::{
    STATEMENT_FIRST, TYPE_DECL_FIRST, TYPE_STATEMENT_FIRST, doc_comments, none_of, parse_token,
    sees, sees_any,
};
use wac_parser_tree::{
    Document, ExportStatement, ImportStatement, InterfaceDecl, LetStatement, PackageDirective,
    PackageName, Statement, TypeDecl, TypeStatement, WorldDecl,
};

impl<'a> Parse<'a> for TypeStatement<'a> {
    ghost Plain = { t.TypeStatement };

    ghost view = { view_type_statement };

    ghost rule = { grammar.type_statement };

    ghost nonempty = { true };

    #[tactic(auto, using(wac_parser_terms::proofs::Places::places), unfolding(wac_parser_grammar::specs::Documents::type_statement))]
    fn parse(alloc: Global, lexer: &mut Lexer<'a>) -> ParseResult<TypeStatement<'a>> {
        if sees(lexer, Token::InterfaceKeyword) {
            return Ok(TypeStatement::Interface(InterfaceDecl::parse(alloc, lexer)?));
        }
        if sees(lexer, Token::WorldKeyword) {
            return Ok(TypeStatement::World(WorldDecl::parse(alloc, lexer)?));
        }
        if sees_any(lexer, &TYPE_DECL_FIRST) {
            return Ok(TypeStatement::Ty(TypeDecl::parse(alloc, lexer)?));
        }
        Err(none_of(lexer, &TYPE_STATEMENT_FIRST))
    }
}

impl<'a> Parse<'a> for Statement<'a> {
    ghost Plain = { t.Statement };

    ghost view = { view_statement };

    ghost rule = { grammar.statement };

    ghost nonempty = { true };

    #[tactic(auto, using(wac_parser_terms::proofs::Places::places), unfolding(wac_parser_grammar::specs::Documents::statement))]
    fn parse(alloc: Global, lexer: &mut Lexer<'a>) -> ParseResult<Statement<'a>> {
        if sees(lexer, Token::ImportKeyword) {
            return Ok(Statement::Import(ImportStatement::parse(alloc, lexer)?));
        }
        if sees(lexer, Token::LetKeyword) {
            return Ok(Statement::Let(LetStatement::parse(alloc, lexer)?));
        }
        if sees(lexer, Token::ExportKeyword) {
            return Ok(Statement::Export(ExportStatement::parse(alloc, lexer)?));
        }
        if sees_any(lexer, &TYPE_STATEMENT_FIRST) {
            return Ok(Statement::Ty(TypeStatement::parse(alloc, lexer)?));
        }
        Err(none_of(lexer, &STATEMENT_FIRST))
    }
}

impl<'a> Parse<'a> for PackageDirective<'a> {
    ghost Plain = { t.PackageDirective };

    ghost view = { view_package_directive };

    ghost rule = { grammar.package_directive };

    ghost nonempty = { true };

    #[tactic(auto, using(wac_parser_terms::proofs::Places::places), unfolding(wac_parser_grammar::specs::Documents::package_directive, wac_parser_grammar::specs::Documents::targets))]
    fn parse(alloc: Global, lexer: &mut Lexer<'a>) -> ParseResult<PackageDirective<'a>> {
        parse_token(lexer, Token::PackageKeyword)?;
        let package = PackageName::parse(alloc, lexer)?;
        let targets = parse_optional(alloc, lexer, Token::TargetsKeyword)?;
        parse_token(lexer, Token::Semicolon)?;
        Ok(PackageDirective { package, targets })
    }
}

/// The statements to the end.
fn statements<'a>(alloc: Global, lexer: &mut Lexer<'a>) -> ParseResult<Vec<Statement<'a>>>
    ensures value { Reads (view_all view_statement) (all_of grammar.statement) lexer.old result lexer.new }
{
    let mut statements = Vec::new(alloc);
    'statements: while lexer.peek().is_some() {
        statements.push(Statement::parse(alloc, lexer)?)?;
    }
    Ok(statements)
}

/// A whole document.
#[tactic(auto, unfolding(wac_parser_grammar::specs::Documents::document))]
fn document<'a>(alloc: Global, lexer: &mut Lexer<'a>) -> ParseResult<Document<'a>>
    ensures value { Reads view_document grammar.document lexer.old result lexer.new }
{
    let docs = doc_comments(alloc, lexer)?;
    let directive = PackageDirective::parse(alloc, lexer)?;
    let statements = statements(alloc, lexer)?;
    Ok(Document {
        docs,
        directive,
        statements,
    })
}

/// The document of a whole source.
fn whole_document(alloc: Global, source: &str) -> ParseResult<Document<'_>>
    ensures { ReadsSource view_document grammar.document source.now result }
{
    let mut lexer = Lexer::new(source)?;
    document(alloc, &mut lexer)
}

/// The parse of a whole source.
pub trait ParseDocument<'a>: Sized + Drop {
    /// The document that a source spells.
    ghost Plain: { Type 0 };

    ghost view: { Self → Plain };

    ghost rule: { Rule Plain };

    /// Parses a source.
    fn parse(alloc: Global, source: &'a str) -> ParseResult<Self>
        ensures { ReadsSource view rule source.now result };
}

impl<'a> ParseDocument<'a> for Document<'a> {
    ghost Plain = { t.Document };

    ghost view = { view_document };

    ghost rule = { grammar.document };

    /// Parses a source: the document that it spells, or why it spells none.
    fn parse(alloc: Global, source: &'a str) -> ParseResult<Document<'a>>
        ensures read { ReadsSource view_document grammar.document source.now result }
        ensures parsed { Parses source.now result }
        ensures stands { IfErr result (λ e. e ≢ Memory → StandsIn source.now (fault_of e)) }
    {
        documents_are_their_forms();
        document_faults_stand();
        whole_document(alloc, source)
    }
}
