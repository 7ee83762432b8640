//! Names, strings and doc comments.
#![tactic(auto, using(crate::proofs::Places::places))]

ghost use Rattle.wac_parser_grammar.specs.declared.error.Error.TheVariants.{Memory};
ghost use Rattle.wac_parser_grammar.specs.Places.{IsBehind};
ghost use Rattle.std.specs.Prelude.{◌≡◌, ◌≢◌, ◌<◌, map, IfErr, IfOk, OnOk};
ghost use Rattle.wac_parser_lexer.specs.Docs.{doc_of};
ghost use Rattle.wac_parser_lexer.specs.Items.{docs_ahead};
ghost use Rattle.wac_parser_tree.specs.Views.{view_ident, view_string, view_doc_comment};
ghost use Rattle.wac_parser_grammar.specs.Rules.{left};
ghost use Rattle.wac_parser_grammar.specs.Reads.{Reads};
ghost use Rattle.wac_parser_grammar.specs.Names as grammar;
ghost use Rattle.wac_parser_terms.specs.Ends.{HasEnd};

use crate::base::parse_token;
use std::alloc::{AllocError, Global};
use wac_parser_grammar::ParseResult;
use wac_parser_lexer::{Lexer, SourceSpan, Token};
use wac_parser_tree::{DocComment, Ident, String};

/// Doc comments, each a text and where the whole comment stands.
#[inline(never)]
fn docs_of<'a>(
    alloc: Global,
    comments: &[(&'a str, SourceSpan)],
) -> Result<Vec<DocComment<'a>>, AllocError>
    ensures { IfOk result (λ v. map view_doc_comment v.items ≡ map grammar.doc_comment (map doc_of comments.now)) }
{
    let mut docs = Vec::new(alloc);
    for c in comments {
        docs.push(DocComment {
            comment: c.0,
            span: c.1,
        })?;
    }
    Ok(docs)
}

/// The doc comments before the next item, or before the end.
#[inline(always)]
#[tactic(auto, unfolding(wac_parser_grammar::specs::Names::docs))]
pub fn doc_comments<'a>(alloc: Global, lexer: &Lexer<'a>) -> ParseResult<Vec<DocComment<'a>>>
    ensures { Reads (λ v. map view_doc_comment v.items) grammar.docs lexer.now result lexer.now }
{
    let comments = lexer.comments(alloc)?;
    if comments.is_empty() {
        return Ok(Vec::new(alloc));
    }
    Ok(docs_of(alloc, &comments)?)
}

fn strip_percent(text: &str) -> &str
    ensures { result.now ≡ grammar.strip_percent text.now }
{
    match text.as_bytes() {
        [b'%', ..] => &text[1..],
        _ => text,
    }
}

fn strip_open(text: &str) -> &str
    ensures { result.now ≡ grammar.strip_open text.now }
{
    text.strip_prefix("\"").unwrap_or(text)
}

fn strip_close(text: &str) -> &str
    ensures { result.now ≡ grammar.strip_close text.now }
{
    text.strip_suffix("\"").unwrap_or(text)
}

/// An identifier, whose span lies in the source.
#[tactic(auto, using(crate::proofs::Places::places), unfolding(wac_parser_grammar::specs::Names::ident))]
pub fn ident<'a>(lexer: &mut Lexer<'a>) -> ParseResult<Ident<'a>>
    ensures value { Reads view_ident grammar.ident lexer.old result lexer.new }
    ensures small { IfOk result (λ id. HasEnd id.span) }
    ensures takes { OnOk result (left lexer.new < left lexer.old) }
    ensures goes_on { IsBehind lexer.new lexer.old }
    ensures told { IfErr result (λ e. e ≢ Memory) }
{
    let span = parse_token(lexer, Token::Ident)?;
    Ok(Ident {
        string: strip_percent(lexer.source(span)),
        span,
    })
}

/// A string.
#[tactic(auto, using(crate::proofs::Places::places), unfolding(wac_parser_grammar::specs::Names::string))]
pub fn string<'a>(lexer: &mut Lexer<'a>) -> ParseResult<String<'a>>
    ensures value { Reads view_string grammar.string lexer.old result lexer.new }
    ensures takes { OnOk result (left lexer.new < left lexer.old) }
    ensures goes_on { IsBehind lexer.new lexer.old }
    ensures told { IfErr result (λ e. e ≢ Memory) }
{
    let span = parse_token(lexer, Token::String)?;
    Ok(String {
        value: strip_close(strip_open(lexer.source(span))),
        span,
    })
}
