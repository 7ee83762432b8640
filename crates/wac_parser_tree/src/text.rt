//! Names, strings and doc comments: parts of the source.

ghost use Rattle.std.specs.Prelude.{◌≡◌, IfOk, map};
ghost use Rattle.wac_parser_tree.specs.Views.{view_doc_comment};

use std::alloc::{AllocError, Global};
use wac_parser_lexer::SourceSpan;

/// An identifier.
#[derive(Clone, Copy, Debug)]
pub struct Ident<'a> {
    /// The name, without a leading `%`.
    pub string: &'a str,
    /// Where it stands, the `%` included.
    pub span: SourceSpan,
}

/// A string literal.
#[derive(Clone, Copy, Debug)]
pub struct String<'a> {
    /// The text between the quotes.
    pub value: &'a str,
    /// Where it stands, the quotes included.
    pub span: SourceSpan,
}

/// A doc comment.
#[derive(Clone, Copy, Debug)]
pub struct DocComment<'a> {
    /// The text, without the comment's marks, trimmed.
    pub comment: &'a str,
    /// Where the whole comment stands.
    pub span: SourceSpan,
}

pub(crate) fn clone_docs<'a>(
    alloc: Global,
    docs: &Vec<DocComment<'a>>,
) -> Result<Vec<DocComment<'a>>, AllocError>
    ensures { IfOk result (λ v. map view_doc_comment v.items ≡ map view_doc_comment docs.now.items) }
{
    Vec::from_slice(alloc, docs.as_slice())
}
