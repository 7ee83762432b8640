//! Exports.

ghost use Rattle.std.specs.Prelude.{◌≡◌, IfOk};
ghost use Rattle.wac_parser_tree.specs.Views.{view_export_statement};

use crate::expr::Expr;
use crate::import::ExternName;
use crate::text::{DocComment, clone_docs};
use std::alloc::{AllocError, Global};
use wac_parser_lexer::SourceSpan;

/// A statement `export EXPR;`, `export EXPR...;` or `export EXPR as NAME;`.
#[derive(Debug, Drop)]
pub struct ExportStatement<'a> {
    /// The doc comments of the statement.
    pub docs: Vec<DocComment<'a>>,
    /// What is exported.
    pub expr: Expr<'a>,
    /// How it is exported.
    pub options: ExportOptions<'a>,
}

/// How an expression is exported.
#[derive(Clone, Copy, Debug)]
pub enum ExportOptions<'a> {
    /// Under a name that the expression tells.
    None,
    /// Each export of the instance by itself; where the `...` stands.
    Spread(SourceSpan),
    /// Under this name.
    Rename(ExternName<'a>),
}

impl<'a> ExportStatement<'a> {
    /// An equal statement.
    pub fn clone(&self, alloc: Global) -> Result<Self, AllocError>
        ensures { IfOk result (λ t. view_export_statement t ≡ view_export_statement self.now) }
    {
        Ok(ExportStatement {
            docs: clone_docs(alloc, &self.docs)?,
            expr: self.expr.clone(alloc)?,
            options: self.options,
        })
    }
}
