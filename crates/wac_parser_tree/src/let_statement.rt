//! Names for expressions.

ghost use Rattle.std.specs.Prelude.{◌≡◌, IfOk};
ghost use Rattle.wac_parser_tree.specs.Views.{view_let_statement};

use crate::expr::Expr;
use crate::text::{DocComment, Ident, clone_docs};
use std::alloc::{AllocError, Global};

/// A statement `let ID = EXPR;`.
#[derive(Debug, Drop)]
pub struct LetStatement<'a> {
    /// The doc comments of the statement.
    pub docs: Vec<DocComment<'a>>,
    /// The new name.
    pub id: Ident<'a>,
    /// What it names.
    pub expr: Expr<'a>,
}

impl<'a> LetStatement<'a> {
    /// An equal statement.
    pub fn clone(&self, alloc: Global) -> Result<Self, AllocError>
        ensures { IfOk result (λ t. view_let_statement t ≡ view_let_statement self.now) }
    {
        Ok(LetStatement {
            docs: clone_docs(alloc, &self.docs)?,
            id: self.id,
            expr: self.expr.clone(alloc)?,
        })
    }
}
