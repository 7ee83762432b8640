//! Expressions.

ghost use Rattle.std.specs.Prelude.{◌≡◌, IfOk, map};
ghost use Rattle.wac_parser_tree.specs.Accessors.{argument_name_span, argument_name_text, postfix_expr_span, primary_expr_span};
ghost use Rattle.wac_parser_tree.specs.Views.{view_instantiation_argument_name, view_expr, view_instantiation_argument, view_named_instantiation_argument, view_nested_expr, view_new_expr, view_postfix_expr, view_primary_expr};

use crate::import::PackageName;
use crate::text::{Ident, String};
use std::alloc::{AllocError, Global};
use wac_parser_lexer::SourceSpan;

/// An expression: a primary one, and what follows it.
#[cycle(expr)]
#[derive(Debug, Drop)]
pub struct Expr<'a> {
    /// Where the whole expression stands.
    pub span: SourceSpan,
    /// The expression that comes first.
    pub primary: PrimaryExpr<'a>,
    /// The accesses behind it, in order.
    pub postfix: Vec<PostfixExpr<'a>>,
}

/// An expression without accesses.
#[cycle(expr)]
#[derive(Debug)]
pub enum PrimaryExpr<'a> {
    /// An instantiation.
    New(NewExpr<'a>),
    /// An expression in parentheses.
    Nested(NestedExpr<'a>),
    /// A name.
    Ident(Ident<'a>),
}

// It takes the value apart: where one is held at a `?`, a derived drop is proved there part by part.
impl Drop for PrimaryExpr<'_> {
    #[cycle(drops)]
    fn drop(self) {
        match self {
            PrimaryExpr::New(_) => {}
            PrimaryExpr::Nested(_) => {}
            PrimaryExpr::Ident(_) => {}
        }
    }
}

/// An instantiation `new PACKAGE { ARGUMENTS }`, where the package may have a version, or a version track as in
/// `new a:b@0.2 { ... }`.
#[cycle(expr)]
#[derive(Debug, Drop)]
pub struct NewExpr<'a> {
    /// Where the instantiation stands.
    pub span: SourceSpan,
    /// The package to instantiate. Where a track is named it has no version, and its text is the whole token.
    pub package: PackageName<'a>,
    /// The version track behind the `@`: `1`, or `0.2` below 1.0. The package with the greatest version on it is meant.
    pub track: Option<&'a str>,
    /// The arguments, in order.
    pub arguments: Vec<InstantiationArgument<'a>>,
}

/// An argument of an instantiation.
#[cycle(expr)]
#[derive(Debug)]
pub enum InstantiationArgument<'a> {
    /// An item, whose name the import tells: `ID`.
    Inferred(Ident<'a>),
    /// The exports of an instance: `...ID`.
    Spread(Ident<'a>),
    /// An item under its name: `NAME: EXPR`.
    Named(NamedInstantiationArgument<'a>),
    /// An import for each argument that is left; where the `...` stands.
    Fill(SourceSpan),
}

// It takes the value apart: where one is held at a `?`, a derived drop is proved there part by part.
impl Drop for InstantiationArgument<'_> {
    #[cycle(drops)]
    fn drop(self) {
        match self {
            InstantiationArgument::Inferred(_) => {}
            InstantiationArgument::Spread(_) => {}
            InstantiationArgument::Named(_) => {}
            InstantiationArgument::Fill(_) => {}
        }
    }
}

/// An argument `NAME: EXPR`.
#[cycle(expr)]
#[derive(Debug, Drop)]
pub struct NamedInstantiationArgument<'a> {
    /// The name of the argument.
    pub name: InstantiationArgumentName<'a>,
    /// What is passed.
    pub expr: Expr<'a>,
}

/// The name of an argument.
#[derive(Clone, Copy, Debug)]
pub enum InstantiationArgumentName<'a> {
    /// An identifier.
    Ident(Ident<'a>),
    /// A string literal.
    String(String<'a>),
}

/// An expression in parentheses.
#[cycle(expr)]
#[derive(Debug, Drop)]
pub struct NestedExpr<'a> {
    /// Where it stands, the parentheses included.
    pub span: SourceSpan,
    /// The expression inside.
    pub inner: Box<Expr<'a>>,
}

/// An access to an export of an instance.
#[derive(Clone, Copy, Debug)]
pub enum PostfixExpr<'a> {
    /// By an identifier.
    Access(AccessExpr<'a>),
    /// By a string literal.
    NamedAccess(NamedAccessExpr<'a>),
}

/// An access `.ID`.
#[derive(Clone, Copy, Debug)]
pub struct AccessExpr<'a> {
    /// Where the access stands, the dot included.
    pub span: SourceSpan,
    /// The name of the export.
    pub id: Ident<'a>,
}

/// An access `["NAME"]`.
#[derive(Clone, Copy, Debug)]
pub struct NamedAccessExpr<'a> {
    /// Where the access stands, the brackets included.
    pub span: SourceSpan,
    /// The name of the export.
    pub string: String<'a>,
}

impl<'a> Expr<'a> {
    /// An equal expression.
    #[cycle(expr)]
    pub fn clone(&self, alloc: Global) -> Result<Self, AllocError>
        ensures { IfOk result (λ t. view_expr t ≡ view_expr self.now) }
    {
        Ok(Expr {
            span: self.span,
            primary: PrimaryExpr::clone(&self.primary, alloc)?,
            postfix: clone_postfix(alloc, &self.postfix)?,
        })
    }
}

impl<'a> PrimaryExpr<'a> {
    /// Where the expression stands.
    pub fn span(&self) -> SourceSpan
        ensures { result ≡ primary_expr_span (view_primary_expr self.now) }
    {
        match self {
            PrimaryExpr::New(new) => new.span,
            PrimaryExpr::Nested(nested) => nested.span,
            PrimaryExpr::Ident(id) => id.span,
        }
    }

    /// An equal expression.
    #[cycle(expr)]
    pub fn clone(&self, alloc: Global) -> Result<Self, AllocError>
        ensures { IfOk result (λ t. view_primary_expr t ≡ view_primary_expr self.now) }
    {
        match self {
            PrimaryExpr::New(new) => Ok(PrimaryExpr::New(NewExpr::clone(new, alloc)?)),
            PrimaryExpr::Nested(nested) => {
                Ok(PrimaryExpr::Nested(NestedExpr::clone(nested, alloc)?))
            }
            PrimaryExpr::Ident(id) => Ok(PrimaryExpr::Ident(*id)),
        }
    }
}

impl<'a> NewExpr<'a> {
    /// An equal instantiation.
    #[cycle(expr)]
    pub fn clone(&self, alloc: Global) -> Result<Self, AllocError>
        ensures { IfOk result (λ t. view_new_expr t ≡ view_new_expr self.now) }
    {
        Ok(NewExpr {
            span: self.span,
            package: self.package.clone(alloc)?,
            track: self.track,
            arguments: clone_arguments(alloc, &self.arguments)?,
        })
    }
}

#[cycle(expr)]
fn clone_arguments<'a>(
    alloc: Global,
    arguments: &Vec<InstantiationArgument<'a>>,
) -> Result<Vec<InstantiationArgument<'a>>, AllocError>
    ensures { IfOk result (λ v. map view_instantiation_argument v.items ≡ map view_instantiation_argument arguments.now.items) }
{
    let mut copies = Vec::new(alloc);
    for argument in arguments {
        copies.push(InstantiationArgument::clone(argument, alloc)?)?;
    }
    Ok(copies)
}

impl<'a> InstantiationArgument<'a> {
    /// An equal argument.
    #[cycle(expr)]
    pub fn clone(&self, alloc: Global) -> Result<Self, AllocError>
        ensures { IfOk result (λ t. view_instantiation_argument t ≡ view_instantiation_argument self.now) }
    {
        match self {
            InstantiationArgument::Inferred(id) => Ok(InstantiationArgument::Inferred(*id)),
            InstantiationArgument::Spread(id) => Ok(InstantiationArgument::Spread(*id)),
            InstantiationArgument::Named(argument) => Ok(InstantiationArgument::Named(
                NamedInstantiationArgument::clone(argument, alloc)?,
            )),
            InstantiationArgument::Fill(span) => Ok(InstantiationArgument::Fill(*span)),
        }
    }
}

impl<'a> NamedInstantiationArgument<'a> {
    /// An equal argument.
    #[cycle(expr)]
    pub fn clone(&self, alloc: Global) -> Result<Self, AllocError>
        ensures { IfOk result (λ t. view_named_instantiation_argument t ≡ view_named_instantiation_argument self.now) }
    {
        Ok(NamedInstantiationArgument {
            name: self.name,
            expr: Expr::clone(&self.expr, alloc)?,
        })
    }
}

impl<'a> NestedExpr<'a> {
    /// An equal expression.
    #[cycle(expr)]
    pub fn clone(&self, alloc: Global) -> Result<Self, AllocError>
        ensures { IfOk result (λ t. view_nested_expr t ≡ view_nested_expr self.now) }
    {
        Ok(NestedExpr {
            span: self.span,
            inner: Box::new(alloc, Expr::clone(&self.inner, alloc)?)?,
        })
    }
}

fn clone_postfix<'a>(
    alloc: Global,
    postfix: &Vec<PostfixExpr<'a>>,
) -> Result<Vec<PostfixExpr<'a>>, AllocError>
    ensures { IfOk result (λ v. map view_postfix_expr v.items ≡ map view_postfix_expr postfix.now.items) }
{
    Vec::from_slice(alloc, postfix.as_slice())
}

impl<'a> InstantiationArgumentName<'a> {
    /// Where the name stands.
    pub fn span(&self) -> SourceSpan
        ensures { result ≡ argument_name_span (view_instantiation_argument_name self.now) }
    {
        match self {
            InstantiationArgumentName::Ident(id) => id.span,
            InstantiationArgumentName::String(string) => string.span,
        }
    }

    /// The text of the name, without quotes.
    pub fn as_str(&self) -> &'a str
        ensures { result.now ≡ argument_name_text (view_instantiation_argument_name self.now) }
    {
        match self {
            InstantiationArgumentName::Ident(id) => id.string,
            InstantiationArgumentName::String(string) => string.value,
        }
    }
}

impl PostfixExpr<'_> {
    /// Where the access stands.
    pub fn span(&self) -> SourceSpan
        ensures { result ≡ postfix_expr_span (view_postfix_expr self.now) }
    {
        match self {
            PostfixExpr::Access(access) => access.span,
            PostfixExpr::NamedAccess(access) => access.span,
        }
    }
}
