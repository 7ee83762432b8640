//! Values of expressions.

ghost use Rattle.std.specs.Prelude.{◌≡◌, IfOk, option_map};
ghost use Rattle.serde_json.specs.View.{view};
ghost use Rattle.wac_parser_tree.specs.Trees as t;
ghost use Rattle.serde_json.specs.Data.{array, string};
ghost use Rattle.wac_parser_tree.specs.Views.{view_access_expr, view_expr, view_instantiation_argument, view_instantiation_argument_name, view_named_access_expr};
ghost use Rattle.wac_parser_tree.specs.Views.{view_named_instantiation_argument, view_nested_expr, view_new_expr, view_postfix_expr, view_primary_expr};
ghost use Rattle.wac_parser_print.specs.Views.{view_arguments};
ghost use Rattle.wac_parser_print.specs.Objects.{Gives, or_null};
ghost use Rattle.wac_parser_print.specs.Values as values;

use super::members::{Object, pair, variant};
use super::objects::{Valued, array, ident, package_name, placed, span, string_literal};
use serde_json::Value;
use std::alloc::{AllocError, Global};
use wac_parser_tree::{
    AccessExpr, Expr, InstantiationArgument, InstantiationArgumentName, NamedAccessExpr,
    NamedInstantiationArgument, NestedExpr, NewExpr, PostfixExpr, PrimaryExpr,
};

#[tactic(auto, unfolding(crate::specs::Values::access_expr))]
pub(crate) fn access_expr(alloc: Global, access: &AccessExpr<'_>) -> Result<Value, AllocError>
    ensures { IfOk result (λ v. view v ≡ values.access_expr (view_access_expr access.now)) }
{
    let id = ident(alloc, &access.id);
    placed(alloc, access.span, "id", id)
}

#[tactic(auto, unfolding(crate::specs::Values::named_access_expr))]
pub(crate) fn named_access_expr(
    alloc: Global,
    access: &NamedAccessExpr<'_>,
) -> Result<Value, AllocError>
    ensures { IfOk result (λ v. view v ≡ values.named_access_expr (view_named_access_expr access.now)) }
{
    let string = string_literal(alloc, &access.string);
    placed(alloc, access.span, "string", string)
}

impl<'a> Valued for PostfixExpr<'a> {
    ghost Plain = { t.PostfixExpr };

    ghost plain = { view_postfix_expr };

    ghost shown = { values.postfix_expr };

    #[tactic(auto, unfolding(crate::specs::Values::postfix_expr))]
    fn value(&self, alloc: Global) -> Result<Value, AllocError>
        ensures { Gives result (values.postfix_expr (view_postfix_expr self.now)) }
    {
        match self {
            PostfixExpr::Access(x) => variant(alloc, "access", access_expr(alloc, x)),
            PostfixExpr::NamedAccess(x) => variant(
                alloc,
                "namedAccess",
                named_access_expr(alloc, x),
            ),
        }
    }
}

#[tactic(auto, unfolding(crate::specs::Values::argument_name))]
pub(crate) fn argument_name(
    alloc: Global,
    name: &InstantiationArgumentName<'_>,
) -> Result<Value, AllocError>
    ensures { IfOk result (λ v. view v ≡ values.argument_name (view_instantiation_argument_name name.now)) }
{
    match name {
        InstantiationArgumentName::Ident(x) => variant(alloc, "ident", ident(alloc, x)),
        InstantiationArgumentName::String(x) => variant(alloc, "string", string_literal(alloc, x)),
    }
}

/// The text of a version track, or null.
fn track(alloc: Global, track: Option<&str>) -> Result<Value, AllocError>
    ensures { Gives result (or_null string (option_map (λ t. t.now) track.entry)) }
{
    match track {
        Some(track) => Value::try_from_str(alloc, track),
        None => Ok(Value::Null),
    }
}

#[cycle(expr)]
#[tactic(auto, unfolding(crate::specs::Values::expr))]
pub(crate) fn expr(alloc: Global, expr: &Expr<'_>) -> Result<Value, AllocError>
    ensures { IfOk result (λ v. view v ≡ values.expr (view_expr expr.now)) }
{
    let at = span(alloc, expr.span);
    let primary = primary_expr(alloc, &expr.primary);
    let postfix = array(alloc, &expr.postfix);
    Object::new(alloc)
        .with("span", at)
        .with("primary", primary)
        .with("postfix", postfix)
        .into_value()
}

#[cycle(expr)]
#[tactic(auto, unfolding(crate::specs::Values::primary_expr))]
pub(crate) fn primary_expr(alloc: Global, expr: &PrimaryExpr<'_>) -> Result<Value, AllocError>
    ensures { IfOk result (λ v. view v ≡ values.primary_expr (view_primary_expr expr.now)) }
{
    match expr {
        PrimaryExpr::New(x) => variant(alloc, "new", new_expr(alloc, x)),
        PrimaryExpr::Nested(x) => variant(alloc, "nested", nested_expr(alloc, x)),
        PrimaryExpr::Ident(x) => variant(alloc, "ident", ident(alloc, x)),
    }
}

#[cycle(expr)]
#[tactic(auto, unfolding(crate::specs::Values::nested_expr))]
pub(crate) fn nested_expr(alloc: Global, nested: &NestedExpr<'_>) -> Result<Value, AllocError>
    ensures { IfOk result (λ v. view v ≡ values.nested_expr (view_nested_expr nested.now)) }
{
    let inner = expr(alloc, &nested.inner);
    placed(alloc, nested.span, "inner", inner)
}

#[cycle(expr)]
#[tactic(auto, unfolding(crate::specs::Values::new_expr))]
pub(crate) fn new_expr(alloc: Global, made: &NewExpr<'_>) -> Result<Value, AllocError>
    ensures { IfOk result (λ v. view v ≡ values.new_expr (view_new_expr made.now)) }
{
    let at = span(alloc, made.span);
    let package = package_name(alloc, &made.package);
    let track = track(alloc, made.track);
    let arguments = arguments(alloc, &made.arguments);
    Object::new(alloc)
        .with("span", at)
        .with("package", package)
        .with("track", track)
        .with("arguments", arguments)
        .into_value()
}

#[cycle(expr)]
#[tactic(auto, using(crate::proofs::ValueLaws::arguments_items))]
pub(crate) fn arguments(
    alloc: Global,
    arguments: &Vec<InstantiationArgument<'_>>,
) -> Result<Value, AllocError>
    ensures { Gives result (array (values.arguments (view_arguments arguments.now.items))) }
{
    let mut values = Vec::new(alloc);
    for item in arguments {
        values.push(argument(alloc, item)?)?;
    }
    Ok(Value::from(values))
}

#[cycle(expr)]
#[tactic(auto, unfolding(crate::specs::Values::argument))]
pub(crate) fn argument(
    alloc: Global,
    argument: &InstantiationArgument<'_>,
) -> Result<Value, AllocError>
    ensures { IfOk result (λ v. view v ≡ values.argument (view_instantiation_argument argument.now)) }
{
    match argument {
        InstantiationArgument::Inferred(x) => variant(alloc, "inferred", ident(alloc, x)),
        InstantiationArgument::Spread(x) => variant(alloc, "spread", ident(alloc, x)),
        InstantiationArgument::Named(x) => variant(alloc, "named", named_argument(alloc, x)),
        InstantiationArgument::Fill(x) => variant(alloc, "fill", span(alloc, *x)),
    }
}

#[cycle(expr)]
#[tactic(auto, unfolding(crate::specs::Values::named_argument))]
pub(crate) fn named_argument(
    alloc: Global,
    argument: &NamedInstantiationArgument<'_>,
) -> Result<Value, AllocError>
    ensures { IfOk result (λ v. view v ≡ values.named_argument (view_named_instantiation_argument argument.now)) }
{
    let name = argument_name(alloc, &argument.name);
    let expr = expr(alloc, &argument.expr);
    pair(alloc, "name", name, "expr", expr)
}
