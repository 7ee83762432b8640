//! Expressions.

ghost use Rattle.std.specs.Prelude.{map};
ghost use Rattle.serde_json.specs.Data.{array};
ghost use Rattle.wac_parser_tree.specs.Trees as t;
ghost use Rattle.wac_parser_tree.specs.Views.{view_access_expr, view_expr, view_instantiation_argument, view_instantiation_argument_name, view_named_access_expr, view_named_instantiation_argument, view_nested_expr, view_new_expr, view_postfix_expr, view_primary_expr};
ghost use Rattle.wac_parser_print.specs.Values as values;
ghost use Rattle.wac_parser_json.specs.Writers.{Writes};

use crate::names::{ident, package_name, span, string_literal, track};
use crate::parts::{Part, array, object};
use crate::writer::JsonWriter;
use wac_parser_tree::{
    AccessExpr, Expr, InstantiationArgument, InstantiationArgumentName, NamedAccessExpr,
    NamedInstantiationArgument, NestedExpr, NewExpr, PostfixExpr, PrimaryExpr,
};
use wac_streams::ByteSink;

fn access_expr<W: ByteSink>(access: &AccessExpr<'_>, out: &mut JsonWriter<'_, W>)
    ensures { Writes W.contents W.calls out.old (values.access_expr (view_access_expr access.now)) out.new }
{
    object!(out; {
        "id": ident(&access.id, out),
        "span": span(access.span, out)
    });
}

fn named_access_expr<W: ByteSink>(access: &NamedAccessExpr<'_>, out: &mut JsonWriter<'_, W>)
    ensures { Writes W.contents W.calls out.old (values.named_access_expr (view_named_access_expr access.now)) out.new }
{
    object!(out; {
        "span": span(access.span, out),
        "string": string_literal(&access.string, out)
    });
}

fn postfix_expr<W: ByteSink>(access: &PostfixExpr<'_>, out: &mut JsonWriter<'_, W>)
    ensures { Writes W.contents W.calls out.old (values.postfix_expr (view_postfix_expr access.now)) out.new }
{
    match access {
        PostfixExpr::Access(x) => object!(out; {"access": access_expr(x, out)}),
        PostfixExpr::NamedAccess(x) => object!(out; {"namedAccess": named_access_expr(x, out)}),
    }
}

impl<'a> Part for PostfixExpr<'a> {
    ghost Plain = { t.PostfixExpr };

    ghost plain = { view_postfix_expr };

    ghost json = { values.postfix_expr };

    fn write<W: ByteSink>(&self, out: &mut JsonWriter<'_, W>) {
        postfix_expr(self, out);
    }
}

fn argument_name<W: ByteSink>(name: &InstantiationArgumentName<'_>, out: &mut JsonWriter<'_, W>)
    ensures { Writes W.contents W.calls out.old (values.argument_name (view_instantiation_argument_name name.now)) out.new }
{
    match name {
        InstantiationArgumentName::Ident(x) => object!(out; {"ident": ident(x, out)}),
        InstantiationArgumentName::String(x) => object!(out; {"string": string_literal(x, out)}),
    }
}

#[cycle(expr)]
pub(crate) fn expr<W: ByteSink>(expr: &Expr<'_>, out: &mut JsonWriter<'_, W>)
    ensures { Writes W.contents W.calls out.old (values.expr (view_expr expr.now)) out.new }
{
    object!(out; {
        "postfix": array(&expr.postfix, out),
        "primary": primary_expr(&expr.primary, out),
        "span": span(expr.span, out)
    });
}

#[cycle(expr)]
fn primary_expr<W: ByteSink>(expr: &PrimaryExpr<'_>, out: &mut JsonWriter<'_, W>)
    ensures { Writes W.contents W.calls out.old (values.primary_expr (view_primary_expr expr.now)) out.new }
{
    match expr {
        PrimaryExpr::New(x) => object!(out; {"new": new_expr(x, out)}),
        PrimaryExpr::Nested(x) => object!(out; {"nested": nested_expr(x, out)}),
        PrimaryExpr::Ident(x) => object!(out; {"ident": ident(x, out)}),
    }
}

#[cycle(expr)]
fn nested_expr<W: ByteSink>(nested: &NestedExpr<'_>, out: &mut JsonWriter<'_, W>)
    ensures { Writes W.contents W.calls out.old (values.nested_expr (view_nested_expr nested.now)) out.new }
{
    object!(out; {
        "inner": expr(&nested.inner, out),
        "span": span(nested.span, out)
    });
}

#[cycle(expr)]
fn new_expr<W: ByteSink>(made: &NewExpr<'_>, out: &mut JsonWriter<'_, W>)
    ensures { Writes W.contents W.calls out.old (values.new_expr (view_new_expr made.now)) out.new }
{
    object!(out; {
        "arguments": arguments(&made.arguments, out),
        "package": package_name(&made.package, out),
        "span": span(made.span, out),
        "track": track(made.track, out)
    });
}

#[cycle(expr)]
fn arguments<W: ByteSink>(arguments: &Vec<InstantiationArgument<'_>>, out: &mut JsonWriter<'_, W>)
    ensures { Writes W.contents W.calls out.old
        (array (values.arguments (t.arguments (map view_instantiation_argument arguments.now.items)))) out.new }
{
    out.word("[");
    let mut between = "";
    for one in arguments {
        out.word(between);
        argument(one, out);
        between = ",";
    }
    out.word("]");
}

#[cycle(expr)]
fn argument<W: ByteSink>(argument: &InstantiationArgument<'_>, out: &mut JsonWriter<'_, W>)
    ensures { Writes W.contents W.calls out.old (values.argument (view_instantiation_argument argument.now)) out.new }
{
    match argument {
        InstantiationArgument::Inferred(x) => object!(out; {"inferred": ident(x, out)}),
        InstantiationArgument::Spread(x) => object!(out; {"spread": ident(x, out)}),
        InstantiationArgument::Named(x) => object!(out; {"named": named_argument(x, out)}),
        InstantiationArgument::Fill(at) => object!(out; {"fill": span(*at, out)}),
    }
}

#[cycle(expr)]
fn named_argument<W: ByteSink>(
    argument: &NamedInstantiationArgument<'_>,
    out: &mut JsonWriter<'_, W>,
)
    ensures { Writes W.contents W.calls out.old
        (values.named_argument (view_named_instantiation_argument argument.now)) out.new }
{
    object!(out; {
        "expr": expr(&argument.expr, out),
        "name": argument_name(&argument.name, out)
    });
}
