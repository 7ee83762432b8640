//! Types of values and of functions.

ghost use Rattle.std.specs.Prelude.{map, codes, ◌++◌};
ghost use Rattle.std.specs.Option.{option_map};
ghost use Rattle.serde_json.specs.Data.{array};
ghost use Rattle.serde_json.specs.Written.{compact_text};
ghost use Rattle.wac_parser_tree.specs.Trees as t;
ghost use Rattle.wac_parser_tree.specs.Views.{view_boxed_ty, view_func_type, view_func_type_ref, view_ident, view_named_type, view_result_list, view_ty};
ghost use Rattle.wac_parser_print.specs.Objects as objects;
ghost use Rattle.wac_parser_print.specs.Values.{with_span};
ghost use Rattle.wac_parser_print.specs.Values as values;
ghost use Rattle.wac_parser_json.specs.Writers.{Writes, WritesBytes};

use crate::names::{ident, span};
use crate::parts::{Part, array, object};
use crate::writer::JsonWriter;
use wac_parser_lexer::SourceSpan;
use wac_parser_tree::{FuncType, FuncTypeRef, Ident, NamedType, ResultList, Type};
use wac_streams::ByteSink;

/// Writes a place and a closing brace behind the opening.
fn spanned<W: ByteSink>(opening: &str, at: SourceSpan, out: &mut JsonWriter<'_, W>)
    ensures { WritesBytes W.contents W.calls out.old (opening.now ++ (compact_text (objects.span at) ++ codes "}")) out.new }
{
    out.word(opening);
    span(at, out);
    out.word("}");
}

fn borrow<W: ByteSink>(id: &Ident<'_>, at: SourceSpan, out: &mut JsonWriter<'_, W>)
    ensures { Writes W.contents W.calls out.old (values.ty (t.Ty.borrow (view_ident id.now) at)) out.new }
{
    out.word("{\"borrow\":[");
    ident(id, out);
    out.word(",");
    span(at, out);
    out.word("]");
    out.word("}");
}

#[cycle(ty)]
pub(crate) fn ty<W: ByteSink>(ty: &Type<'_>, out: &mut JsonWriter<'_, W>)
    ensures { Writes W.contents W.calls out.old (values.ty (view_ty ty.now)) out.new }
{
    match ty {
        Type::U8(at) => spanned("{\"u8\":", *at, out),
        Type::S8(at) => spanned("{\"s8\":", *at, out),
        Type::U16(at) => spanned("{\"u16\":", *at, out),
        Type::S16(at) => spanned("{\"s16\":", *at, out),
        Type::U32(at) => spanned("{\"u32\":", *at, out),
        Type::S32(at) => spanned("{\"s32\":", *at, out),
        Type::U64(at) => spanned("{\"u64\":", *at, out),
        Type::S64(at) => spanned("{\"s64\":", *at, out),
        Type::F32(at) => spanned("{\"f32\":", *at, out),
        Type::F64(at) => spanned("{\"f64\":", *at, out),
        Type::Char(at) => spanned("{\"char\":", *at, out),
        Type::Bool(at) => spanned("{\"bool\":", *at, out),
        Type::String(at) => spanned("{\"string\":", *at, out),
        Type::Tuple(types, at) => tuple(types, *at, out),
        Type::List(one, at) => one_type(one, "{\"list\":", *at, out),
        Type::Option(one, at) => one_type(one, "{\"option\":", *at, out),
        Type::Result { ok, err, span: at } => object!(out; {
            "result": object!(out; {
                "err": payload(err, out),
                "ok": payload(ok, out),
                "span": span(*at, out)
            })
        }),
        Type::Borrow(id, at) => borrow(id, *at, out),
        Type::Stream(one, at) => optional_type(one, "{\"stream\":", *at, out),
        Type::Future(one, at) => optional_type(one, "{\"future\":", *at, out),
        Type::ErrorContext(at) => spanned("{\"errorContext\":", *at, out),
        Type::Ident(id) => object!(out; {"ident": ident(id, out)}),
    }
}

/// Writes a type with its place, and a closing brace, behind the opening.
#[cycle(ty)]
fn one_type<W: ByteSink>(one: &Type<'_>, opening: &str, at: SourceSpan, out: &mut JsonWriter<'_, W>)
    ensures { WritesBytes W.contents W.calls out.old
        (opening.now ++ (compact_text (with_span (values.ty (view_ty one.now)) at) ++ codes "}")) out.new }
{
    out.word(opening);
    out.word("[");
    ty(one, out);
    out.word(",");
    span(at, out);
    out.word("]");
    out.word("}");
}

/// Writes a type, or `null`.
#[cycle(ty)]
fn payload<W: ByteSink>(payload: &Option<Box<Type<'_>>>, out: &mut JsonWriter<'_, W>)
    ensures { Writes W.contents W.calls out.old (values.maybe_ty (t.maybe_ty (option_map view_boxed_ty payload.now))) out.new }
{
    match payload {
        Some(one) => ty(one, out),
        None => out.word("null"),
    }
}

/// Writes a type or `null`, with its place, and a closing brace, behind the opening.
#[cycle(ty)]
fn optional_type<W: ByteSink>(
    one: &Option<Box<Type<'_>>>,
    opening: &str,
    at: SourceSpan,
    out: &mut JsonWriter<'_, W>,
)
    ensures { WritesBytes W.contents W.calls out.old
        (opening.now ++ (compact_text (with_span (values.maybe_ty (t.maybe_ty (option_map view_boxed_ty one.now))) at)
        ++ codes "}")) out.new }
{
    out.word(opening);
    out.word("[");
    payload(one, out);
    out.word(",");
    span(at, out);
    out.word("]");
    out.word("}");
}

#[cycle(ty)]
fn tuple<W: ByteSink>(types: &Vec<Type<'_>>, at: SourceSpan, out: &mut JsonWriter<'_, W>)
    ensures { Writes W.contents W.calls out.old (values.ty (t.Ty.tuple (t.tys (map view_ty types.now.items)) at)) out.new }
{
    out.word("{\"tuple\":[");
    type_list(types, out);
    out.word(",");
    span(at, out);
    out.word("]");
    out.word("}");
}

#[cycle(ty)]
fn type_list<W: ByteSink>(types: &Vec<Type<'_>>, out: &mut JsonWriter<'_, W>)
    ensures { Writes W.contents W.calls out.old (array (values.tys (t.tys (map view_ty types.now.items)))) out.new }
{
    out.word("[");
    let mut between = "";
    for one in types {
        out.word(between);
        ty(one, out);
        between = ",";
    }
    out.word("]");
}

impl<'a> Part for Type<'a> {
    ghost Plain = { t.Ty };

    ghost plain = { view_ty };

    ghost json = { values.ty };

    fn write<W: ByteSink>(&self, out: &mut JsonWriter<'_, W>) {
        ty(self, out);
    }
}

fn named_type<W: ByteSink>(named: &NamedType<'_>, out: &mut JsonWriter<'_, W>)
    ensures { Writes W.contents W.calls out.old (values.named_type (view_named_type named.now)) out.new }
{
    object!(out; {
        "id": ident(&named.id, out),
        "ty": ty(&named.ty, out)
    });
}

impl<'a> Part for NamedType<'a> {
    ghost Plain = { t.NamedType };

    ghost plain = { view_named_type };

    ghost json = { values.named_type };

    fn write<W: ByteSink>(&self, out: &mut JsonWriter<'_, W>) {
        named_type(self, out);
    }
}

fn result_list<W: ByteSink>(results: &ResultList<'_>, out: &mut JsonWriter<'_, W>)
    ensures { Writes W.contents W.calls out.old (values.result_list (view_result_list results.now)) out.new }
{
    match results {
        ResultList::Empty => out.word("\"empty\""),
        ResultList::Scalar(one) => object!(out; {"scalar": ty(one, out)}),
    }
}

pub(crate) fn func_type<W: ByteSink>(ty: &FuncType<'_>, out: &mut JsonWriter<'_, W>)
    ensures { Writes W.contents W.calls out.old (values.func_type (view_func_type ty.now)) out.new }
{
    object!(out; {
        "isAsync": out.boolean(ty.is_async),
        "params": array(&ty.params, out),
        "results": result_list(&ty.results, out)
    });
}

pub(crate) fn func_type_ref<W: ByteSink>(ty: &FuncTypeRef<'_>, out: &mut JsonWriter<'_, W>)
    ensures { Writes W.contents W.calls out.old (values.func_type_ref (view_func_type_ref ty.now)) out.new }
{
    match ty {
        FuncTypeRef::Func(func) => object!(out; {"func": func_type(func, out)}),
        FuncTypeRef::Ident(id) => object!(out; {"ident": ident(id, out)}),
    }
}
