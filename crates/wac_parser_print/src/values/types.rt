//! Values of types.

ghost use Rattle.std.specs.Prelude.{◌≡◌, IfOk, codes, [], ◌∷◌};
ghost use Rattle.serde_json.specs.View.{view};
ghost use Rattle.wac_parser_tree.specs.Trees as t;
ghost use Rattle.serde_json.specs.Data.{Data, array};
ghost use Rattle.wac_parser_tree.specs.Views.{view_func_type, view_func_type_ref, view_ident, view_named_type, view_result_list, view_ty};
ghost use Rattle.wac_parser_print.specs.Views.{view_maybe_ty, view_tys};
ghost use Rattle.wac_parser_print.specs.Objects.{Gives, GivesTwo};
ghost use Rattle.wac_parser_print.specs.Objects as objects;
ghost use Rattle.wac_parser_print.specs.Values.{with_span};
ghost use Rattle.wac_parser_print.specs.Values as values;

use super::members::{Object, variant};
use super::objects::{Valued, array, ident, identified, span, truth};
use serde_json::{Value, json};
use std::alloc::{AllocError, Global};
use wac_parser_lexer::SourceSpan;
use wac_parser_tree::{FuncType, FuncTypeRef, Ident, NamedType, ResultList, Type};

/// A value, and where its form stands.
pub(crate) fn with_span(
    alloc: Global,
    contents: Result<Value, AllocError>,
    at: SourceSpan,
) -> Result<Value, AllocError>
    ensures { (x : Data) → Gives contents x → Gives result (with_span x (at)) }
{
    let contents = contents?;
    let at = span(alloc, at)?;
    json!(in alloc; [contents, at])
}

/// A variant that holds its place alone.
pub(crate) fn spanned(alloc: Global, name: &str, at: SourceSpan) -> Result<Value, AllocError>
    ensures { IfOk result (λ v. view v ≡ objects.variant name.now (objects.span at)) }
{
    variant(alloc, name, span(alloc, at))
}

pub(crate) fn borrow(alloc: Global, id: &Ident<'_>, at: SourceSpan) -> Result<Value, AllocError>
    ensures { IfOk result (λ v. view v ≡ objects.variant (codes "borrow") (with_span (values.ident (view_ident id.now)) at)) }
{
    variant(alloc, "borrow", with_span(alloc, ident(alloc, id), at))
}

pub(crate) fn declared(alloc: Global, id: &Ident<'_>) -> Result<Value, AllocError>
    ensures { IfOk result (λ v. view v ≡ objects.variant (codes "ident") (values.ident (view_ident id.now))) }
{
    variant(alloc, "ident", ident(alloc, id))
}

#[cycle(ty)]
#[tactic(auto, unfolding(crate::specs::Values::ty))]
pub(crate) fn ty(alloc: Global, ty: &Type<'_>) -> Result<Value, AllocError>
    ensures { IfOk result (λ v. view v ≡ values.ty (view_ty ty.now)) }
{
    match ty {
        Type::U8(at) => spanned(alloc, "u8", *at),
        Type::S8(at) => spanned(alloc, "s8", *at),
        Type::U16(at) => spanned(alloc, "u16", *at),
        Type::S16(at) => spanned(alloc, "s16", *at),
        Type::U32(at) => spanned(alloc, "u32", *at),
        Type::S32(at) => spanned(alloc, "s32", *at),
        Type::U64(at) => spanned(alloc, "u64", *at),
        Type::S64(at) => spanned(alloc, "s64", *at),
        Type::F32(at) => spanned(alloc, "f32", *at),
        Type::F64(at) => spanned(alloc, "f64", *at),
        Type::Char(at) => spanned(alloc, "char", *at),
        Type::Bool(at) => spanned(alloc, "bool", *at),
        Type::String(at) => spanned(alloc, "string", *at),
        Type::Tuple(types, at) => tuple(alloc, types, *at),
        Type::List(ty, at) => one_type(alloc, ty, "list", *at),
        Type::Option(ty, at) => one_type(alloc, ty, "option", *at),
        Type::Result { ok, err, span } => {
            result_type(alloc, payload(alloc, ok), payload(alloc, err), *span)
        }
        Type::Borrow(id, at) => borrow(alloc, id, *at),
        Type::Stream(ty, at) => optional_type(alloc, ty, "stream", *at),
        Type::Future(ty, at) => optional_type(alloc, ty, "future", *at),
        Type::ErrorContext(at) => spanned(alloc, "errorContext", *at),
        Type::Ident(id) => declared(alloc, id),
    }
}

#[cycle(ty)]
pub(crate) fn one_type(
    alloc: Global,
    one: &Type<'_>,
    name: &str,
    at: SourceSpan,
) -> Result<Value, AllocError>
    ensures { IfOk result (λ v. view v ≡ objects.variant name.now (with_span (values.ty (view_ty one.now)) at)) }
{
    variant(alloc, name, with_span(alloc, ty(alloc, one), at))
}

#[cycle(ty)]
#[tactic(auto, unfolding(crate::specs::Values::maybe_ty))]
pub(crate) fn payload(alloc: Global, payload: &Option<Box<Type<'_>>>) -> Result<Value, AllocError>
    ensures { IfOk result (λ v. view v ≡ values.maybe_ty (view_maybe_ty payload.now)) }
{
    match payload {
        Some(payload) => ty(alloc, payload),
        None => Ok(Value::Null),
    }
}

#[cycle(ty)]
pub(crate) fn optional_type(
    alloc: Global,
    one: &Option<Box<Type<'_>>>,
    name: &str,
    at: SourceSpan,
) -> Result<Value, AllocError>
    ensures { Gives result (objects.variant name.now (with_span (values.maybe_ty (view_maybe_ty one.now)) at)) }
{
    variant(alloc, name, with_span(alloc, payload(alloc, one), at))
}

pub(crate) fn result_type(
    alloc: Global,
    ok: Result<Value, AllocError>,
    err: Result<Value, AllocError>,
    at: SourceSpan,
) -> Result<Value, AllocError>
    ensures { GivesTwo ok err (values.result_of at) result }
{
    let types = Object::new(alloc)
        .with("ok", ok)
        .with("err", err)
        .with("span", span(alloc, at))
        .into_value();
    variant(alloc, "result", types)
}

#[cycle(ty)]
#[tactic(auto, using(crate::proofs::ValueLaws::tys_items))]
pub(crate) fn tuple(
    alloc: Global,
    types: &Vec<Type<'_>>,
    at: SourceSpan,
) -> Result<Value, AllocError>
    ensures { Gives result (objects.variant (codes "tuple") (with_span (array (values.tys (view_tys types.now.items))) at)) }
{
    let mut values = Vec::new(alloc);
    for one in types {
        values.push(ty(alloc, one)?)?;
    }
    variant(
        alloc,
        "tuple",
        with_span(alloc, Ok(Value::from(values)), at),
    )
}

impl<'a> Valued for NamedType<'a> {
    ghost Plain = { t.NamedType };

    ghost plain = { view_named_type };

    ghost shown = { values.named_type };

    #[tactic(auto, unfolding(crate::specs::Values::named_type))]
    fn value(&self, alloc: Global) -> Result<Value, AllocError>
        ensures { Gives result (values.named_type (view_named_type self.now)) }
    {
        let ty = ty(alloc, &self.ty);
        identified(alloc, &self.id, "ty", ty)
    }
}

#[tactic(auto, unfolding(crate::specs::Values::result_list))]
pub(crate) fn result_list(alloc: Global, results: &ResultList<'_>) -> Result<Value, AllocError>
    ensures { IfOk result (λ v. view v ≡ values.result_list (view_result_list results.now)) }
{
    match results {
        ResultList::Empty => Value::try_from_str(alloc, "empty"),
        ResultList::Scalar(x) => variant(alloc, "scalar", ty(alloc, x)),
    }
}

#[tactic(auto, unfolding(crate::specs::Values::func_type))]
pub(crate) fn func_type(alloc: Global, ty: &FuncType<'_>) -> Result<Value, AllocError>
    ensures { IfOk result (λ v. view v ≡ values.func_type (view_func_type ty.now)) }
{
    let is_async = truth(ty.is_async);
    let params = array(alloc, &ty.params);
    let results = result_list(alloc, &ty.results);
    Object::new(alloc)
        .with("isAsync", is_async)
        .with("params", params)
        .with("results", results)
        .into_value()
}

#[tactic(auto, unfolding(crate::specs::Values::func_type_ref))]
pub(crate) fn func_type_ref(alloc: Global, ty: &FuncTypeRef<'_>) -> Result<Value, AllocError>
    ensures { IfOk result (λ v. view v ≡ values.func_type_ref (view_func_type_ref ty.now)) }
{
    match ty {
        FuncTypeRef::Func(x) => variant(alloc, "func", func_type(alloc, x)),
        FuncTypeRef::Ident(x) => variant(alloc, "ident", ident(alloc, x)),
    }
}
