//! Values of declared types.

ghost use Rattle.std.specs.Prelude.{◌≡◌, IfOk, map};
ghost use Rattle.std.specs.Option.{option_map};
ghost use Rattle.serde_json.specs.View.{view};
ghost use Rattle.wac_parser_tree.specs.Trees as t;
ghost use Rattle.wac_parser_tree.specs.Views.{view_constructor, view_enum_case, view_enum_decl, view_field, view_flag, view_flags_decl, view_item_type_decl, view_method, view_record_decl};
ghost use Rattle.wac_parser_tree.specs.Views.{view_resource_decl, view_resource_method, view_ty, view_type_alias, view_type_alias_kind, view_type_decl, view_variant_case, view_variant_decl};
ghost use Rattle.wac_parser_print.specs.Objects.{Gives, or_null};
ghost use Rattle.wac_parser_print.specs.Values as values;

use super::members::{Object, variant};
use super::objects::{Valued, array, declaration, documented, ident, span, truth};
use super::types::{func_type, ty};
use serde_json::Value;
use std::alloc::{AllocError, Global};
use wac_parser_tree::{
    Constructor, EnumCase, EnumDecl, Field, Flag, FlagsDecl, ItemTypeDecl, Method, RecordDecl,
    ResourceDecl, ResourceMethod, Type, TypeAlias, TypeAliasKind, TypeDecl, VariantCase,
    VariantDecl,
};

pub(crate) fn case_type(alloc: Global, payload: &Option<Type<'_>>) -> Result<Value, AllocError>
    ensures { IfOk result (λ v. view v ≡ or_null values.ty (option_map view_ty payload.now)) }
{
    match payload {
        Some(payload) => ty(alloc, payload),
        None => Ok(Value::Null),
    }
}

impl<'a> Valued for VariantCase<'a> {
    ghost Plain = { t.VariantCase };

    ghost plain = { view_variant_case };

    ghost shown = { values.variant_case };

    #[tactic(auto, unfolding(crate::specs::Values::variant_case))]
    fn value(&self, alloc: Global) -> Result<Value, AllocError>
        ensures { Gives result (values.variant_case (view_variant_case self.now)) }
    {
        let ty = case_type(alloc, &self.ty);
        declaration(alloc, &self.docs, &self.id, "ty", ty)
    }
}

#[tactic(auto, unfolding(crate::specs::Values::variant_decl))]
pub(crate) fn variant_decl(alloc: Global, decl: &VariantDecl<'_>) -> Result<Value, AllocError>
    ensures { IfOk result (λ v. view v ≡ values.variant_decl (view_variant_decl decl.now)) }
{
    let cases = array(alloc, &decl.cases);
    declaration(alloc, &decl.docs, &decl.id, "cases", cases)
}

impl<'a> Valued for Field<'a> {
    ghost Plain = { t.Field };

    ghost plain = { view_field };

    ghost shown = { values.field };

    #[tactic(auto, unfolding(crate::specs::Values::field))]
    fn value(&self, alloc: Global) -> Result<Value, AllocError>
        ensures { Gives result (values.field (view_field self.now)) }
    {
        let ty = ty(alloc, &self.ty);
        declaration(alloc, &self.docs, &self.id, "ty", ty)
    }
}

#[tactic(auto, unfolding(crate::specs::Values::record_decl))]
pub(crate) fn record_decl(alloc: Global, decl: &RecordDecl<'_>) -> Result<Value, AllocError>
    ensures { IfOk result (λ v. view v ≡ values.record_decl (view_record_decl decl.now)) }
{
    let fields = array(alloc, &decl.fields);
    declaration(alloc, &decl.docs, &decl.id, "fields", fields)
}

impl<'a> Valued for Flag<'a> {
    ghost Plain = { t.Flag };

    ghost plain = { view_flag };

    ghost shown = { values.flag };

    #[tactic(auto, unfolding(crate::specs::Values::flag))]
    fn value(&self, alloc: Global) -> Result<Value, AllocError>
        ensures { Gives result (values.flag (view_flag self.now)) }
    {
        let id = ident(alloc, &self.id);
        documented(alloc, &self.docs, "id", id)
    }
}

#[tactic(auto, unfolding(crate::specs::Values::flags_decl))]
pub(crate) fn flags_decl(alloc: Global, decl: &FlagsDecl<'_>) -> Result<Value, AllocError>
    ensures { IfOk result (λ v. view v ≡ values.flags_decl (view_flags_decl decl.now)) }
{
    let flags = array(alloc, &decl.flags);
    declaration(alloc, &decl.docs, &decl.id, "flags", flags)
}

impl<'a> Valued for EnumCase<'a> {
    ghost Plain = { t.EnumCase };

    ghost plain = { view_enum_case };

    ghost shown = { values.enum_case };

    #[tactic(auto, unfolding(crate::specs::Values::enum_case))]
    fn value(&self, alloc: Global) -> Result<Value, AllocError>
        ensures { Gives result (values.enum_case (view_enum_case self.now)) }
    {
        let id = ident(alloc, &self.id);
        documented(alloc, &self.docs, "id", id)
    }
}

#[tactic(auto, unfolding(crate::specs::Values::enum_decl))]
pub(crate) fn enum_decl(alloc: Global, decl: &EnumDecl<'_>) -> Result<Value, AllocError>
    ensures { IfOk result (λ v. view v ≡ values.enum_decl (view_enum_decl decl.now)) }
{
    let cases = array(alloc, &decl.cases);
    declaration(alloc, &decl.docs, &decl.id, "cases", cases)
}

#[tactic(auto, unfolding(crate::specs::Values::type_alias_kind))]
pub(crate) fn type_alias_kind(alloc: Global, kind: &TypeAliasKind<'_>) -> Result<Value, AllocError>
    ensures { IfOk result (λ v. view v ≡ values.type_alias_kind (view_type_alias_kind kind.now)) }
{
    match kind {
        TypeAliasKind::Func(x) => variant(alloc, "func", func_type(alloc, x)),
        TypeAliasKind::Ty(x) => variant(alloc, "type", ty(alloc, x)),
    }
}

#[tactic(auto, unfolding(crate::specs::Values::type_alias))]
pub(crate) fn type_alias(alloc: Global, alias: &TypeAlias<'_>) -> Result<Value, AllocError>
    ensures { IfOk result (λ v. view v ≡ values.type_alias (view_type_alias alias.now)) }
{
    let kind = type_alias_kind(alloc, &alias.kind);
    declaration(alloc, &alias.docs, &alias.id, "kind", kind)
}

#[tactic(auto, unfolding(crate::specs::Values::constructor))]
pub(crate) fn constructor(alloc: Global, constructor: &Constructor<'_>) -> Result<Value, AllocError>
    ensures { IfOk result (λ v. view v ≡ values.constructor (view_constructor constructor.now)) }
{
    let docs = array(alloc, &constructor.docs);
    let span = span(alloc, constructor.span);
    let params = array(alloc, &constructor.params);
    Object::new(alloc)
        .with("docs", docs)
        .with("span", span)
        .with("params", params)
        .into_value()
}

#[tactic(auto, unfolding(crate::specs::Values::method))]
pub(crate) fn method(alloc: Global, method: &Method<'_>) -> Result<Value, AllocError>
    ensures { IfOk result (λ v. view v ≡ values.method (view_method method.now)) }
{
    let docs = array(alloc, &method.docs);
    let id = ident(alloc, &method.id);
    let is_static = truth(method.is_static);
    let ty = func_type(alloc, &method.ty);
    Object::new(alloc)
        .with("docs", docs)
        .with("id", id)
        .with("isStatic", is_static)
        .with("ty", ty)
        .into_value()
}

impl<'a> Valued for ResourceMethod<'a> {
    ghost Plain = { t.ResourceMethod };

    ghost plain = { view_resource_method };

    ghost shown = { values.resource_method };

    #[tactic(auto, unfolding(crate::specs::Values::resource_method))]
    fn value(&self, alloc: Global) -> Result<Value, AllocError>
        ensures { Gives result (values.resource_method (view_resource_method self.now)) }
    {
        match self {
            ResourceMethod::Constructor(x) => variant(alloc, "constructor", constructor(alloc, x)),
            ResourceMethod::Method(x) => variant(alloc, "method", method(alloc, x)),
        }
    }
}

#[tactic(auto, unfolding(crate::specs::Values::resource_decl))]
pub(crate) fn resource_decl(alloc: Global, decl: &ResourceDecl<'_>) -> Result<Value, AllocError>
    ensures { IfOk result (λ v. view v ≡ values.resource_decl (view_resource_decl decl.now)) }
{
    let methods = array(alloc, &decl.methods);
    declaration(alloc, &decl.docs, &decl.id, "methods", methods)
}

#[tactic(auto, unfolding(crate::specs::Values::type_decl))]
pub(crate) fn type_decl(alloc: Global, decl: &TypeDecl<'_>) -> Result<Value, AllocError>
    ensures { IfOk result (λ v. view v ≡ values.type_decl (view_type_decl decl.now)) }
{
    match decl {
        TypeDecl::Variant(x) => variant(alloc, "variant", variant_decl(alloc, x)),
        TypeDecl::Record(x) => variant(alloc, "record", record_decl(alloc, x)),
        TypeDecl::Flags(x) => variant(alloc, "flags", flags_decl(alloc, x)),
        TypeDecl::Enum(x) => variant(alloc, "enum", enum_decl(alloc, x)),
        TypeDecl::Alias(x) => variant(alloc, "alias", type_alias(alloc, x)),
    }
}

#[tactic(auto, unfolding(crate::specs::Values::item_type_decl))]
pub(crate) fn item_type_decl(alloc: Global, decl: &ItemTypeDecl<'_>) -> Result<Value, AllocError>
    ensures { IfOk result (λ v. view v ≡ values.item_type_decl (view_item_type_decl decl.now)) }
{
    match decl {
        ItemTypeDecl::Resource(x) => variant(alloc, "resource", resource_decl(alloc, x)),
        ItemTypeDecl::Variant(x) => variant(alloc, "variant", variant_decl(alloc, x)),
        ItemTypeDecl::Record(x) => variant(alloc, "record", record_decl(alloc, x)),
        ItemTypeDecl::Flags(x) => variant(alloc, "flags", flags_decl(alloc, x)),
        ItemTypeDecl::Enum(x) => variant(alloc, "enum", enum_decl(alloc, x)),
        ItemTypeDecl::Alias(x) => variant(alloc, "alias", type_alias(alloc, x)),
    }
}
