//! Declared types.

ghost use Rattle.std.specs.Prelude.{map};
ghost use Rattle.wac_parser_tree.specs.Trees as t;
ghost use Rattle.wac_parser_tree.specs.Views.{view_constructor, view_enum_case, view_enum_decl, view_field, view_flag, view_flags_decl, view_item_type_decl, view_method, view_record_decl, view_resource_decl, view_resource_method, view_type_alias, view_type_alias_kind, view_type_decl, view_variant_case, view_variant_decl};
ghost use Rattle.wac_parser_print.specs.Objects.{array_of};
ghost use Rattle.wac_parser_print.specs.Values as values;
ghost use Rattle.wac_parser_json.specs.Writers.{Writes};

use crate::names::{ident, span};
use crate::parts::{Part, array, object, optional};
use crate::types::{func_type, ty};
use crate::writer::JsonWriter;
use wac_parser_tree::{
    Constructor, EnumCase, EnumDecl, Field, Flag, FlagsDecl, ItemTypeDecl, Method, RecordDecl,
    ResourceDecl, ResourceMethod, TypeAlias, TypeAliasKind, TypeDecl, VariantCase, VariantDecl,
};
use wac_streams::ByteSink;

fn variant_case<W: ByteSink>(case: &VariantCase<'_>, out: &mut JsonWriter<'_, W>)
    ensures { Writes W.contents W.calls out.old (values.variant_case (view_variant_case case.now)) out.new }
{
    object!(out; {
        "docs": array(&case.docs, out),
        "id": ident(&case.id, out),
        "ty": optional(&case.ty, out)
    });
}

impl<'a> Part for VariantCase<'a> {
    ghost Plain = { t.VariantCase };

    ghost plain = { view_variant_case };

    ghost json = { values.variant_case };

    fn write<W: ByteSink>(&self, out: &mut JsonWriter<'_, W>) {
        variant_case(self, out);
    }
}

fn variant_decl<W: ByteSink>(decl: &VariantDecl<'_>, out: &mut JsonWriter<'_, W>)
    ensures { Writes W.contents W.calls out.old (values.variant_decl (view_variant_decl decl.now)) out.new }
{
    object!(out; {
        "cases": array(&decl.cases, out),
        "docs": array(&decl.docs, out),
        "id": ident(&decl.id, out)
    });
}

fn field<W: ByteSink>(field: &Field<'_>, out: &mut JsonWriter<'_, W>)
    ensures { Writes W.contents W.calls out.old (values.field (view_field field.now)) out.new }
{
    object!(out; {
        "docs": array(&field.docs, out),
        "id": ident(&field.id, out),
        "ty": ty(&field.ty, out)
    });
}

impl<'a> Part for Field<'a> {
    ghost Plain = { t.Field };

    ghost plain = { view_field };

    ghost json = { values.field };

    fn write<W: ByteSink>(&self, out: &mut JsonWriter<'_, W>) {
        field(self, out);
    }
}

fn record_decl<W: ByteSink>(decl: &RecordDecl<'_>, out: &mut JsonWriter<'_, W>)
    ensures { Writes W.contents W.calls out.old (values.record_decl (view_record_decl decl.now)) out.new }
{
    object!(out; {
        "docs": array(&decl.docs, out),
        "fields": array(&decl.fields, out),
        "id": ident(&decl.id, out)
    });
}

fn flag<W: ByteSink>(flag: &Flag<'_>, out: &mut JsonWriter<'_, W>)
    ensures { Writes W.contents W.calls out.old (values.flag (view_flag flag.now)) out.new }
{
    object!(out; {
        "docs": array(&flag.docs, out),
        "id": ident(&flag.id, out)
    });
}

impl<'a> Part for Flag<'a> {
    ghost Plain = { t.Flag };

    ghost plain = { view_flag };

    ghost json = { values.flag };

    fn write<W: ByteSink>(&self, out: &mut JsonWriter<'_, W>) {
        flag(self, out);
    }
}

fn flags_decl<W: ByteSink>(decl: &FlagsDecl<'_>, out: &mut JsonWriter<'_, W>)
    ensures { Writes W.contents W.calls out.old (values.flags_decl (view_flags_decl decl.now)) out.new }
{
    object!(out; {
        "docs": array(&decl.docs, out),
        "flags": array(&decl.flags, out),
        "id": ident(&decl.id, out)
    });
}

fn enum_case<W: ByteSink>(case: &EnumCase<'_>, out: &mut JsonWriter<'_, W>)
    ensures { Writes W.contents W.calls out.old (values.enum_case (view_enum_case case.now)) out.new }
{
    object!(out; {
        "docs": array(&case.docs, out),
        "id": ident(&case.id, out)
    });
}

impl<'a> Part for EnumCase<'a> {
    ghost Plain = { t.EnumCase };

    ghost plain = { view_enum_case };

    ghost json = { values.enum_case };

    fn write<W: ByteSink>(&self, out: &mut JsonWriter<'_, W>) {
        enum_case(self, out);
    }
}

fn enum_decl<W: ByteSink>(decl: &EnumDecl<'_>, out: &mut JsonWriter<'_, W>)
    ensures { Writes W.contents W.calls out.old (values.enum_decl (view_enum_decl decl.now)) out.new }
{
    object!(out; {
        "cases": array(&decl.cases, out),
        "docs": array(&decl.docs, out),
        "id": ident(&decl.id, out)
    });
}

fn type_alias_kind<W: ByteSink>(kind: &TypeAliasKind<'_>, out: &mut JsonWriter<'_, W>)
    ensures { Writes W.contents W.calls out.old (values.type_alias_kind (view_type_alias_kind kind.now)) out.new }
{
    match kind {
        TypeAliasKind::Func(func) => object!(out; {"func": func_type(func, out)}),
        TypeAliasKind::Ty(one) => object!(out; {"type": ty(one, out)}),
    }
}

fn type_alias<W: ByteSink>(alias: &TypeAlias<'_>, out: &mut JsonWriter<'_, W>)
    ensures { Writes W.contents W.calls out.old (values.type_alias (view_type_alias alias.now)) out.new }
{
    object!(out; {
        "docs": array(&alias.docs, out),
        "id": ident(&alias.id, out),
        "kind": type_alias_kind(&alias.kind, out)
    });
}

fn constructor<W: ByteSink>(constructor: &Constructor<'_>, out: &mut JsonWriter<'_, W>)
    ensures { Writes W.contents W.calls out.old (values.constructor (view_constructor constructor.now)) out.new }
{
    object!(out; {
        "docs": array(&constructor.docs, out),
        "params": array(&constructor.params, out),
        "span": span(constructor.span, out)
    });
}

fn method<W: ByteSink>(method: &Method<'_>, out: &mut JsonWriter<'_, W>)
    ensures { Writes W.contents W.calls out.old (values.method (view_method method.now)) out.new }
{
    object!(out; {
        "docs": array(&method.docs, out),
        "id": ident(&method.id, out),
        "isStatic": out.boolean(method.is_static),
        "ty": func_type(&method.ty, out)
    });
}

fn resource_method<W: ByteSink>(member: &ResourceMethod<'_>, out: &mut JsonWriter<'_, W>)
    ensures { Writes W.contents W.calls out.old (values.resource_method (view_resource_method member.now)) out.new }
{
    match member {
        ResourceMethod::Constructor(x) => object!(out; {"constructor": constructor(x, out)}),
        ResourceMethod::Method(x) => object!(out; {"method": method(x, out)}),
    }
}

fn resource_methods<W: ByteSink>(methods: &Vec<ResourceMethod<'_>>, out: &mut JsonWriter<'_, W>)
    ensures { Writes W.contents W.calls out.old
        (array_of values.resource_method (map view_resource_method methods.now.items)) out.new }
{
    out.word("[");
    let mut between = "";
    for member in methods {
        out.word(between);
        resource_method(member, out);
        between = ",";
    }
    out.word("]");
}

fn resource_decl<W: ByteSink>(decl: &ResourceDecl<'_>, out: &mut JsonWriter<'_, W>)
    ensures { Writes W.contents W.calls out.old (values.resource_decl (view_resource_decl decl.now)) out.new }
{
    object!(out; {
        "docs": array(&decl.docs, out),
        "id": ident(&decl.id, out),
        "methods": resource_methods(&decl.methods, out)
    });
}

pub(crate) fn type_decl<W: ByteSink>(decl: &TypeDecl<'_>, out: &mut JsonWriter<'_, W>)
    ensures { Writes W.contents W.calls out.old (values.type_decl (view_type_decl decl.now)) out.new }
{
    match decl {
        TypeDecl::Variant(x) => object!(out; {"variant": variant_decl(x, out)}),
        TypeDecl::Record(x) => object!(out; {"record": record_decl(x, out)}),
        TypeDecl::Flags(x) => object!(out; {"flags": flags_decl(x, out)}),
        TypeDecl::Enum(x) => object!(out; {"enum": enum_decl(x, out)}),
        TypeDecl::Alias(x) => object!(out; {"alias": type_alias(x, out)}),
    }
}

pub(crate) fn item_type_decl<W: ByteSink>(decl: &ItemTypeDecl<'_>, out: &mut JsonWriter<'_, W>)
    ensures { Writes W.contents W.calls out.old (values.item_type_decl (view_item_type_decl decl.now)) out.new }
{
    match decl {
        ItemTypeDecl::Resource(x) => object!(out; {"resource": resource_decl(x, out)}),
        ItemTypeDecl::Variant(x) => object!(out; {"variant": variant_decl(x, out)}),
        ItemTypeDecl::Record(x) => object!(out; {"record": record_decl(x, out)}),
        ItemTypeDecl::Flags(x) => object!(out; {"flags": flags_decl(x, out)}),
        ItemTypeDecl::Enum(x) => object!(out; {"enum": enum_decl(x, out)}),
        ItemTypeDecl::Alias(x) => object!(out; {"alias": type_alias(x, out)}),
    }
}
