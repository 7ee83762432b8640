//! Worlds.

ghost use Rattle.std.specs.Prelude.{map};
ghost use Rattle.wac_parser_tree.specs.Trees as t;
ghost use Rattle.wac_parser_tree.specs.Views.{view_extern_type, view_named_world_item, view_world_decl, view_world_export, view_world_import, view_world_include, view_world_include_item, view_world_item, view_world_item_path, view_world_ref};
ghost use Rattle.wac_parser_print.specs.Objects.{array_of};
ghost use Rattle.wac_parser_print.specs.Values as values;
ghost use Rattle.wac_parser_json.specs.Writers.{Writes};

use crate::declarations::item_type_decl;
use crate::interfaces::{inline_interface, use_type};
use crate::names::{ident, package_path};
use crate::parts::{Part, array, object};
use crate::types::func_type;
use crate::writer::JsonWriter;
use wac_parser_tree::{
    ExternType, NamedWorldItem, WorldDecl, WorldExport, WorldImport, WorldInclude,
    WorldIncludeItem, WorldItem, WorldItemPath, WorldRef,
};
use wac_streams::ByteSink;

fn extern_type<W: ByteSink>(ty: &ExternType<'_>, out: &mut JsonWriter<'_, W>)
    ensures { Writes W.contents W.calls out.old (values.extern_type (view_extern_type ty.now)) out.new }
{
    match ty {
        ExternType::Ident(x) => object!(out; {"ident": ident(x, out)}),
        ExternType::Func(x) => object!(out; {"func": func_type(x, out)}),
        ExternType::Interface(x) => object!(out; {"interface": inline_interface(x, out)}),
    }
}

fn named_world_item<W: ByteSink>(item: &NamedWorldItem<'_>, out: &mut JsonWriter<'_, W>)
    ensures { Writes W.contents W.calls out.old (values.named_world_item (view_named_world_item item.now)) out.new }
{
    object!(out; {
        "id": ident(&item.id, out),
        "ty": extern_type(&item.ty, out)
    });
}

fn world_item_path<W: ByteSink>(path: &WorldItemPath<'_>, out: &mut JsonWriter<'_, W>)
    ensures { Writes W.contents W.calls out.old (values.world_item_path (view_world_item_path path.now)) out.new }
{
    match path {
        WorldItemPath::Named(x) => object!(out; {"named": named_world_item(x, out)}),
        WorldItemPath::Package(x) => object!(out; {"package": package_path(x, out)}),
        WorldItemPath::Ident(x) => object!(out; {"ident": ident(x, out)}),
    }
}

fn world_import<W: ByteSink>(import: &WorldImport<'_>, out: &mut JsonWriter<'_, W>)
    ensures { Writes W.contents W.calls out.old (values.world_import (view_world_import import.now)) out.new }
{
    object!(out; {
        "docs": array(&import.docs, out),
        "path": world_item_path(&import.path, out)
    });
}

fn world_export<W: ByteSink>(export: &WorldExport<'_>, out: &mut JsonWriter<'_, W>)
    ensures { Writes W.contents W.calls out.old (values.world_export (view_world_export export.now)) out.new }
{
    object!(out; {
        "docs": array(&export.docs, out),
        "path": world_item_path(&export.path, out)
    });
}

fn world_ref<W: ByteSink>(world: &WorldRef<'_>, out: &mut JsonWriter<'_, W>)
    ensures { Writes W.contents W.calls out.old (values.world_ref (view_world_ref world.now)) out.new }
{
    match world {
        WorldRef::Ident(x) => object!(out; {"ident": ident(x, out)}),
        WorldRef::Package(x) => object!(out; {"package": package_path(x, out)}),
    }
}

fn world_include_item<W: ByteSink>(item: &WorldIncludeItem<'_>, out: &mut JsonWriter<'_, W>)
    ensures { Writes W.contents W.calls out.old (values.world_include_item (view_world_include_item item.now)) out.new }
{
    object!(out; {
        "from": ident(&item.from, out),
        "to": ident(&item.to, out)
    });
}

impl<'a> Part for WorldIncludeItem<'a> {
    ghost Plain = { t.WorldIncludeItem };

    ghost plain = { view_world_include_item };

    ghost json = { values.world_include_item };

    fn write<W: ByteSink>(&self, out: &mut JsonWriter<'_, W>) {
        world_include_item(self, out);
    }
}

fn world_include<W: ByteSink>(include: &WorldInclude<'_>, out: &mut JsonWriter<'_, W>)
    ensures { Writes W.contents W.calls out.old (values.world_include (view_world_include include.now)) out.new }
{
    object!(out; {
        "docs": array(&include.docs, out),
        "with": array(&include.with, out),
        "world": world_ref(&include.world, out)
    });
}

fn world_item<W: ByteSink>(item: &WorldItem<'_>, out: &mut JsonWriter<'_, W>)
    ensures { Writes W.contents W.calls out.old (values.world_item (view_world_item item.now)) out.new }
{
    match item {
        WorldItem::Use(x) => object!(out; {"use": use_type(x, out)}),
        WorldItem::Ty(x) => object!(out; {"type": item_type_decl(x, out)}),
        WorldItem::Import(x) => object!(out; {"import": world_import(x, out)}),
        WorldItem::Export(x) => object!(out; {"export": world_export(x, out)}),
        WorldItem::Include(x) => object!(out; {"include": world_include(x, out)}),
    }
}

fn world_items<W: ByteSink>(items: &Vec<WorldItem<'_>>, out: &mut JsonWriter<'_, W>)
    ensures { Writes W.contents W.calls out.old (array_of values.world_item (map view_world_item items.now.items)) out.new }
{
    out.word("[");
    let mut between = "";
    for item in items {
        out.word(between);
        world_item(item, out);
        between = ",";
    }
    out.word("]");
}

pub(crate) fn world_decl<W: ByteSink>(decl: &WorldDecl<'_>, out: &mut JsonWriter<'_, W>)
    ensures { Writes W.contents W.calls out.old (values.world_decl (view_world_decl decl.now)) out.new }
{
    object!(out; {
        "docs": array(&decl.docs, out),
        "id": ident(&decl.id, out),
        "items": world_items(&decl.items, out)
    });
}
