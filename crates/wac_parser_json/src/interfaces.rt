//! Interfaces.

ghost use Rattle.std.specs.Prelude.{map};
ghost use Rattle.wac_parser_tree.specs.Trees as t;
ghost use Rattle.wac_parser_tree.specs.Views.{view_inline_interface, view_interface_decl, view_interface_export, view_interface_item, view_use, view_use_item, view_use_path};
ghost use Rattle.wac_parser_print.specs.Objects.{array_of};
ghost use Rattle.wac_parser_print.specs.Values as values;
ghost use Rattle.wac_parser_json.specs.Writers.{Writes};

use crate::declarations::item_type_decl;
use crate::names::{ident, package_path};
use crate::parts::{Part, array, object, optional};
use crate::types::func_type_ref;
use crate::writer::JsonWriter;
use wac_parser_tree::{
    InlineInterface, InterfaceDecl, InterfaceExport, InterfaceItem, Use, UseItem, UsePath,
};
use wac_streams::ByteSink;

fn use_path<W: ByteSink>(path: &UsePath<'_>, out: &mut JsonWriter<'_, W>)
    ensures { Writes W.contents W.calls out.old (values.use_path (view_use_path path.now)) out.new }
{
    match path {
        UsePath::Package(x) => object!(out; {"package": package_path(x, out)}),
        UsePath::Ident(x) => object!(out; {"ident": ident(x, out)}),
    }
}

fn use_item<W: ByteSink>(item: &UseItem<'_>, out: &mut JsonWriter<'_, W>)
    ensures { Writes W.contents W.calls out.old (values.use_item (view_use_item item.now)) out.new }
{
    object!(out; {
        "asId": optional(&item.as_id, out),
        "id": ident(&item.id, out)
    });
}

impl<'a> Part for UseItem<'a> {
    ghost Plain = { t.UseItem };

    ghost plain = { view_use_item };

    ghost json = { values.use_item };

    fn write<W: ByteSink>(&self, out: &mut JsonWriter<'_, W>) {
        use_item(self, out);
    }
}

pub(crate) fn use_type<W: ByteSink>(item: &Use<'_>, out: &mut JsonWriter<'_, W>)
    ensures { Writes W.contents W.calls out.old (values.use_type (view_use item.now)) out.new }
{
    object!(out; {
        "docs": array(&item.docs, out),
        "items": array(&item.items, out),
        "path": use_path(&item.path, out)
    });
}

fn interface_export<W: ByteSink>(export: &InterfaceExport<'_>, out: &mut JsonWriter<'_, W>)
    ensures { Writes W.contents W.calls out.old (values.interface_export (view_interface_export export.now)) out.new }
{
    object!(out; {
        "docs": array(&export.docs, out),
        "id": ident(&export.id, out),
        "ty": func_type_ref(&export.ty, out)
    });
}

fn interface_item<W: ByteSink>(item: &InterfaceItem<'_>, out: &mut JsonWriter<'_, W>)
    ensures { Writes W.contents W.calls out.old (values.interface_item (view_interface_item item.now)) out.new }
{
    match item {
        InterfaceItem::Use(x) => object!(out; {"use": use_type(x, out)}),
        InterfaceItem::Ty(x) => object!(out; {"type": item_type_decl(x, out)}),
        InterfaceItem::Export(x) => object!(out; {"export": interface_export(x, out)}),
    }
}

fn interface_items<W: ByteSink>(items: &Vec<InterfaceItem<'_>>, out: &mut JsonWriter<'_, W>)
    ensures { Writes W.contents W.calls out.old
        (array_of values.interface_item (map view_interface_item items.now.items)) out.new }
{
    out.word("[");
    let mut between = "";
    for item in items {
        out.word(between);
        interface_item(item, out);
        between = ",";
    }
    out.word("]");
}

pub(crate) fn inline_interface<W: ByteSink>(
    interface: &InlineInterface<'_>,
    out: &mut JsonWriter<'_, W>,
)
    ensures { Writes W.contents W.calls out.old (values.inline_interface (view_inline_interface interface.now)) out.new }
{
    object!(out; {
        "items": interface_items(&interface.items, out)
    });
}

pub(crate) fn interface_decl<W: ByteSink>(decl: &InterfaceDecl<'_>, out: &mut JsonWriter<'_, W>)
    ensures { Writes W.contents W.calls out.old (values.interface_decl (view_interface_decl decl.now)) out.new }
{
    object!(out; {
        "docs": array(&decl.docs, out),
        "id": ident(&decl.id, out),
        "items": interface_items(&decl.items, out)
    });
}
