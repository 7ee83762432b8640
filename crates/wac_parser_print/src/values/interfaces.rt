//! Values of interfaces.

ghost use Rattle.std.specs.Prelude.{◌≡◌, IfOk, map};
ghost use Rattle.std.specs.Option.{option_map};
ghost use Rattle.serde_json.specs.View.{view};
ghost use Rattle.wac_parser_tree.specs.Trees as t;
ghost use Rattle.wac_parser_tree.specs.Views.{view_ident, view_inline_interface, view_interface_decl, view_interface_export, view_interface_item, view_use, view_use_item, view_use_path};
ghost use Rattle.wac_parser_print.specs.Objects.{Gives, or_null};
ghost use Rattle.wac_parser_print.specs.Values as values;

use super::declarations::item_type_decl;
use super::members::{Object, variant};
use super::objects::{Valued, array, declaration, ident, identified, package_path};
use super::types::func_type_ref;
use serde_json::Value;
use std::alloc::{AllocError, Global};
use wac_parser_tree::{
    Ident, InlineInterface, InterfaceDecl, InterfaceExport, InterfaceItem, Use, UseItem, UsePath,
};

#[tactic(auto, unfolding(crate::specs::Values::use_path))]
pub(crate) fn use_path(alloc: Global, path: &UsePath<'_>) -> Result<Value, AllocError>
    ensures { IfOk result (λ v. view v ≡ values.use_path (view_use_path path.now)) }
{
    match path {
        UsePath::Package(x) => variant(alloc, "package", package_path(alloc, x)),
        UsePath::Ident(x) => variant(alloc, "ident", ident(alloc, x)),
    }
}

pub(crate) fn new_name(alloc: Global, name: &Option<Ident<'_>>) -> Result<Value, AllocError>
    ensures { IfOk result (λ v. view v ≡ or_null values.ident (option_map view_ident name.now)) }
{
    match name {
        Some(name) => ident(alloc, name),
        None => Ok(Value::Null),
    }
}

impl<'a> Valued for UseItem<'a> {
    ghost Plain = { t.UseItem };

    ghost plain = { view_use_item };

    ghost shown = { values.use_item };

    #[tactic(auto, unfolding(crate::specs::Values::use_item))]
    fn value(&self, alloc: Global) -> Result<Value, AllocError>
        ensures { Gives result (values.use_item (view_use_item self.now)) }
    {
        let as_id = new_name(alloc, &self.as_id);
        identified(alloc, &self.id, "asId", as_id)
    }
}

#[tactic(auto, unfolding(crate::specs::Values::use_type))]
pub(crate) fn use_type(alloc: Global, item: &Use<'_>) -> Result<Value, AllocError>
    ensures { IfOk result (λ v. view v ≡ values.use_type (view_use item.now)) }
{
    let docs = array(alloc, &item.docs);
    let path = use_path(alloc, &item.path);
    let items = array(alloc, &item.items);
    Object::new(alloc)
        .with("docs", docs)
        .with("path", path)
        .with("items", items)
        .into_value()
}

#[tactic(auto, unfolding(crate::specs::Values::interface_export))]
pub(crate) fn interface_export(
    alloc: Global,
    export: &InterfaceExport<'_>,
) -> Result<Value, AllocError>
    ensures { IfOk result (λ v. view v ≡ values.interface_export (view_interface_export export.now)) }
{
    let ty = func_type_ref(alloc, &export.ty);
    declaration(alloc, &export.docs, &export.id, "ty", ty)
}

impl<'a> Valued for InterfaceItem<'a> {
    ghost Plain = { t.InterfaceItem };

    ghost plain = { view_interface_item };

    ghost shown = { values.interface_item };

    #[tactic(auto, unfolding(crate::specs::Values::interface_item))]
    fn value(&self, alloc: Global) -> Result<Value, AllocError>
        ensures { Gives result (values.interface_item (view_interface_item self.now)) }
    {
        match self {
            InterfaceItem::Use(x) => variant(alloc, "use", use_type(alloc, x)),
            InterfaceItem::Ty(x) => variant(alloc, "type", item_type_decl(alloc, x)),
            InterfaceItem::Export(x) => variant(alloc, "export", interface_export(alloc, x)),
        }
    }
}

#[tactic(auto, unfolding(crate::specs::Values::inline_interface))]
pub(crate) fn inline_interface(
    alloc: Global,
    interface: &InlineInterface<'_>,
) -> Result<Value, AllocError>
    ensures { IfOk result (λ v. view v ≡ values.inline_interface (view_inline_interface interface.now)) }
{
    variant(alloc, "items", array(alloc, &interface.items))
}

#[tactic(auto, unfolding(crate::specs::Values::interface_decl))]
pub(crate) fn interface_decl(alloc: Global, decl: &InterfaceDecl<'_>) -> Result<Value, AllocError>
    ensures { IfOk result (λ v. view v ≡ values.interface_decl (view_interface_decl decl.now)) }
{
    let items = array(alloc, &decl.items);
    declaration(alloc, &decl.docs, &decl.id, "items", items)
}
