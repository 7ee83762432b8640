//! Values of worlds.

ghost use Rattle.std.specs.Prelude.{◌≡◌, IfOk, map};
ghost use Rattle.serde_json.specs.View.{view};
ghost use Rattle.wac_parser_tree.specs.Trees as t;
ghost use Rattle.wac_parser_tree.specs.Views.{view_extern_type, view_named_world_item, view_world_decl, view_world_export, view_world_import};
ghost use Rattle.wac_parser_tree.specs.Views.{view_world_include, view_world_include_item, view_world_item, view_world_item_path, view_world_ref};
ghost use Rattle.wac_parser_print.specs.Objects.{Gives};
ghost use Rattle.wac_parser_print.specs.Values as values;

use super::declarations::item_type_decl;
use super::interfaces::{inline_interface, use_type};
use super::members::{Object, pair, variant};
use super::objects::{Valued, array, declaration, documented, ident, identified, package_path};
use super::types::func_type;
use serde_json::Value;
use std::alloc::{AllocError, Global};
use wac_parser_tree::{
    ExternType, NamedWorldItem, WorldDecl, WorldExport, WorldImport, WorldInclude,
    WorldIncludeItem, WorldItem, WorldItemPath, WorldRef,
};

#[tactic(auto, unfolding(crate::specs::Values::extern_type))]
pub(crate) fn extern_type(alloc: Global, ty: &ExternType<'_>) -> Result<Value, AllocError>
    ensures { IfOk result (λ v. view v ≡ values.extern_type (view_extern_type ty.now)) }
{
    match ty {
        ExternType::Ident(x) => variant(alloc, "ident", ident(alloc, x)),
        ExternType::Func(x) => variant(alloc, "func", func_type(alloc, x)),
        ExternType::Interface(x) => variant(alloc, "interface", inline_interface(alloc, x)),
    }
}

#[tactic(auto, unfolding(crate::specs::Values::named_world_item))]
pub(crate) fn named_world_item(
    alloc: Global,
    item: &NamedWorldItem<'_>,
) -> Result<Value, AllocError>
    ensures { IfOk result (λ v. view v ≡ values.named_world_item (view_named_world_item item.now)) }
{
    let ty = extern_type(alloc, &item.ty);
    identified(alloc, &item.id, "ty", ty)
}

#[tactic(auto, unfolding(crate::specs::Values::world_item_path))]
pub(crate) fn world_item_path(alloc: Global, path: &WorldItemPath<'_>) -> Result<Value, AllocError>
    ensures { IfOk result (λ v. view v ≡ values.world_item_path (view_world_item_path path.now)) }
{
    match path {
        WorldItemPath::Named(x) => variant(alloc, "named", named_world_item(alloc, x)),
        WorldItemPath::Package(x) => variant(alloc, "package", package_path(alloc, x)),
        WorldItemPath::Ident(x) => variant(alloc, "ident", ident(alloc, x)),
    }
}

#[tactic(auto, unfolding(crate::specs::Values::world_import))]
pub(crate) fn world_import(alloc: Global, import: &WorldImport<'_>) -> Result<Value, AllocError>
    ensures { IfOk result (λ v. view v ≡ values.world_import (view_world_import import.now)) }
{
    let path = world_item_path(alloc, &import.path);
    documented(alloc, &import.docs, "path", path)
}

#[tactic(auto, unfolding(crate::specs::Values::world_export))]
pub(crate) fn world_export(alloc: Global, export: &WorldExport<'_>) -> Result<Value, AllocError>
    ensures { IfOk result (λ v. view v ≡ values.world_export (view_world_export export.now)) }
{
    let path = world_item_path(alloc, &export.path);
    documented(alloc, &export.docs, "path", path)
}

#[tactic(auto, unfolding(crate::specs::Values::world_ref))]
pub(crate) fn world_ref(alloc: Global, world: &WorldRef<'_>) -> Result<Value, AllocError>
    ensures { IfOk result (λ v. view v ≡ values.world_ref (view_world_ref world.now)) }
{
    match world {
        WorldRef::Ident(x) => variant(alloc, "ident", ident(alloc, x)),
        WorldRef::Package(x) => variant(alloc, "package", package_path(alloc, x)),
    }
}

impl<'a> Valued for WorldIncludeItem<'a> {
    ghost Plain = { t.WorldIncludeItem };

    ghost plain = { view_world_include_item };

    ghost shown = { values.world_include_item };

    #[tactic(auto, unfolding(crate::specs::Values::world_include_item))]
    fn value(&self, alloc: Global) -> Result<Value, AllocError>
        ensures { Gives result (values.world_include_item (view_world_include_item self.now)) }
    {
        let from = ident(alloc, &self.from);
        let to = ident(alloc, &self.to);
        pair(alloc, "from", from, "to", to)
    }
}

#[tactic(auto, unfolding(crate::specs::Values::world_include))]
pub(crate) fn world_include(alloc: Global, include: &WorldInclude<'_>) -> Result<Value, AllocError>
    ensures { IfOk result (λ v. view v ≡ values.world_include (view_world_include include.now)) }
{
    let docs = array(alloc, &include.docs);
    let world = world_ref(alloc, &include.world);
    let items = array(alloc, &include.with);
    Object::new(alloc)
        .with("docs", docs)
        .with("world", world)
        .with("with", items)
        .into_value()
}

impl<'a> Valued for WorldItem<'a> {
    ghost Plain = { t.WorldItem };

    ghost plain = { view_world_item };

    ghost shown = { values.world_item };

    #[tactic(auto, unfolding(crate::specs::Values::world_item))]
    fn value(&self, alloc: Global) -> Result<Value, AllocError>
        ensures { Gives result (values.world_item (view_world_item self.now)) }
    {
        match self {
            WorldItem::Use(x) => variant(alloc, "use", use_type(alloc, x)),
            WorldItem::Ty(x) => variant(alloc, "type", item_type_decl(alloc, x)),
            WorldItem::Import(x) => variant(alloc, "import", world_import(alloc, x)),
            WorldItem::Export(x) => variant(alloc, "export", world_export(alloc, x)),
            WorldItem::Include(x) => variant(alloc, "include", world_include(alloc, x)),
        }
    }
}

#[tactic(auto, unfolding(crate::specs::Values::world_decl))]
pub(crate) fn world_decl(alloc: Global, decl: &WorldDecl<'_>) -> Result<Value, AllocError>
    ensures { IfOk result (λ v. view v ≡ values.world_decl (view_world_decl decl.now)) }
{
    let items = array(alloc, &decl.items);
    declaration(alloc, &decl.docs, &decl.id, "items", items)
}
