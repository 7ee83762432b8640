//! Component types, by the worlds that they are of.

ghost use Rattle.std.specs.Prelude.{◌≡◌, Some, true, false, slice_get, IfSome, IfNone, IfOk};
ghost use Rattle.wac_types_base.specs.declared.item.ItemKind.{ItemKind};
ghost use Rattle.wac_types_base.specs.Entries.{names_of, has_name, AreDistinct};
ghost use Rattle.wac_types_base.specs.Collection.{Stands};
ghost use Rattle.wac_types_fit.specs.Trees.{IsInside};
ghost use Rattle.wac_types_parts.specs.Parts.{exports_of, IsFresh};
ghost use Rattle.wac_graph_scopes.specs.Items.{HasNameAt, StatesClosed, DescribesSimply};
ghost use Rattle.wac_graph_scopes.specs.Imports.{all_exports, KeepsWorld, WritesInOrder, KeepsExporting, ExportsAt, ExportsInOrder, ExportsAll, ExportsThere};
ghost use Rattle.wac_graph_scopes.specs.Imports.{AliasesInstance, AliasesSource, WritesBetween, WritesBeforeOthers, BeginsWorld, MakesComponent};

use crate::error::WriteError;
use crate::imports::{ImportScope, Importing};
use crate::items::{ItemScope, add_name, export_resource};
use crate::order::export_order;
use crate::used::TypeName;
use std::alloc::{AllocError, Global};
use wac_graph_bytes::{Declaration, Description};
use wac_types_base::{InterfaceId, ItemKind, NamedMap, Names, Types, WorldId};
use wac_types_parts::parts::{
    Item, export_at, export_count, identifier, interface_of, is_fresh, is_used_kind, use_at,
    use_count, world_export_at, world_export_count, world_use_at, world_use_count,
};

/// Writes the imports at places of a world.
#[cycle(types)]
pub fn write_imports(
    alloc: Global,
    all: Importing<'_>,
    scope: &mut ImportScope,
    order: &[usize],
) -> Result<(), WriteError>
    ensures { WritesInOrder all.entry order.now scope.old scope.new result }
{
    for at in order {
        scope.write_import(alloc, all, *at)?;
    }
    Ok(())
}

/// Makes the type stand that a world uses at a place.
fn alias_world_use_at(
    alloc: Global,
    all: Importing<'_>,
    scope: &mut ImportScope,
    at: usize,
) -> Result<(), WriteError>
    ensures { KeepsWorld all.entry scope.old scope.new result }
{
    match world_use_at(all.types, all.world, at) {
        Some(used) => scope.alias_noted(alloc, all, used),
        None => Ok(()),
    }
}

/// Makes the types stand that a world uses and has no items of.
fn alias_world_uses(
    alloc: Global,
    all: Importing<'_>,
    scope: &mut ImportScope,
) -> Result<(), WriteError>
    ensures { KeepsWorld all.entry scope.old scope.new result }
{
    for at in 0..world_use_count(all.types, all.world) {
        alias_world_use_at(alloc, all, scope, at)?;
    }
    Ok(())
}

/// The world's export at a place, if it is not written yet.
fn other_at<'a>(all: Importing<'a>, exported: &Names, at: usize) -> Option<Item<'a>>
    ensures inside { IfSome result (λ x. IsInside all.entry.types.now x.kind (ItemKind.Component all.entry.world)) }
    ensures entry { IfSome result (λ x. slice_get (all_exports all.entry) at ≡ Some (x.name.now, x.kind)) }
    ensures new { IfSome result (λ x. has_name exported.now x.name.now ≡ false) }
    ensures none { IfNone result (HasNameAt (names_of (all_exports all.entry)) at exported.now) }
{
    match world_export_at(all.types, all.world, at) {
        Some(item) => {
            if exported.contains(item.name) {
                None
            } else {
                Some(item)
            }
        }
        None => None,
    }
}

/// Such an export, if it is a resource under its own name; perhaps only one whose name does not stand.
fn fresh_at<'a>(
    all: Importing<'a>,
    scope: &ItemScope,
    exported: &Names,
    at: usize,
    only_new: bool,
) -> Option<Item<'a>>
    ensures entry { IfSome result (λ x. slice_get (all_exports all.entry) at ≡ Some (x.name.now, x.kind)) }
    ensures fresh { IfSome result (λ x. IsFresh all.entry.types.now x.name.now x.kind) }
    ensures new { IfSome result (λ x. has_name exported.now x.name.now ≡ false) }
{
    match other_at(all, exported, at) {
        Some(item) => fresh_if(all.types, scope, item, only_new),
        None => None,
    }
}

/// The item, if it is a resource under its own name; perhaps only if the name does not stand.
fn fresh_if<'a>(
    types: &Types,
    scope: &ItemScope,
    item: Item<'a>,
    only_new: bool,
) -> Option<Item<'a>>
    ensures same { IfSome result (λ x. x ≡ item.entry) }
    ensures fresh { IfSome result (λ x. IsFresh types.now x.name.now x.kind) }
{
    if !is_fresh(types, item) || (only_new && scope.types.resource(item.name).is_some()) {
        None
    } else {
        Some(item)
    }
}

/// Exports the resource at a place under its own name, if it is one and not written yet, and adds its name.
fn export_fresh_at(
    alloc: Global,
    all: Importing<'_>,
    scope: &mut ImportScope,
    at: usize,
    only_new: bool,
    exported: &mut Names,
) -> Result<(), WriteError>
    requires { AreDistinct (names_of (all_exports all)) }
    ensures { KeepsExporting all.entry scope.old exported.old scope.new exported.new result }
{
    match fresh_at(all, &scope.scope, exported, at, only_new) {
        Some(item) => {
            export_resource(alloc, &mut scope.scope, all.types, item)?;
            Ok(add_name(alloc, exported, item.name)?)
        }
        None => Ok(()),
    }
}

/// Exports the resources of a world under their own names, perhaps only those whose names do not stand yet.
fn export_resources(
    alloc: Global,
    all: Importing<'_>,
    scope: &mut ImportScope,
    only_new: bool,
    exported: &mut Names,
) -> Result<(), WriteError>
    ensures { KeepsExporting all.entry scope.old exported.old scope.new exported.new result }
{
    let count = world_export_count(all.types, all.world);
    for at in 0..count {
        export_fresh_at(alloc, all, scope, at, only_new, exported)?;
    }
    Ok(())
}

/// Adds the identifiers of the interfaces that an item uses.
fn add_used_by(
    alloc: Global,
    types: &Types,
    kind: ItemKind,
    used: &mut Names,
) -> Result<(), AllocError> {
    let Some(id) = interface_of(types, kind) else {
        return Ok(());
    };
    for at in 0..use_count(types, id) {
        if let Some(one) = use_at(types, id, at) {
            if let Some(name) = identifier(types, one.interface) {
                add_name(alloc, used, name)?;
            }
        }
    }
    for at in 0..export_count(types, id) {
        if let Some(item) = export_at(types, id, at) {
            add_used_by(alloc, types, item.kind, used)?;
        }
    }
    Ok(())
}

/// The identifiers of the interfaces that exports use, where these are over the world's own.
fn used_by_exports(alloc: Global, all: Importing<'_>) -> Result<Names, AllocError> {
    let mut used = Names::new(alloc);
    if all.over_exports {
        for at in 0..world_export_count(all.types, all.world) {
            if let Some(item) = world_export_at(all.types, all.world, at) {
                add_used_by(alloc, all.types, item.kind, &mut used)?;
            }
        }
    }
    Ok(used)
}

/// The interface of an item, if it is an instance of one that exports use.
fn used_interface(item: Item<'_>, used: &Names) -> Option<InterfaceId>
    ensures { IfSome result (λ id. item.entry.kind ≡ ItemKind.Instance id) }
{
    match item.kind {
        ItemKind::Instance(id) => {
            if used.contains(item.name) {
                Some(id)
            } else {
                None
            }
        }
        _ => None,
    }
}

/// Makes aliases of the types of an exported instance, which stand in place of those of the imported one.
fn alias_types(
    alloc: Global,
    all: Importing<'_>,
    scope: &mut ImportScope,
    identifier: &str,
    id: InterfaceId,
    instance: u64,
) -> Result<(), WriteError>
    ensures { AliasesInstance all.entry id instance scope.old scope.new result }
{
    for at in 0..export_count(all.types, id) {
        alias_type_at(alloc, all, scope, identifier, id, at, instance)?;
    }
    Ok(())
}

/// Makes an alias of the export at a place of an exported instance, if it is a type that can be used.
fn alias_type_at(
    alloc: Global,
    all: Importing<'_>,
    scope: &mut ImportScope,
    identifier: &str,
    id: InterfaceId,
    at: usize,
    instance: u64,
) -> Result<(), WriteError>
    requires { AreDistinct (names_of (exports_of all.types.now id)) }
    ensures { AliasesInstance all.entry id instance scope.old scope.new result }
{
    all.types.see_acyclic();
    match export_at(all.types, id, at) {
        Some(own) => {
            let name = TypeName {
                identifier,
                name: own.name,
            };
            alias_type(alloc, all, scope, name, own.kind, instance)
        }
        None => Ok(()),
    }
}

/// Makes an alias of what an instance exports, if it is a type that can be used.
fn alias_type(
    alloc: Global,
    all: Importing<'_>,
    scope: &mut ImportScope,
    name: TypeName<'_>,
    item: ItemKind,
    instance: u64,
) -> Result<(), WriteError>
    requires { Stands all.types.now item }
    ensures { AliasesSource all.entry instance name.entry.name.now item scope.old scope.new result }
{
    all.types.see_acyclic();
    if is_used_kind(item) {
        let _ = scope.add_used(alloc, all.types, instance, name, item)?;
    }
    Ok(())
}

/// Exports an item. If it is of an interface that exports use, its types stand for them from then on.
#[cycle(types)]
fn export_other(
    alloc: Global,
    all: Importing<'_>,
    scope: &mut ImportScope,
    item: Item<'_>,
    used: &Names,
) -> Result<(), WriteError>
    ensures { ExportsThere all.entry item.entry scope.old scope.new result }
{
    let index = scope.export(alloc, all, item)?;
    match used_interface(item, used) {
        Some(id) => alias_types(alloc, all, scope, item.name, id, index),
        None => Ok(()),
    }
}

/// Exports the item at a place of a world that is not written yet, and adds its name.
#[cycle(types)]
fn export_other_at(
    alloc: Global,
    all: Importing<'_>,
    scope: &mut ImportScope,
    at: usize,
    used: &Names,
    exported: &mut Names,
) -> Result<(), WriteError>
    requires { AreDistinct (names_of (all_exports all)) }
    ensures { ExportsAt all.entry at scope.old exported.old scope.new exported.new result }
{
    match other_at(all, exported, at) {
        Some(item) => {
            export_other(alloc, all, scope, item, used)?;
            Ok(add_name(alloc, exported, item.name)?)
        }
        None => Ok(()),
    }
}

/// Exports the items at these places of a world that are not written yet.
#[cycle(types)]
fn export_in_order(
    alloc: Global,
    all: Importing<'_>,
    scope: &mut ImportScope,
    order: &[usize],
    used: &Names,
    exported: &mut Names,
) -> Result<(), WriteError>
    requires { AreDistinct (names_of (all_exports all)) }
    ensures { ExportsInOrder all.entry order.now scope.old exported.old scope.new exported.new result }
{
    for at in order {
        export_other_at(alloc, all, scope, *at, used, exported)?;
    }
    Ok(())
}

/// Exports the items of a world that are not written yet, each behind those that it uses.
#[cycle(types)]
fn export_others(
    alloc: Global,
    all: Importing<'_>,
    scope: &mut ImportScope,
    exported: &mut Names,
) -> Result<(), WriteError>
    ensures { ExportsAll all.entry scope.old exported.old scope.new exported.new result }
{
    let order = export_order(alloc, all)?;
    let used = used_by_exports(alloc, all)?;
    export_in_order(alloc, all, scope, order.as_slice(), &used, exported)
}

/// Makes the types stand that a world uses, and exports the resources that do not stand yet; their names.
fn write_between(
    alloc: Global,
    all: Importing<'_>,
    scope: &mut ImportScope,
) -> Result<Names, WriteError>
    ensures { WritesBetween all.entry scope.old scope.new result }
{
    let mut exported = Names::new(alloc);
    alias_world_uses(alloc, all, scope)?;
    export_resources(alloc, all, scope, true, &mut exported)?;
    Ok(exported)
}

/// Writes the imports of a world, and exports its resources. A resource that is only exported stands before what is
/// imported and needs it. The names of what is exported.
#[cycle(types)]
fn write_before_others(
    alloc: Global,
    all: Importing<'_>,
    scope: &mut ImportScope,
) -> Result<Names, WriteError>
    ensures { WritesBeforeOthers all.entry scope.old scope.new result }
{
    let order = scope.order(alloc, all)?;
    write_imports(alloc, all, scope, order.sources.as_slice())?;
    let mut exported = write_between(alloc, all, scope)?;
    write_imports(alloc, all, scope, order.others.as_slice())?;
    export_resources(alloc, all, scope, false, &mut exported)?;
    Ok(exported)
}

/// Writes a component type; its declarations.
#[cycle(types)]
fn write_component(
    alloc: Global,
    all: Importing<'_>,
    scope: &mut ImportScope,
) -> Result<Vec<Declaration>, WriteError>
    requires { BeginsWorld all scope.old }
    ensures { MakesComponent all.entry.types.now all.entry.world result }
{
    all.types.see_acyclic();
    let mut exported = write_before_others(alloc, all, scope)?;
    export_others(alloc, all, scope, &mut exported)?;
    Ok(scope.scope.take_declarations(alloc))
}

/// The scope of a world that is begun.
fn begun(alloc: Global, all: Importing<'_>) -> Result<ImportScope, AllocError>
    ensures { IfOk result (BeginsWorld all.entry) }
{
    let mut scope = ImportScope::new(alloc);
    scope.begin(alloc, all)?;
    Ok(scope)
}

/// The declarations of the component type of a package, whose exports are over those interfaces of their own that they use.
fn package_type(alloc: Global, types: &Types, id: WorldId) -> Result<Vec<Declaration>, WriteError>
    ensures { MakesComponent types.now id result }
{
    let places = NamedMap::new(alloc);
    let uses = NamedMap::new(alloc);
    let all = Importing {
        types,
        world: id,
        places: &places,
        uses: &uses,
        over_exports: true,
    };
    let mut scope = begun(alloc, all)?;
    write_component(alloc, all, &mut scope)
}

/// The declarations of a component type.
#[cycle(types)]
pub(crate) fn component_type(
    alloc: Global,
    types: &Types,
    id: WorldId,
) -> Result<Vec<Declaration>, WriteError>
    ensures { MakesComponent types.now id result }
{
    let places = NamedMap::new(alloc);
    let uses = NamedMap::new(alloc);
    let all = Importing {
        types,
        world: id,
        places: &places,
        uses: &uses,
        over_exports: false,
    };
    let mut scope = begun(alloc, all)?;
    write_component(alloc, all, &mut scope)
}

/// The index of the type of a package's component, which is written.
fn push_package_type(
    alloc: Global,
    scope: &mut ItemScope,
    types: &Types,
    id: WorldId,
) -> Result<u64, WriteError>
    ensures { StatesClosed types.now (ItemKind.Component id) scope.old scope.new result }
{
    let declarations = package_type(alloc, types, id)?;
    scope.add_type(Declaration::ComponentType(declarations))
}

/// What a package's component is, whose exports are over those exports that they use; its type is written.
///
/// # Errors
///
/// `WriteError` where its type cannot be written, or memory is wanting.
pub fn describe_package(
    alloc: Global,
    scope: &mut ItemScope,
    types: &Types,
    world: WorldId,
) -> Result<Description, WriteError>
    ensures { Stands types.now (ItemKind.Component world)
        → DescribesSimply types.now (ItemKind.Component world) scope.old scope.new result }
{
    types.see_acyclic();
    let index = push_package_type(alloc, scope, types, world)?;
    Ok(Description::Component(index))
}
