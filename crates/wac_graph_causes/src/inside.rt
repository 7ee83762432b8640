//! The component types that stand in an item.

ghost use Rattle.std.specs.Prelude.{◌≡◌, ◌∷◌, [], IfOk, OnOk, map};
ghost use Rattle.wac_types_base.specs.declared.ids.WorldId.{WorldId};
ghost use Rattle.wac_types_base.specs.declared.item.ItemKind.{ItemKind as Kind};
ghost use Rattle.wac_types_base.specs.Graph.{Among};
ghost use Rattle.wac_types_base.specs.Collection.{Stands};
ghost use Rattle.wac_types_base.specs.Stated.{stated_of};
ghost use Rattle.wac_types_written.specs.Forms.{ItemsStand};
ghost use Rattle.wac_composition.specs.Circles.{imports_inside};
ghost use Rattle.wac_graph_causes.specs.Inside.{AddsInside, AddsWorlds, WorldsStand, inside_items, world_imports};

use std::alloc::{AllocError, Global};
use wac_types_base::{InterfaceId, ItemKind, NamedMap, Type, Types, WorldId};

/// Adds a component type.
fn push_world(types: &Types, id: WorldId, worlds: &mut Vec<WorldId>) -> Result<(), AllocError>
    requires stands { Stands types.now (Kind.Component id) }
    requires worlds { WorldsStand types.now worlds.old.items }
    ensures { OnOk result (AddsWorlds types.now (world_imports types.now id ∷ []) worlds.old.items worlds.new.items) }
{
    let _ = types;
    worlds.push(id)?;
    Ok(())
}

/// Adds the component types that stand in items.
#[cycle(inside)]
fn add_items(
    types: &Types,
    items: &NamedMap<ItemKind>,
    worlds: &mut Vec<WorldId>,
) -> Result<(), AllocError>
    requires stand { ItemsStand types.now items.now }
    requires worlds { WorldsStand types.now worlds.old.items }
    ensures { OnOk result (AddsWorlds types.now (inside_items types.now items.now) worlds.old.items worlds.new.items) }
{
    types.see_acyclic();
    for at in 0..items.len() {
        let (_, item) = items.entry(at);
        add_item(types, *item, worlds)?;
    }
    Ok(())
}

/// Adds the component types that stand in an interface.
#[cycle(inside)]
fn add_interface(
    types: &Types,
    id: InterfaceId,
    worlds: &mut Vec<WorldId>,
) -> Result<(), AllocError>
    requires stands { Stands types.now (Kind.Instance id) }
    requires worlds { WorldsStand types.now worlds.old.items }
    ensures { OnOk result (AddsInside types.now (Kind.Instance id) worlds.old.items worlds.new.items) }
{
    types.see_acyclic();
    add_items(types, &types.interface(id).exports, worlds)?;
    Ok(())
}

/// Adds a component type, and those that stand in it.
#[cycle(inside)]
fn add_world(types: &Types, id: WorldId, worlds: &mut Vec<WorldId>) -> Result<(), AllocError>
    requires stands { Stands types.now (Kind.Component id) }
    requires worlds { WorldsStand types.now worlds.old.items }
    ensures { OnOk result (AddsInside types.now (Kind.Component id) worlds.old.items worlds.new.items) }
{
    types.see_acyclic();
    push_world(types, id, worlds)?;
    add_items(types, &types.world(id).imports, worlds)?;
    add_items(types, &types.world(id).exports, worlds)?;
    Ok(())
}

/// Adds the component types that stand in a type.
#[cycle(inside)]
fn add_type(types: &Types, ty: Type, worlds: &mut Vec<WorldId>) -> Result<(), AllocError>
    requires stands { Stands types.now (Kind.Ty ty) }
    requires worlds { WorldsStand types.now worlds.old.items }
    ensures { OnOk result (AddsInside types.now (Kind.Ty ty) worlds.old.items worlds.new.items) }
{
    types.see_acyclic();
    match ty {
        Type::Interface(id) => {
            add_interface(types, id, worlds)?;
            Ok(())
        }
        Type::World(id) => {
            add_world(types, id, worlds)?;
            Ok(())
        }
        _ => Ok(()),
    }
}

/// Adds the component types that stand in an item.
#[cycle(inside)]
fn add_item(types: &Types, item: ItemKind, worlds: &mut Vec<WorldId>) -> Result<(), AllocError>
    requires stands { Stands types.now item }
    requires worlds { WorldsStand types.now worlds.old.items }
    ensures { OnOk result (AddsInside types.now item worlds.old.items worlds.new.items) }
{
    types.see_acyclic();
    match item {
        ItemKind::Instance(id) => {
            add_interface(types, id, worlds)?;
            Ok(())
        }
        ItemKind::Component(id) => {
            add_world(types, id, worlds)?;
            Ok(())
        }
        ItemKind::Ty(ty) => {
            add_type(types, ty, worlds)?;
            Ok(())
        }
        _ => Ok(()),
    }
}

/// The component types that stand in an item, each before those that stand in it.
pub(crate) fn worlds_in(
    alloc: Global,
    types: &Types,
    item: ItemKind,
) -> Result<Vec<WorldId>, AllocError>
    requires { Stands types.now item }
    ensures stand { IfOk result (λ ws. (w : WorldId) → Among w ws.items → Stands types.now (Kind.Component w)) }
    ensures imports { IfOk result (λ ws. map (world_imports types.now) ws.items ≡ imports_inside (stated_of types.now item)) }
{
    let mut worlds = Vec::new(alloc);
    add_item(types, item, &mut worlds)?;
    Ok(worlds)
}
