//! Worlds as component types: each imports what its items use.

ghost use Rattle.std.specs.Prelude.{◌≡◌, ◌++◌, IfOk, OnOk};
ghost use Rattle.wac_types_base.specs.declared.item.ItemKind.{ItemKind as Kind};
ghost use Rattle.wac_types_base.specs.Collection.{Grows, Stands};
ghost use Rattle.wac_types_base.specs.Entries.{IsNew};
ghost use Rattle.wac_types_base.specs.Stated.{stated_of};
ghost use Rattle.wac_types_written.specs.Components.{AddsMissing, AreApart, AreMissing, IsComponentOf};
ghost use Rattle.wac_types_written.specs.Forms.{FoundStand, IsOf, ItemsStand, UsesStand};
ghost use Rattle.wac_types_written.specs.Written.{types_only};

use crate::maps::types_of;
use crate::uses::used_by;
use std::alloc::{AllocError, Global};
use wac_types_base::{
    Interface, InterfaceId, ItemKind, NamedMap, Types, World, WorldId, copy_text, copy_uses,
};

/// An interface with its type exports only.
fn add_types_only(
    types: &mut Types,
    alloc: Global,
    id: InterfaceId,
) -> Result<InterfaceId, AllocError>
    requires { Stands types.old (Kind.Instance id) }
    ensures only { IfOk result (λ i. IsOf types.new (types_only (stated_of types.old (Kind.Instance id))) (Kind.Instance i)) }
    ensures grows { Grows types.old types.new }
{
    types.see_acyclic();
    let interface = types.interface(id);
    let only = Interface {
        id: copy_text(&interface.id)?,
        uses: copy_uses(alloc, &interface.uses)?,
        exports: types_of(alloc, &interface.exports)?,
    };
    let form = types.add_interface(only)?;
    Ok(form)
}

/// Adds an interface with its type exports only, unless an import has its name.
fn add_missing(
    types: &mut Types,
    alloc: Global,
    name: &str,
    id: InterfaceId,
    imports: &NamedMap<ItemKind>,
    all: &mut NamedMap<ItemKind>,
) -> Result<(), AllocError>
    requires stands { Stands types.old (Kind.Instance id) }
    requires stand { ItemsStand types.old all.old }
    requires new { IsNew name.now all.old }
    ensures added { OnOk result (AddsMissing types.old types.new (name.now, id) imports.now all.old all.new) }
    ensures grows { Grows types.old types.new }
{
    types.see_acyclic();
    if imports.contains(name) {
        return Ok(());
    }
    let only = add_types_only(types, alloc, id)?;
    all.push(String::from_str(alloc, name)?, ItemKind::Instance(only))?;
    Ok(())
}

/// The types of the interfaces that are used and not among the imports.
fn missing(
    types: &mut Types,
    alloc: Global,
    used: &NamedMap<InterfaceId>,
    imports: &NamedMap<ItemKind>,
) -> Result<NamedMap<ItemKind>, AllocError>
    requires { FoundStand types.old used.now }
    ensures missing { IfOk result (AreMissing types.old types.new used.now imports.now) }
    ensures grows { Grows types.old types.new }
{
    types.see_acyclic();
    let mut all = NamedMap::new(alloc);
    for at in 0..used.len() {
        let (name, id) = used.entry(at);
        add_missing(types, alloc, name, *id, imports, &mut all)?;
    }
    Ok(all)
}

/// Adds items behind others, whose names are apart.
fn add_all(
    items: &NamedMap<ItemKind>,
    alloc: Global,
    all: &mut NamedMap<ItemKind>,
) -> Result<(), AllocError>
    requires { AreApart all.old items.now }
    ensures { OnOk result (all.new ≡ all.old ++ items.now) }
{
    for at in 0..items.len() {
        let (name, item) = items.entry(at);
        all.push(String::from_str(alloc, name)?, *item)?;
    }
    Ok(())
}

/// A world as a component type.
pub(crate) fn add_component_type(
    types: &mut Types,
    alloc: Global,
    world: World,
) -> Result<WorldId, AllocError>
    requires uses { UsesStand types.old world.uses }
    requires imports { ItemsStand types.old world.imports }
    requires exports { ItemsStand types.old world.exports }
    ensures world { IfOk result (IsComponentOf types.old types.new world.id world.uses world.imports world.exports) }
    ensures grows { Grows types.old types.new }
{
    types.see_acyclic();
    let World {
        id,
        uses,
        imports,
        exports,
    } = world;
    let used = used_by(types, alloc, &uses, &imports, &exports)?;
    let mut all = missing(types, alloc, &used, &imports)?;
    add_all(&imports, alloc, &mut all)?;
    let world = types.add_world(World {
        id,
        uses,
        imports: all,
        exports,
    })?;
    Ok(world)
}
