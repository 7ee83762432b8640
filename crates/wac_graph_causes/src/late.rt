//! Imported interfaces as they are written: each beside those before it, with the uses of these alone.

ghost use Rattle.std.specs.Prelude.{◌≡◌, ◌<◌, ◌+◌, ◌∷◌, [], ◌++◌, length, take, IfOk, OnOk};
ghost use Rattle.wac_types_base.specs.declared.item.ItemKind.{ItemKind};
ghost use Rattle.wac_types_base.specs.Entries.{AreDistinct, IsNew, names_of, put_name};
ghost use Rattle.wac_types_base.specs.Collection.{Grows, Stands};
ghost use Rattle.wac_types_base.specs.Stated.{stated_of};
ghost use Rattle.wac_types_written.specs.Forms.{ItemsStand, stated_items};
ghost use Rattle.wac_types_parts.specs.Parts.{imports_of, world_exports_of};
ghost use Rattle.wac_composition.specs.Circles.{exports_written, written_names};
ghost use Rattle.wac_graph_causes.specs.Late.{AddsLate, AreLate, interface_items, is_interface_item};
ghost use Rattle.wac_graph_causes.specs.Late.{world_written, written_after, written_beside};
ghost use Rattle.wac_graph_causes.specs.Standing.{spelled_in};

use crate::beside::beside;
use crate::order::{Sources, written_names};
use crate::standing::{Placed, Standing};
use std::alloc::{AllocError, Global};
use wac_types_base::{ItemKind, NamedMap, Names, Text, Type, Types, WorldId};
use wac_types_parts::parts::{import_at, import_count};

/// An interface as it is written, under the name that is told where it cannot be.
#[derive(Drop)]
pub(crate) struct Late {
    pub name: Text,
    pub item: ItemKind,
}

// ---- imports that are interfaces

fn is_interface(item: ItemKind) -> bool
    ensures { result ≡ is_interface_item item }
{
    match item {
        ItemKind::Instance(_) => true,
        ItemKind::Ty(ty) => matches!(ty, Type::Interface(_)),
        _ => false,
    }
}

/// Adds an item under a new name, where it is an interface.
fn add_interface(
    alloc: Global,
    name: &str,
    item: ItemKind,
    interfaces: &mut NamedMap<ItemKind>,
) -> Result<(), AllocError>
    requires { IsNew name.now interfaces.old }
    ensures { OnOk result (interfaces.new ≡ interfaces.old ++ interface_items ((name.now, item) ∷ [])) }
{
    if !is_interface(item) {
        return Ok(());
    }
    interfaces.push(String::from_str(alloc, name)?, item)?;
    Ok(())
}

/// The items that are interfaces.
fn interfaces_of(
    alloc: Global,
    items: &NamedMap<ItemKind>,
) -> Result<NamedMap<ItemKind>, AllocError>
    ensures { IfOk result (λ m. m ≡ interface_items items.now) }
{
    let mut interfaces = NamedMap::new(alloc);
    for at in 0..items.len() {
        let (name, item) = items.entry(at);
        add_interface(alloc, name, *item, &mut interfaces)?;
    }
    Ok(interfaces)
}

/// The interfaces that a world imports.
fn imported_interfaces(
    alloc: Global,
    types: &Types,
    world: WorldId,
) -> Result<NamedMap<ItemKind>, AllocError>
    ensures { IfOk result (λ m. m ≡ interface_items (imports_of types.now world)) }
{
    if !types.has(ItemKind::Component(world)) {
        return Ok(NamedMap::new(alloc));
    }
    interfaces_of(alloc, &types.world(world).imports)
}

// ---- one after another

/// Adds the import of a name as it is written beside what stands.
fn add_written(
    types: &mut Types,
    alloc: Global,
    standing: Standing<'_>,
    interfaces: &NamedMap<ItemKind>,
    name: &str,
    all: &mut Vec<Late>,
) -> Result<(), AllocError>
    requires { ItemsStand types.old interfaces.now }
    ensures adds { OnOk result (AddsLate types.old types.new all.old.items all.new.items
        (written_beside types.old standing.entry interfaces.now name.now)) }
    ensures grows { Grows types.old types.new }
{
    types.see_acyclic();
    let Some(item) = interfaces.get(name) else {
        return Ok(());
    };
    let item = beside(types, alloc, *item, standing)?;
    let name = Text::from_str(alloc, name)?;
    all.push(Late { name, item })?;
    Ok(())
}

/// Notes that an import stands.
fn add_standing(alloc: Global, names: &mut Names, name: &str) -> Result<(), AllocError>
    ensures { OnOk result (names.new ≡ put_name names.old name.now) }
{
    let name = String::from_str(alloc, name)?;
    let _ = names.insert(name)?;
    Ok(())
}

/// Adds interfaces one after another, each as it is written beside those before it and those that stand already.
fn add_in_order(
    types: &mut Types,
    alloc: Global,
    placed: Placed<'_>,
    interfaces: &NamedMap<ItemKind>,
    order: &[Text],
    names: &mut Names,
    all: &mut Vec<Late>,
) -> Result<(), AllocError>
    requires { ItemsStand types.old interfaces.now }
    ensures adds { OnOk result (AddsLate types.old types.new all.old.items all.new.items
        (written_after types.old (spelled_in placed.entry) interfaces.now names.old order.now)) }
    ensures grows { Grows types.old types.new }
{
    types.see_acyclic();
    for name in order {
        let standing = Standing {
            placed,
            names: &*names,
        };
        add_written(types, alloc, standing, interfaces, name.as_str(), all)?;
        add_standing(alloc, names, name.as_str())?;
    }
    Ok(())
}

/// The names of these imports, in the order in which they are written.
fn order_of(
    alloc: Global,
    types: &Types,
    placed: Placed<'_>,
    interfaces: &NamedMap<ItemKind>,
) -> Result<Vec<Text>, AllocError>
    ensures { IfOk result
        (λ v. v.items ≡ written_names (spelled_in placed.entry) (stated_items types.now interfaces.now)) }
{
    written_names(Sources {
        alloc,
        types,
        placed,
        interfaces,
    })
}

/// Adds the interfaces that a world imports, each as it is written.
pub(crate) fn add_world(
    types: &mut Types,
    alloc: Global,
    placed: Placed<'_>,
    world: WorldId,
    all: &mut Vec<Late>,
) -> Result<(), AllocError>
    ensures adds { OnOk result (AddsLate types.old types.new all.old.items all.new.items
        (world_written types.old (spelled_in placed.entry) world)) }
    ensures grows { Grows types.old types.new }
{
    types.see_acyclic();
    let interfaces = imported_interfaces(alloc, types, world)?;
    let order = order_of(alloc, types, placed, &interfaces)?;
    let mut names = Names::new(alloc);
    add_in_order(types, alloc, placed, &interfaces, &order, &mut names, all)
}

// ---- exports

/// The interfaces that a world exports.
fn exported_interfaces(
    alloc: Global,
    types: &Types,
    world: WorldId,
) -> Result<NamedMap<ItemKind>, AllocError>
    ensures { IfOk result (λ m. m ≡ interface_items (world_exports_of types.now world)) }
{
    if !types.has(ItemKind::Component(world)) {
        return Ok(NamedMap::new(alloc));
    }
    interfaces_of(alloc, &types.world(world).exports)
}

/// Adds the name of the import at a place.
fn add_import_name(
    alloc: Global,
    types: &Types,
    world: WorldId,
    at: usize,
    names: &mut Names,
) -> Result<(), AllocError>
    requires distinct { AreDistinct (names_of (imports_of types.now world)) }
    requires before { names.old ≡ take at (names_of (imports_of types.now world)) }
    requires within { at < length (imports_of types.now world) }
    ensures { OnOk result (names.new ≡ take (at + 1) (names_of (imports_of types.now world))) }
{
    match import_at(types, world, at) {
        Some(import) => add_standing(alloc, names, import.name),
        None => Ok(()),
    }
}

/// The names of a world's imports.
fn import_names(alloc: Global, types: &Types, world: WorldId) -> Result<Names, AllocError>
    ensures { IfOk result (λ ns. ns ≡ names_of (imports_of types.now world)) }
{
    let mut names = Names::new(alloc);
    for at in 0..import_count(types, world) {
        add_import_name(alloc, types, world, at, &mut names)?;
    }
    Ok(names)
}

/// Adds the interfaces that a package's world exports, each as it is written beside its imports.
pub(crate) fn add_exports(
    types: &mut Types,
    alloc: Global,
    world: WorldId,
    all: &mut Vec<Late>,
) -> Result<(), AllocError>
    ensures adds { OnOk result (Stands types.old (ItemKind.Component world)
        → AddsLate types.old types.new all.old.items all.new.items
        (exports_written (stated_of types.old (ItemKind.Component world)))) }
    ensures grows { Grows types.old types.new }
{
    types.see_acyclic();
    let none = NamedMap::new(alloc);
    let interfaces = exported_interfaces(alloc, types, world)?;
    let placed = Placed {
        places: &none,
        imports: &interfaces,
    };
    let mut names = import_names(alloc, types, world)?;
    let order = order_of(alloc, types, placed, &interfaces)?;
    add_in_order(types, alloc, placed, &interfaces, &order, &mut names, all)
}
