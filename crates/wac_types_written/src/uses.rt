//! The interfaces that something uses, each behind those that it uses itself.

ghost use Rattle.std.specs.Prelude.{◌≡◌, IfOk, OnOk};
ghost use Rattle.wac_types_base.specs.declared.item.ItemKind.{ItemKind as Kind};
ghost use Rattle.wac_types_base.specs.Collection.{Stands};
ghost use Rattle.wac_types_base.specs.Stated.{stated_of};
ghost use Rattle.wac_types_written.specs.Forms.{ItemsStand, UsesStand, through};
ghost use Rattle.wac_types_written.specs.Walked.{AreUsed, IsWalk, Walks, below_items, below_uses, interface_in, named_at};
ghost use Rattle.wac_types_written.specs.Written.{dependencies};

use std::alloc::{AllocError, Global};
use std::collections::HashSet;
use wac_types_base::{InterfaceId, ItemKind, NamedMap, Type, Types, UsedType};

/// The interfaces that are used, of several under one identifier the first, and those that were walked.
#[derive(Drop)]
pub(crate) struct Walk {
    pub(crate) found: NamedMap<InterfaceId>,
    pub(crate) walked: HashSet<usize>,
}

/// Adds an interface under its identifier, if it has one that is new.
fn add_named(
    types: &Types,
    alloc: Global,
    id: InterfaceId,
    walk: &mut Walk,
) -> Result<(), AllocError>
    requires stands { Stands types.now (Kind.Instance id) }
    requires walk { IsWalk types.now walk.old }
    ensures { OnOk result (Walks types.now (named_at types.now id) walk.old walk.new) }
{
    let Some(name) = &types.interface(id).id else {
        return Ok(());
    };
    if !walk.found.contains(name.as_str()) {
        let name = String::from_str(alloc, name.as_str())?;
        walk.found.push(name, id)?;
    }
    Ok(())
}

/// Adds an interface behind those that it uses, unless it was walked.
#[cycle(used)]
fn add_through(
    types: &Types,
    alloc: Global,
    id: InterfaceId,
    walk: &mut Walk,
) -> Result<(), AllocError>
    requires stands { Stands types.now (Kind.Instance id) }
    requires walk { IsWalk types.now walk.old }
    ensures { OnOk result (Walks types.now (through (stated_of types.now (Kind.Instance id))) walk.old walk.new) }
{
    types.see_acyclic();
    if walk.walked.contains(&id.index) {
        return Ok(());
    }
    add_dependencies(types, alloc, id, walk)?;
    add_named(types, alloc, id, walk)?;
    let _ = walk.walked.insert(id.index)?;
    Ok(())
}

/// Adds the interfaces that an interface and its exports use.
#[cycle(used)]
fn add_dependencies(
    types: &Types,
    alloc: Global,
    id: InterfaceId,
    walk: &mut Walk,
) -> Result<(), AllocError>
    requires stands { Stands types.now (Kind.Instance id) }
    requires walk { IsWalk types.now walk.old }
    ensures { OnOk result (Walks types.now (dependencies (stated_of types.now (Kind.Instance id))) walk.old walk.new) }
{
    types.see_acyclic();
    add_uses(types, alloc, &types.interface(id).uses, walk)?;
    add_items(types, alloc, &types.interface(id).exports, walk)?;
    Ok(())
}

/// Adds the interfaces of uses, each behind those that it uses itself.
#[cycle(used)]
fn add_uses(
    types: &Types,
    alloc: Global,
    uses: &NamedMap<UsedType>,
    walk: &mut Walk,
) -> Result<(), AllocError>
    requires stand { UsesStand types.now uses.now }
    requires walk { IsWalk types.now walk.old }
    ensures { OnOk result (Walks types.now (below_uses types.now uses.now) walk.old walk.new) }
{
    types.see_acyclic();
    for at in 0..uses.len() {
        let (_, used) = uses.entry(at);
        add_through(types, alloc, used.interface, walk)?;
    }
    Ok(())
}

/// Adds the interfaces that items use.
#[cycle(used)]
fn add_items(
    types: &Types,
    alloc: Global,
    items: &NamedMap<ItemKind>,
    walk: &mut Walk,
) -> Result<(), AllocError>
    requires stand { ItemsStand types.now items.now }
    requires walk { IsWalk types.now walk.old }
    ensures { OnOk result (Walks types.now (below_items types.now items.now) walk.old walk.new) }
{
    types.see_acyclic();
    for at in 0..items.len() {
        let (_, item) = items.entry(at);
        add_item(types, alloc, *item, walk)?;
    }
    Ok(())
}

/// Adds the interfaces that an item uses.
#[cycle(used)]
fn add_item(types: &Types, alloc: Global, item: ItemKind, walk: &mut Walk) -> Result<(), AllocError>
    requires stands { Stands types.now item }
    requires walk { IsWalk types.now walk.old }
    ensures { OnOk result (Walks types.now (dependencies (stated_of types.now item)) walk.old walk.new) }
{
    types.see_acyclic();
    match interface_of(item) {
        Some(id) => {
            add_dependencies(types, alloc, id, walk)?;
            Ok(())
        }
        None => Ok(()),
    }
}

/// The interface of an instance, or that is a type.
fn interface_of(item: ItemKind) -> Option<InterfaceId>
    ensures { result ≡ interface_in item }
{
    match item {
        ItemKind::Instance(id) => Some(id),
        ItemKind::Ty(Type::Interface(id)) => Some(id),
        _ => None,
    }
}

/// The interfaces that a world of these uses, imports and exports uses, under their identifiers.
pub(crate) fn used_by(
    types: &Types,
    alloc: Global,
    uses: &NamedMap<UsedType>,
    imports: &NamedMap<ItemKind>,
    exports: &NamedMap<ItemKind>,
) -> Result<NamedMap<InterfaceId>, AllocError>
    requires uses { UsesStand types.now uses.now }
    requires imports { ItemsStand types.now imports.now }
    requires exports { ItemsStand types.now exports.now }
    ensures { IfOk result (AreUsed types.now uses.now imports.now exports.now) }
{
    let mut walk = Walk {
        found: NamedMap::new(alloc),
        walked: HashSet::new(alloc),
    };
    add_uses(types, alloc, uses, &mut walk)?;
    add_items(types, alloc, imports, &mut walk)?;
    add_items(types, alloc, exports, &mut walk)?;
    Ok(walk.found)
}
