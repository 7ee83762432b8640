//! Items with the uses of those interfaces alone that stand.

ghost use Rattle.std.specs.Prelude.{◌≡◌, ◌++◌, ◌∷◌, [], IfOk, OnOk};
ghost use Rattle.wac_types_base.specs.declared.item.ItemKind.{ItemKind as Kind};
ghost use Rattle.wac_types_base.specs.Entries.{IsNew};
ghost use Rattle.wac_types_base.specs.Collection.{Grows, Stands};
ghost use Rattle.wac_types_base.specs.Stated.{stated_of};
ghost use Rattle.wac_types_written.specs.Forms.{IsOf, ItemsStand};
ghost use Rattle.wac_composition.specs.Circles as form;
ghost use Rattle.wac_graph_causes.specs.Beside as spec;
ghost use Rattle.wac_graph_causes.specs.Beside.{AreBeside, IsBeside, stands_named};
ghost use Rattle.wac_graph_causes.specs.Standing.{stands_by};

use crate::standing::Standing;
use std::alloc::{AllocError, Global};
use wac_types_base::{
    Interface, InterfaceId, ItemKind, NamedMap, Type, Types, UsedType, copy_text,
};
use wac_types_parts::parts::identifier;

// ---- uses

/// Whether an interface has no identifier, or stands.
fn is_standing(types: &Types, id: InterfaceId, standing: Standing<'_>) -> bool
    ensures { result ≡ stands_named (stands_by standing.entry) types.now id }
{
    match identifier(types, id) {
        Some(name) => standing.has(name),
        None => true,
    }
}

/// Adds a use under a new name, where its interface has no identifier or stands.
fn add_use(
    types: &Types,
    alloc: Global,
    name: &str,
    used: &UsedType,
    standing: Standing<'_>,
    uses: &mut NamedMap<UsedType>,
) -> Result<(), AllocError>
    requires { IsNew name.now uses.old }
    ensures { OnOk result
        (uses.new ≡ uses.old ++ spec.standing_uses (stands_by standing.entry) types.now ((name.now, used.now) ∷ [])) }
{
    if !is_standing(types, used.interface, standing) {
        return Ok(());
    }
    let used = used.copy()?;
    uses.push(String::from_str(alloc, name)?, used)?;
    Ok(())
}

/// The uses of interfaces that have no identifier or stand.
fn standing_uses(
    types: &Types,
    alloc: Global,
    uses: &NamedMap<UsedType>,
    standing: Standing<'_>,
) -> Result<NamedMap<UsedType>, AllocError>
    ensures { IfOk result (λ m. m ≡ spec.standing_uses (stands_by standing.entry) types.now uses.now) }
{
    let mut all = NamedMap::new(alloc);
    for at in 0..uses.len() {
        let (name, used) = uses.entry(at);
        add_use(types, alloc, name, used, standing, &mut all)?;
    }
    Ok(all)
}

// ---- items

/// Items with the uses of those interfaces alone that stand.
#[cycle(beside)]
fn beside_items(
    types: &mut Types,
    alloc: Global,
    items: &NamedMap<ItemKind>,
    standing: Standing<'_>,
) -> Result<NamedMap<ItemKind>, AllocError>
    requires { ItemsStand types.old items.now }
    ensures beside { IfOk result (AreBeside (stands_by standing.entry) types.old types.new items.now) }
    ensures grows { Grows types.old types.new }
{
    types.see_acyclic();
    let mut all = NamedMap::new(alloc);
    for at in 0..items.len() {
        let (name, item) = items.entry(at);
        let made = beside(types, alloc, *item, standing)?;
        all.push(String::from_str(alloc, name)?, made)?;
    }
    Ok(all)
}

/// An interface with the uses of those interfaces alone that stand.
#[cycle(beside)]
fn beside_interface(
    types: &mut Types,
    alloc: Global,
    id: InterfaceId,
    standing: Standing<'_>,
) -> Result<InterfaceId, AllocError>
    requires { Stands types.old (Kind.Instance id) }
    ensures beside { IfOk result
        (λ i. IsBeside (stands_by standing.entry) types.old types.new (Kind.Instance id) (Kind.Instance i)) }
    ensures grows { Grows types.old types.new }
{
    types.see_acyclic();
    let own = types.interface(id).copy(alloc)?;
    let uses = standing_uses(types, alloc, &own.uses, standing)?;
    let exports = beside_items(types, alloc, &own.exports, standing)?;
    let name = copy_text(&own.id)?;
    types.see_acyclic();
    let made = types.add_interface(Interface {
        id: name,
        uses,
        exports,
    })?;
    Ok(made)
}

/// A type with the uses of those interfaces alone that stand.
#[cycle(beside)]
fn beside_type(
    types: &mut Types,
    alloc: Global,
    ty: Type,
    standing: Standing<'_>,
) -> Result<Type, AllocError>
    requires { Stands types.old (Kind.Ty ty) }
    ensures beside { IfOk result (λ t. IsBeside (stands_by standing.entry) types.old types.new (Kind.Ty ty) (Kind.Ty t)) }
    ensures grows { Grows types.old types.new }
{
    types.see_acyclic();
    match ty {
        Type::Interface(id) => {
            let made = beside_interface(types, alloc, id, standing)?;
            Ok(Type::Interface(made))
        }
        _ => Ok(ty),
    }
}

/// An item with the uses of those interfaces alone that stand.
#[cycle(beside)]
pub(crate) fn beside(
    types: &mut Types,
    alloc: Global,
    item: ItemKind,
    standing: Standing<'_>,
) -> Result<ItemKind, AllocError>
    requires { Stands types.old item }
    ensures beside { IfOk result (IsOf types.new (form.beside (stands_by standing.entry) (stated_of types.old item))) }
    ensures grows { Grows types.old types.new }
{
    types.see_acyclic();
    match item {
        ItemKind::Instance(id) => {
            let made = beside_interface(types, alloc, id, standing)?;
            Ok(ItemKind::Instance(made))
        }
        ItemKind::Ty(ty) => {
            let made = beside_type(types, alloc, ty, standing)?;
            Ok(ItemKind::Ty(made))
        }
        _ => Ok(item),
    }
}
