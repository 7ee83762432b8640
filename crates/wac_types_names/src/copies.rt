//! The interface of a world's uses and exports, and a version again.

ghost use Rattle.std.specs.Prelude.{◌≡◌, IfOk, Some, option_map, option_copied};
ghost use Rattle.semver.specs.Identifiers.{parts_of};
ghost use Rattle.wac_types_base.specs.Collection.{Stands, HasChildren, IsAcyclic, interface_entry};
ghost use Rattle.wac_types_base.specs.Entries.{with_values};
ghost use Rattle.wac_types_base.specs.Renaming.{kind_under};
ghost use Rattle.wac_types_names.specs.Packages.{IsInterfaceOf};

use semver::Version;
use std::alloc::{AllocError, Global};
use wac_types_base::{Interface, ItemKind, NamedMap, Types, WorldId, copy_items, copy_uses};

/// The interface without identifier that has the uses and the exports of a world.
pub(crate) fn interface_of(
    alloc: Global,
    types: &Types,
    world: WorldId,
) -> Result<Interface, AllocError>
    requires { Stands types.now (ItemKind.Component world) }
    ensures value { IfOk result (IsInterfaceOf types.now world) }
    ensures children { IfOk result (λ i. HasChildren types.now (interface_entry i)) }
    ensures acyclic { IsAcyclic types.now }
{
    let world = types.world(world);
    Ok(Interface {
        id: None,
        uses: copy_uses(alloc, &world.uses)?,
        exports: copy_items(alloc, &world.exports)?,
    })
}

/// The same items, each id in them with this number.
pub(crate) fn items_under(
    alloc: Global,
    items: &NamedMap<ItemKind>,
    number: u64,
) -> Result<NamedMap<ItemKind>, AllocError>
    ensures { IfOk result (λ m. m ≡ with_values (kind_under number) items.now) }
{
    let mut copy = NamedMap::new(alloc);
    for at in 0..items.len() {
        let (name, kind) = items.entry(at);
        copy.push(String::from_str(alloc, name)?, kind.under(number))?;
    }
    Ok(copy)
}

/// The same version again, if there is one.
pub(crate) fn copy_version(version: Option<&Version>) -> Result<Option<Version>, AllocError>
    ensures { IfOk result (λ v. option_map parts_of v ≡ option_map parts_of (option_copied version.entry)) }
{
    match version {
        None => Ok(None),
        Some(version) => {
            let copy = version.clone()?;
            Ok(Some(copy))
        }
    }
}
