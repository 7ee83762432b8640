//! The definitions of a package.

ghost use Rattle.std.specs.Prelude.{◌≡◌, IfOk, Some};
ghost use Rattle.std.specs.Bool.{Decides};
ghost use Rattle.wac_names.specs.declared.names.NameKind.TheVariants as kind;
ghost use Rattle.wac_types_base.specs.Collection.{Stands};
ghost use Rattle.wac_types_base.specs.declared.item.«Type».{«Type» as TypeKind};
ghost use Rattle.wac_types_names.specs.InterfaceNames.{is_interface_name};
ghost use Rattle.wac_types_names.specs.Packages.{meaning, IsMeaning, DefinitionsOf};

use std::alloc::{AllocError, Global};
use wac_names::{NameKind, component_name};
use wac_types_base::{ItemKind, NamedMap, Type, Types, WorldId};

/// Whether a name of that kind is one of an interface.
fn is_interface(name: Option<NameKind>) -> bool
    ensures { Decides result (name ≡ Some kind.Interface) }
{
    matches!(name, Some(NameKind::Interface))
}

/// Whether the text is the name of an interface: a path, with or without a version.
pub fn is_interface_name(alloc: Global, text: &str) -> Result<bool, AllocError>
    ensures { IfOk result (λ b. b ≡ is_interface_name text.now) }
{
    Ok(is_interface(component_name(alloc, text)?))
}

/// The type of an instance or a component.
fn meaning_of(item: ItemKind) -> Option<ItemKind>
    ensures { result ≡ meaning item }
{
    match item {
        ItemKind::Instance(id) => Some(ItemKind::Ty(Type::Interface(id))),
        ItemKind::Component(id) => Some(ItemKind::Ty(Type::World(id))),
        ItemKind::Ty(_) | ItemKind::Func(_) | ItemKind::Module(_) | ItemKind::Value(_) => None,
    }
}

/// What the type of a world means, if that world is a definition.
fn definition_of_world(
    alloc: Global,
    types: &Types,
    id: WorldId,
) -> Result<Option<ItemKind>, AllocError>
    requires { Stands types.now (ItemKind.Component id) }
    ensures { IfOk result (IsMeaning types.now (ItemKind.Ty (TypeKind.World id))) }
{
    let exports = &types.world(id).exports;
    if exports.len() != 1 {
        return Ok(None);
    }
    let (name, item) = exports.entry(0);
    if !is_interface_name(alloc, name)? {
        return Ok(None);
    }
    Ok(meaning_of(*item))
}

/// What a type means, if it is one of a world that is a definition.
fn definition_of_type(
    alloc: Global,
    types: &Types,
    ty: Type,
) -> Result<Option<ItemKind>, AllocError>
    requires { Stands types.now (ItemKind.Ty ty) }
    ensures { IfOk result (IsMeaning types.now (ItemKind.Ty ty)) }
{
    match ty {
        Type::World(id) => definition_of_world(alloc, types, id),
        _other => Ok(None),
    }
}

/// What an export of a package's world means, if it is a definition: the type of what its world exports alone, under the name of
/// an interface.
pub fn definition_of(
    alloc: Global,
    types: &Types,
    item: ItemKind,
) -> Result<Option<ItemKind>, AllocError>
    requires { Stands types.now item }
    ensures { IfOk result (IsMeaning types.now item) }
{
    match item {
        ItemKind::Ty(ty) => definition_of_type(alloc, types, ty),
        _other => Ok(None),
    }
}

/// The exports of a world that are definitions, in order, each with what it means.
pub(crate) fn definitions_of(
    alloc: Global,
    types: &Types,
    world: WorldId,
) -> Result<NamedMap<ItemKind>, AllocError>
    requires { Stands types.now (ItemKind.Component world) }
    ensures { IfOk result (DefinitionsOf types.now world) }
{
    let exports = &types.world(world).exports;
    let mut found = NamedMap::new(alloc);
    for at in 0..exports.len() {
        let (name, item) = exports.entry(at);
        if let Some(means) = definition_of(alloc, types, *item)? {
            found.push(String::from_str(alloc, name)?, means)?;
        }
    }
    Ok(found)
}
