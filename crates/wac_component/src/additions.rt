//! Entries of a collection of types, each tested before it is added.
ghost use Rattle.std.specs.Prelude.{IfOk};
ghost use Rattle.wac_types_base.specs.declared.item.ItemKind.{ItemKind};
ghost use Rattle.wac_types_base.specs.Collection.{Stands};

use crate::world_fault::{Halt, WorldFault};
use std::alloc::Global;
use wac_types_base::{
    CycleError, DefinedType, FuncType, Interface, InterfaceId, ItemKind, NamedMap, Resource,
    ResourceId, Text, Type, Types, UsedType, ValueType, World, WorldId,
};

/// What a scope imports, exports and uses.
#[derive(Drop)]
pub struct Parts {
    pub uses: NamedMap<UsedType>,
    pub imports: NamedMap<ItemKind>,
    pub exports: NamedMap<ItemKind>,
    pub has_resources: bool,
}

impl Parts {
    pub fn new(alloc: Global) -> Self {
        Parts {
            uses: NamedMap::new(alloc),
            imports: NamedMap::new(alloc),
            exports: NamedMap::new(alloc),
            has_resources: false,
        }
    }
}

pub fn add_defined(types: &mut Types, ty: DefinedType) -> Result<Type, Halt> {
    if !types.has_ids_of(&ty) {
        return Err(Halt::Refused(WorldFault::Index));
    }
    Ok(Type::Value(ValueType::Defined(types.add_defined_type(ty)?)))
}

pub fn add_func(types: &mut Types, func: FuncType) -> Result<Type, Halt> {
    if !types.has_ids_of(&func) {
        return Err(Halt::Refused(WorldFault::Index));
    }
    Ok(Type::Func(types.add_func_type(func)?))
}

/// A resource of its own.
pub fn add_resource(alloc: Global, types: &mut Types, name: &str) -> Result<Type, Halt> {
    let resource = Resource {
        name: Text::from_str(alloc, name)?,
        alias: None,
    };
    if !types.has_ids_of(&resource) {
        return Err(Halt::Refused(WorldFault::Index));
    }
    Ok(Type::Resource(types.add_resource(resource)?))
}

/// Gives a resource a name, where it has none yet.
pub fn name_resource(
    alloc: Global,
    types: &mut Types,
    id: ResourceId,
    name: &str,
) -> Result<(), Halt> {
    if !types.has(ItemKind::Ty(Type::Resource(id))) {
        return Err(Halt::Refused(WorldFault::Index));
    }
    if !types.resource(id).name.as_str().is_empty() {
        return Ok(());
    }
    let resource = Resource {
        name: Text::from_str(alloc, name)?,
        alias: None,
    };
    if !types.has_ids_of(&resource) {
        return Err(Halt::Refused(WorldFault::Index));
    }
    match types.replace_resource(id, resource) {
        Ok(()) => Ok(()),
        Err(CycleError::Memory) => Err(Halt::Memory),
        Err(CycleError::Cycle) => Err(Halt::Refused(WorldFault::Index)),
    }
}

fn add_interface(types: &mut Types, interface: Interface) -> Result<InterfaceId, Halt> {
    if !types.has_ids_of(&interface) {
        return Err(Halt::Refused(WorldFault::Index));
    }
    Ok(types.add_interface(interface)?)
}

/// The interface of what a scope uses and exports.
pub fn interface_of(types: &mut Types, parts: Parts) -> Result<InterfaceId, Halt> {
    let Parts {
        uses,
        imports: _,
        exports,
        has_resources: _,
    } = parts;
    add_interface(
        types,
        Interface {
            id: None,
            uses,
            exports,
        },
    )
}

/// The world of a scope.
pub fn world_of(types: &mut Types, parts: Parts) -> Result<WorldId, Halt>
    ensures stands { IfOk result (λ w. Stands types.new (ItemKind.Component w)) }
{
    let Parts {
        uses,
        imports,
        exports,
        has_resources: _,
    } = parts;
    let world = World {
        id: None,
        uses,
        imports,
        exports,
    };
    if !types.has_ids_of(&world) {
        return Err(Halt::Refused(WorldFault::Index));
    }
    let id = types.add_world(world)?;
    if !types.has(ItemKind::Component(id)) {
        return Err(Halt::Refused(WorldFault::Index));
    }
    Ok(id)
}

/// Whether a name is that of an interface, as `a:b/c@1.0.0`.
fn is_interface_name(name: &str) -> bool {
    let bytes = name.as_bytes();
    bytes.contains(&b':') && bytes.contains(&b'/') && !bytes.contains(&b'<')
}

/// Whether an interface has this identifier.
fn is_called(interface: &Interface, name: &str) -> bool {
    match &interface.id {
        Some(id) => id.is(name),
        None => false,
    }
}

/// The interface, with the name as its identifier where it is that of an interface.
pub fn called_interface(
    alloc: Global,
    types: &mut Types,
    id: InterfaceId,
    name: &str,
) -> Result<InterfaceId, Halt> {
    if !types.has(ItemKind::Instance(id)) {
        return Err(Halt::Refused(WorldFault::Index));
    }
    if !is_interface_name(name) || is_called(types.interface(id), name) {
        return Ok(id);
    }
    let mut interface = types.interface(id).copy(alloc)?;
    interface.id = Some(Text::from_str(alloc, name)?);
    add_interface(types, interface)
}

/// The place of an export, and what it is.
pub fn export_at(types: &Types, id: InterfaceId, name: &str) -> Result<(usize, ItemKind), Halt> {
    if !types.has(ItemKind::Instance(id)) {
        return Err(Halt::Refused(WorldFault::Index));
    }
    let exports = &types.interface(id).exports;
    for place in 0..exports.len() {
        let (other, kind) = exports.entry(place);
        if other == name {
            return Ok((place, *kind));
        }
    }
    Err(Halt::Refused(WorldFault::Export))
}
