//! Worlds made by calls, for what no text can state.

use std::alloc::Global;
use wac_types_base::{
    FuncType, Interface, ItemKind, NamedMap, Resource, ResourceId, Text, Types, ValueType, World,
    WorldId,
};

fn values(alloc: Global, list: &[(&str, ValueType)]) -> Option<NamedMap<ValueType>> {
    let mut map = NamedMap::new(alloc);
    for (name, value) in list {
        let _ = map
            .insert(String::from_str(alloc, name).ok()?, *value)
            .ok()?;
    }
    Some(map)
}

fn items(alloc: Global, list: &[(&str, ItemKind)]) -> Option<NamedMap<ItemKind>> {
    let mut map = NamedMap::new(alloc);
    for (name, item) in list {
        let _ = map.insert(String::from_str(alloc, name).ok()?, *item).ok()?;
    }
    Some(map)
}

/// A function of these parameters.
pub(crate) fn add_func(
    alloc: Global,
    types: &mut Types,
    params: &[(&str, ValueType)],
) -> Option<ItemKind> {
    let func = FuncType {
        params: values(alloc, params)?,
        result: None,
        is_async: false,
    };
    if !types.has_ids_of(&func) {
        return None;
    }
    Some(ItemKind::Func(types.add_func_type(func).ok()?))
}

/// A resource of its own.
pub(crate) fn add_resource(alloc: Global, types: &mut Types, name: &str) -> Option<ResourceId> {
    let resource = Resource {
        name: Text::new(String::from_str(alloc, name).ok()?),
        alias: None,
    };
    if !types.has_ids_of(&resource) {
        return None;
    }
    types.add_resource(resource).ok()
}

/// An instance of these exports, whose interface has this identifier.
pub(crate) fn add_instance(
    alloc: Global,
    types: &mut Types,
    id: &str,
    exports: &[(&str, ItemKind)],
) -> Option<ItemKind> {
    let interface = Interface {
        id: Some(Text::new(String::from_str(alloc, id).ok()?)),
        uses: NamedMap::new(alloc),
        exports: items(alloc, exports)?,
    };
    if !types.has_ids_of(&interface) {
        return None;
    }
    Some(ItemKind::Instance(types.add_interface(interface).ok()?))
}

/// A world of these imports and exports.
pub(crate) fn add_world(
    alloc: Global,
    types: &mut Types,
    imports: &[(&str, ItemKind)],
    exports: &[(&str, ItemKind)],
) -> Option<WorldId> {
    let world = World {
        id: None,
        uses: NamedMap::new(alloc),
        imports: items(alloc, imports)?,
        exports: items(alloc, exports)?,
    };
    if !types.has_ids_of(&world) {
        return None;
    }
    let id = types.add_world(world).ok()?;
    if types.has(ItemKind::Component(id)) {
        Some(id)
    } else {
        None
    }
}

/// The world that imports `f: func()` and exports `g: func()`.
pub(crate) fn passing_world(alloc: Global, types: &mut Types) -> Option<WorldId> {
    let func = add_func(alloc, types, &[])?;
    add_world(alloc, types, &[("f", func)], &[("g", func)])
}
