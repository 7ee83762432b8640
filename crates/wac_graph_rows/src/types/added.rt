//! Entries that are added to a collection, through what is lent for adding.

use crate::lines::{
    standing, take_defined, take_func, take_interface, take_module_type, take_resource, take_world,
};
use wac_rows::Words;
use wac_types::{
    DefinedType, FuncType, Interface, ItemKind, ModuleType, NamedMap, Resource, TypesMut, World,
};

fn add_func(types: &mut TypesMut<'_>, func: FuncType) -> Option<usize> {
    let func = standing(types.types(), func)?;
    Some(types.add_func_type(func).ok()?.index)
}

fn add_defined(types: &mut TypesMut<'_>, ty: DefinedType) -> Option<usize> {
    let ty = standing(types.types(), ty)?;
    Some(types.add_defined_type(ty).ok()?.index)
}

fn add_resource(types: &mut TypesMut<'_>, resource: Resource) -> Option<usize> {
    let resource = standing(types.types(), resource)?;
    Some(types.add_resource(resource).ok()?.index)
}

fn add_interface(types: &mut TypesMut<'_>, interface: Interface) -> Option<usize> {
    let interface = standing(types.types(), interface)?;
    Some(types.add_interface(interface).ok()?.index)
}

fn add_world(types: &mut TypesMut<'_>, world: World) -> Option<usize> {
    let world = standing(types.types(), world)?;
    Some(types.add_world(world).ok()?.index)
}

fn add_module(types: &mut TypesMut<'_>, module: ModuleType) -> Option<usize> {
    let module = standing(types.types(), module)?;
    Some(types.add_module_type(module).ok()?.index)
}

/// Adds what a line says, and gives its index.
pub(crate) fn add_entry(
    types: &mut TypesMut<'_>,
    items: &NamedMap<ItemKind>,
    words: &mut Words<'_>,
) -> Option<usize> {
    let kind = words.take();
    let _name = words.take();
    match kind {
        "func" => add_func(types, take_func(items, words)),
        "resource" => add_resource(types, take_resource(items, words)),
        "interface" => add_interface(types, take_interface(items, words)),
        "world" => add_world(types, take_world(items, words)),
        "module" | "memories" => add_module(types, take_module_type(items, words, kind)),
        _ => add_defined(types, take_defined(items, words, kind)),
    }
}
