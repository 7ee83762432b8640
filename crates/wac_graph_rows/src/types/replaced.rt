//! Entries that are put in the places of others.

ghost use Rattle.std.specs.Prelude.{IfSome};
ghost use Rattle.wac_types_base.specs.Collection.{Stands, HasChildren};

use crate::lines::{
    standing, take_defined, take_func, take_interface, take_module_type, take_resource, take_world,
};
use wac_rows::Words;
use wac_types::{
    CycleError, DefinedType, DefinedTypeId, FuncType, FuncTypeId, Interface, InterfaceId, ItemKind,
    ModuleType, ModuleTypeId, NamedMap, Places, Resource, ResourceId, Type, Types, ValueType,
    World, WorldId,
};

// The entry's type is a parameter: a proof then need not take each entry apart where it is given up.

/// An entry, if all its ids stand, and the place that it is to be put in too.
fn standing_at<E: Places + Drop>(types: &Types, place: ItemKind, entry: E) -> Option<E>
    ensures place { IfSome result (λ e. Stands types.now place) }
    ensures children { IfSome result (λ e. HasChildren types.now (E.entry e)) }
{
    if types.has(place) {
        return standing(types, entry);
    }
    None
}

/// What a call that replaces an entry answers.
pub(crate) type Replaced = Result<(), CycleError>;

fn replace_func(types: &mut Types, id: FuncTypeId, func: FuncType) -> Option<Replaced> {
    let func = standing_at(types, ItemKind::Func(id), func)?;
    Some(types.replace_func_type(id, func))
}

fn replace_defined(types: &mut Types, id: DefinedTypeId, ty: DefinedType) -> Option<Replaced> {
    let ty = standing_at(types, ItemKind::Value(ValueType::Defined(id)), ty)?;
    Some(types.replace_defined_type(id, ty))
}

fn replace_resource(types: &mut Types, id: ResourceId, resource: Resource) -> Option<Replaced> {
    let resource = standing_at(types, ItemKind::Ty(Type::Resource(id)), resource)?;
    Some(types.replace_resource(id, resource))
}

fn replace_interface(types: &mut Types, id: InterfaceId, entry: Interface) -> Option<Replaced> {
    let interface = standing_at(types, ItemKind::Instance(id), entry)?;
    Some(types.replace_interface(id, interface))
}

fn replace_world(types: &mut Types, id: WorldId, world: World) -> Option<Replaced> {
    let world = standing_at(types, ItemKind::Component(id), world)?;
    Some(types.replace_world(id, world))
}

fn replace_module(types: &mut Types, id: ModuleTypeId, module: ModuleType) -> Option<Replaced> {
    let module = standing_at(types, ItemKind::Module(id), module)?;
    Some(types.replace_module_type(id, module))
}

/// Puts what a line says in the place of an item.
pub(crate) fn replace_entry(
    types: &mut Types,
    items: &NamedMap<ItemKind>,
    item: ItemKind,
    words: &mut Words<'_>,
) -> Option<Replaced> {
    let kind = words.take();
    let _name = words.take();
    match item {
        ItemKind::Func(id) => replace_func(types, id, take_func(items, words)),
        ItemKind::Ty(Type::Value(ValueType::Defined(id))) => {
            replace_defined(types, id, take_defined(items, words, kind))
        }
        ItemKind::Ty(Type::Resource(id)) => {
            replace_resource(types, id, take_resource(items, words))
        }
        ItemKind::Instance(id) => replace_interface(types, id, take_interface(items, words)),
        ItemKind::Component(id) => replace_world(types, id, take_world(items, words)),
        ItemKind::Module(id) => replace_module(types, id, take_module_type(items, words, kind)),
        _ => None,
    }
}
