//! The places of an entry, and walks over them.

ghost use Rattle.std.specs.Prelude.{IsTrue, ◌↔◌, ◌≡◌, ◌<◌, Some, slice_get, OnSome, ◌^◌, ◌∷◌, []};
ghost use Rattle.wac_types_base.specs.Collection.{Stands, IsAcyclic, slots_of, func_entry, interface_entry, world_entry, resource_entry, defined_entry, value_slot, option_slot, item_node, HasChildren};

use crate::core_types::ModuleType;
use crate::defined::{DefinedType, FuncType, Interface, Resource, World};
use crate::item::{ItemKind, Type, ValueType};
use crate::types::Types;

/// What is in the place of a value that may be missing.
pub fn option_place(value: Option<ValueType>) -> Option<ItemKind>
    ensures { result ≡ option_slot value }
{
    match value {
        None => None,
        Some(value) => Some(ItemKind::Value(value)),
    }
}

/// What is in a place of a function type: its parameters, then its result.
pub fn func_place(func: &FuncType, at: u128) -> Option<Option<ItemKind>>
    ensures place { result ≡ slice_get (func_entry func.now).1 at }
    ensures small { OnSome result (at < 2 ^ 66) }
{
    let params = func.params.values();
    let count = params.len() as u128;
    if at < count {
        return Some(Some(ItemKind::Value(params[at as usize])));
    }
    if at == count {
        return Some(option_place(func.result));
    }
    None
}

/// What is in a place of an interface: the interfaces that it uses, then its exports.
pub fn interface_place(interface: &Interface, at: u128) -> Option<Option<ItemKind>>
    ensures place { result ≡ slice_get (interface_entry interface.now).1 at }
    ensures small { OnSome result (at < 2 ^ 66) }
{
    let uses = interface.uses.values();
    let exports = interface.exports.values();
    let used = uses.len() as u128;
    if at < used {
        return Some(Some(ItemKind::Instance(uses[at as usize].interface)));
    }
    let at = at - used;
    if at < exports.len() as u128 {
        return Some(Some(exports[at as usize]));
    }
    None
}

/// What is in a place of a world: the interfaces that it uses, its imports, its exports.
pub fn world_place(world: &World, at: u128) -> Option<Option<ItemKind>>
    ensures place { result ≡ slice_get (world_entry world.now).1 at }
    ensures small { OnSome result (at < 2 ^ 66) }
{
    let uses = world.uses.values();
    let imports = world.imports.values();
    let exports = world.exports.values();
    let used = uses.len() as u128;
    if at < used {
        return Some(Some(ItemKind::Instance(uses[at as usize].interface)));
    }
    let at = at - used;
    let imported = imports.len() as u128;
    if at < imported {
        return Some(Some(imports[at as usize]));
    }
    let at = at - imported;
    if at < exports.len() as u128 {
        return Some(Some(exports[at as usize]));
    }
    None
}

/// What is in a place of a resource: what it is another name of, and its owner.
pub fn resource_place(resource: &Resource, at: u128) -> Option<Option<ItemKind>>
    ensures place { result ≡ slice_get (resource_entry resource.now).1 at }
    ensures small { OnSome result (at < 2 ^ 66) }
{
    match &resource.alias {
        None => None,
        Some(alias) => match at {
            0 => Some(Some(ItemKind::Ty(Type::Resource(alias.source)))),
            1 => match alias.owner {
                None => Some(None),
                Some(owner) => Some(Some(ItemKind::Instance(owner))),
            },
            _ => None,
        },
    }
}

fn value_at(value: ValueType, at: u128) -> Option<Option<ItemKind>>
    ensures place { result ≡ slice_get (value_slot value ∷ []) at }
    ensures small { OnSome result (at < 2 ^ 66) }
{
    match at {
        0 => Some(Some(ItemKind::Value(value))),
        _ => None,
    }
}

fn option_at(value: Option<ValueType>, at: u128) -> Option<Option<ItemKind>>
    ensures place { result ≡ slice_get (option_slot value ∷ []) at }
    ensures small { OnSome result (at < 2 ^ 66) }
{
    match at {
        0 => Some(option_place(value)),
        _ => None,
    }
}

/// What is in a place of a defined type.
pub fn defined_place(defined: &DefinedType, at: u128) -> Option<Option<ItemKind>>
    ensures place { result ≡ slice_get (defined_entry defined.now).1 at }
    ensures small { OnSome result (at < 2 ^ 66) }
{
    match defined {
        DefinedType::Tuple(types) => {
            let types = types.as_slice();
            if at < types.len() as u128 {
                return Some(Some(ItemKind::Value(types[at as usize])));
            }
            None
        }
        DefinedType::List(value) => value_at(*value, at),
        DefinedType::FixedSizeList(value, _) => value_at(*value, at),
        DefinedType::Option(value) => value_at(*value, at),
        DefinedType::Result { ok, err } => match at {
            0 => Some(option_place(*ok)),
            1 => Some(option_place(*err)),
            _ => None,
        },
        DefinedType::Variant(variant) => {
            let cases = variant.cases.values();
            if at < cases.len() as u128 {
                return Some(option_place(cases[at as usize]));
            }
            None
        }
        DefinedType::Record(record) => {
            let fields = record.fields.values();
            if at < fields.len() as u128 {
                return Some(Some(ItemKind::Value(fields[at as usize])));
            }
            None
        }
        DefinedType::Flags(_) => None,
        DefinedType::Enum(_) => None,
        DefinedType::Alias(value) => value_at(*value, at),
        DefinedType::Stream(value) => option_at(*value, at),
        DefinedType::Future(value) => option_at(*value, at),
    }
}

impl Types {
    /// What is in a place of an entry, and none behind the last.
    #[tactic(auto, using(crate::proofs::Slots::slots))]
    pub fn place(&self, kind: ItemKind, at: u128) -> Option<Option<ItemKind>>
        requires { Stands self.now kind }
        ensures place { result ≡ slice_get (slots_of self.now kind) at }
        ensures small { OnSome result (at < 2 ^ 66) }
        ensures acyclic { IsAcyclic self.now }
    {
        self.see_acyclic();
        match kind {
            ItemKind::Ty(ty) => self.type_place(ty, at),
            ItemKind::Func(id) => func_place(self.func_type(id), at),
            ItemKind::Instance(id) => interface_place(self.interface(id), at),
            ItemKind::Component(id) => world_place(self.world(id), at),
            ItemKind::Module(_) => None,
            ItemKind::Value(value) => self.value_place(value, at),
        }
    }

    /// What is in a place of a type.
    #[tactic(auto, using(crate::proofs::Slots::slots))]
    fn type_place(&self, ty: Type, at: u128) -> Option<Option<ItemKind>>
        requires { Stands self.now (ItemKind.Ty ty) }
        ensures place { result ≡ slice_get (slots_of self.now (ItemKind.Ty ty)) at }
        ensures small { OnSome result (at < 2 ^ 66) }
    {
        match ty {
            Type::Resource(id) => resource_place(self.resource(id), at),
            Type::Func(id) => func_place(self.func_type(id), at),
            Type::Interface(id) => interface_place(self.interface(id), at),
            Type::World(id) => world_place(self.world(id), at),
            Type::Module(_) => None,
            Type::Value(value) => self.value_place(value, at),
        }
    }

    /// What is in a place of a value type.
    #[tactic(auto, using(crate::proofs::Slots::slots))]
    fn value_place(&self, value: ValueType, at: u128) -> Option<Option<ItemKind>>
        requires { Stands self.now (ItemKind.Value value) }
        ensures place { result ≡ slice_get (slots_of self.now (ItemKind.Value value)) at }
        ensures small { OnSome result (at < 2 ^ 66) }
    {
        match value {
            ValueType::Primitive(_) => None,
            ValueType::Borrow(id) => resource_place(self.resource(id), at),
            ValueType::Own(id) => resource_place(self.resource(id), at),
            ValueType::Defined(id) => defined_place(self.defined_type(id), at),
        }
    }
}

/// An entry with places for ids.
pub trait Places {
    ghost use Rattle.wac_types_base.specs.Collection.{Entry};

    ghost entry: { Self → Entry };

    /// What is in a place, and none behind the last.
    fn place(&self, at: u128) -> Option<Option<ItemKind>>
        ensures place { result ≡ slice_get (entry self.now).1 at }
        ensures small { OnSome result (at < 2 ^ 66) };
}

impl Places for DefinedType {
    ghost use Rattle.wac_types_base.specs.Collection.{defined_entry};

    ghost entry = { defined_entry };

    fn place(&self, at: u128) -> Option<Option<ItemKind>> {
        defined_place(self, at)
    }
}

impl Places for Resource {
    ghost use Rattle.wac_types_base.specs.Collection.{resource_entry};

    ghost entry = { resource_entry };

    fn place(&self, at: u128) -> Option<Option<ItemKind>> {
        resource_place(self, at)
    }
}

impl Places for FuncType {
    ghost use Rattle.wac_types_base.specs.Collection.{func_entry};

    ghost entry = { func_entry };

    fn place(&self, at: u128) -> Option<Option<ItemKind>> {
        func_place(self, at)
    }
}

impl Places for Interface {
    ghost use Rattle.wac_types_base.specs.Collection.{interface_entry};

    ghost entry = { interface_entry };

    fn place(&self, at: u128) -> Option<Option<ItemKind>> {
        interface_place(self, at)
    }
}

impl Places for World {
    ghost use Rattle.wac_types_base.specs.Collection.{world_entry};

    ghost entry = { world_entry };

    fn place(&self, at: u128) -> Option<Option<ItemKind>> {
        world_place(self, at)
    }
}

impl Places for ModuleType {
    ghost use Rattle.wac_types_base.specs.Collection.{module_entry};

    ghost entry = { module_entry };

    fn place(&self, at: u128) -> Option<Option<ItemKind>> {
        None
    }
}

impl Types {
    /// Whether what the kind names stands here.
    #[tactic(auto, using(crate::proofs::Standing::standing))]
    pub fn has(&self, kind: ItemKind) -> bool
        ensures { IsTrue result ↔ Stands self.now kind }
    {
        match kind {
            ItemKind::Ty(ty) => self.contains(ty),
            ItemKind::Func(id) => self.contains(Type::Func(id)),
            ItemKind::Instance(id) => self.contains(Type::Interface(id)),
            ItemKind::Component(id) => self.contains(Type::World(id)),
            ItemKind::Module(id) => self.contains(Type::Module(id)),
            ItemKind::Value(ty) => self.contains_value(ty),
        }
    }

    /// Whether all ids in an entry stand here, as adding it asks.
    pub fn has_ids_of<E: Places>(&self, entry: &E) -> bool
        ensures { IsTrue result ↔ HasChildren self.now (E.entry entry.now) }
    {
        let mut at: u128 = 0;
        while let Some(place) = entry.place(at) {
            if let Some(child) = place {
                if !self.has(child) {
                    return false;
                }
            }
            at += 1;
        }
        true
    }
}
