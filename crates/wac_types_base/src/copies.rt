//! What has been copied into another collection.

ghost use Rattle.std.specs.Prelude.{◌≡◌, nat_eq, IsTrue, ◌↔◌, is_some};
ghost use Rattle.std.specs.HashMap.{get};
ghost use Rattle.wac_types_base.specs.Copies.{copy_or, defined_id, resource_id, func_id, interface_id, world_id, module_id, value_copy, type_copy, kind_copy, option_copy, known, HasNone};

use crate::ids::{DefinedTypeId, FuncTypeId, InterfaceId, ModuleTypeId, ResourceId, WorldId};
use crate::item::{ItemKind, Type, ValueType};
use std::alloc::Global;
use std::collections::HashMap;

/// The indexes of the copies, by the indexes of what was copied, in a collection of this number.
#[derive(Drop)]
pub(crate) struct Copies {
    pub(crate) number: u64,
    pub(crate) defined_types: HashMap<usize, usize>,
    pub(crate) resources: HashMap<usize, usize>,
    pub(crate) func_types: HashMap<usize, usize>,
    pub(crate) interfaces: HashMap<usize, usize>,
    pub(crate) worlds: HashMap<usize, usize>,
    pub(crate) modules: HashMap<usize, usize>,
}

/// The index of the copy. An index that has no copy stays as it is.
fn copy_of(copies: &HashMap<usize, usize>, index: usize) -> usize
    ensures { result ≡ copy_or (get nat_eq copies.now index) index }
{
    match copies.get(&index) {
        None => index,
        Some(copy) => *copy,
    }
}

impl Copies {
    /// No copies yet, into a collection of this number.
    pub(crate) fn new(alloc: Global, number: u64) -> Self
        ensures number { result.number ≡ number }
        ensures none { HasNone result }
    {
        Copies {
            number,
            defined_types: HashMap::new(alloc),
            resources: HashMap::new(alloc),
            func_types: HashMap::new(alloc),
            interfaces: HashMap::new(alloc),
            worlds: HashMap::new(alloc),
            modules: HashMap::new(alloc),
        }
    }

    fn defined_type(&self, id: DefinedTypeId) -> DefinedTypeId
        ensures { result ≡ defined_id self.now id }
    {
        DefinedTypeId {
            collection: self.number,
            index: copy_of(&self.defined_types, id.index),
        }
    }

    pub(crate) fn resource(&self, id: ResourceId) -> ResourceId
        ensures { result ≡ resource_id self.now id }
    {
        ResourceId {
            collection: self.number,
            index: copy_of(&self.resources, id.index),
        }
    }

    fn func_type(&self, id: FuncTypeId) -> FuncTypeId
        ensures { result ≡ func_id self.now id }
    {
        FuncTypeId {
            collection: self.number,
            index: copy_of(&self.func_types, id.index),
        }
    }

    pub(crate) fn interface(&self, id: InterfaceId) -> InterfaceId
        ensures { result ≡ interface_id self.now id }
    {
        InterfaceId {
            collection: self.number,
            index: copy_of(&self.interfaces, id.index),
        }
    }

    pub(crate) fn world(&self, id: WorldId) -> WorldId
        ensures { result ≡ world_id self.now id }
    {
        WorldId {
            collection: self.number,
            index: copy_of(&self.worlds, id.index),
        }
    }

    fn module_type(&self, id: ModuleTypeId) -> ModuleTypeId
        ensures { result ≡ module_id self.now id }
    {
        ModuleTypeId {
            collection: self.number,
            index: copy_of(&self.modules, id.index),
        }
    }

    pub(crate) fn value(&self, ty: ValueType) -> ValueType
        ensures { result ≡ value_copy self.now ty }
    {
        match ty {
            ValueType::Primitive(_) => ty,
            ValueType::Borrow(id) => ValueType::Borrow(self.resource(id)),
            ValueType::Own(id) => ValueType::Own(self.resource(id)),
            ValueType::Defined(id) => ValueType::Defined(self.defined_type(id)),
        }
    }

    pub(crate) fn option(&self, ty: Option<ValueType>) -> Option<ValueType>
        ensures { result ≡ option_copy self.now ty }
    {
        match ty {
            None => None,
            Some(ty) => Some(self.value(ty)),
        }
    }

    fn ty(&self, ty: Type) -> Type
        ensures { result ≡ type_copy self.now ty }
    {
        match ty {
            Type::Resource(id) => Type::Resource(self.resource(id)),
            Type::Func(id) => Type::Func(self.func_type(id)),
            Type::Value(value) => Type::Value(self.value(value)),
            Type::Interface(id) => Type::Interface(self.interface(id)),
            Type::World(id) => Type::World(self.world(id)),
            Type::Module(id) => Type::Module(self.module_type(id)),
        }
    }

    pub(crate) fn kind(&self, kind: ItemKind) -> ItemKind
        ensures { result ≡ kind_copy self.now kind }
    {
        match kind {
            ItemKind::Ty(ty) => ItemKind::Ty(self.ty(ty)),
            ItemKind::Func(id) => ItemKind::Func(self.func_type(id)),
            ItemKind::Instance(id) => ItemKind::Instance(self.interface(id)),
            ItemKind::Component(id) => ItemKind::Component(self.world(id)),
            ItemKind::Module(id) => ItemKind::Module(self.module_type(id)),
            ItemKind::Value(value) => ItemKind::Value(self.value(value)),
        }
    }

    fn has_value(&self, ty: ValueType) -> bool
        ensures { result ≡ is_some (known self.now (ItemKind.Value ty)) }
    {
        match ty {
            ValueType::Primitive(_) => true,
            ValueType::Borrow(id) => self.resources.contains_key(&id.index),
            ValueType::Own(id) => self.resources.contains_key(&id.index),
            ValueType::Defined(id) => self.defined_types.contains_key(&id.index),
        }
    }

    /// Whether what the kind names has a copy.
    pub(crate) fn has(&self, kind: ItemKind) -> bool
        ensures { result ≡ is_some (known self.now kind) }
    {
        match kind {
            ItemKind::Ty(Type::Resource(id)) => self.resources.contains_key(&id.index),
            ItemKind::Ty(Type::Func(id)) => self.func_types.contains_key(&id.index),
            ItemKind::Ty(Type::Value(value)) => self.has_value(value),
            ItemKind::Ty(Type::Interface(id)) => self.interfaces.contains_key(&id.index),
            ItemKind::Ty(Type::World(id)) => self.worlds.contains_key(&id.index),
            ItemKind::Ty(Type::Module(id)) => self.modules.contains_key(&id.index),
            ItemKind::Func(id) => self.func_types.contains_key(&id.index),
            ItemKind::Instance(id) => self.interfaces.contains_key(&id.index),
            ItemKind::Component(id) => self.worlds.contains_key(&id.index),
            ItemKind::Module(id) => self.modules.contains_key(&id.index),
            ItemKind::Value(value) => self.has_value(value),
        }
    }
}
