//! Types under another number.

ghost use Rattle.std.specs.Prelude.{◌≡◌, IfOk};
ghost use Rattle.wac_types_base.specs.declared.item.ItemKind.{ItemKind};
ghost use Rattle.wac_types_base.specs.Collection.{Stands};
ghost use Rattle.wac_types_base.specs.Kept.{keeping};
ghost use Rattle.wac_types_base.specs.Copying.{IsCopy};
ghost use Rattle.wac_types_base.specs.Renaming.{under, value_renamed, type_renamed, kind_under, renumbered};

use crate::copies::Copies;
use crate::ids::{DefinedTypeId, FuncTypeId, InterfaceId, ModuleTypeId, ResourceId, WorldId};
use crate::item::{ItemKind, Type, ValueType};
use crate::remap::remap_entries;
use crate::types::Types;
use std::alloc::{AllocError, Global};

impl Types {
    /// The same types under another number: each entry at its index, and each id in it with that number.
    pub fn copy_as(&self, alloc: Global, number: u64) -> Result<Types, AllocError>
        ensures renumbered { IfOk result (λ t. t ≡ keeping t.kept (renumbered number self.now)) }
        ensures copied { IfOk result (λ t. (k : ItemKind) → Stands self.now k → IsCopy self.now t k (kind_under number k)) }
    {
        self.see_acyclic();
        let same_indexes = Copies::new(alloc, number);
        let defined_types = remap_entries(alloc, &self.defined_types, &same_indexes)?;
        let resources = remap_entries(alloc, &self.resources, &same_indexes)?;
        let func_types = remap_entries(alloc, &self.func_types, &same_indexes)?;
        let interfaces = remap_entries(alloc, &self.interfaces, &same_indexes)?;
        let worlds = remap_entries(alloc, &self.worlds, &same_indexes)?;
        let modules = remap_entries(alloc, &self.modules, &same_indexes)?;
        Ok(Types {
            number,
            defined_types,
            resources,
            func_types,
            interfaces,
            worlds,
            modules,
        })
    }
}

impl DefinedTypeId {
    /// The id with this number.
    pub fn under(self, number: u64) -> DefinedTypeId
        ensures { result ≡ (under number).defined_type self }
    {
        DefinedTypeId {
            collection: number,
            index: self.index,
        }
    }
}

impl ResourceId {
    /// The id with this number.
    pub fn under(self, number: u64) -> ResourceId
        ensures { result ≡ (under number).resource self }
    {
        ResourceId {
            collection: number,
            index: self.index,
        }
    }
}

impl FuncTypeId {
    /// The id with this number.
    pub fn under(self, number: u64) -> FuncTypeId
        ensures { result ≡ (under number).func_type self }
    {
        FuncTypeId {
            collection: number,
            index: self.index,
        }
    }
}

impl InterfaceId {
    /// The id with this number.
    pub fn under(self, number: u64) -> InterfaceId
        ensures { result ≡ (under number).interface self }
    {
        InterfaceId {
            collection: number,
            index: self.index,
        }
    }
}

impl WorldId {
    /// The id with this number.
    pub fn under(self, number: u64) -> WorldId
        ensures { result ≡ (under number).world self }
    {
        WorldId {
            collection: number,
            index: self.index,
        }
    }
}

impl ModuleTypeId {
    /// The id with this number.
    pub fn under(self, number: u64) -> ModuleTypeId
        ensures { result ≡ (under number).module_type self }
    {
        ModuleTypeId {
            collection: number,
            index: self.index,
        }
    }
}

impl ValueType {
    /// The value type with this number in its id.
    pub fn under(self, number: u64) -> ValueType
        ensures { result ≡ value_renamed (under number) self }
    {
        match self {
            ValueType::Primitive(_) => self,
            ValueType::Borrow(id) => ValueType::Borrow(id.under(number)),
            ValueType::Own(id) => ValueType::Own(id.under(number)),
            ValueType::Defined(id) => ValueType::Defined(id.under(number)),
        }
    }
}

impl Type {
    /// The type with this number in its id.
    pub fn under(self, number: u64) -> Type
        ensures { result ≡ type_renamed (under number) self }
    {
        match self {
            Type::Resource(id) => Type::Resource(id.under(number)),
            Type::Func(id) => Type::Func(id.under(number)),
            Type::Value(value) => Type::Value(value.under(number)),
            Type::Interface(id) => Type::Interface(id.under(number)),
            Type::World(id) => Type::World(id.under(number)),
            Type::Module(id) => Type::Module(id.under(number)),
        }
    }
}

impl ItemKind {
    /// The kind with this number in its id.
    pub fn under(self, number: u64) -> ItemKind
        ensures { result ≡ kind_under number self }
    {
        match self {
            ItemKind::Ty(ty) => ItemKind::Ty(ty.under(number)),
            ItemKind::Func(id) => ItemKind::Func(id.under(number)),
            ItemKind::Instance(id) => ItemKind::Instance(id.under(number)),
            ItemKind::Component(id) => ItemKind::Component(id.under(number)),
            ItemKind::Module(id) => ItemKind::Module(id.under(number)),
            ItemKind::Value(value) => ItemKind::Value(value.under(number)),
        }
    }
}
