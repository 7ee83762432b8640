//! A collection of types.

ghost use Rattle.std.specs.Prelude.{◌≡◌, ◌∷◌, ◌++◌, [], OnOk, OnErr, IfOk, length, IsTrue, IsSome, ◌↔◌, All, slice_get, Some, ◌&&◌, ◌==◌, nat_lt, is_some};
ghost use Rattle.wac_types_base.specs.Record.{Collection};
ghost use Rattle.wac_types_base.specs.Kept.{keeping, KeepsDefinedType, KeepsResource, KeepsFuncType, KeepsInterface, KeepsWorld, KeepsModuleType};
ghost use Rattle.wac_types_base.specs.Collection.{Stands, IsAcyclic, empty, HasChildren, Grows, item_node, func_entry, interface_entry, world_entry, defined_entry, resource_entry};

use crate::core_types::ModuleType;
use crate::defined::{DefinedType, FuncType, Interface, Resource, World};
use crate::entries::{Entries, EntryIter};
use crate::ids::{DefinedTypeId, FuncTypeId, InterfaceId, ModuleTypeId, ResourceId, WorldId};
use crate::item::{ItemKind, Type, ValueType};
use std::alloc::{AllocError, Global};
use std::marker::Model;
use std::ops::Index;

/// A collection of types: six lists, under a number that the caller chose. Its ids carry the number. Equal entries are kept
/// once, behind all ids that were given for them.
pub struct Types {
    pub(crate) number: u64,
    pub(crate) defined_types: Entries<DefinedType>,
    pub(crate) resources: Entries<Resource>,
    pub(crate) func_types: Entries<FuncType>,
    pub(crate) interfaces: Entries<Interface>,
    pub(crate) worlds: Entries<World>,
    pub(crate) modules: Entries<ModuleType>,
}

impl Drop for Types {
    fn drop(self) {
        let Types {
            number: _,
            defined_types: _,
            resources: _,
            func_types: _,
            interfaces: _,
            worlds: _,
            modules: _,
        } = self;
    }
}

impl Model for Types {
    ghost use Rattle.wac_types_base.specs.Record.{Collection};

    ghost Value = { Collection };

    ghost use Rattle.wac_types_base.specs.View.{collection, IsSound};

    ghost view = { collection };

    ghost invariant = { IsSound };
}

impl Types {
    /// No types yet.
    pub fn new(alloc: Global, number: u64) -> Self
        ensures { result ≡ empty number }
    {
        Types {
            number,
            defined_types: Entries::new(alloc),
            resources: Entries::new(alloc),
            func_types: Entries::new(alloc),
            interfaces: Entries::new(alloc),
            worlds: Entries::new(alloc),
            modules: Entries::new(alloc),
        }
    }

    /// The number that `new` was given.
    pub fn number(&self) -> u64
        ensures { result ≡ self.now.number }
    {
        self.number
    }

    /// Nothing reaches itself here. It does nothing: its contract tells so.
    pub fn see_acyclic(&self)
        ensures { IsAcyclic self.now }
    {
        let _ = &self.number;
    }
}

// Each entry that is added may hold ids of this collection alone, which `contains` tests.
impl Types {
    /// Adds a defined type, all of whose ids stand here.
    pub fn add_defined_type(&mut self, ty: DefinedType) -> Result<DefinedTypeId, AllocError>
        requires { HasChildren self.old (defined_entry ty) }
        ensures added { OnOk result
            (self.new ≡ keeping self.new.kept (record self.old { defined_types = self.old.defined_types ++ ty ∷ [] })) }
        ensures kept { OnOk result (KeepsDefinedType self.old.kept self.new.kept ty) }
        ensures id { IfOk result (λ i. i ≡ record { collection = self.old.number; index = length self.old.defined_types }) }
        ensures err { OnErr result (self.new ≡ self.old) }
        ensures grows { Grows self.old self.new }
    {
        let index = self.defined_types.push(ty)?;
        Ok(DefinedTypeId {
            collection: self.number,
            index,
        })
    }

    /// Adds a resource, all of whose ids stand here.
    pub fn add_resource(&mut self, resource: Resource) -> Result<ResourceId, AllocError>
        requires { HasChildren self.old (resource_entry resource) }
        ensures added { OnOk result
            (self.new ≡ keeping self.new.kept (record self.old { resources = self.old.resources ++ resource ∷ [] })) }
        ensures kept { OnOk result (KeepsResource self.old.kept self.new.kept resource) }
        ensures id { IfOk result (λ i. i ≡ record { collection = self.old.number; index = length self.old.resources }) }
        ensures err { OnErr result (self.new ≡ self.old) }
        ensures grows { Grows self.old self.new }
    {
        let index = self.resources.push(resource)?;
        Ok(ResourceId {
            collection: self.number,
            index,
        })
    }

    /// Adds a function type, all of whose ids stand here.
    pub fn add_func_type(&mut self, func: FuncType) -> Result<FuncTypeId, AllocError>
        requires { HasChildren self.old (func_entry func) }
        ensures added { OnOk result
            (self.new ≡ keeping self.new.kept (record self.old { func_types = self.old.func_types ++ func ∷ [] })) }
        ensures kept { OnOk result (KeepsFuncType self.old.kept self.new.kept func) }
        ensures id { IfOk result (λ i. i ≡ record { collection = self.old.number; index = length self.old.func_types }) }
        ensures err { OnErr result (self.new ≡ self.old) }
        ensures grows { Grows self.old self.new }
    {
        let index = self.func_types.push(func)?;
        Ok(FuncTypeId {
            collection: self.number,
            index,
        })
    }

    /// Adds an interface, all of whose ids stand here.
    pub fn add_interface(&mut self, interface: Interface) -> Result<InterfaceId, AllocError>
        requires { HasChildren self.old (interface_entry interface) }
        ensures added { OnOk result
            (self.new ≡ keeping self.new.kept (record self.old { interfaces = self.old.interfaces ++ interface ∷ [] })) }
        ensures kept { OnOk result (KeepsInterface self.old.kept self.new.kept interface) }
        ensures id { IfOk result (λ i. i ≡ record { collection = self.old.number; index = length self.old.interfaces }) }
        ensures err { OnErr result (self.new ≡ self.old) }
        ensures grows { Grows self.old self.new }
    {
        let index = self.interfaces.push(interface)?;
        Ok(InterfaceId {
            collection: self.number,
            index,
        })
    }

    /// Adds a world, all of whose ids stand here.
    pub fn add_world(&mut self, world: World) -> Result<WorldId, AllocError>
        requires { HasChildren self.old (world_entry world) }
        ensures added { OnOk result
            (self.new ≡ keeping self.new.kept (record self.old { worlds = self.old.worlds ++ world ∷ [] })) }
        ensures kept { OnOk result (KeepsWorld self.old.kept self.new.kept world) }
        ensures id { IfOk result (λ i. i ≡ record { collection = self.old.number; index = length self.old.worlds }) }
        ensures err { OnErr result (self.new ≡ self.old) }
        ensures grows { Grows self.old self.new }
    {
        let index = self.worlds.push(world)?;
        Ok(WorldId {
            collection: self.number,
            index,
        })
    }

    /// Adds a module type.
    pub fn add_module_type(&mut self, ty: ModuleType) -> Result<ModuleTypeId, AllocError>
        ensures added { OnOk result
            (self.new ≡ keeping self.new.kept (record self.old { modules = self.old.modules ++ ty ∷ [] })) }
        ensures kept { OnOk result (KeepsModuleType self.old.kept self.new.kept ty) }
        ensures id { IfOk result (λ i. i ≡ record { collection = self.old.number; index = length self.old.modules }) }
        ensures err { OnErr result (self.new ≡ self.old) }
        ensures grows { Grows self.old self.new }
    {
        let index = self.modules.push(ty)?;
        Ok(ModuleTypeId {
            collection: self.number,
            index,
        })
    }
}

fn is_within(number: u64, len: usize, collection: u64, index: usize) -> bool
    ensures { result ≡ ((collection == number) && nat_lt index len) }
{
    collection == number && index < len
}

impl Types {
    /// Whether the value type stands here.
    #[tactic(auto, using(crate::proofs::Standing::standing))]
    pub fn contains_value(&self, ty: ValueType) -> bool
        ensures { result ≡ is_some (item_node self.now (ItemKind.Value ty)) }
    {
        match ty {
            ValueType::Primitive(_) => true,
            ValueType::Borrow(id) => is_within(
                self.number,
                self.resources.len(),
                id.collection,
                id.index,
            ),
            ValueType::Own(id) => is_within(
                self.number,
                self.resources.len(),
                id.collection,
                id.index,
            ),
            ValueType::Defined(id) => is_within(
                self.number,
                self.defined_types.len(),
                id.collection,
                id.index,
            ),
        }
    }

    /// Whether the type stands here: its id carries this number, and has an entry.
    #[tactic(auto, using(crate::proofs::Standing::standing))]
    pub fn contains(&self, ty: Type) -> bool
        ensures { IsTrue result ↔ Stands self.now (ItemKind.Ty ty) }
    {
        match ty {
            Type::Resource(id) => is_within(
                self.number,
                self.resources.len(),
                id.collection,
                id.index,
            ),
            Type::Func(id) => is_within(
                self.number,
                self.func_types.len(),
                id.collection,
                id.index,
            ),
            Type::Value(value) => self.contains_value(value),
            Type::Interface(id) => is_within(
                self.number,
                self.interfaces.len(),
                id.collection,
                id.index,
            ),
            Type::World(id) => is_within(self.number, self.worlds.len(), id.collection, id.index),
            Type::Module(id) => is_within(self.number, self.modules.len(), id.collection, id.index),
        }
    }
}

impl Types {
    /// The defined type of an id that stands here.
    pub fn defined_type(&self, id: DefinedTypeId) -> &DefinedType
        requires { Stands self.now (ItemKind.Value (ValueType.Defined id)) }
        ensures entry { slice_get self.now.defined_types id.index ≡ Some result.now }
        ensures own { id.collection ≡ self.now.number }
        ensures acyclic { IsAcyclic self.now }
    {
        self.defined_types.get(id.index)
    }

    /// The resource of an id that stands here.
    pub fn resource(&self, id: ResourceId) -> &Resource
        requires { Stands self.now (ItemKind.Ty (Type.Resource id)) }
        ensures entry { slice_get self.now.resources id.index ≡ Some result.now }
        ensures own { id.collection ≡ self.now.number }
        ensures acyclic { IsAcyclic self.now }
    {
        self.resources.get(id.index)
    }

    /// The function type of an id that stands here.
    pub fn func_type(&self, id: FuncTypeId) -> &FuncType
        requires { Stands self.now (ItemKind.Func id) }
        ensures entry { slice_get self.now.func_types id.index ≡ Some result.now }
        ensures own { id.collection ≡ self.now.number }
        ensures acyclic { IsAcyclic self.now }
    {
        self.func_types.get(id.index)
    }

    /// The interface of an id that stands here.
    pub fn interface(&self, id: InterfaceId) -> &Interface
        requires { Stands self.now (ItemKind.Instance id) }
        ensures entry { slice_get self.now.interfaces id.index ≡ Some result.now }
        ensures own { id.collection ≡ self.now.number }
        ensures acyclic { IsAcyclic self.now }
    {
        self.interfaces.get(id.index)
    }

    /// The world of an id that stands here.
    pub fn world(&self, id: WorldId) -> &World
        requires { Stands self.now (ItemKind.Component id) }
        ensures entry { slice_get self.now.worlds id.index ≡ Some result.now }
        ensures own { id.collection ≡ self.now.number }
        ensures acyclic { IsAcyclic self.now }
    {
        self.worlds.get(id.index)
    }

    /// The module type of an id that stands here.
    pub fn module_type(&self, id: ModuleTypeId) -> &ModuleType
        requires { Stands self.now (ItemKind.Module id) }
        ensures entry { slice_get self.now.modules id.index ≡ Some result.now }
        ensures own { id.collection ≡ self.now.number }
        ensures acyclic { IsAcyclic self.now }
    {
        self.modules.get(id.index)
    }
}

// The entries, in order of adding.
impl Types {
    /// The defined types.
    pub fn defined_types(&self) -> EntryIter<'_, DefinedType>
        ensures { result ≡ self.now.defined_types }
    {
        self.defined_types.iter()
    }

    /// The resources.
    pub fn resources(&self) -> EntryIter<'_, Resource>
        ensures { result ≡ self.now.resources }
    {
        self.resources.iter()
    }

    /// The function types.
    pub fn func_types(&self) -> EntryIter<'_, FuncType>
        ensures { result ≡ self.now.func_types }
    {
        self.func_types.iter()
    }

    /// The interfaces.
    pub fn interfaces(&self) -> EntryIter<'_, Interface>
        ensures { result ≡ self.now.interfaces }
    {
        self.interfaces.iter()
    }

    /// The worlds.
    pub fn worlds(&self) -> EntryIter<'_, World>
        ensures { result ≡ self.now.worlds }
    {
        self.worlds.iter()
    }

    /// The module types.
    pub fn modules(&self) -> EntryIter<'_, ModuleType>
        ensures { result ≡ self.now.modules }
    {
        self.modules.iter()
    }
}

impl Index<DefinedTypeId> for Types {
    type Output = DefinedType;

    ghost use Rattle.std.specs.Prelude.{◌≡◌, slice_get, Some};
    ghost use Rattle.wac_types_base.specs.declared.item.ItemKind.{ItemKind};
    ghost use Rattle.wac_types_base.specs.declared.item.ValueType.{ValueType};
    ghost use Rattle.wac_types_base.specs.Collection.{Stands, IsAcyclic};

    ghost can_index = { λ c id. Stands c (ItemKind.Value (ValueType.Defined id)) };

    ghost index_gives = { λ c id found. (slice_get c.defined_types id.index ≡ Some found)
        × (id.collection ≡ c.number) × IsAcyclic c };

    fn index(&self, id: DefinedTypeId) -> &DefinedType {
        self.defined_type(id)
    }
}

impl Index<ResourceId> for Types {
    type Output = Resource;

    ghost use Rattle.std.specs.Prelude.{◌≡◌, slice_get, Some};
    ghost use Rattle.wac_types_base.specs.declared.item.ItemKind.{ItemKind};
    ghost use Rattle.wac_types_base.specs.declared.item.«Type».{«Type» as TypeKind};
    ghost use Rattle.wac_types_base.specs.Collection.{Stands, IsAcyclic};

    ghost can_index = { λ c id. Stands c (ItemKind.Ty (TypeKind.Resource id)) };

    ghost index_gives = { λ c id found. (slice_get c.resources id.index ≡ Some found)
        × (id.collection ≡ c.number) × IsAcyclic c };

    fn index(&self, id: ResourceId) -> &Resource {
        self.resource(id)
    }
}

impl Index<FuncTypeId> for Types {
    type Output = FuncType;

    ghost use Rattle.std.specs.Prelude.{◌≡◌, slice_get, Some};
    ghost use Rattle.wac_types_base.specs.declared.item.ItemKind.{ItemKind};
    ghost use Rattle.wac_types_base.specs.Collection.{Stands, IsAcyclic};

    ghost can_index = { λ c id. Stands c (ItemKind.Func id) };

    ghost index_gives = { λ c id found. (slice_get c.func_types id.index ≡ Some found)
        × (id.collection ≡ c.number) × IsAcyclic c };

    fn index(&self, id: FuncTypeId) -> &FuncType {
        self.func_type(id)
    }
}

impl Index<InterfaceId> for Types {
    type Output = Interface;

    ghost use Rattle.std.specs.Prelude.{◌≡◌, slice_get, Some};
    ghost use Rattle.wac_types_base.specs.declared.item.ItemKind.{ItemKind};
    ghost use Rattle.wac_types_base.specs.Collection.{Stands, IsAcyclic};

    ghost can_index = { λ c id. Stands c (ItemKind.Instance id) };

    ghost index_gives = { λ c id found. (slice_get c.interfaces id.index ≡ Some found)
        × (id.collection ≡ c.number) × IsAcyclic c };

    fn index(&self, id: InterfaceId) -> &Interface {
        self.interface(id)
    }
}

impl Index<WorldId> for Types {
    type Output = World;

    ghost use Rattle.std.specs.Prelude.{◌≡◌, slice_get, Some};
    ghost use Rattle.wac_types_base.specs.declared.item.ItemKind.{ItemKind};
    ghost use Rattle.wac_types_base.specs.Collection.{Stands, IsAcyclic};

    ghost can_index = { λ c id. Stands c (ItemKind.Component id) };

    ghost index_gives = { λ c id found. (slice_get c.worlds id.index ≡ Some found)
        × (id.collection ≡ c.number) × IsAcyclic c };

    fn index(&self, id: WorldId) -> &World {
        self.world(id)
    }
}

impl Index<ModuleTypeId> for Types {
    type Output = ModuleType;

    ghost use Rattle.std.specs.Prelude.{◌≡◌, slice_get, Some};
    ghost use Rattle.wac_types_base.specs.declared.item.ItemKind.{ItemKind};
    ghost use Rattle.wac_types_base.specs.Collection.{Stands, IsAcyclic};

    ghost can_index = { λ c id. Stands c (ItemKind.Module id) };

    ghost index_gives = { λ c id found. (slice_get c.modules id.index ≡ Some found)
        × (id.collection ≡ c.number) × IsAcyclic c };

    fn index(&self, id: ModuleTypeId) -> &ModuleType {
        self.module_type(id)
    }
}
