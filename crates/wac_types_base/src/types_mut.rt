//! A collection that is lent for adding alone.

ghost use Rattle.std.specs.Prelude.{◌≡◌, ◌∷◌, ◌++◌, [], OnOk, OnErr, IfOk, length};
ghost use Rattle.wac_types_base.specs.Kept.{keeping, KeepsDefinedType, KeepsResource, KeepsFuncType, KeepsInterface, KeepsWorld, KeepsModuleType};
ghost use Rattle.wac_types_base.specs.Collection.{HasChildren, Grows, func_entry, interface_entry, world_entry, defined_entry, resource_entry};

use crate::core_types::ModuleType;
use crate::defined::{DefinedType, FuncType, Interface, Resource, World};
use crate::ids::{DefinedTypeId, FuncTypeId, InterfaceId, ModuleTypeId, ResourceId, WorldId};
use crate::types::Types;
use std::alloc::AllocError;

/// A collection that is lent for adding alone: no entry can be replaced through it.
#[derive(Drop)]
pub struct TypesMut<'a> {
    pub(crate) types: &'a mut Types,
}

impl Types {
    /// Lends the collection for adding.
    pub fn adding(&mut self) -> TypesMut<'_>
        ensures types { result.types.now ≡ self.entry.now }
        ensures same_reference { result.types.ghost_name ≡ self.entry.ghost_name }
    {
        TypesMut { types: self }
    }
}

impl<'a> TypesMut<'a> {
    /// The number of the collection.
    pub fn number(&self) -> u64
        ensures { result ≡ self.now.types.now.number }
    {
        self.types.number()
    }

    /// The collection.
    pub fn types(&self) -> &Types
        ensures { result.now ≡ self.now.types.now }
    {
        self.types
    }

    /// Adds a defined type, all of whose ids stand here.
    pub fn add_defined_type(&mut self, ty: DefinedType) -> Result<DefinedTypeId, AllocError>
        requires { HasChildren self.old.types.now (defined_entry ty) }
        ensures added { OnOk result (self.new.types.now ≡ keeping self.new.types.now.kept
            (record self.old.types.now { defined_types = self.old.types.now.defined_types ++ ty ∷ [] })) }
        ensures kept { OnOk result (KeepsDefinedType self.old.types.now.kept self.new.types.now.kept ty) }
        ensures id { IfOk result
            (λ i. i ≡ record { collection = self.old.types.now.number; index = length self.old.types.now.defined_types }) }
        ensures err { OnErr result (self.new.types.now ≡ self.old.types.now) }
        ensures grows { Grows self.old.types.now self.new.types.now }
        ensures same_reference { self.new.types.ghost_name ≡ self.old.types.ghost_name }
    {
        self.types.add_defined_type(ty)
    }

    /// Adds a resource, all of whose ids stand here.
    pub fn add_resource(&mut self, resource: Resource) -> Result<ResourceId, AllocError>
        requires { HasChildren self.old.types.now (resource_entry resource) }
        ensures added { OnOk result (self.new.types.now ≡ keeping self.new.types.now.kept
            (record self.old.types.now { resources = self.old.types.now.resources ++ resource ∷ [] })) }
        ensures kept { OnOk result (KeepsResource self.old.types.now.kept self.new.types.now.kept resource) }
        ensures id { IfOk result
            (λ i. i ≡ record { collection = self.old.types.now.number; index = length self.old.types.now.resources }) }
        ensures err { OnErr result (self.new.types.now ≡ self.old.types.now) }
        ensures grows { Grows self.old.types.now self.new.types.now }
        ensures same_reference { self.new.types.ghost_name ≡ self.old.types.ghost_name }
    {
        self.types.add_resource(resource)
    }

    /// Adds a function type, all of whose ids stand here.
    pub fn add_func_type(&mut self, func: FuncType) -> Result<FuncTypeId, AllocError>
        requires { HasChildren self.old.types.now (func_entry func) }
        ensures added { OnOk result (self.new.types.now ≡ keeping self.new.types.now.kept
            (record self.old.types.now { func_types = self.old.types.now.func_types ++ func ∷ [] })) }
        ensures kept { OnOk result (KeepsFuncType self.old.types.now.kept self.new.types.now.kept func) }
        ensures id { IfOk result
            (λ i. i ≡ record { collection = self.old.types.now.number; index = length self.old.types.now.func_types }) }
        ensures err { OnErr result (self.new.types.now ≡ self.old.types.now) }
        ensures grows { Grows self.old.types.now self.new.types.now }
        ensures same_reference { self.new.types.ghost_name ≡ self.old.types.ghost_name }
    {
        self.types.add_func_type(func)
    }

    /// Adds an interface, all of whose ids stand here.
    pub fn add_interface(&mut self, interface: Interface) -> Result<InterfaceId, AllocError>
        requires { HasChildren self.old.types.now (interface_entry interface) }
        ensures added { OnOk result (self.new.types.now ≡ keeping self.new.types.now.kept
            (record self.old.types.now { interfaces = self.old.types.now.interfaces ++ interface ∷ [] })) }
        ensures kept { OnOk result (KeepsInterface self.old.types.now.kept self.new.types.now.kept interface) }
        ensures id { IfOk result
            (λ i. i ≡ record { collection = self.old.types.now.number; index = length self.old.types.now.interfaces }) }
        ensures err { OnErr result (self.new.types.now ≡ self.old.types.now) }
        ensures grows { Grows self.old.types.now self.new.types.now }
        ensures same_reference { self.new.types.ghost_name ≡ self.old.types.ghost_name }
    {
        self.types.add_interface(interface)
    }

    /// Adds a world, all of whose ids stand here.
    pub fn add_world(&mut self, world: World) -> Result<WorldId, AllocError>
        requires { HasChildren self.old.types.now (world_entry world) }
        ensures added { OnOk result (self.new.types.now ≡ keeping self.new.types.now.kept
            (record self.old.types.now { worlds = self.old.types.now.worlds ++ world ∷ [] })) }
        ensures kept { OnOk result (KeepsWorld self.old.types.now.kept self.new.types.now.kept world) }
        ensures id { IfOk result
            (λ i. i ≡ record { collection = self.old.types.now.number; index = length self.old.types.now.worlds }) }
        ensures err { OnErr result (self.new.types.now ≡ self.old.types.now) }
        ensures grows { Grows self.old.types.now self.new.types.now }
        ensures same_reference { self.new.types.ghost_name ≡ self.old.types.ghost_name }
    {
        self.types.add_world(world)
    }

    /// Adds a module type.
    pub fn add_module_type(&mut self, ty: ModuleType) -> Result<ModuleTypeId, AllocError>
        ensures added { OnOk result (self.new.types.now ≡ keeping self.new.types.now.kept
            (record self.old.types.now { modules = self.old.types.now.modules ++ ty ∷ [] })) }
        ensures kept { OnOk result (KeepsModuleType self.old.types.now.kept self.new.types.now.kept ty) }
        ensures id { IfOk result
            (λ i. i ≡ record { collection = self.old.types.now.number; index = length self.old.types.now.modules }) }
        ensures err { OnErr result (self.new.types.now ≡ self.old.types.now) }
        ensures grows { Grows self.old.types.now self.new.types.now }
        ensures same_reference { self.new.types.ghost_name ≡ self.old.types.ghost_name }
    {
        self.types.add_module_type(ty)
    }
}
