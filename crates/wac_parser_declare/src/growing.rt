//! Collections that grow.
#![tactic(auto, using(crate::proofs::Added::added))]

ghost use Rattle.std.specs.Prelude.{◌≡◌, IfOk, None};
ghost use Rattle.std.specs.Coded.{coded_ℕ};
ghost use Rattle.wac_types_base.specs.declared.item.ItemKind.{ItemKind};
ghost use Rattle.wac_types_base.specs.declared.item.ValueType.{ValueType};
ghost use Rattle.wac_types_base.specs.declared.item.«Type».{«Type» as TypeKind};
ghost use Rattle.wac_types_base.specs.Record.{Collection};
ghost use Rattle.wac_types_base.specs.Collection.{HasChildren, Grows, SlotStands, func_entry, interface_entry, world_entry, defined_entry, resource_entry};
ghost use Rattle.wac_parser_declare.specs.Added.{HasDefined, HasFunc, HasInterface, HasResource, HasWorld, IsNew};
ghost use Rattle.wac_parser_declare.specs.Packages.{IsDefinition, Known, SamePackages};

use std::alloc::{AllocError, Global};
use wac_parser_refusals::Outcome;
use wac_parser_tree::PackagePath;
use wac_types_base::{
    DefinedType, DefinedTypeId, FuncType, FuncTypeId, Interface, InterfaceId, ItemKind, Resource,
    ResourceId, Types, World, WorldId,
};

/// A collection of types to which entries can be added, and nothing else done.
pub trait GrowingTypes {
    ghost collection: { Self → Collection };

    ghost packages: { Self → Known };

    /// The collection.
    fn types(&self) -> &Types
        ensures { result.now ≡ collection self.now };

    /// Adds a defined type, all of whose ids stand here.
    fn add_defined_type(&mut self, ty: DefinedType) -> Result<DefinedTypeId, AllocError>
        requires { HasChildren (collection self.old) (defined_entry ty) }
        ensures node { IfOk result (HasDefined (collection self.new) ty) }
        ensures fresh { IfOk result (λ i. IsNew (collection self.old) (ItemKind.Value (ValueType.Defined i))) }
        ensures grows { Grows (collection self.old) (collection self.new) }
        ensures packages { SamePackages (packages self.old) (packages self.new) };

    /// Adds a resource, all of whose ids stand here.
    fn add_resource(&mut self, resource: Resource) -> Result<ResourceId, AllocError>
        requires { HasChildren (collection self.old) (resource_entry resource) }
        ensures node { IfOk result (HasResource (collection self.new) resource) }
        ensures fresh { IfOk result (λ i. IsNew (collection self.old) (ItemKind.Ty (TypeKind.Resource i))) }
        ensures grows { Grows (collection self.old) (collection self.new) }
        ensures packages { SamePackages (packages self.old) (packages self.new) };

    /// Adds a function type, all of whose ids stand here.
    fn add_func_type(&mut self, func: FuncType) -> Result<FuncTypeId, AllocError>
        requires { HasChildren (collection self.old) (func_entry func) }
        ensures node { IfOk result (HasFunc (collection self.new) func) }
        ensures fresh { IfOk result (λ i. IsNew (collection self.old) (ItemKind.Func i)) }
        ensures grows { Grows (collection self.old) (collection self.new) }
        ensures packages { SamePackages (packages self.old) (packages self.new) };

    /// Adds an interface, all of whose ids stand here.
    fn add_interface(&mut self, interface: Interface) -> Result<InterfaceId, AllocError>
        requires { HasChildren (collection self.old) (interface_entry interface) }
        ensures node { IfOk result (HasInterface (collection self.new) interface) }
        ensures fresh { IfOk result (λ i. IsNew (collection self.old) (ItemKind.Instance i)) }
        ensures grows { Grows (collection self.old) (collection self.new) }
        ensures packages { SamePackages (packages self.old) (packages self.new) };

    /// Adds a world, all of whose ids stand here.
    fn add_world(&mut self, world: World) -> Result<WorldId, AllocError>
        requires { HasChildren (collection self.old) (world_entry world) }
        ensures node { IfOk result (HasWorld (collection self.new) world) }
        ensures fresh { IfOk result (λ i. IsNew (collection self.old) (ItemKind.Component i)) }
        ensures grows { Grows (collection self.old) (collection self.new) }
        ensures packages { SamePackages (packages self.old) (packages self.new) };
}

/// A collection that grows, with the packages that a document may name.
pub trait PackagedTypes: GrowingTypes {
    /// The item that a package defines under a name, if it does. The package comes in at its first use, and is refused
    /// where nobody knows it.
    fn definition(
        &mut self,
        alloc: Global,
        path: &PackagePath<'_>,
        name: &str,
    ) -> Outcome<Option<ItemKind>>
        ensures outcome { IsDefinition path.now name.now (Self.packages self.old) (Self.collection self.new) result }
        ensures stands { IfOk result (λ o. SlotStands (Self.collection self.new) o) }
        ensures grows { Grows (Self.collection self.old) (Self.collection self.new) }
        ensures packages { SamePackages (Self.packages self.old) (Self.packages self.new) };
}

impl GrowingTypes for Types {
    ghost collection = { λ c. c };

    ghost packages = { λ c. record { packages = λ k. None; rest = λ k. coded_ℕ.code 0 } };

    fn types(&self) -> &Types {
        self
    }

    fn add_defined_type(&mut self, ty: DefinedType) -> Result<DefinedTypeId, AllocError> {
        Types::add_defined_type(self, ty)
    }

    fn add_resource(&mut self, resource: Resource) -> Result<ResourceId, AllocError> {
        Types::add_resource(self, resource)
    }

    fn add_func_type(&mut self, func: FuncType) -> Result<FuncTypeId, AllocError> {
        Types::add_func_type(self, func)
    }

    fn add_interface(&mut self, interface: Interface) -> Result<InterfaceId, AllocError> {
        Types::add_interface(self, interface)
    }

    fn add_world(&mut self, world: World) -> Result<WorldId, AllocError> {
        Types::add_world(self, world)
    }
}
