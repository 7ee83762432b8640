//! The graph's collection, lent for adding alone.

ghost use Rattle.std.specs.Prelude.{◌≡◌, OnOk, OnErr, IfOk, option_map, option_copied};
ghost use Rattle.semver.specs.Identifiers.{parts_of};
ghost use Rattle.wac_types_base.specs.Collection.{Stands, HasChildren, func_entry, interface_entry, world_entry, defined_entry, resource_entry};
ghost use Rattle.wac_types_base.specs.Kept.{KeepsDefinedType, KeepsResource, KeepsFuncType, KeepsInterface, KeepsWorld, KeepsModuleType};
ghost use Rattle.wac_types_base.specs.declared.item.ItemKind.{ItemKind};
ghost use Rattle.wac_types_names.specs.Packages.{DefinitionsOf};
ghost use Rattle.wac_graph_core.specs.Graph.{PackageStands};
ghost use Rattle.wac_graph_core.specs.Types.{Enlarges, AddsInstanceType, IsWorldCopy};
ghost use Rattle.wac_graph_core.specs.Types.{AddsDefinedType, AddsResource, AddsFuncType, AddsInterface, AddsWorld, AddsModuleType};
ghost use Rattle.wac_graph_core.specs.Types.{next_defined_type, next_resource, next_func_type, next_interface, next_world, next_module_type};

use crate::graph::CompositionGraph;
use semver::Version;
use std::alloc::{AllocError, Global};
use wac_types_base::{
    DefinedType, DefinedTypeId, FuncType, FuncTypeId, Interface, InterfaceId, ModuleType,
    ModuleTypeId, Resource, ResourceId, Types, World, WorldId, copy_world,
};
use wac_types_names::{Adding, Package};

/// The collection of a graph, lent for adding alone: no entry can be replaced through it, and ids stay right.
#[derive(Drop)]
pub struct TypesMut<'a> {
    graph: &'a mut CompositionGraph,
}

impl CompositionGraph {
    /// Lends the collection for adding.
    pub fn types_mut(&mut self) -> TypesMut<'_>
        ensures graph { result.graph.now ≡ self.entry.now }
        ensures same_reference { result.graph.ghost_name ≡ self.entry.ghost_name }
    {
        TypesMut { graph: self }
    }
}

impl<'a> TypesMut<'a> {
    /// The number of the collection.
    pub fn number(&self) -> u64
        ensures { result ≡ self.now.graph.now.types.number }
    {
        self.graph.types().number()
    }

    /// The collection.
    pub fn types(&self) -> &Types
        ensures { result.now ≡ self.now.graph.now.types }
    {
        self.graph.types()
    }
}

// The graph adds to its collection.
impl CompositionGraph {
    fn add_defined_type(&mut self, ty: DefinedType) -> Result<DefinedTypeId, AllocError>
        requires { HasChildren self.old.types (defined_entry ty) }
        ensures added { OnOk result (AddsDefinedType self.old self.new ty) }
        ensures kept { OnOk result (KeepsDefinedType self.old.types.kept self.new.types.kept ty) }
        ensures id { IfOk result (λ i. i ≡ next_defined_type self.old.types) }
        ensures err { OnErr result (self.new ≡ self.old) }
        ensures grows { Enlarges self.old self.new }
    {
        self.types.see_acyclic();
        self.types.add_defined_type(ty)
    }

    fn add_resource(&mut self, resource: Resource) -> Result<ResourceId, AllocError>
        requires { HasChildren self.old.types (resource_entry resource) }
        ensures added { OnOk result (AddsResource self.old self.new resource) }
        ensures kept { OnOk result (KeepsResource self.old.types.kept self.new.types.kept resource) }
        ensures id { IfOk result (λ i. i ≡ next_resource self.old.types) }
        ensures err { OnErr result (self.new ≡ self.old) }
        ensures grows { Enlarges self.old self.new }
    {
        self.types.see_acyclic();
        self.types.add_resource(resource)
    }

    fn add_func_type(&mut self, func: FuncType) -> Result<FuncTypeId, AllocError>
        requires { HasChildren self.old.types (func_entry func) }
        ensures added { OnOk result (AddsFuncType self.old self.new func) }
        ensures kept { OnOk result (KeepsFuncType self.old.types.kept self.new.types.kept func) }
        ensures id { IfOk result (λ i. i ≡ next_func_type self.old.types) }
        ensures err { OnErr result (self.new ≡ self.old) }
        ensures grows { Enlarges self.old self.new }
    {
        self.types.see_acyclic();
        self.types.add_func_type(func)
    }

    fn add_interface(&mut self, interface: Interface) -> Result<InterfaceId, AllocError>
        requires { HasChildren self.old.types (interface_entry interface) }
        ensures added { OnOk result (AddsInterface self.old self.new interface) }
        ensures kept { OnOk result (KeepsInterface self.old.types.kept self.new.types.kept interface) }
        ensures id { IfOk result (λ i. i ≡ next_interface self.old.types) }
        ensures err { OnErr result (self.new ≡ self.old) }
        ensures grows { Enlarges self.old self.new }
    {
        self.types.see_acyclic();
        self.types.add_interface(interface)
    }

    fn add_world(&mut self, world: World) -> Result<WorldId, AllocError>
        requires { HasChildren self.old.types (world_entry world) }
        ensures added { OnOk result (AddsWorld self.old self.new world) }
        ensures kept { OnOk result (KeepsWorld self.old.types.kept self.new.types.kept world) }
        ensures id { IfOk result (λ i. i ≡ next_world self.old.types) }
        ensures err { OnErr result (self.new ≡ self.old) }
        ensures grows { Enlarges self.old self.new }
    {
        self.types.see_acyclic();
        self.types.add_world(world)
    }

    fn add_module_type(&mut self, ty: ModuleType) -> Result<ModuleTypeId, AllocError>
        ensures added { OnOk result (AddsModuleType self.old self.new ty) }
        ensures kept { OnOk result (KeepsModuleType self.old.types.kept self.new.types.kept ty) }
        ensures id { IfOk result (λ i. i ≡ next_module_type self.old.types) }
        ensures err { OnErr result (self.new ≡ self.old) }
        ensures grows { Enlarges self.old self.new }
    {
        self.types.see_acyclic();
        self.types.add_module_type(ty)
    }
}

impl<'a> TypesMut<'a> {
    /// Adds a defined type, all of whose ids stand here.
    pub fn add_defined_type(&mut self, ty: DefinedType) -> Result<DefinedTypeId, AllocError>
        requires { HasChildren self.old.graph.now.types (defined_entry ty) }
        ensures added { OnOk result (AddsDefinedType self.old.graph.now self.new.graph.now ty) }
        ensures kept { OnOk result (KeepsDefinedType self.old.graph.now.types.kept self.new.graph.now.types.kept ty) }
        ensures id { IfOk result (λ i. i ≡ next_defined_type self.old.graph.now.types) }
        ensures err { OnErr result (self.new.graph.now ≡ self.old.graph.now) }
        ensures grows { Enlarges self.old.graph.now self.new.graph.now }
        ensures same_reference { self.new.graph.ghost_name ≡ self.old.graph.ghost_name }
    {
        self.graph.add_defined_type(ty)
    }

    /// Adds a resource, all of whose ids stand here.
    pub fn add_resource(&mut self, resource: Resource) -> Result<ResourceId, AllocError>
        requires { HasChildren self.old.graph.now.types (resource_entry resource) }
        ensures added { OnOk result (AddsResource self.old.graph.now self.new.graph.now resource) }
        ensures kept { OnOk result (KeepsResource self.old.graph.now.types.kept self.new.graph.now.types.kept resource) }
        ensures id { IfOk result (λ i. i ≡ next_resource self.old.graph.now.types) }
        ensures err { OnErr result (self.new.graph.now ≡ self.old.graph.now) }
        ensures grows { Enlarges self.old.graph.now self.new.graph.now }
        ensures same_reference { self.new.graph.ghost_name ≡ self.old.graph.ghost_name }
    {
        self.graph.add_resource(resource)
    }

    /// Adds a function type, all of whose ids stand here.
    pub fn add_func_type(&mut self, func: FuncType) -> Result<FuncTypeId, AllocError>
        requires { HasChildren self.old.graph.now.types (func_entry func) }
        ensures added { OnOk result (AddsFuncType self.old.graph.now self.new.graph.now func) }
        ensures kept { OnOk result (KeepsFuncType self.old.graph.now.types.kept self.new.graph.now.types.kept func) }
        ensures id { IfOk result (λ i. i ≡ next_func_type self.old.graph.now.types) }
        ensures err { OnErr result (self.new.graph.now ≡ self.old.graph.now) }
        ensures grows { Enlarges self.old.graph.now self.new.graph.now }
        ensures same_reference { self.new.graph.ghost_name ≡ self.old.graph.ghost_name }
    {
        self.graph.add_func_type(func)
    }

    /// Adds an interface, all of whose ids stand here.
    pub fn add_interface(&mut self, interface: Interface) -> Result<InterfaceId, AllocError>
        requires { HasChildren self.old.graph.now.types (interface_entry interface) }
        ensures added { OnOk result (AddsInterface self.old.graph.now self.new.graph.now interface) }
        ensures kept { OnOk result (KeepsInterface self.old.graph.now.types.kept self.new.graph.now.types.kept interface) }
        ensures id { IfOk result (λ i. i ≡ next_interface self.old.graph.now.types) }
        ensures err { OnErr result (self.new.graph.now ≡ self.old.graph.now) }
        ensures grows { Enlarges self.old.graph.now self.new.graph.now }
        ensures same_reference { self.new.graph.ghost_name ≡ self.old.graph.ghost_name }
    {
        self.graph.add_interface(interface)
    }

    /// Adds a world, all of whose ids stand here.
    pub fn add_world(&mut self, world: World) -> Result<WorldId, AllocError>
        requires { HasChildren self.old.graph.now.types (world_entry world) }
        ensures added { OnOk result (AddsWorld self.old.graph.now self.new.graph.now world) }
        ensures kept { OnOk result (KeepsWorld self.old.graph.now.types.kept self.new.graph.now.types.kept world) }
        ensures id { IfOk result (λ i. i ≡ next_world self.old.graph.now.types) }
        ensures err { OnErr result (self.new.graph.now ≡ self.old.graph.now) }
        ensures grows { Enlarges self.old.graph.now self.new.graph.now }
        ensures same_reference { self.new.graph.ghost_name ≡ self.old.graph.ghost_name }
    {
        self.graph.add_world(world)
    }

    /// Adds a module type.
    pub fn add_module_type(&mut self, ty: ModuleType) -> Result<ModuleTypeId, AllocError>
        ensures added { OnOk result (AddsModuleType self.old.graph.now self.new.graph.now ty) }
        ensures kept { OnOk result (KeepsModuleType self.old.graph.now.types.kept self.new.graph.now.types.kept ty) }
        ensures id { IfOk result (λ i. i ≡ next_module_type self.old.graph.now.types) }
        ensures err { OnErr result (self.new.graph.now ≡ self.old.graph.now) }
        ensures grows { Enlarges self.old.graph.now self.new.graph.now }
        ensures same_reference { self.new.graph.ghost_name ≡ self.old.graph.ghost_name }
    {
        self.graph.add_module_type(ty)
    }
}

impl CompositionGraph {
    fn add_package_type(
        &mut self,
        name: &str,
        version: Option<&Version>,
        bytes: Vec<u8>,
        world: WorldId,
    ) -> Result<Package, AllocError>
        requires { Stands self.old.types (ItemKind.Component world) }
        ensures name { IfOk result (λ p. p.name ≡ name.now) }
        ensures version { IfOk result (λ p. p.version ≡ option_map parts_of (option_copied version.entry)) }
        ensures bytes { IfOk result (λ p. p.bytes ≡ bytes.items) }
        ensures ty { IfOk result (λ p. p.ty ≡ world) }
        ensures instance_type { IfOk result (λ p. AddsInstanceType self.old self.new world p) }
        ensures definitions { IfOk result (λ p. DefinitionsOf self.old.types world p.definitions) }
        ensures stands { IfOk result (λ p. PackageStands self.new.types p) }
        ensures err { OnErr result (self.new ≡ self.old) }
        ensures grows { Enlarges self.old self.new }
    {
        self.types.see_acyclic();
        Package::from_world(
            self.alloc,
            name,
            version,
            bytes,
            &mut self.types.adding(),
            world,
        )
    }

    fn copy_world_here(&mut self, from: &Types, id: WorldId) -> Result<WorldId, AllocError>
        requires { Stands from.now (ItemKind.Component id) }
        ensures copied { IfOk result (λ i. IsWorldCopy from.now self.new.types id i) }
        ensures grows { Enlarges self.old self.new }
    {
        let copied = copy_world(self.alloc, from, id, &mut self.types.adding());
        self.defined_below = self.types.defined_types().len();
        copied
    }
}

impl<'a> TypesMut<'a> {
    /// A package of a world that stands here, under a name and perhaps a version. The interface of its instances is added:
    /// without identifier, with the world's uses and exports.
    pub fn add_package(
        &mut self,
        name: &str,
        version: Option<&Version>,
        bytes: Vec<u8>,
        world: WorldId,
    ) -> Result<Package, AllocError>
        requires { Stands self.old.graph.now.types (ItemKind.Component world) }
        ensures name { IfOk result (λ p. p.name ≡ name.now) }
        ensures version { IfOk result (λ p. p.version ≡ option_map parts_of (option_copied version.entry)) }
        ensures bytes { IfOk result (λ p. p.bytes ≡ bytes.items) }
        ensures ty { IfOk result (λ p. p.ty ≡ world) }
        ensures instance_type { IfOk result (λ p. AddsInstanceType self.old.graph.now self.new.graph.now world p) }
        ensures definitions { IfOk result (λ p. DefinitionsOf self.old.graph.now.types world p.definitions) }
        ensures stands { IfOk result (λ p. PackageStands self.new.graph.now.types p) }
        ensures err { OnErr result (self.new.graph.now ≡ self.old.graph.now) }
        ensures grows { Enlarges self.old.graph.now self.new.graph.now }
        ensures same_reference { self.new.graph.ghost_name ≡ self.old.graph.ghost_name }
    {
        self.graph.add_package_type(name, version, bytes, world)
    }

    /// Copies a world of another collection, with the same tree, identifiers and uses. Want of memory may leave entries
    /// that nothing names.
    pub fn copy_world(&mut self, from: &Types, id: WorldId) -> Result<WorldId, AllocError>
        requires { Stands from.now (ItemKind.Component id) }
        ensures copied { IfOk result (λ i. IsWorldCopy from.now self.new.graph.now.types id i) }
        ensures grows { Enlarges self.old.graph.now self.new.graph.now }
        ensures same_reference { self.new.graph.ghost_name ≡ self.old.graph.ghost_name }
    {
        self.graph.copy_world_here(from, id)
    }
}

impl Adding for TypesMut<'_> {
    ghost collection = { λ t. t.graph.now.types };

    ghost Keeps = { λ old new. Enlarges old.graph.now new.graph.now × (new.graph.ghost_name ≡ old.graph.ghost_name) };

    fn add_copy(
        &mut self,
        _alloc: Global,
        from: &Types,
        id: WorldId,
    ) -> Result<WorldId, AllocError> {
        TypesMut::copy_world(self, from, id)
    }

    fn make_package(
        &mut self,
        _alloc: Global,
        name: &str,
        version: Option<&Version>,
        bytes: Vec<u8>,
        world: WorldId,
    ) -> Result<Package, AllocError> {
        TypesMut::add_package(self, name, version, bytes, world)
    }
}
