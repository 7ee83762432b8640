//! A graph with the packages that its document may name.
#![tactic(auto, using(crate::proofs::Knowing::knowing))]

ghost use Rattle.std.specs.Prelude.{◌≡◌, IfOk, IfSome, None, OnErr, OnOk, Some, option_map};
ghost use Rattle.wac_types_base.specs.declared.item.ItemKind.{ItemKind as Item};
ghost use Rattle.wac_types_base.specs.Collection.{Stands};
ghost use Rattle.wac_types_base.specs.Entries.{AreDistinct, names_of};
ghost use Rattle.wac_types_names.specs.Keys.{package_key};
ghost use Rattle.wac_graph_core.specs.Graph.{ContainsPackage, PackageStands};
ghost use Rattle.wac_graph_core.specs.Packages.{NoKey, Registers, key_of};
ghost use Rattle.wac_graph_core.specs.Types.{Enlarges};
ghost use Rattle.wac_parser_declare.specs.Packages.{SamePackages};
ghost use Rattle.wac_parser_resolve.specs.Keeping.{Keeps};
ghost use Rattle.wac_parser_resolve.specs.Knowing.{Gets, IsDefinedIn, IsPackage, IsPackageOf, SameContents};
ghost use Rattle.wac_types_base.specs.Stated.{stated_world};
ghost use Rattle.wac_parser_resolve.specs.Knowing.{all_known, handed_under, known_of, lent_content, stated_handed};

use indexmap::IndexMap;
use semver::Version;
use std::alloc::{AllocError, Global};
use wac_graph_core::{CompositionGraph, PackageId, RegisterPackageError};
use wac_parser_declare::{GrowingTypes, PackagedTypes};
use wac_parser_lexer::SourceSpan;
use wac_parser_refusals::{Outcome, Refusal, unknown_package};
use wac_parser_tree::PackagePath;
use wac_types_base::{
    DefinedType, DefinedTypeId, FuncType, FuncTypeId, Interface, InterfaceId, ItemKind, NamedMap,
    Resource, ResourceId, Types, World, WorldId,
};
use wac_types_names::{BorrowedPackageKey, Package, definition_of};

/// A package, and the collection in which its world stands.
#[derive(Clone, Copy)]
pub struct PackageRef<'a> {
    /// The package.
    pub package: &'a Package,
    /// The collection.
    pub types: &'a Types,
}

/// Packages under their keys.
pub type Packages<'a> = IndexMap<BorrowedPackageKey<'a>, PackageRef<'a>>;

/// A graph, and the packages that its document may name.
#[derive(Drop)]
pub struct GraphTypes<'a> {
    /// The graph. A package comes into its collection, and is registered, at its first use.
    pub graph: CompositionGraph,
    /// The packages that are handed in.
    pub packages: &'a Packages<'a>,
}

impl GrowingTypes for GraphTypes<'_> {
    ghost use Rattle.wac_parser_resolve.specs.Knowing.{all_known};

    ghost collection = { λ g. g.graph.types };

    ghost packages = { all_known };

    fn types(&self) -> &Types {
        self.graph.types()
    }

    fn add_defined_type(&mut self, ty: DefinedType) -> Result<DefinedTypeId, AllocError> {
        self.graph.see_sound();
        self.graph.types_mut().add_defined_type(ty)
    }

    fn add_resource(&mut self, resource: Resource) -> Result<ResourceId, AllocError> {
        self.graph.see_sound();
        self.graph.types_mut().add_resource(resource)
    }

    fn add_func_type(&mut self, func: FuncType) -> Result<FuncTypeId, AllocError> {
        self.graph.see_sound();
        self.graph.types_mut().add_func_type(func)
    }

    fn add_interface(&mut self, interface: Interface) -> Result<InterfaceId, AllocError> {
        self.graph.see_sound();
        self.graph.types_mut().add_interface(interface)
    }

    fn add_world(&mut self, world: World) -> Result<WorldId, AllocError> {
        self.graph.see_sound();
        self.graph.types_mut().add_world(world)
    }
}

/// Copies the world of a package into a graph's collection.
fn copy_world(
    graph: &mut CompositionGraph,
    types: &Types,
    world: WorldId,
) -> Result<WorldId, AllocError>
    requires { Stands types.now (Item.Component world) }
    ensures copied { IfOk result (λ i. stated_world graph.new.types i ≡ stated_world types.now world) }
    ensures stands { IfOk result (λ i. Stands graph.new.types (Item.Component i)) }
    ensures enlarges { Enlarges graph.old graph.new }
{
    graph.types_mut().copy_world(types, world)
}

/// A package of a world of a graph's collection.
fn make_package(
    graph: &mut CompositionGraph,
    name: &str,
    version: Option<&Version>,
    bytes: Vec<u8>,
    world: WorldId,
) -> Result<Package, AllocError>
    requires { Stands graph.old.types (Item.Component world) }
    ensures key { IfOk result (λ p. package_key p ≡ (key_of name.now version.entry)) }
    ensures bytes { IfOk result (λ p. p.bytes ≡ bytes.items) }
    ensures world { IfOk result (λ p. p.ty ≡ world) }
    ensures stands { IfOk result (PackageStands graph.new.types) }
    ensures enlarges { Enlarges graph.old graph.new }
{
    graph.types_mut().add_package(name, version, bytes, world)
}

/// Registers a package, where none has its key.
fn add_package(graph: &mut CompositionGraph, package: Package) -> Result<PackageId, AllocError>
    requires stands { PackageStands graph.old.types «package» }
    requires none { NoKey graph.old (package_key «package») }
    ensures registered { IfOk result (λ id. Registers graph.old graph.new «package» id) }
    ensures kept { OnErr result (graph.new ≡ graph.old) }
{
    match graph.register_package(package) {
        Ok(id) => Ok(id),
        Err(RegisterPackageError::Memory) => Err(AllocError),
        Err(RegisterPackageError::PackageAlreadyRegistered { .. }) => unreachable!(),
    }
}

/// Registers a copy of a package whose world stands in its collection, where none has this name and version.
fn register(
    alloc: Global,
    graph: &mut CompositionGraph,
    name: &str,
    version: Option<&Version>,
    handed: PackageRef<'_>,
) -> Result<PackageId, AllocError>
    requires stands { Stands handed.types.now (Item.Component handed.«package».now.ty) }
    requires none { NoKey graph.old (key_of name.now version) }
    ensures registered { IfOk result (IsPackage graph.new (key_of name.now version.entry) (stated_handed handed.entry)) }
    ensures gets { OnOk result (Gets graph.old graph.new (key_of name.now version.entry) (lent_content handed.entry)) }
    ensures same { OnErr result (SameContents (known_of graph.old) (known_of graph.new)) }
    ensures keeps { Keeps graph.old graph.new }
{
    graph.see_sound();
    let world = copy_world(graph, handed.types, handed.package.ty())?;
    let bytes = Vec::from_slice(alloc, handed.package.bytes())?;
    graph.see_sound();
    let package = make_package(graph, name, version, bytes, world)?;
    add_package(graph, package)
}

/// Tells that no name of a map stands twice.
fn see_distinct(map: &NamedMap<ItemKind>)
    ensures { AreDistinct (names_of map.now) }
{
    let _ = map.len();
}

/// What a world defines under a name, if it does.
fn definition_in(
    alloc: Global,
    types: &Types,
    world: WorldId,
    name: &str,
) -> Result<Option<ItemKind>, AllocError>
    requires { Stands types.now (Item.Component world) }
    ensures { IfOk result (IsDefinedIn types.now world name.now) }
{
    types.see_acyclic();
    let exports = &types.world(world).exports;
    see_distinct(exports);
    match exports.get(name) {
        Some(item) => definition_of(alloc, types, *item),
        None => Ok(None),
    }
}

impl<'a> GraphTypes<'a> {
    /// The package that is handed in under a key, where its world stands.
    fn handed(&self, name: &str, version: Option<&Version>) -> Option<PackageRef<'a>>
        ensures content { option_map lent_content result ≡ handed_under self.now (key_of name.now version.entry) }
        ensures stands { IfSome result (λ p. Stands p.types.now (Item.Component p.«package».now.ty)) }
    {
        let key = BorrowedPackageKey::from_name_and_version(name, version);
        let found = *self.packages.get(&key)?;
        if found.types.has(ItemKind::Component(found.package.ty())) {
            Some(found)
        } else {
            None
        }
    }

    /// The package of a name and a version: the graph's, else the one that is handed in, which is registered. It is
    /// refused where there is none.
    pub fn package(
        &mut self,
        alloc: Global,
        name: &str,
        version: Option<&Version>,
        span: SourceSpan,
    ) -> Outcome<PackageId>
        ensures outcome { IsPackageOf self.old (key_of name.now version.entry) span self.new.graph result }
        ensures stands { IfOk result (ContainsPackage self.new.graph) }
        ensures keeps { Keeps self.old.graph self.new.graph }
        ensures packages { SamePackages (all_known self.old) (all_known self.new) }
    {
        self.graph.see_sound();
        self.graph.types().see_acyclic();
        if let Some((id, _)) = self.graph.get_package_by_name(name, version) {
            return Ok(id);
        }
        match self.handed(name, version) {
            Some(handed) => Ok(register(alloc, &mut self.graph, name, version, handed)?),
            None => Err(unknown_package(alloc, name, span)),
        }
    }
}

impl PackagedTypes for GraphTypes<'_> {
    fn definition(
        &mut self,
        alloc: Global,
        path: &PackagePath<'_>,
        name: &str,
    ) -> Outcome<Option<ItemKind>> {
        let span = path.package_name_span();
        let id = self.package(alloc, path.name, path.version.as_ref(), span)?;
        self.graph.see_sound();
        let world = self.graph[id].ty();
        let found = definition_in(alloc, self.graph.types(), world, name)?;
        Ok(found)
    }
}
