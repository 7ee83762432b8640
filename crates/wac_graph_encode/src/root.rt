//! The types and the imports of a composition, as entries.

ghost use Rattle.std.specs.Prelude.{◌≡◌, ◌+◌, ◌<◌, ◌++◌, [], ◌∷◌, ℕ, List, Some, true, false, IfOk, OnOk, if◌then◌else◌, map, option_map, option_to_list};
ghost use Rattle.wac_types_base.specs.Record.{Collection};
ghost use Rattle.wac_types_base.specs.Entries.{names_of, value_at};
ghost use Rattle.wac_types_base.specs.declared.item.«Type».{«Type» as TypeKind};
ghost use Rattle.wac_types_base.specs.declared.item.ValueType.{ValueType};
ghost use Rattle.wac_graph_bytes.specs.declared.value.Sort.{Sort as SortKind};
ghost use Rattle.wac_graph_bytes.specs.Counting.{same_sort};
ghost use Rattle.wac_graph_bytes.specs.Entries.{Aliased, ExportAlias, Nested};
ghost use Rattle.wac_graph_bytes.specs.Views.{view};
ghost use Rattle.wac_graph_bytes.specs.Typing.{Scope, Worlds};
ghost use Rattle.wac_graph_scopes.specs.Scopes.{AreKnown};
ghost use Rattle.wac_graph_scopes.specs.Items.{HasEntry};
ghost use Rattle.wac_graph_encode.specs.Standing.{counted, CountsNext};
ghost use Rattle.wac_graph_encode.specs.Writing.{AddsEntry, AddsIndex, AddsInstance};
ghost use Rattle.wac_graph_encode.specs.Rooting.{IsNewScope, ReadsAtRoot, TakesScope, WritesItem, WritesOuters, WritesOwn, counter};
ghost use Rattle.wac_graph_encode.specs.Defining.{AddsDefinitions, ExportsDefinition, NotesEarly, PutsDefined, PutsValue, WritesDefinition, WritesDefinitions};
ghost use Rattle.wac_graph_encode.specs.Beginning.{Begins, BeginsRoot, HoldsAll, HoldsTaken, IsToBegin, NestsThese};
ghost use Rattle.wac_graph_encode.specs.Ready.{AddsNames, HoldsThese};
ghost use Rattle.wac_graph_encode.specs.Nesting.{NestsAll, NestsBehind, NestsOne, bytes_of};
ghost use Rattle.wac_graph_encode.specs.Importing.{ImportsAll, ImportsBefore, ImportsComponent, ImportsPackage};

use crate::declarations::{Early, add_entries, push_entry};
use crate::options::EncodeOptions;
use indexmap::IndexMap;
use std::alloc::{AllocError, Global};
use wac_graph_asks::asks::Definition;
use wac_graph_asks::nodes::package_at;
use wac_graph_bytes::{Alias, Description, Entry, NamedIndex, Sort};
use wac_graph_causes::names::dependency_name;
use wac_graph_core::{CompositionGraph, NodeId, PackageId};
use wac_graph_scopes::error::WriteError;
use wac_graph_scopes::imports::{ImportScope, Importing, SortIndex};
use wac_graph_scopes::items::ItemScope;
use wac_graph_scopes::scope::KnownTypes;
use wac_graph_scopes::worlds::{describe_package, write_imports};
use wac_types_base::{DefinedTypeId, ItemKind, NamedMap, Text, Type, Types, ValueType, WorldId};
use wac_types_parts::parts::Item;

/// How many things of each sort stand there.
#[derive(Clone, Copy)]
pub(crate) struct Counts {
    pub funcs: u64,
    pub types: u64,
    pub components: u64,
    pub instances: u64,
    pub modules: u64,
}

/// The entries before any instance, and what stands at their indexes.
pub(crate) struct Root {
    pub entries: Vec<Entry>,
    pub counts: Counts,
    /// What is written of the outer imports, in their order.
    pub imports: Vec<Option<SortIndex>>,
    /// What stands for the definitions.
    pub nodes: IndexMap<NodeId, SortIndex>,
    /// The definitions that are exported where they are written, by the indexes of their types.
    pub early: IndexMap<u64, Early>,
    /// What is exported, by its names.
    pub exported: NamedMap<NodeId>,
    /// The components that are packages.
    pub packages: IndexMap<PackageId, u64>,
}

impl Drop for Root {
    fn drop(self) {
        let Root {
            entries: _,
            counts: _,
            imports: _,
            nodes: _,
            early: _,
            exported: _,
            packages: _,
        } = self;
    }
}

/// The count after this one. No list that is counted is as long as the greatest number.
pub(crate) fn next_index(index: u64) -> u64
    ensures { index < 18446744073709551615 → result ≡ index + 1 }
{
    index.saturating_add(1)
}

/// Writes the outer imports.
fn write_outers(
    alloc: Global,
    all: Importing<'_>,
    scope: &mut ImportScope,
) -> Result<(), WriteError>
    ensures { WritesOuters all.entry scope.old scope.new result }
{
    scope.begin(alloc, all)?;
    let order = scope.order(alloc, all)?;
    write_imports(alloc, all, scope, order.sources.as_slice())?;
    write_imports(alloc, all, scope, order.others.as_slice())
}

/// Writes the type of an item that stands at the root.
fn write_type(
    alloc: Global,
    scope: &mut ImportScope,
    all: Importing<'_>,
    item: ItemKind,
) -> Result<Description, WriteError>
    ensures item { WritesItem all.entry item scope.old scope.new result }
    ensures own { HasEntry item → WritesOwn all.entry scope.old scope.new result }
{
    scope.prepare(alloc, all, item)?;
    scope.describe(alloc, all.types, item)
}

/// Writes a definition; its type is an entry of its own, whatever else is written. The types are known that are written
/// of the graph's collection.
fn write_definition(
    graph: &CompositionGraph,
    scope: &mut ImportScope,
    all: Importing<'_>,
    known: &mut KnownTypes,
    definition: &Definition,
) -> Result<Description, WriteError>
    ensures { WritesDefinition graph.now all.entry definition.now scope.old known.old scope.new known.new result }
{
    graph.see_sound();
    graph.types().see_acyclic();
    all.types.see_acyclic();
    let alloc = graph.alloc();
    match definition.copy {
        Some(item) => write_type(alloc, scope, all, item),
        None => scope.describe_apart(alloc, graph.types(), known, definition.ty),
    }
}

/// What is known of the graph's types while definitions are written, and what stands for their nodes.
struct Defined {
    known: KnownTypes,
    nodes: IndexMap<NodeId, SortIndex>,
    /// Those that are exported where they are written, by the indexes of their types.
    early: IndexMap<u64, Early>,
}

impl Drop for Defined {
    fn drop(self) {
        let Defined {
            known: _,
            nodes: _,
            early: _,
        } = self;
    }
}

impl Defined {
    /// Nothing is known or written yet.
    fn new(alloc: Global) -> Self
        ensures known { (w : Worlds) (ss : List Scope) (c : Collection) → AreKnown w ss c result.known }
        ensures nodes { result.nodes.entries ≡ [] }
        ensures early { result.early.entries ≡ [] }
    {
        Defined {
            known: KnownTypes::new(alloc),
            nodes: IndexMap::new(alloc),
            early: IndexMap::new(alloc),
        }
    }

    /// What stands for the nodes, and those that are exported where they are written.
    fn into_parts(self) -> (IndexMap<NodeId, SortIndex>, IndexMap<u64, Early>)
        ensures nodes { result.0 ≡ self.nodes }
        ensures early { result.1 ≡ self.early }
    {
        let Defined {
            known: _,
            nodes,
            early,
        } = self;
        (nodes, early)
    }

    /// Puts the index of a definition's export in place of that of its type.
    fn put_known(&mut self, types: &Types, ty: Type, index: u64) -> Result<(), AllocError>
        ensures known { PutsDefined types.now ty index self.old self.new result }
        ensures nodes { self.new.nodes ≡ self.old.nodes }
        ensures early { self.new.early ≡ self.old.early }
    {
        match ty {
            Type::Value(ValueType::Defined(id)) => self.put_defined(types, id, index),
            _ => Ok(()),
        }
    }

    /// The same of a defined type, and of what stands at the end of its aliases.
    fn put_defined(
        &mut self,
        types: &Types,
        id: DefinedTypeId,
        index: u64,
    ) -> Result<(), AllocError>
        ensures known { PutsDefined types.now (TypeKind.Value (ValueType.Defined id)) index self.old self.new result }
        ensures nodes { self.new.nodes ≡ self.old.nodes }
        ensures early { self.new.early ≡ self.old.early }
    {
        let ty = ValueType::Defined(id);
        if !types.has(ItemKind::Value(ty)) {
            return Ok(());
        }
        if !types.has(ItemKind::Ty(Type::Value(ty))) {
            return Ok(());
        }
        types.see_acyclic();
        let end = types.resolve_value_type(ty);
        self.put_end(end, index)?;
        self.known.put(id, index)
    }

    fn put_end(&mut self, ty: ValueType, index: u64) -> Result<(), AllocError>
        ensures known { PutsValue ty index self.old self.new result }
        ensures nodes { self.new.nodes ≡ self.old.nodes }
        ensures early { self.new.early ≡ self.old.early }
    {
        match ty {
            ValueType::Defined(id) => self.known.put(id, index),
            _ => Ok(()),
        }
    }

    /// Notes that a definition is exported where it is written, whose type is at that index.
    fn note_early(&mut self, definition: &Definition, index: u64) -> Result<(), AllocError>
        ensures { OnOk result (NotesEarly definition.now index self.old self.new) }
    {
        let name = definition.name.copy()?;
        let node = definition.node;
        let _ = self.early.insert(index, Early { name, node })?;
        Ok(())
    }
}

/// Whether a definition is exported under its name.
fn is_exported(graph: &CompositionGraph, definition: &Definition) -> bool
    ensures { result ≡ true → value_at graph.now.exports definition.now.name ≡ Some definition.now.node }
{
    match graph.get_export(definition.name.as_str()) {
        Some(node) => node == definition.node,
        None => false,
    }
}

/// Exports a definition, whose type is at that index, where it is written: the index that stands for it from then on.
fn export_definition(
    graph: &CompositionGraph,
    scope: &mut ImportScope,
    definition: &Definition,
    index: u64,
    defined: &mut Defined,
) -> Result<u64, WriteError>
    ensures { ExportsDefinition graph.now definition.now index scope.old defined.old scope.new defined.new result }
{
    if !is_exported(graph, definition) {
        return Ok(index);
    }
    let own = scope.scope.repeat_type(index)?;
    defined.put_known(graph.types(), definition.ty, own)?;
    defined.note_early(definition, index)?;
    Ok(own)
}

/// Writes a definition, and adds what stands for it.
fn add_definition(
    graph: &CompositionGraph,
    scope: &mut ImportScope,
    all: Importing<'_>,
    definition: &Definition,
    defined: &mut Defined,
) -> Result<(), WriteError>
    ensures { AddsDefinitions graph.now all.entry (definition.now ∷ []) scope.old defined.old scope.new defined.new result }
{
    let description = write_definition(graph, scope, all, &mut defined.known, definition)?;
    if let Description::Equal(index) = description {
        let index = export_definition(graph, scope, definition, index, defined)?;
        let sort = Sort::Ty;
        let _ = defined
            .nodes
            .insert(definition.node, SortIndex { sort, index })?;
    }
    Ok(())
}

/// Writes definitions one after another, and adds what stands for them.
fn add_definitions(
    graph: &CompositionGraph,
    scope: &mut ImportScope,
    all: Importing<'_>,
    definitions: &[Definition],
    defined: &mut Defined,
) -> Result<(), WriteError>
    ensures { AddsDefinitions graph.now all.entry definitions.now scope.old defined.old scope.new defined.new result }
{
    for definition in definitions {
        add_definition(graph, scope, all, definition, defined)?;
    }
    Ok(())
}

/// Writes the definitions: types of the graph's collection, and copies in the asked one. It answers what stands for their
/// nodes, and those that are exported where they are written.
fn write_definitions(
    graph: &CompositionGraph,
    scope: &mut ImportScope,
    all: Importing<'_>,
    definitions: &[Definition],
) -> Result<(IndexMap<NodeId, SortIndex>, IndexMap<u64, Early>), WriteError>
    ensures { IfOk result (λ p. WritesDefinitions graph.now all.entry definitions.now
        scope.old scope.new p.0.entries p.1.entries) }
{
    let mut defined = Defined::new(graph.alloc());
    add_definitions(graph, scope, all, definitions, &mut defined)?;
    Ok(defined.into_parts())
}

/// Imports a component of that world under that name: its index.
fn import_component(
    alloc: Global,
    scope: &mut ImportScope,
    types: &Types,
    name: &str,
    world: WorldId,
) -> Result<u64, WriteError>
    ensures imports { ImportsComponent types.now name.now world scope.old.scope scope.new.scope result }
    ensures places { scope.new.places ≡ scope.old.places }
{
    let kind = ItemKind::Component(world);
    let description = describe_package(alloc, &mut scope.scope, types, world)?;
    let place = scope.import(alloc, types, Item { name, kind }, description)?;
    Ok(place.index)
}

/// Imports a package of that world, and adds its index.
fn import_package(
    graph: &CompositionGraph,
    scope: &mut ImportScope,
    types: &Types,
    id: PackageId,
    world: WorldId,
    packages: &mut IndexMap<PackageId, u64>,
) -> Result<(), WriteError>
    ensures imports { ImportsPackage graph.now types.now id world scope.old packages.old scope.new packages.new result }
    ensures held { OnOk result (AddsNames (id ∷ []) (names_of packages.old.entries) (names_of packages.new.entries)) }
    ensures places { scope.new.places ≡ scope.old.places }
{
    let alloc = graph.alloc();
    let name = dependency_name(alloc, graph, id)?;
    let index = import_component(alloc, scope, types, name.as_str(), world)?;
    let _ = packages.insert(id, index)?;
    Ok(())
}

/// Imports the packages, and adds their indexes.
fn import_packages(
    graph: &CompositionGraph,
    scope: &mut ImportScope,
    types: &Types,
    worlds: &IndexMap<PackageId, WorldId>,
    packages: &mut IndexMap<PackageId, u64>,
) -> Result<(), WriteError>
    ensures imports { ImportsAll graph.now types.now worlds.now.entries scope.old packages.old scope.new packages.new result }
    ensures held { OnOk result (HoldsThese worlds.now.entries packages.old.entries packages.new.entries) }
    ensures places { scope.new.places ≡ scope.old.places }
{
    for (id, world) in worlds.iter() {
        import_package(graph, scope, types, *id, *world, packages)?;
    }
    Ok(())
}

/// The bytes of a package.
fn bytes_at(graph: &CompositionGraph, id: PackageId) -> &[u8]
    ensures { result.now ≡ bytes_of graph.now id }
{
    match package_at(graph, id) {
        Some(package) => package.bytes(),
        None => &[],
    }
}

/// Adds the bytes of a component.
fn push_nested(alloc: Global, entries: &mut Vec<Entry>, bytes: &[u8]) -> Result<(), AllocError>
    ensures { OnOk result (AddsEntry entries.old.items entries.new.items (Nested bytes.now)) }
{
    let mut copy = Vec::new(alloc);
    copy.extend_from_slice(bytes)?;
    push_entry(entries, Entry::Nested(copy))
}

/// Nests a package of those bytes behind what is written.
fn nest_package(
    alloc: Global,
    root: &mut Root,
    id: PackageId,
    bytes: &[u8],
) -> Result<(), WriteError>
    ensures { OnOk result (NestsOne id bytes.now root.old root.new) }
{
    let index = root.counts.components;
    root.counts.components = next_index(index);
    push_nested(alloc, &mut root.entries, bytes)?;
    let _ = root.packages.insert(id, index)?;
    Ok(())
}

/// Nests the packages behind what is written.
fn nest_packages(
    graph: &CompositionGraph,
    worlds: &IndexMap<PackageId, WorldId>,
    root: &mut Root,
) -> Result<(), WriteError>
    ensures { OnOk result (NestsAll graph.now (names_of worlds.now.entries) root.old root.new) }
{
    for id in worlds.keys() {
        nest_package(graph.alloc(), root, *id, bytes_at(graph, *id))?;
    }
    Ok(())
}

/// How many things of each sort stand in a scope.
fn counts_of(scope: &ItemScope) -> Counts
    ensures { (s : SortKind) → counted result s ≡ counter scope.now s }
{
    Counts {
        funcs: scope.funcs,
        types: scope.types.types,
        components: scope.components,
        instances: scope.instances,
        modules: scope.modules,
    }
}

impl Root {
    /// Nothing stands there.
    pub(crate) fn new(alloc: Global) -> Self
        ensures entries { result.entries.items ≡ [] }
        ensures nodes { result.nodes.entries ≡ [] }
        ensures exported { result.exported ≡ [] }
        ensures packages { result.packages.entries ≡ [] }
    {
        Root {
            entries: Vec::new(alloc),
            counts: Counts {
                funcs: 0,
                types: 0,
                components: 0,
                instances: 0,
                modules: 0,
            },
            imports: Vec::new(alloc),
            nodes: IndexMap::new(alloc),
            early: IndexMap::new(alloc),
            exported: NamedMap::new(alloc),
            packages: IndexMap::new(alloc),
        }
    }
}

fn count_of(counts: &Counts, sort: Sort) -> u64
    ensures { result ≡ counted counts.now sort }
{
    match sort {
        Sort::Func => counts.funcs,
        Sort::Ty => counts.types,
        Sort::Component => counts.components,
        Sort::Instance => counts.instances,
        Sort::Module => counts.modules,
    }
}

fn set_count(counts: &mut Counts, sort: Sort, next: u64)
    ensures { (t : SortKind) → counted counts.new t ≡ (if same_sort t sort then next else counted counts.old t) }
{
    match sort {
        Sort::Func => counts.funcs = next,
        Sort::Ty => counts.types = next,
        Sort::Component => counts.components = next,
        Sort::Instance => counts.instances = next,
        Sort::Module => counts.modules = next,
    }
}

/// The index of one more thing of a sort.
fn count_one(counts: &mut Counts, sort: Sort) -> u64
    ensures index { result ≡ counted counts.old sort }
    ensures counts { CountsNext sort counts.old counts.new }
{
    let index = count_of(counts, sort);
    let next = next_index(index);
    set_count(counts, sort, next);
    index
}

impl Root {
    /// Adds an entry that adds one thing of a sort.
    fn add(&mut self, entry: Entry, sort: Sort) -> Result<SortIndex, AllocError>
        ensures { IfOk result (AddsIndex self.old self.new (view entry) sort) }
    {
        push_entry(&mut self.entries, entry)?;
        let index = count_one(&mut self.counts, sort);
        Ok(SortIndex { sort, index })
    }

    /// Adds an alias of an export of an instance.
    pub(crate) fn add_alias(
        &mut self,
        alloc: Global,
        sort: Sort,
        instance: u64,
        name: &str,
    ) -> Result<SortIndex, AllocError>
        ensures { IfOk result (AddsIndex self.old self.new (Aliased (ExportAlias sort instance name.now)) sort) }
    {
        let name = String::from_str(alloc, name)?;
        self.add(Entry::Alias(Alias::Export(sort, instance, name)), sort)
    }

    /// Adds an instance of a component.
    pub(crate) fn add_instance(
        &mut self,
        component: u64,
        arguments: Vec<NamedIndex>,
    ) -> Result<SortIndex, AllocError>
        ensures { IfOk result (AddsInstance self.old self.new component arguments.items) }
    {
        self.add(Entry::Instantiate(component, arguments), Sort::Instance)
    }
}

/// Takes what is written in a scope.
fn take_scope(alloc: Global, scope: &mut ImportScope, root: &mut Root) -> Result<(), AllocError>
    ensures takes { OnOk result (TakesScope scope.old root.old root.new) }
    ensures reads { ReadsAtRoot scope.old root.old root.new result }
{
    root.counts = counts_of(&scope.scope);
    root.imports = scope.take_places(alloc);
    let declarations = scope.scope.take_declarations(alloc);
    add_entries(
        alloc,
        &mut root.entries,
        declarations,
        &root.early,
        &mut root.exported,
    )
}

/// What is written at the root, and how.
#[derive(Clone, Copy)]
pub(crate) struct Writing<'a> {
    pub graph: &'a CompositionGraph,
    /// Of the packages that are imported or nested.
    pub worlds: &'a IndexMap<PackageId, WorldId>,
    /// The outer imports.
    pub all: Importing<'a>,
    /// In the form in which they are written.
    pub definitions: &'a [Definition],
    pub options: &'a EncodeOptions,
}

/// Takes what is written in a scope, and nests the packages behind it.
fn nest_behind(
    graph: &CompositionGraph,
    worlds: &IndexMap<PackageId, WorldId>,
    scope: &mut ImportScope,
    root: &mut Root,
) -> Result<(), WriteError>
    ensures { OnOk result (NestsBehind graph.now (names_of worlds.now.entries) scope.old root.old root.new) }
{
    take_scope(graph.alloc(), scope, root)?;
    nest_packages(graph, worlds, root)
}

/// Imports the packages in a scope, and takes what is written there.
fn import_before(
    graph: &CompositionGraph,
    worlds: &IndexMap<PackageId, WorldId>,
    types: &Types,
    scope: &mut ImportScope,
    root: &mut Root,
) -> Result<(), WriteError>
    ensures { OnOk result (ImportsBefore graph.now types.now worlds.now.entries scope.old root.old root.new) }
{
    import_packages(graph, scope, types, worlds, &mut root.packages)?;
    take_scope(graph.alloc(), scope, root)?;
    Ok(())
}

/// Imports or nests the packages, and takes what is written in a scope.
fn write_packages(
    writing: Writing<'_>,
    scope: &mut ImportScope,
    root: &mut Root,
) -> Result<(), WriteError>
    ensures nests { NestsThese writing.entry root.old root.new result }
    ensures begins { Begins writing.entry scope.old root.old root.new result }
    ensures holds { OnOk result (HoldsTaken writing.entry scope.old root.old root.new) }
{
    if writing.options.define_components {
        nest_behind(writing.graph, writing.worlds, scope, root)
    } else {
        let types = writing.all.types;
        import_before(writing.graph, writing.worlds, types, scope, root)
    }
}

/// Writes the types and the imports of a composition in a scope, and takes them with its packages.
fn write_in(
    writing: Writing<'_>,
    scope: &mut ImportScope,
    root: &mut Root,
) -> Result<(), WriteError>
    requires { IsNewScope scope.old }
    ensures begins { BeginsRoot writing.entry root.old root.new result }
    ensures nests { NestsThese writing.entry root.old root.new result }
    ensures holds { IsToBegin writing.entry → OnOk result (HoldsAll writing.entry root.new) }
{
    let Writing {
        graph,
        all,
        definitions,
        ..
    } = writing;
    graph.see_sound();
    graph.types().see_acyclic();
    all.types.see_acyclic();
    write_outers(graph.alloc(), all, scope)?;
    let (nodes, early) = write_definitions(graph, scope, all, definitions)?;
    root.nodes = nodes;
    root.early = early;
    write_packages(writing, scope, root)
}

/// Writes the types, the imports and the packages of a composition.
pub(crate) fn write_root(writing: Writing<'_>, root: &mut Root) -> Result<(), WriteError>
    ensures begins { BeginsRoot writing.entry root.old root.new result }
    ensures nests { NestsThese writing.entry root.old root.new result }
    ensures holds { IsToBegin writing.entry → OnOk result (HoldsAll writing.entry root.new) }
{
    let mut scope = ImportScope::new(writing.graph.alloc());
    let written = write_in(writing, &mut scope, root);
    drop(scope);
    written
}
