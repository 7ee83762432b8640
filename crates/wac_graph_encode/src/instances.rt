//! The instances, aliases and exports of a composition, as entries.

ghost use Rattle.std.specs.Prelude.{◌≡◌, ◌++◌, [], ◌∷◌, Some, IsSome, IfOk, IfSome, IfNone, OnOk, slice_get};
ghost use Rattle.wac_types_base.specs.Entries.{AreDistinct, names_of};
ghost use Rattle.wac_types_base.specs.Graph.{Among};
ghost use Rattle.wac_graph_bytes.specs.Views.{arguments_view};
ghost use Rattle.wac_graph_core.specs.Graph.{ContainsNode, IsOfKind};
ghost use Rattle.wac_types_parts.specs.Parts.{imports_of};
ghost use Rattle.wac_graph_asks.specs.Reads.{AreArguments};
ghost use Rattle.wac_graph_scopes.specs.Items.{sort_of};
ghost use Rattle.wac_graph_encode.specs.Beginning.{IsBare};
ghost use Rattle.wac_graph_encode.specs.Ready.{AddsSource, AllStand, AllStandUnder, ArePlacedAt, AreThere, CanBeAlias, CanBePassed, HasNeeded};
ghost use Rattle.wac_graph_encode.specs.Ready.{HasPlace, IsPlacedAt, IsReady, IsReadyWith, IsUnsorted, NeededStand, StandsUnder};
ghost use Rattle.wac_graph_encode.specs.Standing.{written_under};
ghost use Rattle.wac_graph_encode.specs.Writing.{Finishes, AddsArgument, AddsExport, AddsExports, AddsAt, AddsInOrder, other_exports, AddsGiven, AddsNeeded, AddsOnly, AreGivenIn, Below, GivesUnder, IsAliasAt, IsSameRoot, KeepsNodes, KeepsWritten, PassesAll, UpTo, UpToOne, WritesInstance, WritesNode, noted, outer_in, NestsNoMore, AllAreWritten};

use crate::declarations::push_export;
use crate::exports::export_order;
use crate::labels::names_of_nodes;
use crate::root::Root;
use indexmap::IndexMap;
use std::alloc::{AllocError, Global};
use std::mem;
use wac_graph_asks::nodes::{Arguments, import_name, kind_of, package_of, world_at};
use wac_graph_bytes::{Entry, NamedIndex, Sort, SortNames};
use wac_graph_core::{CompositionGraph, NodeId, PackageId};
use wac_graph_scopes::imports::SortIndex;
use wac_types_base::{ItemKind, NamedMap, Types, WorldId};
use wac_types_parts::parts::{import_at, import_count};

/// The entries so far, and what stands for nodes.
pub(crate) struct Wired<'a> {
    alloc: Global,
    graph: &'a CompositionGraph,
    /// The places of outer imports, by the names under which they are asked for.
    places: &'a NamedMap<usize>,
    /// What is written of them, in their order.
    imports: Vec<Option<SortIndex>>,
    pub root: Root,
}

impl Drop for Wired<'_> {
    fn drop(self) {
        let Wired {
            alloc: _,
            graph: _,
            places: _,
            imports: _,
            root: _,
        } = self;
    }
}

fn sort_of(kind: ItemKind) -> Option<Sort>
    ensures { result ≡ sort_of kind }
{
    match kind {
        ItemKind::Ty(_) => Some(Sort::Ty),
        ItemKind::Func(_) => Some(Sort::Func),
        ItemKind::Instance(_) => Some(Sort::Instance),
        ItemKind::Component(_) => Some(Sort::Component),
        ItemKind::Module(_) => Some(Sort::Module),
        ItemKind::Value(_) => None,
    }
}

/// What sort a node is of that is of some.
fn sort_at(graph: &CompositionGraph, node: NodeId) -> Sort
    requires { IsUnsorted graph.now node → ⊥ }
    ensures { IsOfKind graph.now node (λ x. sort_of x ≡ Some result) }
{
    match kind_of(graph, node) {
        Some(kind) => match sort_of(kind) {
            Some(sort) => sort,
            None => unreachable!(),
        },
        None => unreachable!(),
    }
}

/// What is written of the outer import at a place.
fn place_at(imports: &[Option<SortIndex>], at: usize) -> SortIndex
    requires { IsPlacedAt imports.now at }
    ensures { slice_get imports.now at ≡ Some (Some result) }
{
    match imports[at] {
        Some(place) => place,
        None => unreachable!(),
    }
}

/// Adds a node.
fn push_node(nodes: &mut Vec<NodeId>, node: NodeId) -> Result<(), AllocError>
    ensures { OnOk result (nodes.new.items ≡ nodes.old.items ++ node ∷ []) }
{
    nodes.push(node)?;
    Ok(())
}

/// Adds what a node is an alias of, if it is one.
fn push_alias_source(
    graph: &CompositionGraph,
    node: NodeId,
    sources: &mut Vec<NodeId>,
) -> Result<(), AllocError>
    ensures only { OnOk result (AddsNeeded graph.now node sources.old.items sources.new.items) }
    ensures all { OnOk result (AddsSource graph.now node sources.old.items sources.new.items) }
{
    graph.see_sound();
    match graph.get_alias_source(node) {
        Some(found) => push_node(sources, found.0),
        None => Ok(()),
    }
}

/// Adds the nodes that one needs: its arguments, or what it is an alias of.
fn push_sources(
    graph: &CompositionGraph,
    node: NodeId,
    bound: &Arguments,
    sources: &mut Vec<NodeId>,
) -> Result<(), AllocError>
    requires { AreArguments graph.now node bound.now }
    ensures only { OnOk result (AddsNeeded graph.now node sources.old.items sources.new.items) }
    ensures all { OnOk result (HasNeeded graph.now node sources.new.items) }
{
    graph.see_sound();
    for argument in bound.nodes() {
        push_node(sources, *argument)?;
    }
    push_alias_source(graph, node, sources)
}

/// Adds an argument.
fn push_argument(
    alloc: Global,
    arguments: &mut Vec<NamedIndex>,
    name: &str,
    place: SortIndex,
) -> Result<(), AllocError>
    ensures { OnOk result (AddsArgument arguments.old.items arguments.new.items (name.now, place.sort, place.index)) }
{
    let name = String::from_str(alloc, name)?;
    arguments.push(NamedIndex {
        name,
        sort: place.sort,
        index: place.index,
    })?;
    Ok(())
}

/// What stands for nodes and for outer imports.
#[derive(Clone, Copy)]
struct Standing<'a> {
    nodes: &'a IndexMap<NodeId, SortIndex>,
    places: &'a NamedMap<usize>,
    imports: &'a [Option<SortIndex>],
}

/// What stands for a node.
fn place_of(nodes: &IndexMap<NodeId, SortIndex>, node: NodeId) -> SortIndex
    requires { Among node (names_of nodes.now.entries) }
    ensures { Among (node, result) nodes.now.entries }
{
    match nodes.get(&node) {
        Some(place) => *place,
        None => unreachable!(),
    }
}

/// What stands for an outer import, by a name under which it is asked for.
fn place_under(places: &NamedMap<usize>, imports: &[Option<SortIndex>], name: &str) -> SortIndex
    requires { IsSome (written_under places.now imports.now name.now) }
    ensures { written_under places.now imports.now name.now ≡ Some result }
{
    match places.get(name) {
        Some(at) => place_at(imports, *at),
        None => unreachable!(),
    }
}

/// What is passed to an instance under a name.
fn argument(standing: Standing<'_>, bound: &Arguments, name: &str) -> SortIndex
    requires { StandsUnder (outer_in standing) standing.nodes.now.entries bound.now name.now }
    ensures { GivesUnder standing.entry bound.now name.now result }
{
    match bound.get(name) {
        Some(argument) => place_of(standing.nodes, argument),
        None => place_under(standing.places, standing.imports, name),
    }
}

/// Adds what is passed to an instance under a name.
fn push_given(
    alloc: Global,
    standing: Standing<'_>,
    bound: &Arguments,
    name: &str,
    arguments: &mut Vec<NamedIndex>,
) -> Result<(), AllocError>
    requires { StandsUnder (outer_in standing) standing.nodes.now.entries bound.now name.now }
    ensures { OnOk result (AddsGiven standing.entry bound.now name.now arguments.old.items arguments.new.items) }
{
    let place = argument(standing, bound, name);
    push_argument(alloc, arguments, name, place)
}

/// Adds the arguments of an instance of that world, all of which stand.
fn push_arguments(
    alloc: Global,
    types: &Types,
    world: WorldId,
    standing: Standing<'_>,
    bound: &Arguments,
    arguments: &mut Vec<NamedIndex>,
) -> Result<(), AllocError>
    requires none { arguments.old.items ≡ [] }
    requires stand { AllStandUnder types.now world (outer_in standing) standing.nodes.now.entries bound.now }
    ensures given { OnOk result (AreGivenIn types.now world standing.entry bound.now arguments.new.items) }
    ensures distinct { AreDistinct (names_of (imports_of types.now world)) }
{
    for at in 0..import_count(types, world) {
        if let Some(import) = import_at(types, world, at) {
            push_given(alloc, standing, bound, import.name, arguments)?;
        }
    }
    Ok(())
}

/// The arguments of an instance of that world, all of which stand.
fn arguments_in(
    alloc: Global,
    types: &Types,
    world: WorldId,
    standing: Standing<'_>,
    bound: &Arguments,
) -> Result<Vec<NamedIndex>, AllocError>
    requires { AllStandUnder types.now world (outer_in standing) standing.nodes.now.entries bound.now }
    ensures given { IfOk result (λ v. AreGivenIn types.now world standing.entry bound.now v.items) }
    ensures distinct { AreDistinct (names_of (imports_of types.now world)) }
{
    let mut arguments = Vec::new(alloc);
    push_arguments(alloc, types, world, standing, bound, &mut arguments)?;
    Ok(arguments)
}

/// Adds the export of a node that stands.
fn export_node(
    alloc: Global,
    nodes: &IndexMap<NodeId, SortIndex>,
    name: &str,
    node: NodeId,
    entries: &mut Vec<Entry>,
) -> Result<(), AllocError>
    requires { Among node (names_of nodes.now.entries) }
    ensures { OnOk result (AddsExport nodes.now.entries (name.now, node) entries.old.items entries.new.items) }
{
    match nodes.get(&node) {
        Some(place) => push_export(alloc, entries, name, *place),
        None => unreachable!(),
    }
}

/// Adds the export of a node that stands, unless one of its name is among these.
fn export_other(
    alloc: Global,
    nodes: &IndexMap<NodeId, SortIndex>,
    exported: &NamedMap<NodeId>,
    name: &str,
    node: NodeId,
    entries: &mut Vec<Entry>,
) -> Result<(), AllocError>
    requires { Among node (names_of nodes.now.entries) }
    ensures { OnOk result (AddsExports nodes.now.entries (other_exports exported.now ((name.now, node) ∷ []))
        entries.old.items entries.new.items) }
{
    if exported.contains(name) {
        return Ok(());
    }
    export_node(alloc, nodes, name, node, entries)
}

/// Adds the export at a place of a graph, all of whose nodes stand, unless one of its name is among these.
fn export_at(
    graph: &CompositionGraph,
    nodes: &IndexMap<NodeId, SortIndex>,
    exported: &NamedMap<NodeId>,
    at: usize,
    entries: &mut Vec<Entry>,
) -> Result<(), AllocError>
    requires { AllAreWritten graph.now nodes.now.entries }
    ensures { OnOk result (AddsAt nodes.now.entries exported.now graph.now.exports (at ∷ [])
        entries.old.items entries.new.items) }
{
    graph.see_sound();
    match graph.exports().entry_at(at) {
        Some(export) => {
            export_other(graph.alloc(), nodes, exported, export.0, export.1, entries)
        }
        None => Ok(()),
    }
}

/// Adds the exports at these places, but those whose names are among these.
fn push_in_order(
    graph: &CompositionGraph,
    nodes: &IndexMap<NodeId, SortIndex>,
    exported: &NamedMap<NodeId>,
    order: &[usize],
    entries: &mut Vec<Entry>,
) -> Result<(), AllocError>
    requires { AllAreWritten graph.now nodes.now.entries }
    ensures { OnOk result (AddsAt nodes.now.entries exported.now graph.now.exports order.now
        entries.old.items entries.new.items) }
{
    for at in order {
        export_at(graph, nodes, exported, *at, entries)?;
    }
    Ok(())
}

/// Adds the exports of a graph, all of whose nodes stand, each behind those that it uses; these are there already.
fn push_exports(
    graph: &CompositionGraph,
    nodes: &IndexMap<NodeId, SortIndex>,
    exported: &NamedMap<NodeId>,
    entries: &mut Vec<Entry>,
) -> Result<(), AllocError>
    requires { AllAreWritten graph.now nodes.now.entries }
    ensures { OnOk result (AddsInOrder nodes.now.entries exported.now graph.now.exports
        entries.old.items entries.new.items) }
{
    graph.see_sound();
    let order = export_order(graph)?;
    push_in_order(graph, nodes, exported, order.as_slice(), entries)
}

impl<'a> Wired<'a> {
    /// Nothing is written yet.
    pub(crate) fn new(
        alloc: Global,
        graph: &'a CompositionGraph,
        places: &'a NamedMap<usize>,
    ) -> Self
        ensures graph { result.graph.now ≡ graph.now }
        ensures places { result.places.now ≡ places.now }
        ensures bare { IsBare result.root }
    {
        Wired {
            alloc,
            graph,
            places,
            imports: Vec::new(alloc),
            root: Root::new(alloc),
        }
    }

    /// What stands for a node, if anything does yet.
    fn node(&self, node: NodeId) -> Option<SortIndex>
        ensures found { IfSome result (λ p. Among (node, p) (noted self.now)) }
        ensures none { IfNone result (Among node (names_of (noted self.now)) → ⊥) }
    {
        self.root.nodes.get(&node).copied()
    }

    /// The index of a package that is nested or imported.
    fn component(&self, id: PackageId) -> u64
        requires { Among id (names_of self.now.root.packages.entries) }
        ensures { Among (id, result) self.now.root.packages.entries }
    {
        match self.root.packages.get(&id) {
            Some(index) => *index,
            None => unreachable!(),
        }
    }

    /// The sort of an alias, the index of its source and its name there.
    fn alias_of(&self, node: NodeId) -> (Sort, u64, &'a str)
        requires { CanBeAlias self.now node }
        ensures { IsAliasAt self.now node result.0 result.1 result.2.now }
    {
        let sort = sort_at(self.graph, node);
        match self.graph.get_alias_source(node) {
            Some(found) => (sort, place_of(&self.root.nodes, found.0).index, found.1),
            None => unreachable!(),
        }
    }

    /// Writes an alias, whose source stands.
    fn alias(&mut self, node: NodeId) -> Result<SortIndex, AllocError>
        requires { CanBeAlias self.old node }
        ensures writes { WritesNode node self.old self.new result }
        ensures same { OnOk result (IsSameRoot self.old self.new) }
        ensures nodes { OnOk result (self.new.root.nodes ≡ self.old.root.nodes) }
    {
        self.graph.see_sound();
        self.graph.types().see_acyclic();
        let (sort, index, name) = self.alias_of(node);
        let place = self.root.add_alias(self.alloc, sort, index, name)?;
        Ok(place)
    }

    /// The arguments of an instance, all of which stand.
    fn arguments(&self, id: PackageId, bound: &Arguments) -> Result<Vec<NamedIndex>, AllocError>
        requires { CanBePassed self.now id bound.now }
        ensures { IfOk result (λ v. PassesAll self.now id bound.now (arguments_view v.items)) }
    {
        match world_at(self.graph, id) {
            Some(world) => {
                let standing = Standing {
                    nodes: &self.root.nodes,
                    places: self.places,
                    imports: &self.imports,
                };
                arguments_in(self.alloc, self.graph.types(), world, standing, bound)
            }
            None => unreachable!(),
        }
    }

    /// Writes an instance, whose arguments stand.
    fn instance(&mut self, id: PackageId, bound: &Arguments) -> Result<SortIndex, AllocError>
        requires held { Among id (names_of self.old.root.packages.entries) }
        requires passed { CanBePassed self.old id bound.now }
        ensures writes { WritesInstance id bound.now self.old self.new result }
        ensures same { OnOk result (IsSameRoot self.old self.new) }
        ensures nodes { OnOk result (self.new.root.nodes ≡ self.old.root.nodes) }
    {
        self.graph.see_sound();
        self.graph.types().see_acyclic();
        let component = self.component(id);
        let arguments = self.arguments(id, bound)?;
        let place = self.root.add_instance(component, arguments)?;
        Ok(place)
    }

    /// Writes a node, where all stands that it needs.
    fn written(&mut self, node: NodeId, bound: &Arguments) -> Result<SortIndex, AllocError>
        requires ready { IsReady self.old }
        requires there { ContainsNode self.old.graph.now node }
        requires needed { NeededStand self.old node }
        requires bound { AreArguments self.old.graph.now node bound.now }
        requires new { Among node (names_of (noted self.old)) → ⊥ }
        ensures writes { WritesNode node self.old self.new result }
        ensures same { OnOk result (IsSameRoot self.old self.new) }
        ensures nodes { OnOk result (self.new.root.nodes ≡ self.old.root.nodes) }
    {
        self.graph.see_sound();
        if let Some(name) = import_name(self.graph, node) {
            return Ok(place_under(self.places, &self.imports, name));
        }
        match package_of(self.graph, node) {
            Some(id) => self.instance(id, bound),
            None => self.alias(node),
        }
    }

    /// The nodes that one needs: its arguments, or what it is an alias of.
    fn sources_of(&self, node: NodeId, bound: &Arguments) -> Result<Vec<NodeId>, AllocError>
        requires { AreArguments self.now.graph.now node bound.now }
        ensures only { IfOk result (λ v. AddsNeeded self.now.graph.now node [] v.items) }
        ensures all { IfOk result (λ v. HasNeeded self.now.graph.now node v.items) }
    {
        let mut sources = Vec::new(self.alloc);
        push_sources(self.graph, node, bound, &mut sources)?;
        Ok(sources)
    }

    /// Writes a node behind those that it needs, unless it stands.
    #[cycle(nodes)]
    fn write_node(&mut self, node: NodeId) -> Result<(), AllocError>
        requires ready { IsReady self.old }
        requires there { ContainsNode self.old.graph.now node }
        ensures writes { KeepsWritten self.old self.new result }
        ensures keeps { OnOk result (KeepsNodes self.old self.new) }
        ensures only { OnOk result (AddsOnly (UpTo node) self.old self.new) }
        ensures stands { OnOk result (Among node (names_of (noted self.new))) }
    {
        if self.node(node).is_some() {
            return Ok(());
        }
        let bound = Arguments::of(self.alloc, self.graph, node)?;
        self.write_bound(node, &bound)
    }

    /// Writes a node behind those that it needs.
    #[cycle(nodes)]
    fn write_bound(&mut self, node: NodeId, bound: &Arguments) -> Result<(), AllocError>
        requires ready { IsReady self.old }
        requires there { ContainsNode self.old.graph.now node }
        requires bound { AreArguments self.old.graph.now node bound.now }
        requires new { Among node (names_of (noted self.old)) → ⊥ }
        ensures writes { KeepsWritten self.old self.new result }
        ensures keeps { OnOk result (KeepsNodes self.old self.new) }
        ensures only { OnOk result (AddsOnly (UpTo node) self.old self.new) }
        ensures stands { OnOk result (Among node (names_of (noted self.new))) }
    {
        self.graph.see_sound();
        self.write_sources(node, bound)?;
        self.write_itself(node, bound)
    }

    /// Writes the nodes that one needs. No node is needed by one that it needs, so this ends.
    #[cycle(nodes)]
    fn write_sources(&mut self, node: NodeId, bound: &Arguments) -> Result<(), AllocError>
        requires ready { IsReady self.old }
        requires bound { AreArguments self.old.graph.now node bound.now }
        ensures writes { KeepsWritten self.old self.new result }
        ensures keeps { OnOk result (KeepsNodes self.old self.new) }
        ensures only { OnOk result (AddsOnly (Below node) self.old self.new) }
        ensures stand { OnOk result (NeededStand self.new node) }
    {
        self.graph.see_sound();
        let sources = self.sources_of(node, bound)?;
        self.write_each(&sources)
    }

    /// Writes nodes behind those that they need.
    #[cycle(nodes)]
    fn write_each(&mut self, nodes: &[NodeId]) -> Result<(), AllocError>
        requires ready { IsReady self.old }
        requires there { AreThere self.old.graph.now nodes.now }
        ensures writes { KeepsWritten self.old self.new result }
        ensures keeps { OnOk result (KeepsNodes self.old self.new) }
        ensures only { OnOk result (AddsOnly (UpToOne nodes.now) self.old self.new) }
        ensures stand { OnOk result (AllStand self.new nodes.now) }
    {
        for node in nodes {
            self.write_node(*node)?;
        }
        Ok(())
    }

    /// Writes a node where those that it needs stand.
    fn write_itself(&mut self, node: NodeId, bound: &Arguments) -> Result<(), AllocError>
        requires ready { IsReady self.old }
        requires there { ContainsNode self.old.graph.now node }
        requires needed { NeededStand self.old node }
        requires bound { AreArguments self.old.graph.now node bound.now }
        requires new { Among node (names_of (noted self.old)) → ⊥ }
        ensures writes { KeepsWritten self.old self.new result }
        ensures keeps { OnOk result (KeepsNodes self.old self.new) }
        ensures only { OnOk result (AddsOnly (λ rank k. k ≡ node) self.old self.new) }
        ensures stands { OnOk result (Among node (names_of (noted self.new))) }
    {
        let place = self.written(node, bound)?;
        let _ = self.root.nodes.insert(node, place)?;
        Ok(())
    }

    /// Writes all nodes, each behind those that it needs.
    fn write_nodes(&mut self) -> Result<(), AllocError>
        requires { IsReady self.old }
        ensures writes { KeepsWritten self.old self.new result }
        ensures keeps { OnOk result (KeepsNodes self.old self.new) }
        ensures all { OnOk result (AllAreWritten self.new.graph.now (noted self.new)) }
    {
        for node in self.graph.node_ids() {
            self.write_node(node)?;
        }
        Ok(())
    }

    /// Writes all that stands behind the root's types and imports; the names of nodes.
    pub(crate) fn write_all(&mut self) -> Result<Vec<SortNames>, AllocError>
        requires placed { ArePlacedAt self.old.root.imports.items self.old.places.now }
        requires ready { IsReadyWith self.old.graph.now (HasPlace self.old.places.now) self.old.root }
        ensures finishes { Finishes self.old self.new result }
        ensures nests { OnOk result (NestsNoMore self.old.root self.new.root) }
    {
        self.graph.see_sound();
        let none = Vec::new(self.alloc);
        self.imports = mem::replace(&mut self.root.imports, none);
        self.write_nodes()?;
        let Root {
            entries,
            nodes,
            exported,
            ..
        } = &mut self.root;
        push_exports(self.graph, nodes, exported, entries)?;
        let names = names_of_nodes(self.graph, &self.root.nodes)?;
        Ok(names)
    }
}
