//! What a graph asks from outside, in order.

ghost use Rattle.std.specs.Prelude.{◌≡◌, ◌+◌, ◌∷◌, ◌++◌, [], true, OnOk, IfOk};
ghost use Rattle.wac_types_base.specs.declared.item.ItemKind.{ItemKind};
ghost use Rattle.wac_types_base.specs.Collection.{Stands, Grows, size_of, empty};
ghost use Rattle.wac_types_base.specs.Stated.{stated_of};
ghost use Rattle.wac_graph_core.specs.Graph.{node_at};
ghost use Rattle.wac_types_parts.specs.Parts.{imports_of};
ghost use Rattle.wac_composition.specs.Asks.{used_by, used_by_definition, asked_for};
ghost use Rattle.wac_graph_asks.specs.Graphs.{first_export};
ghost use Rattle.wac_graph_asks.specs.Reads.{is_definition};
ghost use Rattle.wac_graph_asks.specs.AsksIn.{asks_in};
ghost use Rattle.wac_graph_asks.specs.Asked.{package_ids, HasCopy, IsHeld, Adds, IsAsked};
ghost use Rattle.wac_graph_asks.specs.AskedNodes.{held_ask, unbound_asks, imports_ask, instances_ask, all_defined};
ghost use Rattle.wac_graph_asks.specs.AskedNodes.{import_asks, definitions_at, AsksInstance, CopiesWorld, AddsNodes};
ghost use Rattle.wac_graph_asks.specs.AskedNodes.{NamesFirst, AreFirstNames, name_in};
ghost use Rattle.wac_graph_asks.specs.AskedUses.{NotesUse, AskedBelow, AllSeenAsked, AddsUses, AreUses, AskedStand};
ghost use Rattle.wac_graph_asks.specs.AskedUses.{with_used, used_directly, used_by_world, used_by_exports};
ghost use Rattle.wac_graph_asks.specs.AskedUses.{CopiesStand, uses_of_asks, uses_of_copies};

use crate::nodes::{Arguments, import_name, kind_of, node_at, package_of, world_at};
use indexmap::{IndexMap, IndexSet};
use std::alloc::{AllocError, Global};
use wac_graph_core::{CompositionGraph, NodeId, NodeKind, PackageId};
use wac_types_base::copy::copy_item;
use wac_types_base::{InterfaceId, ItemKind, Text, Type, Types, WorldId};
use wac_types_parts::parts::{import_at, import_count, interface_of};

/// Why something is asked.
#[derive(Clone, Copy, PartialEq, Eq)]
pub enum Asking {
    /// An import asks for it by its name.
    ByName,
    /// An instance has no argument of that name.
    ToFill,
    /// An asked type or a definition uses the interface.
    ToUse,
}

/// What is asked under a name.
pub struct Ask {
    pub asking: Asking,
    /// The node that asks; of a used interface the one whose type uses it.
    pub by: NodeId,
    pub name: Text,
    pub item: ItemKind,
}

impl Drop for Ask {
    fn drop(self) {
        let Ask {
            asking: _,
            by: _,
            name: _,
            item: _,
        } = self;
    }
}

/// A definition, by the name that it was defined under.
pub struct Definition {
    pub node: NodeId,
    pub name: Text,
    /// In the graph's collection.
    pub ty: Type,
    /// Of an interface or a world, its copy among what is asked.
    pub copy: Option<ItemKind>,
}

impl Drop for Definition {
    fn drop(self) {
        let Definition {
            node: _,
            name: _,
            ty: _,
            copy: _,
        } = self;
    }
}

/// What a graph asks and defines, in a collection of its own.
pub struct Asked {
    pub types: Types,
    pub asks: Vec<Ask>,
    /// The worlds of packages, each once, in the order of their instances.
    pub packages: IndexMap<PackageId, WorldId>,
    pub definitions: Vec<Definition>,
}

impl Drop for Asked {
    fn drop(self) {
        let Asked {
            types: _,
            asks: _,
            packages: _,
            definitions: _,
        } = self;
    }
}

/// Adds an ask under a name.
fn push_ask(
    alloc: Global,
    asks: &mut Vec<Ask>,
    asking: Asking,
    by: NodeId,
    item: ItemKind,
    name: &str,
) -> Result<(), AllocError>
    ensures { OnOk result (asks.new.items ≡ asks.old.items ++ held_ask asking by name.now item ∷ []) }
{
    let name = Text::from_str(alloc, name)?;
    asks.push(Ask {
        asking,
        by,
        name,
        item,
    })?;
    Ok(())
}

/// Adds what an instance asks of the imports of a world: those that are not bound.
fn push_unbound(
    alloc: Global,
    types: &Types,
    asks: &mut Vec<Ask>,
    node: NodeId,
    world: WorldId,
    bound: &Arguments,
) -> Result<(), AllocError>
    ensures { OnOk result (asks.new.items ≡ asks.old.items ++ unbound_asks node bound.now (imports_of types.now world)) }
{
    for at in 0..import_count(types, world) {
        if let Some(import) = import_at(types, world, at) {
            if bound.get(import.name).is_none() {
                push_ask(alloc, asks, Asking::ToFill, node, import.kind, import.name)?;
            }
        }
    }
    Ok(())
}

/// The copy of a type that is an interface or a world.
fn copied_type(
    alloc: Global,
    graph: &CompositionGraph,
    ty: Type,
    to: &mut Types,
) -> Result<Option<ItemKind>, AllocError>
    requires { Stands graph.now.types (ItemKind.Ty ty) }
    ensures copy { IfOk result (HasCopy graph.now.types to.new ty) }
    ensures grows { OnOk result (Grows to.old to.new) }
{
    to.see_acyclic();
    match ty {
        Type::Interface(_) | Type::World(_) => {
            let copy = copy_item(alloc, graph.types(), ItemKind::Ty(ty), to)?;
            Ok(Some(copy))
        }
        _ => Ok(None),
    }
}

impl Asked {
    fn new(alloc: Global, number: u64) -> Self
        ensures types { result.types ≡ empty number }
        ensures asks { result.asks.items ≡ [] }
        ensures packages { result.packages.entries ≡ [] }
        ensures definitions { result.definitions.items ≡ [] }
    {
        Asked {
            types: Types::new(alloc, number),
            asks: Vec::new(alloc),
            packages: IndexMap::new(alloc),
            definitions: Vec::new(alloc),
        }
    }

    /// Adds what an import asks.
    fn ask_import(
        &mut self,
        alloc: Global,
        graph: &CompositionGraph,
        node: NodeId,
    ) -> Result<(), AllocError>
        requires { IsHeld graph.now self.old }
        ensures { OnOk result (Adds graph.now self.old self.new (import_asks graph.now node) [] []) }
    {
        let Some(name) = import_name(graph, node) else {
            return Ok(());
        };
        let Some(kind) = kind_of(graph, node) else {
            return Ok(());
        };
        let item = copy_item(alloc, graph.types(), kind, &mut self.types)?;
        push_ask(alloc, &mut self.asks, Asking::ByName, node, item, name)
    }

    /// The world of a package in this collection, if it stands.
    fn copied_world(
        &mut self,
        alloc: Global,
        graph: &CompositionGraph,
        id: PackageId,
    ) -> Result<Option<WorldId>, AllocError>
        requires { IsHeld graph.now self.old }
        ensures { IfOk result (CopiesWorld graph.now self.old self.new id) }
    {
        if let Some(world) = self.packages.get(&id).copied() {
            return Ok(Some(world));
        }
        graph.types().see_acyclic();
        let Some(world) = world_at(graph, id) else {
            return Ok(None);
        };
        let kind = ItemKind::Component(world);
        match copy_item(alloc, graph.types(), kind, &mut self.types)? {
            ItemKind::Component(world) => {
                let _ = self.packages.insert(id, world)?;
                Ok(Some(world))
            }
            _ => Ok(None),
        }
    }

    /// Adds what an instance asks: its package's imports for which it has no argument.
    fn ask_instance(
        &mut self,
        alloc: Global,
        graph: &CompositionGraph,
        node: NodeId,
    ) -> Result<(), AllocError>
        requires { IsHeld graph.now self.old }
        ensures { OnOk result (AsksInstance graph.now node self.old self.new) }
    {
        graph.see_sound();
        graph.types().see_acyclic();
        let Some(package) = package_of(graph, node) else {
            return Ok(());
        };
        let Some(world) = self.copied_world(alloc, graph, package)? else {
            return Ok(());
        };
        let bound = Arguments::of(alloc, graph, node)?;
        push_unbound(alloc, &self.types, &mut self.asks, node, world, &bound)
    }

    /// Adds a definition under a name.
    fn define(
        &mut self,
        alloc: Global,
        graph: &CompositionGraph,
        node: NodeId,
        name: &str,
    ) -> Result<(), AllocError>
        requires held { IsHeld graph.now self.old }
        requires defined { is_definition (node_at graph.now node) ≡ true }
        requires name { name.now ≡ first_export graph.now.exports node }
        ensures { OnOk result (Adds graph.now self.old self.new [] [] (definitions_at graph.now node)) }
    {
        graph.see_sound();
        let Some(kind) = kind_of(graph, node) else {
            return Ok(());
        };
        let ItemKind::Ty(ty) = kind else {
            return Ok(());
        };
        let copy = copied_type(alloc, graph, ty, &mut self.types)?;
        let name = Text::from_str(alloc, name)?;
        self.definitions.push(Definition {
            node,
            name,
            ty,
            copy,
        })?;
        Ok(())
    }
}

fn is_definition(graph: &CompositionGraph, id: NodeId) -> bool
    ensures { result ≡ is_definition (node_at graph.now id) }
{
    match node_at(graph, id) {
        Some(node) => matches!(node.kind(), NodeKind::Definition),
        None => false,
    }
}

/// Gives a node a name, if it has none.
fn name_first(
    alloc: Global,
    names: &mut IndexMap<NodeId, Text>,
    node: NodeId,
    name: &str,
) -> Result<(), AllocError>
    ensures { OnOk result (NamesFirst names.old.entries names.new.entries node name.now) }
{
    if names.contains_key(&node) {
        return Ok(());
    }
    let name = Text::new(String::from_str(alloc, name)?);
    let _ = names.insert(node, name)?;
    Ok(())
}

/// Adds the first name that each node is exported under.
fn add_first_exports(
    graph: &CompositionGraph,
    names: &mut IndexMap<NodeId, Text>,
) -> Result<(), AllocError>
    requires { names.old.entries ≡ [] }
    ensures { OnOk result (AreFirstNames graph.now names.new.entries) }
{
    let listed = graph.exports();
    for at in 0..listed.len() {
        let (name, node) = listed.entry(at);
        name_first(graph.alloc(), names, node, name)?;
    }
    Ok(())
}

/// The asks of used interfaces, each interface once.
struct UseAsks {
    asks: Vec<Ask>,
    seen: IndexSet<InterfaceId>,
}

impl Drop for UseAsks {
    fn drop(self) {
        let UseAsks { asks: _, seen: _ } = self;
    }
}

/// Adds a used interface, if it is not there. Whether it was added.
fn add_use(
    alloc: Global,
    types: &Types,
    all: &mut UseAsks,
    by: NodeId,
    id: InterfaceId,
) -> Result<bool, AllocError>
    requires { Stands types.now (ItemKind.Instance id) }
    ensures { IfOk result (NotesUse types.now all.old all.new by id) }
{
    let is_new = all.seen.insert(id)?;
    if !is_new {
        return Ok(false);
    }
    if let Some(name) = &types.interface(id).id {
        let item = ItemKind::Instance(id);
        push_ask(alloc, &mut all.asks, Asking::ToUse, by, item, name.as_str())?;
    }
    Ok(true)
}

/// Adds a used interface, before those that it uses itself.
#[cycle(uses)]
fn ask_use(
    alloc: Global,
    types: &Types,
    all: &mut UseAsks,
    by: NodeId,
    id: InterfaceId,
) -> Result<(), AllocError>
    requires stands { Stands types.now (ItemKind.Instance id) }
    requires below { AskedBelow types.now all.old (size_of types.now (ItemKind.Instance id) + 1) }
    ensures { OnOk result (AddsUses types.now all.old all.new (asked_for by (with_used types.now id))) }
{
    let is_new = add_use(alloc, types, all, by, id)?;
    if !is_new {
        return Ok(());
    }
    ask_uses(alloc, types, all, by, ItemKind::Instance(id))
}

/// Adds the interfaces that an interface uses itself.
#[cycle(uses)]
fn ask_direct(
    alloc: Global,
    types: &Types,
    all: &mut UseAsks,
    by: NodeId,
    id: InterfaceId,
) -> Result<(), AllocError>
    requires stands { Stands types.now (ItemKind.Instance id) }
    requires below { AskedBelow types.now all.old (size_of types.now (ItemKind.Instance id)) }
    ensures { OnOk result (AddsUses types.now all.old all.new (asked_for by (used_directly types.now id))) }
{
    let uses = types.interface(id).uses.values();
    for used in uses {
        ask_use(alloc, types, all, by, used.interface)?;
    }
    Ok(())
}

/// Adds the interfaces that the items of an interface use.
#[cycle(uses)]
fn ask_exports(
    alloc: Global,
    types: &Types,
    all: &mut UseAsks,
    by: NodeId,
    id: InterfaceId,
) -> Result<(), AllocError>
    requires stands { Stands types.now (ItemKind.Instance id) }
    requires below { AskedBelow types.now all.old (size_of types.now (ItemKind.Instance id)) }
    ensures { OnOk result (AddsUses types.now all.old all.new (asked_for by (used_by_exports types.now id))) }
{
    let items = types.interface(id).exports.values();
    for item in items {
        ask_uses(alloc, types, all, by, *item)?;
    }
    Ok(())
}

/// Adds the interfaces that an item uses.
#[cycle(uses)]
fn ask_uses(
    alloc: Global,
    types: &Types,
    all: &mut UseAsks,
    by: NodeId,
    kind: ItemKind,
) -> Result<(), AllocError>
    requires stands { Stands types.now kind }
    requires below { AskedBelow types.now all.old (size_of types.now kind) }
    ensures { OnOk result (AddsUses types.now all.old all.new (asked_for by (used_by (stated_of types.now kind)))) }
{
    types.see_acyclic();
    let Some(id) = interface_of(types, kind) else {
        return Ok(());
    };
    ask_direct(alloc, types, all, by, id)?;
    ask_exports(alloc, types, all, by, id)
}

/// Adds the interfaces that a world uses itself, each before those that it uses.
fn ask_world(
    alloc: Global,
    types: &Types,
    all: &mut UseAsks,
    by: NodeId,
    id: WorldId,
) -> Result<(), AllocError>
    requires stands { Stands types.now (ItemKind.Component id) }
    requires seen { AllSeenAsked types.now all.old }
    ensures { OnOk result (AddsUses types.now all.old all.new (asked_for by (used_by_world types.now id))) }
{
    let uses = types.world(id).uses.values();
    for used in uses {
        ask_use(alloc, types, all, by, used.interface)?;
    }
    Ok(())
}

/// Adds the interfaces that a definition uses which is written as it is: one without identifier.
fn ask_definition(
    alloc: Global,
    types: &Types,
    all: &mut UseAsks,
    by: NodeId,
    copy: ItemKind,
) -> Result<(), AllocError>
    requires stands { Stands types.now copy }
    requires seen { AllSeenAsked types.now all.old }
    ensures { OnOk result (AddsUses types.now all.old all.new (asked_for by (used_by_definition (stated_of types.now copy)))) }
{
    types.see_acyclic();
    let ItemKind::Ty(ty) = copy else {
        return Ok(());
    };
    match ty {
        Type::Interface(id) => {
            if types.interface(id).id.is_some() {
                return Ok(());
            }
            ask_uses(alloc, types, all, by, copy)
        }
        Type::World(id) => {
            if types.world(id).id.is_some() {
                return Ok(());
            }
            ask_world(alloc, types, all, by, id)
        }
        _ => Ok(()),
    }
}

/// Adds the interfaces that asked items use.
fn ask_uses_of_asks(
    alloc: Global,
    types: &Types,
    asks: &[Ask],
    all: &mut UseAsks,
) -> Result<(), AllocError>
    requires stand { AskedStand types.now asks.now }
    requires seen { AllSeenAsked types.now all.old }
    ensures { OnOk result (AddsUses types.now all.old all.new (uses_of_asks (asks_in types.now asks.now))) }
{
    for ask in asks {
        ask_uses(alloc, types, all, ask.by, ask.item)?;
    }
    Ok(())
}

/// Adds the interfaces that definitions use which are written as they are.
fn ask_uses_of_definitions(
    alloc: Global,
    types: &Types,
    definitions: &[Definition],
    all: &mut UseAsks,
) -> Result<(), AllocError>
    requires stand { CopiesStand types.now definitions.now }
    requires seen { AllSeenAsked types.now all.old }
    ensures { OnOk result (AddsUses types.now all.old all.new (uses_of_copies types.now definitions.now)) }
{
    for definition in definitions {
        if let Some(copy) = definition.copy {
            ask_definition(alloc, types, all, definition.node, copy)?;
        }
    }
    Ok(())
}

impl UseAsks {
    fn into_asks(self) -> Vec<Ask>
        ensures { result ≡ self.asks }
    {
        let UseAsks { asks, seen: _ } = self;
        asks
    }
}

/// The asks of used interfaces, by those that use them.
fn uses_asked(alloc: Global, asked: &Asked) -> Result<Vec<Ask>, AllocError>
    requires items { AskedStand asked.now.types asked.now.asks.items }
    requires copies { CopiesStand asked.now.types asked.now.definitions.items }
    ensures { IfOk result (λ uses. AreUses asked.now uses.items) }
{
    let mut all = UseAsks {
        asks: Vec::new(alloc),
        seen: IndexSet::new(alloc),
    };
    ask_uses_of_asks(alloc, &asked.types, &asked.asks, &mut all)?;
    ask_uses_of_definitions(alloc, &asked.types, &asked.definitions, &mut all)?;
    Ok(all.into_asks())
}

/// The name of a node, if it has one.
fn name_among(names: &IndexMap<NodeId, Text>, node: NodeId) -> &str
    ensures { result.now ≡ name_in names.now.entries node }
{
    match names.get(&node) {
        Some(name) => name.as_str(),
        None => "",
    }
}

/// Adds a node that is a definition, under its name.
fn define_node(
    alloc: Global,
    graph: &CompositionGraph,
    names: &IndexMap<NodeId, Text>,
    asked: &mut Asked,
    node: NodeId,
) -> Result<(), AllocError>
    requires names { AreFirstNames graph.now names.now.entries }
    requires held { IsHeld graph.now asked.old }
    ensures { OnOk result (Adds graph.now asked.old asked.new [] [] (definitions_at graph.now node)) }
{
    if !is_definition(graph, node) {
        return Ok(());
    }
    asked.define(alloc, graph, node, name_among(names, node))
}

/// Adds the definitions, each under its name.
fn define_all(
    alloc: Global,
    graph: &CompositionGraph,
    names: &IndexMap<NodeId, Text>,
    asked: &mut Asked,
) -> Result<(), AllocError>
    requires names { AreFirstNames graph.now names.now.entries }
    requires held { IsHeld graph.now asked.old }
    ensures { OnOk result (Adds graph.now asked.old asked.new [] [] (all_defined graph.now)) }
{
    for node in graph.node_ids() {
        define_node(alloc, graph, names, asked, node)?;
    }
    Ok(())
}

/// Adds the definitions, each under the first name that leads to it.
fn ask_definitions(
    alloc: Global,
    graph: &CompositionGraph,
    asked: &mut Asked,
) -> Result<(), AllocError>
    requires { IsHeld graph.now asked.old }
    ensures { OnOk result (Adds graph.now asked.old asked.new [] [] (all_defined graph.now)) }
{
    let mut names = IndexMap::new(alloc);
    add_first_exports(graph, &mut names)?;
    define_all(alloc, graph, &names, asked)
}

/// Adds what the imports of a graph ask.
fn ask_imports(alloc: Global, graph: &CompositionGraph, asked: &mut Asked) -> Result<(), AllocError>
    requires { IsHeld graph.now asked.old }
    ensures { OnOk result (Adds graph.now asked.old asked.new (imports_ask graph.now) [] []) }
{
    for node in graph.node_ids() {
        asked.ask_import(alloc, graph, node)?;
    }
    Ok(())
}

/// Adds what the instances of a graph ask.
fn ask_instances(
    alloc: Global,
    graph: &CompositionGraph,
    asked: &mut Asked,
) -> Result<(), AllocError>
    requires { IsHeld graph.now asked.old }
    ensures { OnOk result (Adds graph.now asked.old asked.new (instances_ask graph.now) (package_ids graph.now) []) }
{
    for node in graph.node_ids() {
        asked.ask_instance(alloc, graph, node)?;
    }
    Ok(())
}

/// Adds asks behind the others.
fn add_asks(all: &mut Vec<Ask>, asks: Vec<Ask>) -> Result<(), AllocError>
    ensures { OnOk result (all.new.items ≡ all.old.items ++ asks.items) }
{
    for ask in asks {
        all.push(ask)?;
    }
    Ok(())
}

/// Adds all that a graph asks and defines, but for the uses.
fn ask_named(alloc: Global, graph: &CompositionGraph, asked: &mut Asked) -> Result<(), AllocError>
    requires { IsHeld graph.now asked.old }
    ensures { OnOk result (AddsNodes graph.now asked.old asked.new) }
{
    ask_imports(alloc, graph, asked)?;
    ask_instances(alloc, graph, asked)?;
    ask_definitions(alloc, graph, asked)
}

/// What a graph asks: by its imports, by its instances, and for what these and its definitions use.
pub fn asked_by(alloc: Global, graph: &CompositionGraph, number: u64) -> Result<Asked, AllocError>
    ensures { IfOk result (IsAsked graph.now) }
{
    graph.see_sound();
    graph.types().see_acyclic();
    let mut asked = Asked::new(alloc, number);
    asked.types.see_acyclic();
    ask_named(alloc, graph, &mut asked)?;
    let uses = uses_asked(alloc, &asked)?;
    add_asks(&mut asked.asks, uses)?;
    Ok(asked)
}
