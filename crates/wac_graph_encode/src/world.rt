//! The world that is true of a composition's bytes.

ghost use Rattle.std.specs.Prelude.{◌≡◌, ℕ, [], IfOk, OnOk, IfSome, slice_get};
ghost use Rattle.wac_types_base.specs.declared.ids.InterfaceId.{InterfaceId};
ghost use Rattle.wac_types_base.specs.declared.item.ItemKind.{ItemKind as Kind};
ghost use Rattle.wac_types_base.specs.Collection.{Grows, Stands};
ghost use Rattle.wac_types_base.specs.Entries.{Name, value_at};
ghost use Rattle.wac_types_written.specs.Forms.{ItemsStand};
ghost use Rattle.wac_graph_core.specs.Edges.{HasAlias};
ghost use Rattle.wac_graph_core.specs.Graph.{ContainsNode};
ghost use Rattle.wac_types_parts.specs.Parts.{exports_of, imports_of};
ghost use Rattle.wac_graph_encode.specs.Encoding.{HasTrueWorld};
ghost use Rattle.wac_graph_encode.specs.Worlds.{AddsExported, AreCopies, AreDefinitionTypes, AreExported, IsToHandOut, IsWorldMade, NotesDefinition};
ghost use Rattle.wac_graph_encode.specs.Worlds.{IsUsedWorld, KnowsFinals, TellsCopied, TellsExported, TellsFinal, outer_type, with_import};

use crate::copying::Copies;
use crate::without_uses::handed_out;
use indexmap::IndexMap;
use std::alloc::{AllocError, Global};
use wac_graph_asks::asks::{Asked, Definition};
use wac_graph_asks::nodes::{import_name, kind_of};
use wac_graph_asks::outers::Outers;
use wac_graph_core::{CompositionGraph, NodeId};
use wac_types_base::{ItemKind, NamedMap, Types, World, WorldId};
use wac_types_parts::maps::insert_under;
use wac_types_parts::parts::{export_named, import_at, import_count};

/// The outer imports, and the types of definitions as they are written.
struct Finals<'a> {
    outers: &'a Outers,
    definitions: IndexMap<NodeId, ItemKind>,
}

impl Drop for Finals<'_> {
    fn drop(self) {
        let Finals {
            outers: _,
            definitions: _,
        } = self;
    }
}

/// Adds the written type of a definition, if it has one of its own.
fn tell_definition(
    definition: &Definition,
    told: &mut IndexMap<NodeId, ItemKind>,
) -> Result<(), AllocError>
    ensures { OnOk result (NotesDefinition definition.now told.old.entries told.new.entries) }
{
    match definition.copy {
        Some(copy) => {
            let _ = told.insert(definition.node, copy)?;
            Ok(())
        }
        None => Ok(()),
    }
}

/// Adds the written types of definitions.
fn tell_definitions(
    definitions: &[Definition],
    told: &mut IndexMap<NodeId, ItemKind>,
) -> Result<(), AllocError>
    requires { told.old.entries ≡ [] }
    ensures { OnOk result (AreDefinitionTypes definitions.now told.new.entries) }
{
    for definition in definitions {
        tell_definition(definition, told)?;
    }
    Ok(())
}

/// The types of outer imports and definitions.
fn finals_of<'a>(
    graph: &CompositionGraph,
    types: &Types,
    outers: &'a Outers,
    definitions: &[Definition],
) -> Result<Finals<'a>, AllocError>
    requires { IsToHandOut graph.now types.now outers.now definitions.now }
    ensures { IfOk result (KnowsFinals graph.now types.now) }
{
    graph.see_sound();
    graph.types().see_acyclic();
    types.see_acyclic();
    let mut written = IndexMap::new(graph.alloc());
    tell_definitions(definitions, &mut written)?;
    Ok(Finals {
        outers,
        definitions: written,
    })
}

/// An export of an instance.
fn export_of(types: &Types, kind: ItemKind, name: &str) -> Option<ItemKind>
    ensures value { (i : InterfaceId) → kind ≡ Kind.Instance i → result ≡ value_at (exports_of types.now i) name.now }
    ensures stands { IfSome result (Stands types.now) }
{
    match kind {
        ItemKind::Instance(id) => export_named(types, id, name),
        _ => None,
    }
}

/// The type of the outer import that is asked for under a name.
fn type_under(types: &Types, outers: &Outers, name: &str) -> Option<ItemKind>
    ensures { result ≡ outer_type types.now outers.now name.now }
{
    match outers.places.get(name) {
        Some(at) => match import_at(types, outers.world, *at) {
            Some(import) => Some(import.kind),
            None => None,
        },
        None => None,
    }
}

/// The type of an import or a definition; none of another node.
fn type_told(
    graph: &CompositionGraph,
    types: &Types,
    finals: &Finals<'_>,
    node: NodeId,
) -> Option<ItemKind>
    requires finals { KnowsFinals graph.now types.now finals.now }
    requires alone { (i : ℕ) (n : Name) → HasAlias graph.now.edges i n node → ⊥ }
    ensures { TellsFinal graph.now types.now node result }
{
    graph.see_sound();
    graph.types().see_acyclic();
    types.see_acyclic();
    match import_name(graph, node) {
        Some(name) => type_under(types, finals.outers, name),
        None => finals.definitions.get(&node).copied(),
    }
}

/// The type of what comes from an outer import or is a definition that is an interface or a world; none of what comes
/// from an instance or has its type in the graph alone.
fn final_type(
    graph: &CompositionGraph,
    types: &Types,
    finals: &Finals<'_>,
    node: NodeId,
) -> Option<ItemKind>
    requires { KnowsFinals graph.now types.now finals.now }
    ensures { TellsFinal graph.now types.now node result }
{
    graph.see_sound();
    graph.types().see_acyclic();
    types.see_acyclic();
    match graph.get_alias_source(node) {
        Some(found) => match final_type(graph, types, finals, found.0) {
            Some(kind) => export_of(types, kind, found.1),
            None => None,
        },
        None => type_told(graph, types, finals, node),
    }
}

/// The type of a node in the graph, copied.
fn copied_type(
    graph: &CompositionGraph,
    types: &mut Types,
    copies: &mut Copies,
    node: NodeId,
) -> Result<Option<ItemKind>, AllocError>
    requires { AreCopies graph.now.types types.old copies.old }
    ensures copied { IfOk result (TellsCopied graph.now types.new node) }
    ensures copies { AreCopies graph.now.types types.new copies.new }
    ensures grows { Grows types.old types.new }
{
    types.see_acyclic();
    graph.types().see_acyclic();
    match kind_of(graph, node) {
        Some(kind) => {
            let copy = copies.item(graph.types(), types, kind)?;
            Ok(Some(copy))
        }
        None => Ok(None),
    }
}

/// The type under an export.
fn exported_type(
    graph: &CompositionGraph,
    types: &mut Types,
    finals: &Finals<'_>,
    copies: &mut Copies,
    node: NodeId,
) -> Result<Option<ItemKind>, AllocError>
    requires finals { KnowsFinals graph.now types.old finals.now }
    requires copies { AreCopies graph.now.types types.old copies.old }
    ensures exported { IfOk result (TellsExported graph.now types.new node) }
    ensures copies { AreCopies graph.now.types types.new copies.new }
    ensures grows { Grows types.old types.new }
{
    types.see_acyclic();
    match final_type(graph, types, finals, node) {
        Some(kind) => Ok(Some(kind)),
        None => copied_type(graph, types, copies, node),
    }
}

/// Adds the type under an export.
fn add_export(
    graph: &CompositionGraph,
    types: &mut Types,
    finals: &Finals<'_>,
    copies: &mut Copies,
    exports: &mut NamedMap<ItemKind>,
    export: (&str, NodeId),
) -> Result<(), AllocError>
    requires there { ContainsNode graph.now export.1 }
    requires finals { KnowsFinals graph.now types.old finals.now }
    requires copies { AreCopies graph.now.types types.old copies.old }
    ensures adds { OnOk result (AddsExported graph.now types.new export.entry.0.now export.entry.1 exports.old exports.new) }
    ensures copies { AreCopies graph.now.types types.new copies.new }
    ensures grows { Grows types.old types.new }
{
    let (name, node) = export;
    let told = exported_type(graph, types, finals, copies, node)?;
    match told {
        Some(item) => insert_under(graph.alloc(), exports, name, item),
        None => Ok(()),
    }
}

/// Adds the types under the exports.
fn add_exports(
    graph: &CompositionGraph,
    types: &mut Types,
    finals: &Finals<'_>,
    copies: &mut Copies,
    exports: &mut NamedMap<ItemKind>,
) -> Result<(), AllocError>
    requires none { exports.old ≡ [] }
    requires finals { KnowsFinals graph.now types.old finals.now }
    requires copies { AreCopies graph.now.types types.old copies.old }
    ensures exports { OnOk result (AreExported graph.now types.new graph.now.exports exports.new) }
    ensures grows { Grows types.old types.new }
{
    graph.see_sound();
    types.see_acyclic();
    let listed = graph.exports();
    for at in 0..listed.len() {
        let export = listed.entry(at);
        add_export(graph, types, finals, copies, exports, export)?;
    }
    Ok(())
}

/// The types under the exports.
fn typed_exports(
    graph: &CompositionGraph,
    types: &mut Types,
    outers: &Outers,
    definitions: &[Definition],
) -> Result<NamedMap<ItemKind>, AllocError>
    requires { IsToHandOut graph.now types.old outers.now definitions.now }
    ensures exports { IfOk result (AreExported graph.now types.new graph.now.exports) }
    ensures grows { Grows types.old types.new }
{
    types.see_acyclic();
    let finals = finals_of(graph, types, outers, definitions)?;
    let mut copies = Copies::new(graph.alloc(), types);
    let mut exports = NamedMap::new(graph.alloc());
    add_exports(graph, types, &finals, &mut copies, &mut exports)?;
    Ok(exports)
}

/// Adds the import at a place of a world.
fn add_import(
    alloc: Global,
    types: &Types,
    world: WorldId,
    at: usize,
    imports: &mut NamedMap<ItemKind>,
) -> Result<(), AllocError>
    ensures { OnOk result (imports.new ≡ with_import (slice_get (imports_of types.now world) at) imports.old) }
{
    match import_at(types, world, at) {
        Some(import) => insert_under(alloc, imports, import.name, import.kind),
        None => Ok(()),
    }
}

/// Adds the imports of a world.
fn add_imports(
    alloc: Global,
    types: &Types,
    world: WorldId,
    imports: &mut NamedMap<ItemKind>,
) -> Result<(), AllocError>
    requires { imports.old ≡ [] }
    ensures { OnOk result (imports.new ≡ imports_of types.now world) }
{
    for at in 0..import_count(types, world) {
        add_import(alloc, types, world, at, imports)?;
    }
    Ok(())
}

/// The imports of a world, again.
fn same_imports(
    alloc: Global,
    types: &Types,
    world: WorldId,
) -> Result<NamedMap<ItemKind>, AllocError>
    ensures { IfOk result (λ imports. imports ≡ imports_of types.now world) }
{
    let mut imports = NamedMap::new(alloc);
    add_imports(alloc, types, world, &mut imports)?;
    Ok(imports)
}

/// A world of these imports and exports.
fn add_world_of(
    alloc: Global,
    types: &mut Types,
    imports: NamedMap<ItemKind>,
    exports: NamedMap<ItemKind>,
) -> Result<WorldId, AllocError>
    requires imports { ItemsStand types.old imports }
    requires exports { ItemsStand types.old exports }
    ensures world { IfOk result (IsWorldMade types.old types.new imports exports) }
    ensures grows { Grows types.old types.new }
{
    let world = types.add_world(World {
        id: None,
        uses: NamedMap::new(alloc),
        imports,
        exports,
    })?;
    Ok(world)
}

/// The world of a composition, beside what is asked.
fn own_world(
    graph: &CompositionGraph,
    types: &mut Types,
    outers: &Outers,
    definitions: &[Definition],
) -> Result<WorldId, AllocError>
    requires { IsToHandOut graph.now types.old outers.now definitions.now }
    ensures world { IfOk result (IsUsedWorld graph.now types.new) }
    ensures grows { Grows types.old types.new }
{
    types.see_acyclic();
    let exports = typed_exports(graph, types, outers, definitions)?;
    let imports = same_imports(graph.alloc(), types, outers.world)?;
    add_world_of(graph.alloc(), types, imports, exports)
}

/// The world of a composition, in a collection of its own.
pub(crate) fn composed_world(
    graph: &CompositionGraph,
    types: &mut Types,
    outers: &Outers,
    definitions: &[Definition],
    to: &mut Types,
) -> Result<WorldId, AllocError>
    requires { IsToHandOut graph.now types.old outers.now definitions.now }
    ensures world { IfOk result (HasTrueWorld graph.now to.new) }
    ensures grows { Grows to.old to.new }
{
    to.see_acyclic();
    let world = own_world(graph, types, outers, definitions)?;
    handed_out(graph.alloc(), types, world, to)
}
