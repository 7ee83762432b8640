//! Types that cannot be written.

ghost use Rattle.std.specs.Prelude.{◌≡◌, ◌≤◌, None, OnOk, IfOk, IfErr, length};
ghost use Rattle.wac_types_parts.specs.Parts.{imports_of};
ghost use Rattle.wac_graph_causes.specs.Unwritable.{TellsName, TellsUnwritable, is_value_item, is_value_at, alias_cause, alias_cause_at};
ghost use Rattle.wac_graph_causes.specs.Unwritable.{TellsImport, OutersPass, TellsOuterCause};
ghost use Rattle.wac_graph_causes.specs.Unwritable.{PackagePasses, TellsPackageAt, PackagesPass, TellsPackageCause};
ghost use Rattle.wac_graph_causes.specs.Unwritable.{KeepsBeside, TellsDefined, DefinitionPasses, TellsDefinitionAt};
ghost use Rattle.wac_graph_causes.specs.Unwritable.{EachPasses, TellsFirstOf, DefinitionsPass, TellsDefinitionCause};
ghost use Rattle.wac_graph_causes.specs.Unwritable.{TypesPass, TellsTypesCause, IsWhole, TellsUnwritten, unwritten_cause};

use crate::error::Unwritten;
use crate::names::dependency_name;
use std::alloc::{AllocError, Global};
use wac_graph_asks::asks::{Asked, Definition};
use wac_graph_asks::nodes::kind_of;
use wac_graph_asks::outers::Outers;
use wac_graph_core::{CompositionGraph, NodeId, PackageId};
use wac_types_base::{ItemKind, Types, WorldId};
use wac_types_parts::parts::{Item, import_at};
use wac_writable::holder::Holder;
use wac_writable::unnamed::Unnamed;
use wac_writable::writable::{
    Test, is_unwritable_definition, is_unwritable_package, unwritable_outer,
};

pub(crate) fn unwritable(alloc: Global, name: &str) -> Unwritten
    ensures { TellsName name.now result }
{
    match String::from_str(alloc, name) {
        Ok(name) => Unwritten::TypeCannotBeWritten { name },
        Err(AllocError) => Unwritten::Memory,
    }
}

// ---- aliases

fn is_value_item(kind: ItemKind) -> bool
    ensures { result ≡ is_value_item kind }
{
    matches!(kind, ItemKind::Value(_))
}

/// Whether a node's item is a value.
fn is_value(graph: &CompositionGraph, node: NodeId) -> bool
    ensures { result ≡ is_value_at graph.now node }
{
    match kind_of(graph, node) {
        Some(kind) => is_value_item(kind),
        None => false,
    }
}

/// A node is no alias of a value item.
fn check_alias(alloc: Global, graph: &CompositionGraph, node: NodeId) -> Result<(), Unwritten>
    ensures none { OnOk result (alias_cause_at graph.now node ≡ None) }
    ensures cause { IfErr result (TellsUnwritable (alias_cause_at graph.now node)) }
{
    graph.see_sound();
    if !is_value(graph, node) {
        return Ok(());
    }
    match graph.get_alias_source(node) {
        Some(source) => Err(unwritable(alloc, source.1)),
        None => Ok(()),
    }
}

/// No alias is of a value item.
fn check_aliases(alloc: Global, graph: &CompositionGraph) -> Result<(), Unwritten>
    ensures none { OnOk result (alias_cause graph.now ≡ None) }
    ensures cause { IfErr result (TellsUnwritable (alias_cause graph.now)) }
{
    graph.see_sound();
    graph.types().see_acyclic();
    for node in graph.node_ids() {
        check_alias(alloc, graph, node)?;
    }
    Ok(())
}

// ---- outer imports

/// The import at a place of a world is told.
fn refused_import(alloc: Global, types: &Types, world: WorldId, at: usize) -> Result<(), Unwritten>
    ensures past { OnOk result (length (imports_of types.now world) ≤ at) }
    ensures told { IfErr result (TellsImport types.now world at) }
{
    match import_at(types, world, at) {
        Some(import) => Err(unwritable(alloc, import.name)),
        None => Ok(()),
    }
}

/// Each outer import can be written beside all of them.
fn check_outers(
    alloc: Global,
    asked: &Asked,
    unnamed: &Unnamed,
    outers: &Outers,
) -> Result<(), Unwritten>
    ensures none { OnOk result (OutersPass asked.now outers.now unnamed.now) }
    ensures cause { IfErr result (TellsOuterCause asked.now outers.now unnamed.now) }
{
    asked.types.see_acyclic();
    let test = Test {
        alloc,
        types: &asked.types,
        unnamed,
        is_outer: true,
    };
    let found = unwritable_outer(test, outers.world)?;
    match found {
        Some(at) => refused_import(alloc, &asked.types, outers.world, at),
        None => Ok(()),
    }
}

// ---- definitions

/// The outer imports, as what stands beside definitions: for those that have copies, and for the rest.
struct Beside {
    copies: Holder,
    rest: Holder,
}

impl Drop for Beside {
    fn drop(self) {
        let Beside { copies: _, rest: _ } = self;
    }
}

/// Whether a definition cannot be written beside the outer imports: its copy, if it has one.
fn is_unwritable(
    alloc: Global,
    types: &Types,
    asked: &Types,
    unnamed: &Unnamed,
    outers: &mut Beside,
    definition: &Definition,
) -> Result<bool, AllocError>
    ensures keeps { OnOk result (KeepsBeside types.now asked.now outers.old outers.new) }
    ensures tells { IfOk result (TellsDefined types.now asked.now unnamed.now outers.old definition.now) }
{
    let name = definition.name.as_str();
    match definition.copy {
        Some(kind) => {
            let test = Test {
                alloc,
                types: asked,
                unnamed,
                is_outer: false,
            };
            is_unwritable_definition(test, &mut outers.copies, Item { name, kind })
        }
        None => {
            let test = Test {
                alloc,
                types,
                unnamed,
                is_outer: false,
            };
            let kind = ItemKind::Ty(definition.ty);
            is_unwritable_definition(test, &mut outers.rest, Item { name, kind })
        }
    }
}

/// A definition can be written beside the outer imports.
fn check_definition(
    alloc: Global,
    types: &Types,
    asked: &Types,
    unnamed: &Unnamed,
    outers: &mut Beside,
    definition: &Definition,
) -> Result<(), Unwritten>
    ensures keeps { OnOk result (KeepsBeside types.now asked.now outers.old outers.new) }
    ensures none { OnOk result (DefinitionPasses types.now asked.now unnamed.now outers.old definition.now) }
    ensures cause { IfErr result (TellsDefinitionAt types.now asked.now unnamed.now outers.old definition.now) }
{
    let fails = is_unwritable(alloc, types, asked, unnamed, outers, definition)?;
    if fails {
        return Err(unwritable(alloc, definition.name.as_str()));
    }
    Ok(())
}

/// Each of these definitions can.
fn check_each(
    alloc: Global,
    types: &Types,
    asked: &Types,
    unnamed: &Unnamed,
    outers: &mut Beside,
    definitions: &[Definition],
) -> Result<(), Unwritten>
    ensures none { OnOk result (EachPasses types.now asked.now unnamed.now outers.old definitions.now) }
    ensures cause { IfErr result (TellsFirstOf types.now asked.now unnamed.now outers.old definitions.now) }
{
    for definition in definitions {
        check_definition(alloc, types, asked, unnamed, outers, definition)?;
    }
    Ok(())
}

/// Each definition can be written beside the outer imports.
fn check_definitions(
    alloc: Global,
    graph: &CompositionGraph,
    asked: &Asked,
    unnamed: &Unnamed,
    outers: &Outers,
) -> Result<(), Unwritten>
    ensures none { OnOk result (DefinitionsPass graph.now asked.now outers.now unnamed.now) }
    ensures cause { IfErr result (TellsDefinitionCause graph.now asked.now outers.now unnamed.now) }
{
    asked.types.see_acyclic();
    let types = graph.types();
    let copies = Holder::of_world(alloc, &asked.types, outers.world)?;
    let rest = Holder::of_world(alloc, &asked.types, outers.world)?;
    let mut beside = Beside { copies, rest };
    check_each(
        alloc,
        types,
        &asked.types,
        unnamed,
        &mut beside,
        &asked.definitions,
    )
}

// ---- packages

/// The world of a package can be written as the type of an import.
fn check_package(
    alloc: Global,
    graph: &CompositionGraph,
    asked: &Asked,
    unnamed: &Unnamed,
    id: PackageId,
    world: WorldId,
) -> Result<(), Unwritten>
    ensures none { OnOk result (PackagePasses graph.now asked.now unnamed.now id world) }
    ensures cause { IfErr result (TellsPackageAt graph.now asked.now unnamed.now id world) }
{
    let test = Test {
        alloc,
        types: &asked.types,
        unnamed,
        is_outer: true,
    };
    let fails = is_unwritable_package(test, world)?;
    if !fails {
        return Ok(());
    }
    let name = dependency_name(alloc, graph, id)?;
    Err(Unwritten::TypeCannotBeWritten { name })
}

/// Each package that is imported has a world that can be written.
fn check_packages(
    alloc: Global,
    graph: &CompositionGraph,
    asked: &Asked,
    unnamed: &Unnamed,
) -> Result<(), Unwritten>
    ensures none { OnOk result (PackagesPass graph.now asked.now unnamed.now) }
    ensures cause { IfErr result (TellsPackageCause graph.now asked.now unnamed.now) }
{
    for (id, world) in asked.packages.iter() {
        check_package(alloc, graph, asked, unnamed, *id, *world)?;
    }
    Ok(())
}

// ---- all

/// Each type of the asked collection that is written can be written.
fn check_types(
    alloc: Global,
    graph: &CompositionGraph,
    asked: &Asked,
    unnamed: &Unnamed,
    outers: &Outers,
    define_components: bool,
) -> Result<(), Unwritten>
    ensures none { OnOk result (TypesPass define_components graph.now asked.now outers.now unnamed.now) }
    ensures cause { IfErr result (TellsTypesCause define_components graph.now asked.now outers.now unnamed.now) }
{
    check_outers(alloc, asked, unnamed, outers)?;
    check_definitions(alloc, graph, asked, unnamed, outers)?;
    if define_components {
        return Ok(());
    }
    check_packages(alloc, graph, asked, unnamed)
}

/// Each type that is written can be written.
pub fn check_writable(
    alloc: Global,
    graph: &CompositionGraph,
    asked: &Asked,
    outers: &Outers,
    define_components: bool,
) -> Result<(), Unwritten>
    ensures none { OnOk result (IsWhole graph.now asked.now outers.now → unwritten_cause define_components graph.now ≡ None) }
    ensures cause { IfErr result (λ e. IsWhole graph.now asked.now outers.now → TellsUnwritten define_components graph.now e) }
{
    graph.see_sound();
    check_aliases(alloc, graph)?;
    let unnamed = Unnamed::all(alloc, &asked.types)?;
    check_types(alloc, graph, asked, &unnamed, outers, define_components)
}
