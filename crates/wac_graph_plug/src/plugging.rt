//! Plugging packages into a socket.

ghost use Rattle.std.specs.Prelude.{◌≡◌, All, OnOk, OnErr, IfOk, IfErr};
ghost use Rattle.wac_types_base.specs.Collection.{Stands};
ghost use Rattle.wac_types_base.specs.Entries.{Name, AreDistinct, names_of, texts_of};
ghost use Rattle.wac_types_base.specs.Graph.{Among};
ghost use Rattle.wac_types_base.specs.Stated.{exports_of, stated_world};
ghost use Rattle.wac_graph_core.specs.declared.ids.PackageId.{PackageId as PackageName};
ghost use Rattle.wac_graph_core.specs.Graph.{ContainsNode, ContainsPackage};
ghost use Rattle.wac_graph_core.specs.Steps.{Aliases};
ghost use Rattle.wac_graph_plug.specs.declared.matching.Match.{Match as MatchData};
ghost use Rattle.wac_graph_plug.specs.Steps.{Grown, HasNoNodes, HasExport, Passes, PassesAll, ExportsOne, ExportsAll};
ghost use Rattle.wac_graph_plug.specs.Stops.{StopsAt, StopsPassing, StopsExport, StopsExporting, StopsPlug, has_match, PlugsMatches, PlugsAll, StopsEach, Plugs, PlugRefused, PlugCause, AreMatched, IsPlugged};

use crate::error::{PlugError, PlugFault};
use crate::matching::{Match, matches_of};
use std::alloc::{AllocError, Global};
use wac_graph_core::{
    AliasError, CompositionGraph, ExportError, InstantiationArgumentError, NodeId, PackageId,
};
use wac_types_base::{ItemKind, Types, WorldId};

/// The node of an export that an instance has.
fn alias(graph: &mut CompositionGraph, instance: NodeId, name: &str) -> Result<NodeId, AllocError>
    requires { HasExport graph.old instance name.now }
    ensures aliased { IfOk result (λ k. Aliases graph.old graph.new instance name.now k) }
    ensures kept { OnErr result (graph.new ≡ graph.old) }
{
    match graph.alias_instance_export(instance, name) {
        Ok(node) => Ok(node),
        Err(AliasError::Memory) => Err(AllocError),
        Err(AliasError::NodeIsNotAnInstance { .. }) => unreachable!(),
        Err(AliasError::InstanceMissingExport { .. }) => unreachable!(),
    }
}

/// Passes an export of a plug's instance to the import that it is for.
fn pass(
    graph: &mut CompositionGraph,
    socket: NodeId,
    plug: NodeId,
    one: &Match,
) -> Result<(), PlugError>
    requires socket { ContainsNode graph.old socket }
    requires plug { HasExport graph.old plug one.now.export }
    ensures passed { OnOk result (Passes socket plug one.now graph.old graph.new) }
    ensures stopped { IfErr result (λ e. StopsAt socket plug one.now e graph.old graph.new) }
    ensures grown { Grown graph.old graph.new }
{
    let argument = alias(graph, plug, one.export.as_str())?;
    graph.see_sound();
    match graph.set_instantiation_argument(socket, one.import.as_str(), argument) {
        Ok(()) => Ok(()),
        Err(fault) => match fault {
            InstantiationArgumentError::Memory => Err(PlugError::Memory),
            fault => Err(PlugError::GraphError {
                source: PlugFault::Argument(fault),
            }),
        },
    }
}

/// Passes each of these, in turn.
fn pass_all(
    graph: &mut CompositionGraph,
    socket: NodeId,
    plug: NodeId,
    matches: &[Match],
) -> Result<(), PlugError>
    requires socket { ContainsNode graph.old socket }
    requires plug { (m : MatchData) → Among m matches.now → HasExport graph.old plug m.export }
    ensures passed { OnOk result (PassesAll socket plug matches.now graph.old graph.new) }
    ensures stopped { IfErr result (λ e. StopsPassing socket plug matches.now e graph.old graph.new) }
    ensures grown { Grown graph.old graph.new }
{
    for one in matches {
        pass(graph, socket, plug, one)?;
    }
    Ok(())
}

/// Exports an export of the socket under its name.
fn export_one(graph: &mut CompositionGraph, socket: NodeId, name: &str) -> Result<(), PlugError>
    requires { HasExport graph.old socket name.now }
    ensures exported { OnOk result (ExportsOne socket name.now graph.old graph.new) }
    ensures stopped { IfErr result (λ e. StopsExport socket name.now e graph.old graph.new) }
    ensures grown { Grown graph.old graph.new }
{
    let node = alias(graph, socket, name)?;
    graph.see_sound();
    match graph.export(node, name) {
        Ok(()) => Ok(()),
        Err(fault) => match fault {
            ExportError::Memory => Err(PlugError::Memory),
            fault => Err(PlugError::GraphError {
                source: PlugFault::Export(fault),
            }),
        },
    }
}

/// Exports each of these, in turn.
fn export_all(
    graph: &mut CompositionGraph,
    socket: NodeId,
    names: &[String],
) -> Result<(), PlugError>
    requires { (n : Name) → Among n (texts_of names.now) → HasExport graph.old socket n }
    ensures exported { OnOk result (ExportsAll socket (texts_of names.now) graph.old graph.new) }
    ensures stopped { IfErr result (λ e. StopsExporting socket (texts_of names.now) e graph.old graph.new) }
    ensures grown { Grown graph.old graph.new }
{
    for name in names {
        export_one(graph, socket, name.as_str())?;
    }
    Ok(())
}

/// Whether there is a match.
fn has_one(matches: &[Match]) -> bool
    ensures { result ≡ has_match matches.now }
{
    matches.first().is_some()
}

/// Instantiates a plug and passes its matches, where it has one. Whether it has.
fn plug_one(
    alloc: Global,
    graph: &mut CompositionGraph,
    socket: PackageId,
    plug: PackageId,
    instance: NodeId,
) -> Result<bool, PlugError>
    requires socket { ContainsPackage graph.old socket }
    requires plug { ContainsPackage graph.old plug }
    requires instance { ContainsNode graph.old instance }
    ensures plugged { IfOk result (λ yes. PlugsMatches graph.old graph.new socket plug instance yes) }
    ensures stopped { IfErr result (λ e. StopsPlug graph.old graph.new socket plug instance e) }
    ensures grown { Grown graph.old graph.new }
{
    graph.see_sound();
    graph.types().see_acyclic();
    let given = graph[plug].ty();
    let asked = graph[socket].ty();
    let matches = matches_of(alloc, graph.types(), given, asked)?;
    let some = has_one(matches.as_slice());
    if !some {
        return Ok(false);
    }
    let source = graph.instantiate(plug)?;
    pass_all(graph, instance, source, matches.as_slice())?;
    Ok(true)
}

/// Plugs each of these, in turn. Whether one has a match.
fn plug_each(
    alloc: Global,
    graph: &mut CompositionGraph,
    socket: PackageId,
    plugs: &[PackageId],
    instance: NodeId,
) -> Result<bool, PlugError>
    requires socket { ContainsPackage graph.old socket }
    requires plugs { (id : PackageName) → Among id plugs.now → ContainsPackage graph.old id }
    requires instance { ContainsNode graph.old instance }
    ensures plugged { IfOk result (λ yes. PlugsAll graph.old graph.new socket plugs.now instance yes) }
    ensures stopped { IfErr result (λ e. StopsEach graph.old graph.new socket plugs.now instance e) }
    ensures grown { Grown graph.old graph.new }
{
    let mut happened = false;
    for plug in plugs {
        let yes = plug_one(alloc, graph, socket, *plug, instance)?;
        happened = happened || yes;
    }
    Ok(happened)
}

/// The names of a world's exports.
fn export_names(alloc: Global, types: &Types, world: WorldId) -> Result<Vec<String>, AllocError>
    requires { Stands types.now (ItemKind.Component world) }
    ensures names { IfOk result (λ v. texts_of v.items ≡ names_of (exports_of (stated_world types.now world))) }
    ensures distinct { IfOk result (λ v. AreDistinct (texts_of v.items)) }
{
    types.see_acyclic();
    let exports = &types.world(world).exports;
    let _count = exports.len();
    let names = copy_names(alloc, exports.names())?;
    Ok(names)
}

/// The same texts.
fn copy_names(alloc: Global, names: &[String]) -> Result<Vec<String>, AllocError>
    ensures { IfOk result (λ v. texts_of v.items ≡ texts_of names.now) }
{
    let mut copies = Vec::new(alloc);
    for name in names {
        copies.push(String::from_str(alloc, name.as_str())?)?;
    }
    Ok(copies)
}

/// Plugs packages into a socket, which is instantiated. For each plug in order, each export that is for an import of the
/// socket is passed to it; a plug is instantiated at its first match. Then all exports of the socket are exported. Where
/// it is refused, what was made stays.
pub fn plug(
    alloc: Global,
    graph: &mut CompositionGraph,
    plugs: Vec<PackageId>,
    socket: PackageId,
) -> Result<(), PlugError>
    requires socket { ContainsPackage graph.old socket }
    requires plugs { All (ContainsPackage graph.old) plugs.items }
    ensures plugged { OnOk result (Plugs graph.old graph.new socket plugs.items) }
    ensures accepted { OnOk result (AreMatched graph.old socket plugs.items) }
    ensures wired { OnOk result (HasNoNodes graph.old → IsPlugged graph.old graph.new socket plugs.items) }
    ensures refused { IfErr result (λ e. PlugRefused graph.old graph.new socket plugs.items e) }
    ensures cause { IfErr result (λ e. PlugCause graph.old graph.new socket plugs.items e) }
    ensures grown { Grown graph.old graph.new }
{
    graph.see_sound();
    graph.types().see_acyclic();
    let names = export_names(alloc, graph.types(), graph[socket].ty())?;
    let instance = graph.instantiate(socket)?;
    let happened = plug_each(alloc, graph, socket, plugs.as_slice(), instance)?;
    if !happened {
        return Err(PlugError::NoPlugHappened);
    }
    export_all(graph, instance, names.as_slice())?;
    graph.see_sound();
    Ok(())
}
