//! The graph that a document builds, and what is asked of its nodes.
#![tactic(auto, using(crate::proofs::Growing::standing))]

ghost use Rattle.std.specs.Prelude.{◌≡◌, IfOk, Some};
ghost use Rattle.std.specs.Option.{option_copied};
ghost use Rattle.wac_types_base.specs.declared.item.ItemKind.{ItemKind};
ghost use Rattle.wac_types_base.specs.Collection.{Stands};
ghost use Rattle.wac_types_names.specs.Packaged.{Packaged};
ghost use Rattle.wac_graph_core.specs.Graph.{ContainsNode, ContainsPackage, IsOfKind, package_of};
ghost use Rattle.wac_types_base.specs.Stated.{Stated, desc};
ghost use Rattle.wac_parser_refusals.specs.Causes.{NotAnInstance};
ghost use Rattle.wac_parser_refusals.specs.Outcomes.{Refuses};
ghost use Rattle.wac_parser_resolve.specs.Holding.{HasItem};
ghost use Rattle.wac_parser_resolve.specs.InExpressions.{IsInstanceFor};
ghost use Rattle.wac_parser_resolve.specs.Told.{TellsOwnName, identifier};

use crate::packages::GraphTypes;
use crate::spans::Spans;
use std::alloc::Global;
use wac_graph_core::{CompositionGraph, NodeId, PackageId};
use wac_parser_lexer::SourceSpan;
use wac_parser_refusals::{Error, InstanceOperation, Outcome, Refusal};
use wac_types_base::{InterfaceId, ItemKind, WorldId};

/// The graph that a document builds over the packages handed in, and where its instances stand.
#[derive(Drop)]
pub(crate) struct Board<'p> {
    pub(crate) types: GraphTypes<'p>,
    pub(crate) instances: Spans,
}

/// The item of a node.
pub(crate) fn item_of(graph: &CompositionGraph, node: NodeId) -> ItemKind
    requires { ContainsNode graph.now node }
    ensures stands { Stands graph.now.types result }
    ensures own { IsOfKind graph.now node (λ kind. kind ≡ result) }
{
    graph.see_sound();
    graph[node].item_kind()
}

/// How the item of a node is called.
pub(crate) fn word_of(graph: &CompositionGraph, node: NodeId) -> &'static str
    requires { ContainsNode graph.now node }
    ensures { (t : Stated) → HasItem graph.now node t → result.now ≡ desc t }
{
    item_of(graph, node).desc(graph.types())
}

/// A refusal of an operation that asks for an instance, where a node is none.
pub(crate) fn not_an_instance(
    graph: &CompositionGraph,
    node: NodeId,
    operation: InstanceOperation,
    span: SourceSpan,
) -> Refusal
    requires { ContainsNode graph.now node }
    ensures { (t : Stated) → HasItem graph.now node t → Refuses result (NotAnInstance (desc t) operation) span }
{
    let fault = Error::NotAnInstance {
        kind: word_of(graph, node),
        operation,
        span,
    };
    Refusal::named(graph.alloc(), fault)
}

/// The interface of a node, which has to be an instance.
pub(crate) fn instance_of(
    graph: &CompositionGraph,
    node: NodeId,
    operation: InstanceOperation,
    span: SourceSpan,
) -> Outcome<InterfaceId>
    requires { ContainsNode graph.now node }
    ensures stands { IfOk result (λ id. Stands graph.now.types (ItemKind.Instance id)) }
    ensures outcome { IsInstanceFor graph.now node operation span result }
{
    graph.types().see_acyclic();
    match item_of(graph, node) {
        ItemKind::Instance(id) => Ok(id),
        _other => Err(not_an_instance(graph, node, operation, span)),
    }
}

/// The identifier of a node that is an instance.
pub(crate) fn identifier_of(graph: &CompositionGraph, node: NodeId) -> Option<&str>
    requires { ContainsNode graph.now node }
    ensures { option_copied result ≡ identifier graph.now node }
{
    graph.see_sound();
    match graph[node].item_kind() {
        ItemKind::Instance(id) => match &graph.types().interface(id).id {
            Some(id) => Some(id.as_str()),
            None => None,
        },
        _other => None,
    }
}

/// The name of an import or an alias.
pub(crate) fn own_name(graph: &CompositionGraph, node: NodeId) -> Option<&str>
    requires { ContainsNode graph.now node }
    ensures { TellsOwnName graph.now node (option_copied result) }
{
    match graph.get_import_name(node) {
        Some(name) => Some(name),
        None => match graph.get_alias_source(node) {
            Some((_, name)) => Some(name),
            None => None,
        },
    }
}

/// The world of a package.
pub(crate) fn world_of(graph: &CompositionGraph, id: PackageId) -> WorldId
    requires { ContainsPackage graph.now id }
    ensures stands { Stands graph.now.types (ItemKind.Component result) }
    ensures own { (p : Packaged) → package_of graph.now id ≡ Some p → result ≡ p.ty }
{
    graph.see_sound();
    graph[id].ty()
}
