//! Calls of the graph, and the faults of a document that their refusals are.
#![tactic(auto, using(crate::proofs::Growing::calling))]

ghost use Rattle.std.specs.Prelude.{◌≡◌, ◌≢◌, None, IfErr, IfOk, OnErr, OnOk, string_bytes};
ghost use Rattle.wac_types_base.specs.declared.item.ItemKind.{ItemKind};
ghost use Rattle.wac_types_base.specs.Collection.{Stands};
ghost use Rattle.wac_graph_core.specs.Defining.{DefineRefused, DefinesType};
ghost use Rattle.wac_graph_core.specs.Exporting.{ExportRefused, Exports};
ghost use Rattle.wac_graph_core.specs.Graph.{ContainsNode, ContainsPackage, IsGraph, node_at};
ghost use Rattle.wac_graph_core.specs.Refusals.{ImportRefused};
ghost use Rattle.wac_graph_core.specs.Steps.{Imports};
ghost use Rattle.wac_parser_refusals.specs.Causes.{MissingComponentImport};
ghost use Rattle.wac_parser_refusals.specs.Outcomes.{Refuses};
ghost use Rattle.wac_parser_resolve.specs.InExpressions.{IsProjection, IsUnaliased};
ghost use Rattle.wac_parser_resolve.specs.InInstances.{Instantiated, Passes};
ghost use Rattle.wac_parser_resolve.specs.Later.{AddsNone, Inner, IsWithin, Later};
ghost use Rattle.wac_parser_resolve.specs.Standing.{IsFresh};

use crate::arguments::Given;
use crate::board::not_an_instance;
use std::alloc::{AllocError, Global};
use wac_graph_core::{
    AliasError, CompositionGraph, DefineTypeError, ExportError, ImportError,
    InstantiationArgumentError, NodeId, PackageId,
};
use wac_parser_lexer::SourceSpan;
use wac_parser_refusals::{Error, InstanceOperation, Outcome, Refusal};
use wac_types_base::{ItemKind, Type};

/// What is done with an instance: where the instance stands, and where the access does.
#[derive(Clone, Copy)]
pub(crate) struct Access {
    pub(crate) operation: InstanceOperation,
    pub(crate) instance: SourceSpan,
    pub(crate) access: SourceSpan,
}

/// Why there is no such export, as the document's fault.
fn alias_fault(graph: &CompositionGraph, node: NodeId, access: Access, fault: AliasError) -> Refusal
    requires { ContainsNode graph.now node }
    ensures { IsUnaliased graph.now node access fault result }
{
    graph.types().see_acyclic();
    match fault {
        AliasError::NodeIsNotAnInstance { .. } => {
            not_an_instance(graph, node, access.operation, access.instance)
        }
        AliasError::InstanceMissingExport { export, .. } => {
            let fault = Error::MissingInstanceExport {
                name: export,
                span: access.access,
            };
            Refusal::named(graph.alloc(), fault)
        }
        AliasError::Memory => Refusal::Memory,
    }
}

/// The node of an export of an instance.
pub(crate) fn alias(
    graph: &mut CompositionGraph,
    node: NodeId,
    name: &str,
    access: Access,
) -> Outcome<NodeId>
    requires { ContainsNode graph.old node }
    ensures alias { IfOk result (λ k. ContainsNode graph.new k) }
    ensures inner { Inner graph.old graph.new }
    ensures within { IsWithin graph.old graph.new }
    ensures outcome { IsProjection graph.old node name.now access graph.new result }
{
    graph.types().see_acyclic();
    graph.see_sound();
    match graph.alias_instance_export(node, name) {
        Ok(alias) => {
            graph.see_sound();
            Ok(alias)
        }
        Err(fault) => Err(alias_fault(graph, node, access, fault)),
    }
}

/// A new instance of a package.
pub(crate) fn instantiate(graph: &mut CompositionGraph, id: PackageId) -> Result<NodeId, AllocError>
    requires { ContainsPackage graph.old id }
    ensures free { IfOk result (λ k. node_at graph.old k ≡ None) }
    ensures fresh { IfOk result (λ k. IsFresh graph.new k) }
    ensures instance { IfOk result (λ k. ContainsNode graph.new k) }
    ensures made { IfOk result (λ k. Instantiated graph.old id graph.new k) }
    ensures inner { Inner graph.old graph.new }
    ensures within { IsWithin graph.old graph.new }
{
    graph.see_sound();
    graph.instantiate(id)
}

/// A refusal of an argument that a package has no import for.
fn no_import(alloc: Global, package: String, import: String, span: SourceSpan) -> Refusal
    ensures { Refuses result (MissingComponentImport (string_bytes «package») (string_bytes import)) span }
{
    let fault = Error::MissingComponentImport {
        package,
        import,
        span,
    };
    Refusal::named(alloc, fault)
}

/// Passes what is given to an instance that is new, where nothing else is passed under its name.
pub(crate) fn pass(graph: &mut CompositionGraph, instance: NodeId, one: &Given) -> Outcome<()>
    requires instance { ContainsNode graph.old instance }
    requires node { ContainsNode graph.old one.now.node }
    requires fresh { IsFresh graph.old instance }
    requires apart { one.now.node ≢ instance }
    ensures fresh { OnOk result (IsFresh graph.new instance) }
    ensures inner { Inner graph.old graph.new }
    ensures within { IsWithin graph.old graph.new }
    ensures outcome { Passes graph.old instance one.now graph.new result }
{
    graph.types().see_acyclic();
    graph.see_sound();
    let span = one.span;
    match graph.set_instantiation_argument(instance, one.name.as_str(), one.node) {
        Ok(()) => Ok(()),
        Err(InstantiationArgumentError::NodeIsNotAnInstantiation { .. }) => unreachable!(),
        Err(InstantiationArgumentError::WouldFormCycle { .. }) => unreachable!(),
        Err(InstantiationArgumentError::InvalidArgumentName { name, package, .. }) => {
            Err(no_import(graph.alloc(), package, name, span))
        }
        Err(InstantiationArgumentError::ArgumentTypeMismatch { name, source }) => {
            let fault = Error::MismatchedInstantiationArg { name, span, source };
            Err(Refusal::named(graph.alloc(), fault))
        }
        Err(InstantiationArgumentError::ArgumentAlreadyPassed { name, .. }) => {
            let fault = Error::DuplicateInstantiationArg { name, span };
            Err(Refusal::named(graph.alloc(), fault))
        }
        Err(InstantiationArgumentError::Memory) => Err(Refusal::Memory),
    }
}

/// Adds an import.
pub(crate) fn import(
    graph: &mut CompositionGraph,
    name: &str,
    kind: ItemKind,
) -> Result<NodeId, ImportError>
    requires { Stands graph.old.types kind }
    ensures import { IfOk result (λ k. ContainsNode graph.new k) }
    ensures later { Later graph.old graph.new }
    ensures imported { IfOk result (λ k. Imports graph.old graph.new name.now kind k) }
    ensures refused { IfErr result (λ e. ImportRefused graph.old name.now e) }
    ensures kept { OnErr result (graph.new ≡ graph.old) }
    ensures before { IsGraph graph.old }
{
    graph.see_sound();
    graph.import(name, kind)
}

/// Exports a node.
pub(crate) fn export(
    graph: &mut CompositionGraph,
    node: NodeId,
    name: &str,
) -> Result<(), ExportError>
    requires { ContainsNode graph.old node }
    ensures later { Later graph.old graph.new }
    ensures exported { OnOk result (Exports graph.old graph.new node name.now) }
    ensures refused { IfErr result (λ e. ExportRefused graph.old name.now e) }
    ensures kept { OnErr result (graph.new ≡ graph.old) }
    ensures before { IsGraph graph.old }
{
    graph.see_sound();
    graph.export(node, name)
}

/// Defines a type.
pub(crate) fn define(
    graph: &mut CompositionGraph,
    name: &str,
    ty: Type,
) -> Result<NodeId, DefineTypeError>
    requires { Stands graph.old.types (ItemKind.Ty ty) }
    ensures definition { IfOk result (λ k. ContainsNode graph.new k) }
    ensures later { Later graph.old graph.new }
    ensures defined { IfOk result (λ k. DefinesType graph.old graph.new name.now ty k) }
    ensures refused { IfErr result (λ e. DefineRefused graph.old name.now ty e) }
    ensures kept { OnErr result (graph.new ≡ graph.old) }
    ensures before { IsGraph graph.old }
{
    graph.see_sound();
    graph.define_type(name, ty)
}

/// Gives a node a name, where it has none.
pub(crate) fn name_once(
    graph: &mut CompositionGraph,
    node: NodeId,
    name: &str,
) -> Result<(), AllocError>
    requires { ContainsNode graph.old node }
    ensures inner { Inner graph.old graph.new }
    ensures none { AddsNone graph.old graph.new }
    ensures within { IsWithin graph.old graph.new }
{
    if graph[node].name().is_some() {
        return Ok(());
    }
    graph.set_node_name(node, name)
}
