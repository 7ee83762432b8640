//! What expressions denote.
#![tactic(auto, using(crate::proofs::SoundGraph::inside))]

ghost use Rattle.std.specs.Prelude.{◌≡◌, ◌≢◌, IfOk, OnOk};
ghost use Rattle.wac_types_base.specs.declared.item.ItemKind.{ItemKind};
ghost use Rattle.wac_types_base.specs.Collection.{Stands};
ghost use Rattle.wac_graph_core.specs.Graph.{ContainsNode, ContainsPackage};
ghost use Rattle.wac_parser_resolve.specs.declared.root.Root.{Root};
ghost use Rattle.wac_parser_resolve.specs.InExpressions.{AreAccesses, IsAccess, IsMeantFor};
ghost use Rattle.wac_parser_resolve.specs.InInstances.{IsExpression, IsFinished, IsNamedGiven, IsNewInstance, IsNewPackage, IsPrimary, IsWhole, TakesArgument, TakesArguments, instances_of};
ghost use Rattle.wac_parser_resolve.specs.Later.{Inner, IsMore, IsWithin};
ghost use Rattle.wac_parser_resolve.specs.Passing.{IsTakenLater};
ghost use Rattle.wac_parser_resolve.specs.Standing.{AreThere};

use crate::arguments::{
    Given, argument_name, complete, give, inferred, is_filled, pass_all, spreads,
};
use crate::board::{Board, instance_of, world_of};
use crate::calls::{Access, alias, instantiate};
use crate::names::matched;
use crate::root::Root;
use std::alloc::{AllocError, Global};
use wac_graph_core::{CompositionGraph, NodeId, PackageId};
use wac_parser_lexer::SourceSpan;
use wac_parser_refusals::{Error, InstanceOperation, Outcome, Refusal, unknown_package};
use wac_parser_tree::{
    Expr, Ident, InstantiationArgument, NamedInstantiationArgument, NewExpr, PostfixExpr,
    PrimaryExpr,
};
use wac_types_base::{Types, WorldId};

/// The export that a name means.
fn export_meant(
    alloc: Global,
    graph: &CompositionGraph,
    node: NodeId,
    before: SourceSpan,
    name: &str,
) -> Outcome<String>
    requires { ContainsNode graph.now node }
    ensures { IsMeantFor graph.now node name.now before result }
{
    let id = instance_of(graph, node, InstanceOperation::Access, before)?;
    let exports = &graph.types().interface(id).exports;
    Ok(String::from_str(alloc, matched(exports, name))?)
}

/// The node of one access.
fn access(
    one: &PostfixExpr<'_>,
    alloc: Global,
    graph: &mut CompositionGraph,
    node: NodeId,
    before: SourceSpan,
) -> Outcome<NodeId>
    requires { ContainsNode graph.old node }
    ensures node { IfOk result (λ k. ContainsNode graph.new k) }
    ensures inner { Inner graph.old graph.new }
    ensures within { IsWithin graph.old graph.new }
    ensures outcome { IsAccess one.now graph.old node before graph.new result }
{
    let access = Access {
        operation: InstanceOperation::Access,
        instance: before,
        access: one.span(),
    };
    match one {
        PostfixExpr::Access(one) => {
            let name = export_meant(alloc, graph, node, before, one.id.string)?;
            alias(graph, node, name.as_str(), access)
        }
        PostfixExpr::NamedAccess(one) => alias(graph, node, one.string.value, access),
    }
}

/// The node of accesses, one behind the other.
fn accesses(
    list: &Vec<PostfixExpr<'_>>,
    alloc: Global,
    graph: &mut CompositionGraph,
    first: NodeId,
    before: SourceSpan,
) -> Outcome<NodeId>
    requires { ContainsNode graph.old first }
    ensures node { IfOk result (λ k. ContainsNode graph.new k) }
    ensures inner { Inner graph.old graph.new }
    ensures within { IsWithin graph.old graph.new }
    ensures outcome { AreAccesses list.now.items graph.old first before graph.new result }
{
    let mut node = first;
    let mut span = before;
    for one in list {
        node = access(one, alloc, graph, node, span)?;
        span = one.span();
    }
    Ok(node)
}

/// The package that an instantiation names: never the document's own.
fn new_package(new: &NewExpr<'_>, root: Root<'_, '_>, board: &mut Board<'_>) -> Outcome<PackageId>
    ensures id { IfOk result (λ id. ContainsPackage board.new.types.graph id) }
    ensures own { OnOk result (new.now.«package».name.now ≢ root.entry.own.now) }
    ensures inner { Inner board.old.types.graph board.new.types.graph }
    ensures noted { board.new.instances ≡ board.old.instances }
    ensures outcome { IsNewPackage new.now root.entry board.old board.new result }
{
    board.types.graph.see_sound();
    let name = &new.package;
    if name.name == root.own {
        return Err(unknown_package(root.alloc, name.name, name.span));
    }
    let id = board.types.package_named(root.alloc, new)?;
    Ok(id)
}

/// Refuses where nothing is given for an import of the world, unless the rest is filled up.
fn complete_or_filled(
    new: &NewExpr<'_>,
    alloc: Global,
    types: &Types,
    world: WorldId,
    given: &Vec<Given>,
) -> Outcome<()>
    requires { Stands types.now (ItemKind.Component world) }
    ensures { IsWhole new.now types.now world given.now.items result }
{
    if is_filled(&new.arguments) {
        return Ok(());
    }
    complete(&new.package, alloc, types, world, given)
}

/// The instance that the arguments make.
fn finish(
    new: &NewExpr<'_>,
    alloc: Global,
    board: &mut Board<'_>,
    id: PackageId,
    given: Vec<Given>,
) -> Outcome<NodeId>
    requires id { ContainsPackage board.old.types.graph id }
    requires given { AreThere board.old.types.graph given.items }
    ensures node { IfOk result (λ k. ContainsNode board.new.types.graph k) }
    ensures inner { Inner board.old.types.graph board.new.types.graph }
    ensures more { OnOk result (IsMore (instances_of board.old) (instances_of board.new)) }
    ensures outcome { (root : Root) → IsFinished new.now root board.old id given.items board.new result }
{
    let world = world_of(&board.types.graph, id);
    let instance = instantiate(&mut board.types.graph, id)?;
    board.instances.note(instance, new.package.span)?;
    pass_all(&mut board.types.graph, instance, &given)?;
    complete_or_filled(new, alloc, board.types.graph.types(), world, &given)?;
    Ok(instance)
}

/// The node that an expression denotes.
#[cycle(expr)]
pub(crate) fn expression(
    expr: &Expr<'_>,
    root: Root<'_, '_>,
    board: &mut Board<'_>,
) -> Outcome<NodeId>
    ensures node { IfOk result (λ k. ContainsNode board.new.types.graph k) }
    ensures inner { Inner board.old.types.graph board.new.types.graph }
    ensures more { OnOk result (IsMore (instances_of board.old) (instances_of board.new)) }
    ensures outcome { IsExpression expr.now root.entry board.old board.new result }
{
    let first = primary(&expr.primary, root, board)?;
    accesses(
        &expr.postfix,
        root.alloc,
        &mut board.types.graph,
        first,
        expr.primary.span(),
    )
}

/// The node that a primary expression denotes.
#[cycle(expr)]
fn primary(expr: &PrimaryExpr<'_>, root: Root<'_, '_>, board: &mut Board<'_>) -> Outcome<NodeId>
    ensures node { IfOk result (λ k. ContainsNode board.new.types.graph k) }
    ensures inner { Inner board.old.types.graph board.new.types.graph }
    ensures more { OnOk result (IsMore (instances_of board.old) (instances_of board.new)) }
    ensures outcome { IsPrimary expr.now root.entry board.old board.new result }
{
    match expr {
        PrimaryExpr::New(new) => instance(new, root, board),
        PrimaryExpr::Nested(nested) => expression(&nested.inner, root, board),
        PrimaryExpr::Ident(id) => root.node(&board.types.graph, id),
    }
}

/// A new instance of a package.
#[cycle(expr)]
fn instance(new: &NewExpr<'_>, root: Root<'_, '_>, board: &mut Board<'_>) -> Outcome<NodeId>
    ensures node { IfOk result (λ k. ContainsNode board.new.types.graph k) }
    ensures inner { Inner board.old.types.graph board.new.types.graph }
    ensures more { OnOk result (IsMore (instances_of board.old) (instances_of board.new)) }
    ensures outcome { IsNewInstance new.now root.entry board.old board.new result }
{
    let id = new_package(new, root, board)?;
    let world = world_of(&board.types.graph, id);
    let mut given = Vec::new(root.alloc);
    arguments(&new.arguments, root, board, world, &mut given)?;
    spreads(
        &new.arguments,
        root,
        &mut board.types.graph,
        world,
        &mut given,
    )?;
    finish(new, root.alloc, board, id, given)
}

/// The arguments that are no spreads, in order.
#[cycle(expr)]
fn arguments(
    list: &Vec<InstantiationArgument<'_>>,
    root: Root<'_, '_>,
    board: &mut Board<'_>,
    world: WorldId,
    given: &mut Vec<Given>,
) -> Outcome<()>
    requires world { Stands board.old.types.graph.types (ItemKind.Component world) }
    requires given { AreThere board.old.types.graph given.old.items }
    ensures given { OnOk result (AreThere board.new.types.graph given.new.items) }
    ensures inner { Inner board.old.types.graph board.new.types.graph }
    ensures more { OnOk result (IsMore (instances_of board.old) (instances_of board.new)) }
    ensures outcome { TakesArguments list.now.items root.entry board.old world given.old.items board.new given.new.items result }
{
    let mut seen: usize = 0;
    for one in list {
        seen += 1;
        argument(one, root, board, world, seen == list.len(), given)?;
    }
    Ok(())
}

/// An argument, where it is no spread.
#[cycle(expr)]
fn argument(
    one: &InstantiationArgument<'_>,
    root: Root<'_, '_>,
    board: &mut Board<'_>,
    world: WorldId,
    is_last: bool,
    given: &mut Vec<Given>,
) -> Outcome<()>
    requires world { Stands board.old.types.graph.types (ItemKind.Component world) }
    requires given { AreThere board.old.types.graph given.old.items }
    ensures given { OnOk result (AreThere board.new.types.graph given.new.items) }
    ensures later { OnOk result (IsTakenLater one.now → given.new.items ≡ given.old.items) }
    ensures inner { Inner board.old.types.graph board.new.types.graph }
    ensures more { OnOk result (IsMore (instances_of board.old) (instances_of board.new)) }
    ensures outcome { TakesArgument one.now root.entry board.old world is_last given.old.items board.new given.new.items result }
{
    match one {
        InstantiationArgument::Inferred(id) => {
            let argument = inferred(root, &board.types.graph, world, id)?;
            give(root.alloc, given, argument)
        }
        InstantiationArgument::Spread(_) => Ok(()),
        InstantiationArgument::Named(one) => {
            let argument = named(one, root, board, world)?;
            give(root.alloc, given, argument)
        }
        InstantiationArgument::Fill(span) => {
            if is_last {
                Ok(())
            } else {
                let fault = Error::FillArgumentNotLast { span: *span };
                Err(Refusal::named(root.alloc, fault))
            }
        }
    }
}

/// An argument with its name.
#[cycle(expr)]
fn named(
    one: &NamedInstantiationArgument<'_>,
    root: Root<'_, '_>,
    board: &mut Board<'_>,
    world: WorldId,
) -> Outcome<Given>
    requires { Stands board.old.types.graph.types (ItemKind.Component world) }
    ensures node { IfOk result (λ one. ContainsNode board.new.types.graph one.node) }
    ensures inner { Inner board.old.types.graph board.new.types.graph }
    ensures more { OnOk result (IsMore (instances_of board.old) (instances_of board.new)) }
    ensures outcome { IsNamedGiven one.now root.entry board.old world board.new result }
{
    let node = expression(&one.expr, root, board)?;
    let imports = &board.types.graph.types().world(world).imports;
    let name = argument_name(&one.name, root.alloc, imports)?;
    Ok(Given {
        name,
        node,
        span: one.name.span(),
    })
}
