//! The arguments of an instantiation.
#![tactic(auto, using(crate::proofs::SoundGraph::inside))]

ghost use Rattle.std.specs.Prelude.{◌≡◌, ◌∷◌, ◌++◌, [], IfOk, OnOk, find, map, not};
ghost use Rattle.std.specs.Option.{option_copied};
ghost use Rattle.wac_types_base.specs.declared.item.ItemKind.{ItemKind};
ghost use Rattle.wac_types_base.specs.Collection.{Stands};
ghost use Rattle.wac_types_base.specs.Entries.{AreDistinct, has_name, names_of, texts_of};
ghost use Rattle.wac_graph_core.specs.Graph.{ContainsNode};
ghost use Rattle.wac_parser_tree.specs.Trees as t;
ghost use Rattle.wac_parser_tree.specs.Views.{view_instantiation_argument};
ghost use Rattle.wac_parser_refusals.specs.Causes.{MissingInstantiationArg};
ghost use Rattle.wac_parser_refusals.specs.Outcomes.{Refuses};
ghost use Rattle.wac_parser_resolve.specs.Denoting as stated;
ghost use Rattle.wac_parser_resolve.specs.Denoting.{if_among};
ghost use Rattle.wac_parser_resolve.specs.Holding.{names_given};
ghost use Rattle.wac_parser_resolve.specs.InArguments.{AreSpreads, GivesExports, GivesOne, InfersName, IsArgumentName, IsComplete};
ghost use Rattle.wac_parser_resolve.specs.InArguments.{IsExportGiven, IsInferredGiven, IsSpreadOf, Spreads, TakesSpread, is_left_by, names_left, names_left_by};
ghost use Rattle.wac_parser_resolve.specs.InInstances.{PassesAll};
ghost use Rattle.wac_parser_resolve.specs.Later.{Inner, IsWithin};
ghost use Rattle.wac_parser_resolve.specs.Standing.{AreApart, AreThere, IsFresh};

use crate::board::{identifier_of, instance_of, own_name};
use crate::calls::{Access, alias, pass};
use crate::names::matched;
use crate::root::Root;
use std::alloc::{AllocError, Global};
use wac_graph_core::{CompositionGraph, NodeId};
use wac_parser_lexer::SourceSpan;
use wac_parser_refusals::{Error, InstanceOperation, Outcome, Refusal};
use wac_parser_tree::{Ident, InstantiationArgument, InstantiationArgumentName, PackageName};
use wac_types_base::{InterfaceId, ItemKind, NamedMap, Types, WorldId};

/// A node that is given for an import, and where that is written.
#[derive(Drop)]
pub(crate) struct Given {
    pub(crate) name: String,
    pub(crate) node: NodeId,
    pub(crate) span: SourceSpan,
}

/// Whether something is given for a name.
fn is_given(given: &Vec<Given>, name: &str) -> bool
    ensures { result ≡ has_name (names_given given.now.items) name.now }
{
    for one in given {
        if name == one.name.as_str() {
            return true;
        }
    }
    false
}

/// One more argument, whose name is new.
pub(crate) fn give(alloc: Global, given: &mut Vec<Given>, one: Given) -> Outcome<()>
    ensures ok { OnOk result (given.new.items ≡ given.old.items ++ one ∷ []) }
    ensures outcome { GivesOne given.old.items one given.new.items result }
{
    if is_given(given, one.name.as_str()) {
        let fault = Error::DuplicateInstantiationArg {
            name: one.name,
            span: one.span,
        };
        return Err(Refusal::named(alloc, fault));
    }
    given.push(one)?;
    Ok(())
}

/// The import that an argument's name means.
pub(crate) fn argument_name(
    name: &InstantiationArgumentName<'_>,
    alloc: Global,
    imports: &NamedMap<ItemKind>,
) -> Result<String, AllocError>
    ensures { IfOk result (IsArgumentName name.now (names_of imports.now)) }
{
    match name {
        InstantiationArgumentName::Ident(id) => String::from_str(
            alloc,
            matched(imports, id.string),
        ),
        InstantiationArgumentName::String(string) => String::from_str(alloc, string.value),
    }
}

/// A name, where an import has it.
fn if_import<'a>(imports: &NamedMap<ItemKind>, name: Option<&'a str>) -> Option<&'a str>
    ensures { option_copied result ≡ if_among (names_of imports.now) (option_copied name.entry) }
{
    match name {
        Some(name) => {
            if imports.contains(name) {
                Some(name)
            } else {
                None
            }
        }
        None => None,
    }
}

/// The import that a node without a name is for: by the identifier of its instance, else by the name of its import or
/// alias, else by its own name.
fn inferred_name<'a>(
    graph: &'a CompositionGraph,
    imports: &'a NamedMap<ItemKind>,
    node: NodeId,
    id: &'a str,
) -> &'a str
    requires { ContainsNode graph.now node }
    ensures { InfersName graph.now node id.now (names_of imports.now) result.now }
{
    graph.see_sound();
    graph.types().see_acyclic();
    match if_import(imports, identifier_of(graph, node)) {
        Some(name) => name,
        None => match if_import(imports, own_name(graph, node)) {
            Some(name) => name,
            None => matched(imports, id),
        },
    }
}

/// An argument without a name.
pub(crate) fn inferred(
    root: Root<'_, '_>,
    graph: &CompositionGraph,
    world: WorldId,
    id: &Ident<'_>,
) -> Outcome<Given>
    requires { Stands graph.now.types (ItemKind.Component world) }
    ensures stands { IfOk result (λ one. ContainsNode graph.now one.node) }
    ensures outcome { IsInferredGiven id.now graph.now root.entry.nodes.now world result }
{
    let node = root.node(graph, id)?;
    let imports = &graph.types().world(world).imports;
    let name = inferred_name(graph, imports, node, id.string);
    Ok(Given {
        name: String::from_str(root.alloc, name)?,
        node,
        span: id.span,
    })
}

/// Whether an instance is to be asked for an import: nothing is given for it, and the instance exports exactly it.
fn is_left(given: &Vec<Given>, exports: &NamedMap<ItemKind>, name: &str) -> bool
    ensures { result ≡ is_left_by given.now.items exports.now name.now }
{
    !is_given(given, name) && exports.contains(name)
}

/// The imports that an instance is to be asked for.
fn left_names(
    alloc: Global,
    given: &Vec<Given>,
    imports: &[String],
    exports: &NamedMap<ItemKind>,
) -> Result<Vec<String>, AllocError>
    ensures { IfOk result (λ names. texts_of names.items ≡ names_left_by given.now.items exports.now (texts_of imports.now)) }
{
    let mut names = Vec::new(alloc);
    for name in imports {
        if is_left(given, exports, name.as_str()) {
            names.push(String::from_str(alloc, name.as_str())?)?;
        }
    }
    Ok(names)
}

/// Gives the exports of these names.
fn give_exports(
    alloc: Global,
    graph: &mut CompositionGraph,
    node: NodeId,
    span: SourceSpan,
    names: &Vec<String>,
    given: &mut Vec<Given>,
) -> Outcome<()>
    requires node { ContainsNode graph.old node }
    requires given { AreThere graph.old given.old.items }
    ensures given { OnOk result (AreThere graph.new given.new.items) }
    ensures inner { Inner graph.old graph.new }
    ensures within { IsWithin graph.old graph.new }
    ensures outcome { GivesExports (texts_of names.now.items) graph.old node span given.old.items
        graph.new given.new.items result }
{
    for name in names {
        let one = given_export(alloc, graph, node, span, name.as_str())?;
        given.push(one)?;
    }
    Ok(())
}

/// An export of an instance as an argument of its name.
fn given_export(
    alloc: Global,
    graph: &mut CompositionGraph,
    node: NodeId,
    span: SourceSpan,
    name: &str,
) -> Outcome<Given>
    requires { ContainsNode graph.old node }
    ensures node { IfOk result (λ one. ContainsNode graph.new one.node) }
    ensures inner { Inner graph.old graph.new }
    ensures within { IsWithin graph.old graph.new }
    ensures outcome { IsExportGiven name.now graph.old node span graph.new result }
{
    let access = Access {
        operation: InstanceOperation::Spread,
        instance: span,
        access: span,
    };
    let export = alias(graph, node, name, access)?;
    Ok(Given {
        name: String::from_str(alloc, name)?,
        node: export,
        span,
    })
}

/// The imports of a world for which nothing is given and that an interface exports.
fn spread_names(
    alloc: Global,
    types: &Types,
    world: WorldId,
    interface: InterfaceId,
    given: &Vec<Given>,
) -> Result<Vec<String>, AllocError>
    requires world { Stands types.now (ItemKind.Component world) }
    requires interface { Stands types.now (ItemKind.Instance interface) }
    ensures names { IfOk result (λ names. texts_of names.items ≡ names_left given.now.items types.now world interface) }
    ensures distinct { IfOk result (λ names. AreDistinct (texts_of names.items)) }
{
    let imports = &types.world(world).imports;
    let _ = imports.len();
    left_names(
        alloc,
        given,
        imports.names(),
        &types.interface(interface).exports,
    )
}

/// Gives each import for which nothing is given and that the instance exports.
fn spread(
    root: Root<'_, '_>,
    graph: &mut CompositionGraph,
    world: WorldId,
    id: &Ident<'_>,
    given: &mut Vec<Given>,
) -> Outcome<()>
    requires world { Stands graph.old.types (ItemKind.Component world) }
    requires given { AreThere graph.old given.old.items }
    ensures given { OnOk result (AreThere graph.new given.new.items) }
    ensures inner { Inner graph.old graph.new }
    ensures within { IsWithin graph.old graph.new }
    ensures outcome { Spreads id.now graph.old root.entry.nodes.now world given.old.items graph.new given.new.items result }
{
    graph.types().see_acyclic();
    let node = root.node(graph, id)?;
    let interface = instance_of(graph, node, InstanceOperation::Spread, id.span)?;
    let names = spread_names(root.alloc, graph.types(), world, interface, given)?;
    if names.is_empty() {
        let fault = Error::SpreadInstantiationNoMatch { span: id.span };
        return Err(Refusal::named(root.alloc, fault));
    }
    give_exports(root.alloc, graph, node, id.span, &names, given)
}

/// The ident of a spread argument.
fn spread_id<'a>(argument: &InstantiationArgument<'a>) -> Option<Ident<'a>>
    ensures { IsSpreadOf (view_instantiation_argument argument.now) result }
{
    match argument {
        InstantiationArgument::Spread(id) => Some(*id),
        InstantiationArgument::Inferred(_) => None,
        InstantiationArgument::Named(_) => None,
        InstantiationArgument::Fill(_) => None,
    }
}

/// An argument, where it is a spread.
fn take_spread(
    argument: &InstantiationArgument<'_>,
    root: Root<'_, '_>,
    graph: &mut CompositionGraph,
    world: WorldId,
    given: &mut Vec<Given>,
) -> Outcome<()>
    requires world { Stands graph.old.types (ItemKind.Component world) }
    requires given { AreThere graph.old given.old.items }
    ensures given { OnOk result (AreThere graph.new given.new.items) }
    ensures inner { Inner graph.old graph.new }
    ensures within { IsWithin graph.old graph.new }
    ensures outcome { TakesSpread argument.now graph.old root.entry.nodes.now world given.old.items
        graph.new given.new.items result }
{
    match spread_id(argument) {
        Some(id) => spread(root, graph, world, &id, given),
        None => Ok(()),
    }
}

/// The spread arguments, in order.
pub(crate) fn spreads(
    arguments: &Vec<InstantiationArgument<'_>>,
    root: Root<'_, '_>,
    graph: &mut CompositionGraph,
    world: WorldId,
    given: &mut Vec<Given>,
) -> Outcome<()>
    requires world { Stands graph.old.types (ItemKind.Component world) }
    requires given { AreThere graph.old given.old.items }
    ensures given { OnOk result (AreThere graph.new given.new.items) }
    ensures inner { Inner graph.old graph.new }
    ensures within { IsWithin graph.old graph.new }
    ensures outcome { AreSpreads arguments.now.items graph.old root.entry.nodes.now world given.old.items
        graph.new given.new.items result }
{
    for argument in arguments {
        take_spread(argument, root, graph, world, given)?;
    }
    Ok(())
}

/// Passes all arguments to an instance, in order.
pub(crate) fn pass_all(
    graph: &mut CompositionGraph,
    instance: NodeId,
    given: &Vec<Given>,
) -> Outcome<()>
    requires instance { ContainsNode graph.old instance }
    requires fresh { IsFresh graph.old instance }
    requires given { AreThere graph.old given.now.items }
    requires apart { AreApart given.now.items instance }
    ensures inner { Inner graph.old graph.new }
    ensures within { IsWithin graph.old graph.new }
    ensures outcome { PassesAll graph.old instance given.now.items graph.new result }
{
    for one in given {
        pass(graph, instance, one)?;
    }
    Ok(())
}

/// Whether an argument is `...`.
fn is_fill(argument: &InstantiationArgument<'_>) -> bool
    ensures { result ≡ stated.is_filled (t.argument (view_instantiation_argument argument.now) t.no_arguments) }
{
    match argument {
        InstantiationArgument::Fill(_) => true,
        InstantiationArgument::Inferred(_) => false,
        InstantiationArgument::Spread(_) => false,
        InstantiationArgument::Named(_) => false,
    }
}

/// Whether the arguments are filled up by imports.
pub(crate) fn is_filled(arguments: &Vec<InstantiationArgument<'_>>) -> bool
    ensures { result ≡ stated.is_filled (t.arguments (map view_instantiation_argument arguments.now.items)) }
{
    for argument in arguments {
        if is_fill(argument) {
            return true;
        }
    }
    false
}

/// The first import for which nothing is given.
fn first_missing<'a>(imports: &'a [String], given: &Vec<Given>) -> Option<&'a str>
    ensures { option_copied result ≡ find (λ n. not (has_name (names_given given.now.items) n)) (texts_of imports.now) }
{
    for name in imports {
        if !is_given(given, name.as_str()) {
            return Some(name.as_str());
        }
    }
    None
}

/// A refusal of an instance for which an argument of a name is missing.
fn missing_argument(alloc: Global, name: &str, package: &PackageName<'_>) -> Refusal
    ensures { Refuses result (MissingInstantiationArg name.now «package».now.string.now) «package».now.span }
{
    let name = match String::from_str(alloc, name) {
        Ok(name) => name,
        Err(AllocError) => return Refusal::Memory,
    };
    let text = match String::from_str(alloc, package.string) {
        Ok(text) => text,
        Err(AllocError) => return Refusal::Memory,
    };
    let fault = Error::MissingInstantiationArg {
        name,
        package: text,
        span: package.span,
    };
    Refusal::named(alloc, fault)
}

/// Refuses where nothing is given for an import of the world.
pub(crate) fn complete(
    package: &PackageName<'_>,
    alloc: Global,
    types: &Types,
    world: WorldId,
    given: &Vec<Given>,
) -> Outcome<()>
    requires { Stands types.now (ItemKind.Component world) }
    ensures { IsComplete «package».now types.now world given.now.items result }
{
    match first_missing(types.world(world).imports.names(), given) {
        None => Ok(()),
        Some(name) => Err(missing_argument(alloc, name, package)),
    }
}
