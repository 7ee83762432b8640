//! Exports of a document.
#![tactic(auto, using(crate::proofs::SoundGraph::growing))]

ghost use Rattle.std.specs.Prelude.{◌≡◌, IfOk, IfSome, OnOk, is_some};
ghost use Rattle.std.specs.Bool.{Decides};
ghost use Rattle.std.specs.Option.{option_copied};
ghost use Rattle.wac_types_base.specs.declared.item.ItemKind.{ItemKind};
ghost use Rattle.wac_types_base.specs.Collection.{Stands};
ghost use Rattle.wac_types_base.specs.Entries.{texts_of};
ghost use Rattle.wac_graph_core.specs.Graph.{ContainsNode};
ghost use Rattle.wac_parser_tree.specs.Trees as t;
ghost use Rattle.wac_parser_tree.specs.Views.{view_export_options};
ghost use Rattle.wac_parser_refusals.specs.Causes.{ExportConflict};
ghost use Rattle.wac_parser_refusals.specs.Outcomes.{Refuses};
ghost use Rattle.wac_parser_refusals.specs.Views.{cause_of};
ghost use Rattle.wac_parser_resolve.specs.InExports.{FindsDefinition, IsDefined, IsExport, SaysOf, SaysOfInstance, export_cause, export_each, export_with, left_of};
ghost use Rattle.wac_parser_resolve.specs.Later.{Later, SameNumber};
ghost use Rattle.wac_parser_resolve.specs.Saying as stated;
ghost use Rattle.wac_parser_resolve.specs.Standing.{IsSound};
ghost use Rattle.wac_parser_resolve.specs.Told.{IsInferred};

use crate::board::{identifier_of, instance_of, own_name, word_of};
use crate::calls::{Access, alias, export};
use crate::spans::Spans;
use crate::state::State;
use std::alloc::{AllocError, Global};
use wac_graph_core::{CompositionGraph, ExportError, NodeId, NodeKind};
use wac_parser_declare::Binding;
use wac_parser_lexer::SourceSpan;
use wac_parser_refusals::{AS_HELP, Error, InstanceOperation, Outcome, Refusal};
use wac_parser_tree::ExportOptions;
use wac_types_base::{ExternKind, InterfaceId, NamedMap};

/// The name of an export: its text, where it stands, and whether another name may help.
#[derive(Clone, Copy)]
struct ExportName<'n> {
    text: &'n str,
    span: SourceSpan,
    is_helped: bool,
}

/// The help, where another name may do.
pub(crate) fn help(is_helped: bool) -> Option<&'static str>
    ensures { is_some result ≡ is_helped }
{
    if is_helped { Some(AS_HELP) } else { None }
}

/// Whether a node is a definition.
fn is_definition(graph: &CompositionGraph, node: NodeId) -> bool
    requires { ContainsNode graph.now node }
    ensures { Decides result (IsDefined graph.now node) }
{
    matches!(graph[node].kind(), NodeKind::Definition)
}

/// A definition: its node, and where its name was given.
#[derive(Clone, Copy)]
struct Definition {
    node: NodeId,
    span: SourceSpan,
}

/// The definition that a name of the root denotes.
fn definition_of(
    graph: &CompositionGraph,
    names: &NamedMap<Binding>,
    nodes: &NamedMap<NodeId>,
    name: &str,
) -> Option<Definition>
    ensures stands { IfSome result (λ d. ContainsNode graph.now d.node) }
    ensures found { FindsDefinition graph.now names.now nodes.now name.now result }
{
    graph.see_sound();
    let node = *nodes.get(name)?;
    let span = names.get(name)?.span;
    if !graph.contains_node(node) {
        return None;
    }
    if is_definition(graph, node) {
        Some(Definition { node, span })
    } else {
        None
    }
}

/// A refusal of the export of a name that denotes a definition.
fn export_conflict(
    alloc: Global,
    word: &'static str,
    definition: SourceSpan,
    name: ExportName<'_>,
) -> Refusal
    ensures { Refuses result (ExportConflict name.entry.text.now word.now definition name.entry.is_helped) name.entry.span }
{
    let text = match String::from_str(alloc, name.text) {
        Ok(text) => text,
        Err(AllocError) => return Refusal::Memory,
    };
    let fault = Error::ExportConflict {
        name: text,
        kind: word,
        span: name.span,
        definition,
        help: help(name.is_helped),
    };
    Refusal::named(alloc, fault)
}

/// A refusal of the graph, with the place of the earlier export.
fn export_fault(spans: &Spans, name: ExportName<'_>, fault: ExportError) -> Error
    ensures { cause_of result ≡ export_cause spans.now.noted.items name.entry fault }
{
    match fault {
        ExportError::ExportAlreadyExists { name: text, node } => Error::DuplicateExternName {
            name: text,
            kind: ExternKind::Export,
            span: name.span,
            previous: spans.of_or(node, name.span),
            help: help(name.is_helped),
        },
        ExportError::InvalidExportName { name: text, source } => Error::InvalidExternName {
            name: text,
            kind: ExternKind::Export,
            span: name.span,
            source,
        },
        ExportError::Memory => Error::Memory,
    }
}

/// The name of an export that is written without one: the identifier of an instance, else the name of the import or the
/// alias.
fn inferred_name(graph: &CompositionGraph, node: NodeId) -> Option<&str>
    requires { ContainsNode graph.now node }
    ensures { IsInferred graph.now node (option_copied result) }
{
    match identifier_of(graph, node) {
        Some(name) => Some(name),
        None => own_name(graph, node),
    }
}

/// The exports of an interface that are not exported yet.
fn unexported(
    alloc: Global,
    graph: &CompositionGraph,
    interface: InterfaceId,
) -> Result<Vec<String>, AllocError>
    requires { Stands graph.now.types (ItemKind.Instance interface) }
    ensures { IfOk result (λ names. texts_of names.items ≡ left_of graph.now interface) }
{
    let mut names = Vec::new(alloc);
    for name in graph.types().interface(interface).exports.names() {
        if graph.get_export(name.as_str()).is_none() {
            names.push(String::from_str(alloc, name.as_str())?)?;
        }
    }
    Ok(names)
}

impl<'p> State<'p> {
    /// Exports a node under a name that denotes no definition.
    fn export(&mut self, alloc: Global, node: NodeId, name: ExportName<'_>) -> Outcome<()>
        requires node { ContainsNode self.old.board.types.graph node }
        requires sound { IsSound self.old.board.types.graph self.old.names }
        ensures sound { OnOk result (IsSound self.new.board.types.graph self.new.names) }
        ensures later { Later self.old.board.types.graph self.new.board.types.graph }
        ensures instances { self.new.board.instances.noted.items ≡ self.old.board.instances.noted.items }
        ensures outcome { IsExport self.old node name.entry self.new result }
    {
        let graph = &mut self.board.types.graph;
        if let Some(other) = definition_of(graph, &self.names, &self.nodes, name.text) {
            let word = word_of(graph, other.node);
            return Err(export_conflict(alloc, word, other.span, name));
        }
        match export(graph, node, name.text) {
            Ok(()) => {
                self.exports.note(node, name.span)?;
                Ok(())
            }
            Err(fault) => Err(Refusal::named(alloc, export_fault(&self.exports, name, fault))),
        }
    }

    /// Exports a node under the name that it tells.
    fn export_inferred(&mut self, alloc: Global, node: NodeId, span: SourceSpan) -> Outcome<()>
        requires node { ContainsNode self.old.board.types.graph node }
        requires sound { IsSound self.old.board.types.graph self.old.names }
        ensures sound { OnOk result (IsSound self.new.board.types.graph self.new.names) }
        ensures number { SameNumber self.old.board.types.graph self.new.board.types.graph }
        ensures outcome { SaysOf (export_with t.ExportOptions.none span) self.old node self.new result }
    {
        let graph = &self.board.types.graph;
        graph.see_sound();
        graph.types().see_acyclic();
        let name = match inferred_name(graph, node) {
            Some(name) => String::from_str(alloc, name)?,
            None => return Err(Refusal::named(alloc, Error::ExportRequiresAs { span })),
        };
        let name = ExportName {
            text: name.as_str(),
            span,
            is_helped: true,
        };
        self.export(alloc, node, name)
    }

    /// Exports an export of an instance under its name.
    fn export_one(&mut self, alloc: Global, node: NodeId, access: Access, text: &str) -> Outcome<()>
        requires node { ContainsNode self.old.board.types.graph node }
        requires sound { IsSound self.old.board.types.graph self.old.names }
        ensures sound { OnOk result (IsSound self.new.board.types.graph self.new.names) }
        ensures later { Later self.old.board.types.graph self.new.board.types.graph }
        ensures instances { self.new.board.instances.noted.items ≡ self.old.board.instances.noted.items }
        ensures outcome { SaysOfInstance (λ s d. stated.export_one access.access d s text.now) self.old node self.new result }
    {
        let one = alias(&mut self.board.types.graph, node, text, access)?;
        let name = ExportName {
            text,
            span: access.access,
            is_helped: false,
        };
        self.export(alloc, one, name)
    }

    /// Exports the exports of these names.
    fn export_all(
        &mut self,
        alloc: Global,
        node: NodeId,
        access: Access,
        names: &Vec<String>,
    ) -> Outcome<()>
        requires node { ContainsNode self.old.board.types.graph node }
        requires sound { IsSound self.old.board.types.graph self.old.names }
        ensures sound { OnOk result (IsSound self.new.board.types.graph self.new.names) }
        ensures number { SameNumber self.old.board.types.graph self.new.board.types.graph }
        ensures outcome { SaysOfInstance (export_each (texts_of names.now.items) access.access) self.old node self.new result }
    {
        for name in names {
            self.export_one(alloc, node, access, name.as_str())?;
        }
        Ok(())
    }

    /// Exports each export of an instance that is not exported yet. `span` is the expression's, `dots` that of `...`.
    fn export_spread(
        &mut self,
        alloc: Global,
        node: NodeId,
        span: SourceSpan,
        dots: SourceSpan,
    ) -> Outcome<()>
        requires node { ContainsNode self.old.board.types.graph node }
        requires sound { IsSound self.old.board.types.graph self.old.names }
        ensures sound { OnOk result (IsSound self.new.board.types.graph self.new.names) }
        ensures number { SameNumber self.old.board.types.graph self.new.board.types.graph }
        ensures outcome { SaysOf (export_with (t.ExportOptions.spread dots) span) self.old node self.new result }
    {
        let graph = &self.board.types.graph;
        graph.types().see_acyclic();
        let interface = instance_of(graph, node, InstanceOperation::Spread, span)?;
        let names = unexported(alloc, graph, interface)?;
        if names.is_empty() {
            return Err(Refusal::named(alloc, Error::SpreadExportNoEffect { span }));
        }
        let access = Access {
            operation: InstanceOperation::Spread,
            instance: span,
            access: dots,
        };
        self.export_all(alloc, node, access, &names)
    }
}

/// Exports what an expression denotes.
pub(crate) fn export_as(
    options: &ExportOptions<'_>,
    state: &mut State<'_>,
    alloc: Global,
    node: NodeId,
    span: SourceSpan,
) -> Outcome<()>
    requires node { ContainsNode state.old.board.types.graph node }
    requires sound { IsSound state.old.board.types.graph state.old.names }
    ensures sound { OnOk result (IsSound state.new.board.types.graph state.new.names) }
    ensures number { SameNumber state.old.board.types.graph state.new.board.types.graph }
    ensures outcome { SaysOf (export_with (view_export_options options.now) span) state.old node state.new result }
{
    match options {
        ExportOptions::None => state.export_inferred(alloc, node, span),
        ExportOptions::Spread(dots) => state.export_spread(alloc, node, span, *dots),
        ExportOptions::Rename(name) => {
            let name = ExportName {
                text: name.as_str(),
                span: name.span(),
                is_helped: false,
            };
            state.export(alloc, node, name)
        }
    }
}
