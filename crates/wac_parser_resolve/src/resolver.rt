//! Documents and what they are resolved to.
#![tactic(auto, using(crate::proofs::SoundGraph::growing))]

ghost use Rattle.std.specs.Prelude.{◌≡◌, IfOk, IfSome, OnOk, Some};
ghost use Rattle.wac_types_base.specs.declared.item.ItemKind.{ItemKind};
ghost use Rattle.wac_types_base.specs.Collection.{Stands};
ghost use Rattle.wac_parser_tree.specs.Trees as t;
ghost use Rattle.wac_parser_tree.specs.Views.{view_document};
ghost use Rattle.wac_parser_resolve.specs.InDocuments.{IsResolved, IsSaidOf, places_in};
ghost use Rattle.wac_parser_resolve.specs.InStatements.{StaysSaid};
ghost use Rattle.wac_parser_resolve.specs.InTargets.{AreNotedAll, AreStanding, HasSaid, IsDocumentSaid, IsTargetOf, IsTargetWorld, MayBeTarget, StateMeets, world_in, world_in_type};
ghost use Rattle.wac_parser_resolve.specs.Later.{SameNumber};
ghost use Rattle.wac_parser_resolve.specs.Resolved.{asked_of, asker_place, document_of, graph_of, graph_said, import_place, places_of, places_said, target_of, target_said};
ghost use Rattle.wac_parser_resolve.specs.Standing.{IsSound};
ghost use Rattle.wac_parser_resolve.specs.Targeting.{IsMet, IsTarget};

use crate::board::Board;
use crate::packages::{GraphTypes, Packages};
use crate::spans::Spans;
use crate::state::State;
use crate::statements::{item_at, say_statements};
use crate::targets::{Noted, target_met};
use std::alloc::Global;
use wac_graph_core::{CompositionGraph, NodeId};
use wac_parser_lexer::SourceSpan;
use wac_parser_refusals::{Outcome, ResolutionResult, not_world};
use wac_parser_tree::{Document, PackageDirective, PackagePath};
use wac_types_base::{ItemKind, Type, Types, WorldId};

/// What a document says, without the document: the graph, the directive's world in it, and where imports, identifiers and
/// instances stand.
pub struct Said {
    graph: CompositionGraph,
    target: Option<WorldId>,
    imports: Spans,
    ids: Spans,
    instances: Spans,
}

impl Drop for Said {
    fn drop(self) {
        let Said {
            graph: _,
            target: _,
            imports: _,
            ids: _,
            instances: _,
        } = self;
    }
}

impl Said {
    /// The graph, taken out.
    fn into_graph(self) -> CompositionGraph
        ensures { result ≡ self.graph }
    {
        let Said {
            graph,
            target: _,
            imports: _,
            ids: _,
            instances: _,
        } = self;
        graph
    }
}

/// Something with the graph that its statements build.
#[derive(Drop)]
pub struct Resolved<'d, D> {
    document: &'d D,
    said: Said,
}

/// A document with the graph that its statements build.
pub type Resolution<'d, 's> = Resolved<'d, Document<'s>>;

impl<'d, D> Resolved<'d, D> {
    /// The document.
    pub fn document(&self) -> &'d D
        ensures { result.now ≡ document_of self.now }
    {
        self.document
    }

    /// The graph.
    pub fn graph(&self) -> &CompositionGraph
        ensures { result.now ≡ graph_of self.now }
    {
        &self.said.graph
    }

    /// The world that the directive targets, in the graph's collection.
    pub fn target(&self) -> Option<WorldId>
        ensures { result ≡ target_of self.now }
    {
        self.said.target
    }

    /// Where the name of an import stands.
    pub fn import_span(&self, node: NodeId) -> SourceSpan
        ensures { result ≡ import_place (places_of self.now) node }
    {
        self.said.imports.of_or(node, SourceSpan::new(0, 0))
    }

    /// Where what asks for something stands: the package of an instance, the identifier of an import or a declaration.
    pub fn asker_span(&self, node: NodeId) -> SourceSpan
        ensures { result ≡ asker_place (places_of self.now) node }
    {
        match self.said.instances.of(node) {
            Some(span) => span,
            None => self.said.ids.of_or(node, SourceSpan::new(0, 0)),
        }
    }

    /// The graph, taken out.
    pub fn into_graph(self) -> CompositionGraph
        ensures { result ≡ graph_of self.entry }
    {
        self.said.into_graph()
    }
}

/// The world that a type is.
fn world_type(ty: Type, types: &Types) -> Option<WorldId>
    requires { Stands types.now (ItemKind.Ty ty) }
    ensures stands { IfSome result (λ id. Stands types.now (ItemKind.Component id)) }
    ensures is { result ≡ world_in_type ty }
{
    let _ = types;
    match ty {
        Type::World(id) => Some(id),
        _other => None,
    }
}

/// The world that an item is the type of.
fn world_item(kind: ItemKind, types: &Types) -> Option<WorldId>
    requires { Stands types.now kind }
    ensures stands { IfSome result (λ id. Stands types.now (ItemKind.Component id)) }
    ensures is { result ≡ world_in kind }
{
    match kind {
        ItemKind::Ty(ty) => world_type(ty, types),
        _other => None,
    }
}

/// The world that a path names.
fn target_world(
    path: &PackagePath<'_>,
    directive: &PackageDirective<'_>,
    state: &mut State<'_>,
    alloc: Global,
) -> Outcome<WorldId>
    requires { IsSound state.old.board.types.graph state.old.names }
    ensures world { IfOk result (λ id. Stands state.new.board.types.graph.types (ItemKind.Component id)) }
    ensures number { SameNumber state.old.board.types.graph state.new.board.types.graph }
    ensures said { StaysSaid state.old state.new }
    ensures outcome { IsTargetWorld path.now directive.now.«package» state.old state.new result }
{
    let kind = item_at(path, &directive.package, state, alloc)?;
    let types = state.board.types.graph.types();
    types.see_acyclic();
    match world_item(kind, types) {
        Some(id) => Ok(id),
        None => Err(not_world(alloc, path.string, kind.desc(types), path.span)),
    }
}

/// Tests what was said so far against the directive's world.
fn state_met(
    path: &PackagePath<'_>,
    state: &State<'_>,
    world: WorldId,
    alloc: Global,
) -> Outcome<()>
    requires world { Stands state.now.board.types.graph.types (ItemKind.Component world) }
    requires noted { AreStanding state.now }
    ensures ok { OnOk result (AreNotedAll state.now → IsMet state.now.board.types.graph world) }
    ensures outcome { StateMeets path.now state.now world result }
{
    let noted = Noted {
        imports: &state.imports,
        instances: &state.board.instances,
        exports: &state.exports,
    };
    target_met(alloc, &state.board.types.graph, noted, path, world)
}

/// The directive's world, which what was said so far has to meet.
fn target(
    path: &PackagePath<'_>,
    directive: &PackageDirective<'_>,
    state: &mut State<'_>,
    alloc: Global,
) -> Outcome<WorldId>
    requires sound { IsSound state.old.board.types.graph state.old.names }
    requires said { HasSaid directive.now.«package» state.old }
    ensures world { IfOk result (λ id. IsTarget state.new.board.types.graph (Some id)) }
    ensures number { SameNumber state.old.board.types.graph state.new.board.types.graph }
    ensures said { StaysSaid state.old state.new }
    ensures outcome { IsTargetOf path.now directive.now.«package» state.old state.new result }
{
    let world = target_world(path, directive, state, alloc)?;
    state_met(path, state, world, alloc)?;
    Ok(world)
}

/// The directive's world, if it names one.
fn maybe_target(
    directive: &PackageDirective<'_>,
    state: &mut State<'_>,
    alloc: Global,
) -> Outcome<Option<WorldId>>
    requires sound { IsSound state.old.board.types.graph state.old.names }
    requires said { HasSaid directive.now.«package» state.old }
    ensures world { IfOk result (λ world. IsTarget state.new.board.types.graph world) }
    ensures number { SameNumber state.old.board.types.graph state.new.board.types.graph }
    ensures said { StaysSaid state.old state.new }
    ensures outcome { MayBeTarget directive.now state.old state.new result }
{
    match &directive.targets {
        Some(path) => Ok(Some(target(path, directive, state, alloc)?)),
        None => Ok(None),
    }
}

/// What a state has come to.
fn come_to(state: State<'_>, target: Option<WorldId>) -> Said
    ensures graph { result.graph ≡ state.entry.board.types.graph }
    ensures target { result.target ≡ target }
    ensures places { places_said result ≡ places_in state.entry }
{
    let State {
        board,
        names: _,
        nodes: _,
        imports,
        exports: _,
        ids,
    } = state;
    let Board { types, instances } = board;
    let GraphTypes { graph, packages: _ } = types;
    Said {
        graph,
        target,
        imports,
        ids,
        instances,
    }
}

// A reference to a document, or to its statements, comes first wherever one is passed on: its lifetime then has the same
// place in the caller's signature and in the callee's. Else a proof takes the whole tree of types apart to compare the two.

/// Says a document, and answers its directive's world.
fn say_document(
    document: &Document<'_>,
    state: &mut State<'_>,
    alloc: Global,
) -> Outcome<Option<WorldId>>
    requires sound { IsSound state.old.board.types.graph state.old.names }
    requires said { HasSaid document.now.directive.«package» state.old }
    ensures world { IfOk result (λ world. IsTarget state.new.board.types.graph world) }
    ensures number { SameNumber state.old.board.types.graph state.new.board.types.graph }
    ensures outcome { IsDocumentSaid document.now state.old state.new result }
{
    let directive = &document.directive;
    say_statements(&document.statements, &directive.package, &mut *state, alloc)?;
    maybe_target(directive, state, alloc)
}

/// What a document says, over these packages.
fn said_of(
    document: &Document<'_>,
    alloc: Global,
    packages: &Packages<'_>,
    number: u64,
) -> Outcome<Said>
    ensures number { IfOk result (λ said. said.graph.types.number ≡ number) }
    ensures target { IfOk result (λ said. IsTarget said.graph said.target) }
    ensures outcome { IsSaidOf document.now «packages».now result }
{
    let mut state = State::new(alloc, &*packages, number);
    let target = say_document(document, &mut state, alloc)?;
    state.board.types.graph.see_sound();
    Ok(come_to(state, target))
}

/// A document with what it says.
fn with_document<'d, D>(document: &'d D, said: Said) -> Resolved<'d, D>
    ensures document { document_of result ≡ document.now }
    ensures graph { graph_of result ≡ said.graph }
    ensures target { target_of result ≡ said.target }
    ensures places { places_of result ≡ places_said said }
{
    Resolved { document, said }
}

/// Resolves one document.
#[derive(Clone, Copy)]
pub struct AstResolver<'d, 's> {
    document: &'d Document<'s>,
}

impl<'d, 's> AstResolver<'d, 's> {
    /// A resolver of this document.
    pub fn new(document: &'d Document<'s>) -> Self
        ensures { asked_of result ≡ document.now }
    {
        AstResolver { document }
    }

    /// What the document is resolved to, over these packages, in a graph whose collection has this number.
    pub fn resolve(
        self,
        alloc: Global,
        packages: &Packages<'_>,
        number: u64,
    ) -> ResolutionResult<Resolution<'d, 's>>
        ensures document { IfOk result (λ r. document_of r ≡ asked_of self.entry) }
        ensures number { IfOk result (λ r. (graph_of r).types.number ≡ number) }
        ensures target { IfOk result (λ r. IsTarget (graph_of r) (target_of r)) }
        ensures outcome { IsResolved graph_of places_of target_of (view_document (asked_of self.entry)) «packages».now result }
    {
        let AstResolver { document } = self;
        match said_of(document, alloc, &*packages, number) {
            Ok(said) => Ok(with_document(document, said)),
            Err(refusal) => Err(refusal.into_error()),
        }
    }
}

/// Documents that can be resolved.
pub trait ResolveDocument: Sized {
    ghost stated: { Self → t.Document };

    /// What the document says over these packages, in a graph whose collection has this number.
    fn say(&self, alloc: Global, packages: &Packages<'_>, number: u64) -> ResolutionResult<Said>
        ensures number { IfOk result (λ said. (graph_said said).types.number ≡ number) }
        ensures target { IfOk result (λ said. IsTarget (graph_said said) (target_said said)) }
        ensures outcome { IsResolved graph_said places_said target_said (stated self.now) «packages».now result };

    /// What the document is resolved to, over these packages, in a graph whose collection has this number.
    final fn resolve<'d>(
        &'d self,
        alloc: Global,
        packages: &Packages<'_>,
        number: u64,
    ) -> ResolutionResult<Resolved<'d, Self>>
        ensures document { IfOk result (λ r. document_of r ≡ self.now) }
        ensures number { IfOk result (λ r. (graph_of r).types.number ≡ number) }
        ensures target { IfOk result (λ r. IsTarget (graph_of r) (target_of r)) }
        ensures outcome { IsResolved graph_of places_of target_of (stated self.now) «packages».now result }
    {
        let said = self.say(alloc, &*packages, number)?;
        Ok(with_document(self, said))
    }
}

impl<'s> ResolveDocument for Document<'s> {
    ghost use Rattle.wac_parser_tree.specs.Views.{view_document};

    ghost stated = { view_document };

    fn say(&self, alloc: Global, packages: &Packages<'_>, number: u64) -> ResolutionResult<Said> {
        match said_of(self, alloc, &*packages, number) {
            Ok(said) => Ok(said),
            Err(refusal) => Err(refusal.into_error()),
        }
    }
}
