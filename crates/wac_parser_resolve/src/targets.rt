//! The target world of a document, by the types that its statements ask.

ghost use Rattle.std.specs.Prelude.{◌≡◌, IfOk, IfSome, OnOk};
ghost use Rattle.wac_types_base.specs.declared.item.ItemKind.{ItemKind};
ghost use Rattle.wac_types_base.specs.Collection.{Stands};
ghost use Rattle.wac_types_base.specs.Entries.{value_at};
ghost use Rattle.wac_types_fit.specs.Trees.{Fit};
ghost use Rattle.wac_types_fit.specs.TargetSteps.{AllStand, GivesStanding};
ghost use Rattle.wac_graph_core.specs.Graph.{ContainsNode};
ghost use Rattle.wac_parser_refusals.specs.Outcomes.{Refuses};
ghost use Rattle.wac_parser_refusals.specs.Views.{Names};
ghost use Rattle.wac_parser_resolve.specs.Giving.{gives_of};
ghost use Rattle.wac_parser_resolve.specs.InTargets.{AreExportsTested, AreFilledTested, AreInstancesMet, AreInstancesTested, AreStatementsMet, AreStatementsTested};
ghost use Rattle.wac_parser_resolve.specs.InTargets.{IsAllNoted, IsAnswerOf, IsExportTested, IsFaultOf, IsFilledTested, IsFitTested, IsImportTested, IsInstanceTested, IsStatementTested};
ghost use Rattle.wac_parser_resolve.specs.InTargets.{NotedIsMet, NotedMeets, NotedMeetsWorld, StandNoted, TellsMismatch, is_passed_in, lacks_export, lacks_import, mismatched_at, turned_by, way_of};
ghost use Rattle.wac_parser_resolve.specs.Targeting.{AreExportsMet, AreFilledMet, IsExportMet, IsFilledMet, IsImportMet, IsInstanceMet, IsMet, IsStatementMet};

use crate::board::{item_of, world_of};
use crate::spans::Spans;
use indexmap::IndexMap;
use std::alloc::{AllocError, Global};
use wac_graph_core::{CompositionGraph, NodeId};
use wac_parser_lexer::SourceSpan;
use wac_parser_refusals::{Error, Outcome, Refusal, unwritable};
use wac_parser_tree::PackagePath;
use wac_types_base::{ExternKind, ItemKind, NamedMap, TargetError, Types, WorldId};
use wac_types_fit::{SubtypeChecker, SubtypeError, new_cache};

/// A target: its path, and what it gives under the names of imports.
#[derive(Clone, Copy)]
struct Target<'p, 's, 'i, 't> {
    alloc: Global,
    path: &'p PackagePath<'s>,
    implicit: &'i IndexMap<&'t str, ItemKind>,
    imports: &'t NamedMap<ItemKind>,
}

/// Where imports, instances and exports are named, in the order in which they were said.
#[derive(Clone, Copy)]
pub(crate) struct Noted<'n> {
    pub(crate) imports: &'n Spans,
    pub(crate) instances: &'n Spans,
    pub(crate) exports: &'n Spans,
}

/// Something that a document imports: its name, its item, and where a statement asks it.
#[derive(Clone, Copy)]
struct Asked<'n> {
    name: &'n str,
    kind: ItemKind,
    span: Option<SourceSpan>,
}

/// What does not fit: what it is, its name, and where it stands.
#[derive(Clone, Copy)]
struct Place<'n> {
    kind: ExternKind,
    name: &'n str,
    span: Option<SourceSpan>,
}

/// The mismatch that a check answers; none where it says yes.
fn mismatch_of(checked: Result<(), SubtypeError>) -> Result<Option<SubtypeError>, AllocError>
    ensures { IfOk result (IsAnswerOf checked) }
{
    match checked {
        Ok(()) => Ok(None),
        Err(SubtypeError::Memory) => Err(AllocError),
        Err(fault) => Ok(Some(fault)),
    }
}

/// Why one kind may not be given where another is asked, if it may not. What is asked of an import is told turned about.
fn mismatch(
    alloc: Global,
    types: &Types,
    given: ItemKind,
    asked: ItemKind,
    is_turned: bool,
) -> Result<Option<SubtypeError>, AllocError>
    requires given { Stands types.now given }
    requires asked { Stands types.now asked }
    ensures { IfOk result (TellsMismatch (turned_by is_turned) types.now given asked) }
{
    let mut cache = new_cache(alloc);
    let mut checker = SubtypeChecker::new(alloc, &mut cache);
    if is_turned {
        let _ = checker.invert();
        return mismatch_of(checker.is_subtype(given, types, asked, types));
    }
    mismatch_of(checker.is_subtype(given, types, asked, types))
}

/// Whether what is of this kind is checked turned about.
fn is_turned(kind: ExternKind) -> bool
    ensures { turned_by result ≡ way_of kind }
{
    match kind {
        ExternKind::Import => true,
        ExternKind::Export => false,
    }
}

/// Whether something is passed to an instance under a name.
fn is_passed(graph: &CompositionGraph, instance: NodeId, name: &str) -> bool
    requires { ContainsNode graph.now instance }
    ensures { result ≡ is_passed_in graph.now instance name.now }
{
    for (own, _) in graph.get_instantiation_arguments(instance) {
        if name == own {
            return true;
        }
    }
    false
}

impl<'p, 's, 'i, 't> Target<'p, 's, 'i, 't> {
    /// A refusal of an import that the target does not give.
    fn not_in_target(&self, asked: Asked<'_>) -> Result<Refusal, AllocError>
        ensures { IfOk result (λ e. Names e (lacks_import self.now asked.entry)) }
    {
        let fault = Error::ImportNotInTarget {
            name: String::from_str(self.alloc, asked.name)?,
            world: String::from_str(self.alloc, self.path.string)?,
            span: asked.span,
        };
        Ok(Refusal::named(self.alloc, fault))
    }

    /// A refusal of what does not fit.
    fn mismatched(&self, place: Place<'_>, source: SubtypeError) -> Result<Refusal, AllocError>
        ensures { IfOk result (λ e. Names e (mismatched_at self.now place.entry source)) }
    {
        let fault = Error::TargetMismatch {
            kind: place.kind,
            name: String::from_str(self.alloc, place.name)?,
            world: String::from_str(self.alloc, self.path.string)?,
            span: place.span,
            source,
        };
        Ok(Refusal::named(self.alloc, fault))
    }

    /// A refusal of an export of the target that is not exported.
    fn missing_export(&self, name: &str, kind: &'static str) -> Result<Refusal, AllocError>
        ensures { IfOk result (λ e. Refuses e (lacks_export self.now name.now kind.now) self.now.path.now.span) }
    {
        let fault = Error::MissingTargetExport {
            name: String::from_str(self.alloc, name)?,
            kind,
            world: String::from_str(self.alloc, self.path.string)?,
            span: self.path.span,
        };
        Ok(Refusal::named(self.alloc, fault))
    }

    /// What the target gives under the name of an import: an implicit interface, else an import.
    fn given(&self, name: &str) -> Option<ItemKind>
        ensures { result ≡ gives_of self.now name.now }
    {
        match self.implicit.get(name).copied() {
            Some(kind) => Some(kind),
            None => self.imports.get(name).copied(),
        }
    }

    /// Refuses where one kind does not fit the other.
    fn fits(&self, types: &Types, given: ItemKind, asked: ItemKind, place: Place<'_>) -> Outcome<()>
        requires given { Stands types.now given }
        requires asked { Stands types.now asked }
        ensures ok { OnOk result (Fit types.now given types.now asked) }
        ensures outcome { IsFitTested self.now types.now given asked place.entry result }
    {
        match mismatch(self.alloc, types, given, asked, is_turned(place.kind))? {
            None => Ok(()),
            Some(source) => Err(self.mismatched(place, source)?),
        }
    }

    /// An import is one of the target's, and the target's fits it.
    fn import_met(&self, types: &Types, asked: Asked<'_>) -> Outcome<()>
        requires given { GivesStanding types.now (gives_of self.now) }
        requires asked { Stands types.now asked.kind }
        ensures ok { OnOk result (IsImportMet types.now (gives_of self.now) asked.entry.name.now asked.entry.kind) }
        ensures outcome { IsImportTested self.now types.now asked.entry result }
    {
        let place = Place {
            kind: ExternKind::Import,
            name: asked.name,
            span: asked.span,
        };
        types.see_acyclic();
        match self.given(asked.name) {
            Some(given) => self.fits(types, given.promote(), asked.kind, place),
            None => Err(self.not_in_target(asked)?),
        }
    }

    /// An import that a statement asks.
    fn explicit_met(&self, graph: &CompositionGraph, node: NodeId, span: SourceSpan) -> Outcome<()>
        requires given { GivesStanding graph.now.types (gives_of self.now) }
        requires node { ContainsNode graph.now node }
        ensures ok { OnOk result (IsStatementMet graph.now (gives_of self.now) node) }
        ensures outcome { IsStatementTested self.now graph.now node span result }
    {
        match graph.get_import_name(node) {
            Some(name) => {
                let asked = Asked {
                    name,
                    kind: item_of(graph, node),
                    span: Some(span),
                };
                self.import_met(graph.types(), asked)
            }
            None => Ok(()),
        }
    }

    /// An import of an instance: something is passed to it, or the target gives it.
    fn filled_one(
        &self,
        graph: &CompositionGraph,
        instance: NodeId,
        name: &str,
        kind: ItemKind,
    ) -> Outcome<()>
        requires given { GivesStanding graph.now.types (gives_of self.now) }
        requires instance { ContainsNode graph.now instance }
        requires kind { Stands graph.now.types kind }
        ensures ok { OnOk result (IsFilledMet graph.now (gives_of self.now) instance name.now kind) }
        ensures outcome { IsFilledTested self.now graph.now instance name.now kind result }
    {
        if is_passed(graph, instance, name) {
            return Ok(());
        }
        let asked = Asked {
            name,
            kind,
            span: None,
        };
        self.import_met(graph.types(), asked)
    }

    /// The imports of an instance to which nothing is passed.
    fn filled_met(
        &self,
        graph: &CompositionGraph,
        instance: NodeId,
        imports: &NamedMap<ItemKind>,
    ) -> Outcome<()>
        requires given { GivesStanding graph.now.types (gives_of self.now) }
        requires instance { ContainsNode graph.now instance }
        requires imports { AllStand graph.now.types imports.now }
        ensures ok { OnOk result (AreFilledMet graph.now (gives_of self.now) instance imports.now) }
        ensures outcome { AreFilledTested self.now graph.now instance imports.now result }
    {
        for at in 0..imports.len() {
            let (name, kind) = imports.entry(at);
            self.filled_one(graph, instance, name, *kind)?;
        }
        Ok(())
    }

    /// The imports that a node asks, where it is an instance.
    #[tactic(auto, using(crate::proofs::TargetMet::instance))]
    fn instance_met(&self, graph: &CompositionGraph, node: NodeId) -> Outcome<()>
        requires given { GivesStanding graph.now.types (gives_of self.now) }
        requires node { ContainsNode graph.now node }
        ensures ok { OnOk result (IsInstanceMet graph.now (gives_of self.now) node) }
        ensures outcome { IsInstanceTested self.now graph.now node result }
    {
        graph.see_sound();
        match graph[node].package() {
            Some(id) => {
                let world = world_of(graph, id);
                let imports = &graph.types().world(world).imports;
                self.filled_met(graph, node, imports)
            }
            None => Ok(()),
        }
    }

    /// The imports of statements, which are noted with the places of their names, in order.
    fn statements_met(&self, graph: &CompositionGraph, imports: &Spans) -> Outcome<()>
        requires given { GivesStanding graph.now.types (gives_of self.now) }
        requires imports { StandNoted graph.now imports.now.noted.items }
        ensures ok { OnOk result (AreStatementsMet graph.now (gives_of self.now) imports.now.noted.items) }
        ensures outcome { AreStatementsTested self.now graph.now imports.now.noted.items result }
    {
        for (node, span) in imports.entries() {
            self.explicit_met(graph, *node, *span)?;
        }
        Ok(())
    }

    /// The imports of instances, which are noted, in order.
    fn instances_met(&self, graph: &CompositionGraph, instances: &Spans) -> Outcome<()>
        requires given { GivesStanding graph.now.types (gives_of self.now) }
        requires instances { StandNoted graph.now instances.now.noted.items }
        ensures ok { OnOk result (AreInstancesMet graph.now (gives_of self.now) instances.now.noted.items) }
        ensures outcome { AreInstancesTested self.now graph.now instances.now.noted.items result }
    {
        for (node, _) in instances.entries() {
            self.instance_met(graph, *node)?;
        }
        Ok(())
    }

    /// An export of the target is exported, and fits.
    fn export_met(
        &self,
        graph: &CompositionGraph,
        spans: &Spans,
        name: &str,
        kind: ItemKind,
    ) -> Outcome<()>
        requires { Stands graph.now.types kind }
        ensures ok { OnOk result (IsExportMet graph.now name.now kind) }
        ensures outcome { IsExportTested self.now graph.now spans.now.noted.items name.now kind result }
    {
        let types = graph.types();
        types.see_acyclic();
        match exported(graph, name) {
            Some(node) => {
                let place = Place {
                    kind: ExternKind::Export,
                    name,
                    span: spans.of(node),
                };
                self.fits(types, item_of(graph, node), kind.promote(), place)
            }
            None => Err(self.missing_export(name, kind.desc(types))?),
        }
    }

    /// All exports of the target.
    fn exports_met(
        &self,
        graph: &CompositionGraph,
        spans: &Spans,
        exports: &NamedMap<ItemKind>,
    ) -> Outcome<()>
        requires { AllStand graph.now.types exports.now }
        ensures ok { OnOk result (AreExportsMet graph.now exports.now) }
        ensures outcome { AreExportsTested self.now graph.now spans.now.noted.items exports.now result }
    {
        for at in 0..exports.len() {
            let (name, kind) = exports.entry(at);
            self.export_met(graph, spans, name, *kind)?;
        }
        Ok(())
    }

    /// The imports of statements, then those of instances, then the exports of the target.
    fn met(
        &self,
        graph: &CompositionGraph,
        noted: Noted<'_>,
        exports: &NamedMap<ItemKind>,
    ) -> Outcome<()>
        requires given { GivesStanding graph.now.types (gives_of self.now) }
        requires imports { StandNoted graph.now noted.imports.now.noted.items }
        requires instances { StandNoted graph.now noted.instances.now.noted.items }
        requires exports { AllStand graph.now.types exports.now }
        ensures ok { OnOk result (NotedIsMet self.now graph.now noted.entry exports.now) }
        ensures outcome { NotedMeets self.now graph.now noted.entry exports.now result }
    {
        graph.see_sound();
        graph.types().see_acyclic();
        self.statements_met(graph, noted.imports)?;
        self.instances_met(graph, noted.instances)?;
        self.exports_met(graph, noted.exports, exports)
    }
}

/// The node that is exported under a name.
fn exported(graph: &CompositionGraph, name: &str) -> Option<NodeId>
    ensures value { result ≡ value_at graph.now.exports name.now }
    ensures stands { IfSome result (λ node. ContainsNode graph.now node) }
{
    graph.see_sound();
    graph.get_export(name)
}

/// Why the implicit interfaces of a target are not to be had.
fn implicit_fault(alloc: Global, path: &PackagePath<'_>, fault: TargetError) -> Refusal
    ensures { IsFaultOf path.now fault result }
{
    match fault {
        TargetError::Memory => Refusal::Memory,
        TargetError::UsedWithoutIdentifier => unwritable(alloc, path.string),
    }
}

/// Tests a document's graph against its target: first the imports of statements, then those of instances, then the exports.
pub(crate) fn target_met(
    alloc: Global,
    graph: &CompositionGraph,
    noted: Noted<'_>,
    path: &PackagePath<'_>,
    world: WorldId,
) -> Outcome<()>
    requires world { Stands graph.now.types (ItemKind.Component world) }
    requires imports { StandNoted graph.now noted.imports.now.noted.items }
    requires instances { StandNoted graph.now noted.instances.now.noted.items }
    ensures ok { OnOk result (IsAllNoted graph.now noted.entry → IsMet graph.now world) }
    ensures outcome { NotedMeetsWorld path.now graph.now noted.entry world result }
{
    let types = graph.types();
    let wanted = types.world(world);
    match wanted.implicit_imported_interfaces(alloc, types) {
        Err(fault) => Err(implicit_fault(alloc, path, fault)),
        Ok(implicit) => {
            let target = Target {
                alloc,
                path,
                implicit: &implicit,
                imports: &wanted.imports,
            };
            target.met(graph, noted, &wanted.exports)
        }
    }
}
