//! Worlds that documents declare.

ghost use Rattle.std.specs.Prelude.{◌≡◌, IfOk, IfErr, IfSome, OnOk, None, if◌then◌else◌};
ghost use Rattle.wac_types_base.specs.declared.ids.WorldId.{WorldId};
ghost use Rattle.wac_types_base.specs.declared.item.«Type».{«Type» as TypeKind};
ghost use Rattle.wac_parser_tree.specs.Trees.{Document as Tree};
ghost use Rattle.wac_parser_tree.specs.Views.{view_document, view_statement, view_type_statement};
ghost use Rattle.wac_parser_resolve.specs.Resolved.{document_of, graph_of};
ghost use Rattle.wac_texts.specs.declared.declared.DeclaredWorldError.{DeclaredWorldError};
ghost use Rattle.wac_texts.specs.declared.declared.Declares.{Declares};
ghost use Rattle.wac_texts.specs.Declarations.{declared_as, declared_by, declared_in};
ghost use Rattle.wac_texts.specs.Worlds.{DefinesType, IsDefined, IsDeclared, IsNotGiven, RefusesWorld};

use std::alloc::{AllocError, Global};
use thiserror::Error;
use wac_graph_core::{CompositionGraph, Node, NodeKind};
use wac_parser_resolve::Resolved;
use wac_parser_tree::{Document, Statement, TypeStatement};
use wac_types_base::{ItemKind, Type, Types, WorldId, copy_world};

/// Why a document does not give a world.
#[derive(Clone, Copy, Debug, PartialEq, Eq, Error)]
pub enum DeclaredWorldError {
    /// The document has no declaration of the name.
    #[error("the world is not declared")]
    NotDeclared,
    /// The declaration of the name is of something else.
    #[error("the name is not of a world")]
    NotWorld,
    #[error("out of memory")]
    Memory,
}

impl From<AllocError> for DeclaredWorldError {
    ghost from_gives = { λ _ e. e ≡ DeclaredWorldError.Memory };

    fn from(_: AllocError) -> Self {
        DeclaredWorldError::Memory
    }
}

/// What stands under a name.
#[derive(Clone, Copy)]
pub enum Declares {
    Nothing,
    World,
    /// A type that is no world.
    Other,
}

/// Something else, where the names are the same.
fn other_where(is_same: bool) -> Declares
    ensures { result ≡ (if is_same then Declares.Other else Declares.Nothing) }
{
    if is_same {
        Declares::Other
    } else {
        Declares::Nothing
    }
}

/// What the declaration of a type declares under a name.
fn type_declares(statement: &TypeStatement<'_>, name: &str) -> Declares
    ensures { result ≡ declared_as (view_type_statement statement.now) name.now }
{
    match statement {
        TypeStatement::World(world) => {
            if world.id.string == name {
                Declares::World
            } else {
                Declares::Nothing
            }
        }
        TypeStatement::Interface(interface) => other_where(interface.id.string == name),
        TypeStatement::Ty(ty) => other_where(ty.id().string == name),
    }
}

/// What a statement declares under a name.
fn statement_declares(statement: &Statement<'_>, name: &str) -> Declares
    ensures { result ≡ declared_by (view_statement statement.now) name.now }
{
    match statement {
        Statement::Ty(ty) => type_declares(ty, name),
        Statement::Import(_) | Statement::Let(_) | Statement::Export(_) => Declares::Nothing,
    }
}

/// What the statements of a document declare under a name.
fn document_declares(document: &Document<'_>, name: &str) -> Declares
    ensures { result ≡ declared_in (view_document document.now) name.now }
{
    for statement in &document.statements {
        match statement_declares(statement, name) {
            Declares::Nothing => {}
            found => return found,
        }
    }
    Declares::Nothing
}

/// Documents that declare types.
pub trait DeclareDocument: Sized {
    ghost stated: { Self → Tree };

    /// What the document declares under a name.
    fn declares(&self, name: &str) -> Declares
        ensures { result ≡ declared_in (stated self.now) name.now };
}

impl<'s> DeclareDocument for Document<'s> {
    ghost stated = { view_document };

    fn declares(&self, name: &str) -> Declares {
        document_declares(self, name)
    }
}

/// The type that a node defines.
fn defined_type(node: &Node) -> Option<Type>
    ensures some { IfSome result (DefinesType node.now) }
    ensures none { result ≡ None → (t : TypeKind) → DefinesType node.now t → ⊥ }
{
    match node.item_kind() {
        ItemKind::Ty(ty) => match node.kind() {
            NodeKind::Definition => Some(ty),
            _ => None,
        },
        _ => None,
    }
}

/// The world that a definition of this name has in a graph.
fn defined_world(graph: &CompositionGraph, name: &str) -> Option<WorldId>
    ensures some { IfSome result (IsDefined graph.now name.now) }
    ensures none { result ≡ None → (w : WorldId) → IsDefined graph.now name.now w → ⊥ }
{
    graph.see_sound();
    let node = graph.get_export(name)?;
    if !graph.contains_node(node) {
        return None;
    }
    match defined_type(&graph[node])? {
        Type::World(id) => Some(id),
        _ => None,
    }
}

/// The world that a document declares under a name, in its graph's collection.
pub fn world_in(
    graph: &CompositionGraph,
    declares: Declares,
    name: &str,
) -> Result<WorldId, DeclaredWorldError>
    ensures defined { IfOk result (IsDefined graph.now name.now) }
    ensures declared { OnOk result (declares ≡ Declares.World) }
    ensures refused { IfErr result (IsNotGiven graph.now declares name.now) }
{
    match declares {
        Declares::Nothing => Err(DeclaredWorldError::NotDeclared),
        Declares::Other => Err(DeclaredWorldError::NotWorld),
        Declares::World => match defined_world(graph, name) {
            Some(id) => Ok(id),
            None => Err(DeclaredWorldError::NotDeclared),
        },
    }
}

/// The world of a graph that a document declares under a name, copied into a collection of this number.
fn copied_world(
    alloc: Global,
    graph: &CompositionGraph,
    declares: Declares,
    name: &str,
    number: u64,
) -> Result<(Types, WorldId), DeclaredWorldError>
    ensures world { IfOk result (λ r. IsDeclared graph.now name.now number r.0 r.1) }
    ensures declared { OnOk result (declares ≡ Declares.World) }
    ensures refused { IfErr result (RefusesWorld graph.now declares name.now) }
{
    let world = world_in(graph, declares, name)?;
    let mut types = Types::new(alloc, number);
    let mut adding = types.adding();
    let world = copy_world(alloc, graph.types(), world, &mut adding)?;
    Ok((types, world))
}

/// The world that a document declares under a name, copied into a collection of this number, which is not that of the
/// document's graph.
pub fn declared_world<'d, D: DeclareDocument>(
    alloc: Global,
    resolution: &Resolved<'d, D>,
    name: &str,
    number: u64,
) -> Result<(Types, WorldId), DeclaredWorldError>
    ensures world { IfOk result (λ r. IsDeclared (graph_of resolution.now) name.now number r.0 r.1) }
    ensures declared { OnOk result (declared_in (D.stated (document_of resolution.now)) name.now ≡ Declares.World) }
    ensures refused { IfErr result
        (RefusesWorld (graph_of resolution.now) (declared_in (D.stated (document_of resolution.now)) name.now) name.now) }
{
    let declares = resolution.document().declares(name);
    copied_world(alloc, resolution.graph(), declares, name, number)
}
