//! Statements of a document.
#![tactic(auto, using(crate::proofs::SoundGraph::growing))]

ghost use Rattle.std.specs.Option.{option_copied};
ghost use Rattle.std.specs.Prelude.{◌≡◌, IfOk, OnOk, unwrap_or};
ghost use Rattle.wac_types_base.specs.declared.item.ItemKind.{ItemKind};
ghost use Rattle.wac_types_base.specs.Collection.{Stands};
ghost use Rattle.wac_graph_core.specs.Graph.{ContainsNode};
ghost use Rattle.wac_graph_core.specs.Defining.{IsDefinable};
ghost use Rattle.wac_parser_declare.specs.Holding.{NamesStand};
ghost use Rattle.wac_parser_refusals.specs.Views.{cause_of};
ghost use Rattle.wac_parser_tree.specs.Trees as t;
ghost use Rattle.wac_parser_tree.specs.Views.{view_export_statement, view_ident, view_import_statement, view_let_statement, view_statement, view_type_statement};
ghost use Rattle.wac_parser_resolve.specs.InStatements.{AddsImport, AreStatements, IsAskedFor, IsDefinitionNamed, IsFuncSaid, IsImportName, IsImportNamed, IsInterfaceSaid};
ghost use Rattle.wac_parser_resolve.specs.InStatements.{IsItemAt, IsItemNamed, IsOfName, IsStatement, IsText, IsTypeSaid, StaysSaid, definition_cause, identifier_of, import_cause};
ghost use Rattle.wac_parser_resolve.specs.Later.{SameNumber};
ghost use Rattle.wac_parser_resolve.specs.Saying.{declared_id};
ghost use Rattle.wac_parser_resolve.specs.Standing.{IsSound};

use crate::calls::{define, import};
use crate::exports::{export_as, help};
use crate::expressions::expression;
use crate::root::Root;
use crate::spans::Spans;
use crate::state::State;
use std::alloc::Global;
use wac_graph_core::{CompositionGraph, DefineTypeError, ImportError, NodeId};
use wac_parser_declare::{
    Binding, Context, func_type, inline_interface, package_path, type_statement,
};
use wac_parser_lexer::SourceSpan;
use wac_parser_refusals::{Error, Outcome, Refusal, undefined_name};
use wac_parser_tree::{
    ExportStatement, FuncType, Ident, ImportStatement, ImportType, InlineInterface, LetStatement,
    PackageName, PackagePath, Statement, TypeStatement,
};
use wac_types_base::{ExternKind, ItemKind, NamedMap, Text, Type, Types};

/// The name of an import, and where it stands.
#[derive(Drop)]
struct ImportName {
    text: String,
    span: SourceSpan,
}

/// The identifier of an instance or a component.
fn identifier(types: &Types, kind: ItemKind) -> Option<&Text>
    requires { Stands types.now kind }
    ensures { option_copied result ≡ identifier_of types.now kind }
{
    types.see_acyclic();
    match kind {
        ItemKind::Instance(id) => types.interface(id).id.as_ref(),
        ItemKind::Component(id) => types.world(id).id.as_ref(),
        _other => None,
    }
}

/// The name that an item tells; else this one.
fn told_name<'a>(types: &'a Types, kind: ItemKind, other: &'a str) -> &'a str
    requires { Stands types.now kind }
    ensures { result.now ≡ unwrap_or (identifier_of types.now kind) other.now }
{
    match identifier(types, kind) {
        Some(id) => id.as_str(),
        None => other,
    }
}

fn import_fault(spans: &Spans, span: SourceSpan, is_helped: bool, fault: ImportError) -> Error
    ensures { cause_of result ≡ import_cause spans.now.noted.items span is_helped fault }
{
    match fault {
        ImportError::ImportAlreadyExists { name, node } => Error::DuplicateExternName {
            name,
            kind: ExternKind::Import,
            span,
            previous: spans.of_or(node, span),
            help: help(is_helped),
        },
        ImportError::InvalidImportName { name, source } => Error::InvalidExternName {
            name,
            kind: ExternKind::Import,
            span,
            source,
        },
        ImportError::Memory => Error::Memory,
    }
}

/// The identifier that a statement declares.
fn declared_id<'a>(statement: &TypeStatement<'a>) -> Ident<'a>
    ensures { view_ident result ≡ declared_id (view_type_statement statement.now) }
{
    match statement {
        TypeStatement::Interface(interface) => interface.id,
        TypeStatement::World(world) => world.id,
        TypeStatement::Ty(ty) => *ty.id(),
    }
}

/// The item of a name.
fn item_named(
    id: &Ident<'_>,
    names: &NamedMap<Binding>,
    types: &Types,
    alloc: Global,
) -> Outcome<ItemKind>
    requires { NamesStand types.now names.now }
    ensures stands { IfOk result (λ kind. Stands types.now kind) }
    ensures outcome { IsItemNamed id.now types.now names.now result }
{
    let _ = types;
    match names.get(id.string) {
        Some(binding) => Ok(binding.kind),
        None => Err(undefined_name(alloc, id.string, id.span)),
    }
}

/// A name of its own text.
fn own_name(alloc: Global, text: &str, span: SourceSpan) -> Outcome<ImportName>
    ensures { IsText text.now span result }
{
    Ok(ImportName {
        text: String::from_str(alloc, text)?,
        span,
    })
}

/// The name of an import: by `as`, else the path, else the identifier of what an ident names, else its ident.
fn import_name(
    statement: &ImportStatement<'_>,
    names: &NamedMap<Binding>,
    types: &Types,
    alloc: Global,
) -> Outcome<ImportName>
    requires { NamesStand types.now names.now }
    ensures { IsImportName statement.now types.now names.now result }
{
    let id = &statement.id;
    match (&statement.name, &statement.ty) {
        (Some(name), _) => own_name(alloc, name.as_str(), name.span()),
        (None, ImportType::Package(path)) => own_name(alloc, path.string, path.span),
        (None, ImportType::Func(_)) => own_name(alloc, id.string, id.span),
        (None, ImportType::Interface(_)) => own_name(alloc, id.string, id.span),
        (None, ImportType::Ident(ty)) => {
            let kind = item_named(ty, names, types, alloc)?;
            own_name(alloc, told_name(types, kind, id.string), id.span)
        }
    }
}

/// The item that a path names.
pub(crate) fn item_at(
    path: &PackagePath<'_>,
    own: &PackageName<'_>,
    state: &mut State<'_>,
    alloc: Global,
) -> Outcome<ItemKind>
    requires { IsSound state.old.board.types.graph state.old.names }
    ensures kind { IfOk result (λ kind. Stands state.new.board.types.graph.types kind) }
    ensures sound { IsSound state.new.board.types.graph state.new.names }
    ensures number { SameNumber state.old.board.types.graph state.new.board.types.graph }
    ensures said { StaysSaid state.old state.new }
    ensures outcome { IsItemAt path.now own.now state.old state.new result }
{
    let context = Context {
        own,
        root: &state.names,
    };
    let kind = package_path(path, alloc, context, &mut state.board.types)?;
    Ok(kind)
}

/// The interface that is written.
fn written_interface(
    interface: &InlineInterface<'_>,
    own: &PackageName<'_>,
    state: &mut State<'_>,
    alloc: Global,
) -> Outcome<ItemKind>
    requires { IsSound state.old.board.types.graph state.old.names }
    ensures kind { IfOk result (λ kind. Stands state.new.board.types.graph.types kind) }
    ensures sound { IsSound state.new.board.types.graph state.new.names }
    ensures number { SameNumber state.old.board.types.graph state.new.board.types.graph }
    ensures said { StaysSaid state.old state.new }
    ensures outcome { IsInterfaceSaid interface.now own.now state.old state.new result }
{
    let context = Context {
        own,
        root: &state.names,
    };
    let id = inline_interface(interface, alloc, context, &mut state.board.types)?;
    Ok(ItemKind::Instance(id))
}

/// The function that is written.
fn written_func(ty: &FuncType<'_>, state: &mut State<'_>, alloc: Global) -> Outcome<ItemKind>
    requires { IsSound state.old.board.types.graph state.old.names }
    ensures kind { IfOk result (λ kind. Stands state.new.board.types.graph.types kind) }
    ensures sound { IsSound state.new.board.types.graph state.new.names }
    ensures number { SameNumber state.old.board.types.graph state.new.board.types.graph }
    ensures said { StaysSaid state.old state.new }
    ensures outcome { IsFuncSaid ty.now state.old state.new result }
{
    let id = func_type(ty, alloc, &state.names, &mut state.board.types)?;
    Ok(ItemKind::Func(id))
}

/// The item that an import statement asks for.
fn asked(
    ty: &ImportType<'_>,
    own: &PackageName<'_>,
    state: &mut State<'_>,
    alloc: Global,
) -> Outcome<ItemKind>
    requires { IsSound state.old.board.types.graph state.old.names }
    ensures kind { IfOk result (λ kind. Stands state.new.board.types.graph.types kind) }
    ensures sound { IsSound state.new.board.types.graph state.new.names }
    ensures number { SameNumber state.old.board.types.graph state.new.board.types.graph }
    ensures said { StaysSaid state.old state.new }
    ensures outcome { IsAskedFor ty.now own.now state.old state.new result }
{
    match ty {
        ImportType::Package(path) => item_at(path, own, state, alloc),
        ImportType::Func(ty) => written_func(ty, state, alloc),
        ImportType::Interface(interface) => written_interface(interface, own, state, alloc),
        ImportType::Ident(id) => {
            item_named(id, &state.names, state.board.types.graph.types(), alloc)
        }
    }
}

/// An import of this name, and where it stands.
fn named_import(
    id: &Ident<'_>,
    state: &mut State<'_>,
    alloc: Global,
    node: NodeId,
    span: SourceSpan,
) -> Outcome<()>
    requires node { ContainsNode state.old.board.types.graph node }
    requires sound { IsSound state.old.board.types.graph state.old.names }
    ensures sound { OnOk result (IsSound state.new.board.types.graph state.new.names) }
    ensures number { SameNumber state.old.board.types.graph state.new.board.types.graph }
    ensures outcome { IsImportNamed id.now node span state.old state.new result }
{
    state.imports.note(node, span)?;
    state.ids.note(node, id.span)?;
    state.bind(alloc, id, node)
}

/// Adds an import under a name.
fn add_import(
    statement: &ImportStatement<'_>,
    state: &mut State<'_>,
    alloc: Global,
    name: &str,
    span: SourceSpan,
    kind: ItemKind,
) -> Outcome<()>
    requires kind { Stands state.old.board.types.graph.types kind }
    requires sound { IsSound state.old.board.types.graph state.old.names }
    ensures sound { OnOk result (IsSound state.new.board.types.graph state.new.names) }
    ensures number { SameNumber state.old.board.types.graph state.new.board.types.graph }
    ensures outcome { AddsImport statement.now name.now span kind state.old state.new result }
{
    match import(&mut state.board.types.graph, name, kind) {
        Ok(node) => named_import(&statement.id, state, alloc, node, span),
        Err(fault) => {
            let is_helped = statement.name.is_none();
            let fault = import_fault(&state.imports, span, is_helped, fault);
            Err(Refusal::named(alloc, fault))
        }
    }
}

/// An import.
fn import_statement(
    statement: &ImportStatement<'_>,
    own: &PackageName<'_>,
    state: &mut State<'_>,
    alloc: Global,
) -> Outcome<()>
    requires { IsSound state.old.board.types.graph state.old.names }
    ensures sound { OnOk result (IsSound state.new.board.types.graph state.new.names) }
    ensures number { SameNumber state.old.board.types.graph state.new.board.types.graph }
    ensures outcome { IsStatement (t.Statement.import (view_import_statement statement.now)) own.now state.old state.new result }
{
    let types = state.board.types.graph.types();
    let name = import_name(statement, &state.names, types, alloc)?;
    let item = asked(&statement.ty, own, state, alloc)?;
    state.board.types.graph.types().see_acyclic();
    let text = name.text.as_str();
    add_import(statement, state, alloc, text, name.span, item.promote())
}

/// Why there is no definition of this name.
fn definition_fault(
    id: &Ident<'_>,
    graph: &CompositionGraph,
    exports: &Spans,
    fault: DefineTypeError,
) -> Error
    requires { IsOfName fault }
    ensures { cause_of result ≡ definition_cause graph.now exports.now.noted.items (view_ident id.now) fault }
{
    match fault {
        DefineTypeError::ExportConflict { name } => {
            let export = match graph.get_export(id.string) {
                Some(node) => exports.of_or(node, id.span),
                None => id.span,
            };
            Error::DeclarationConflict {
                name,
                span: id.span,
                export,
            }
        }
        DefineTypeError::InvalidExternName { name, source } => Error::InvalidExternName {
            name,
            kind: ExternKind::Export,
            span: id.span,
            source,
        },
        DefineTypeError::TypeAlreadyDefined => unreachable!(),
        DefineTypeError::CannotDefineResource => unreachable!(),
        DefineTypeError::Memory => Error::Memory,
    }
}

/// The type that a statement declares.
fn declared(
    statement: &TypeStatement<'_>,
    own: &PackageName<'_>,
    state: &mut State<'_>,
    alloc: Global,
) -> Outcome<Type>
    requires { IsSound state.old.board.types.graph state.old.names }
    ensures ty { IfOk result (λ ty. Stands state.new.board.types.graph.types (ItemKind.Ty ty)) }
    ensures definable { IfOk result (IsDefinable state.new.board.types.graph) }
    ensures sound { IsSound state.new.board.types.graph state.new.names }
    ensures number { SameNumber state.old.board.types.graph state.new.board.types.graph }
    ensures said { StaysSaid state.old state.new }
    ensures outcome { IsTypeSaid statement.now own.now state.old state.new result }
{
    state.board.types.graph.see_sound();
    let context = Context {
        own,
        root: &state.names,
    };
    let ty = type_statement(statement, alloc, context, &mut state.board.types)?;
    Ok(ty)
}

/// A definition of this name.
fn named_definition(
    id: &Ident<'_>,
    state: &mut State<'_>,
    alloc: Global,
    node: NodeId,
) -> Outcome<()>
    requires node { ContainsNode state.old.board.types.graph node }
    requires sound { IsSound state.old.board.types.graph state.old.names }
    ensures sound { OnOk result (IsSound state.new.board.types.graph state.new.names) }
    ensures number { SameNumber state.old.board.types.graph state.new.board.types.graph }
    ensures outcome { IsDefinitionNamed id.now node state.old state.new result }
{
    state.exports.note(node, id.span)?;
    state.ids.note(node, id.span)?;
    state.bind(alloc, id, node)
}

/// A declaration.
fn declaration(
    statement: &TypeStatement<'_>,
    own: &PackageName<'_>,
    state: &mut State<'_>,
    alloc: Global,
) -> Outcome<()>
    requires { IsSound state.old.board.types.graph state.old.names }
    ensures sound { OnOk result (IsSound state.new.board.types.graph state.new.names) }
    ensures number { SameNumber state.old.board.types.graph state.new.board.types.graph }
    ensures outcome { IsStatement (t.Statement.ty (view_type_statement statement.now)) own.now state.old state.new result }
{
    let ty = declared(statement, own, state, alloc)?;
    let id = declared_id(statement);
    match define(&mut state.board.types.graph, id.string, ty) {
        Ok(node) => named_definition(&id, state, alloc, node),
        Err(fault) => {
            let graph = &state.board.types.graph;
            let fault = definition_fault(&id, graph, &state.exports, fault);
            Err(Refusal::named(alloc, fault))
        }
    }
}

/// A name for an expression.
fn let_statement(
    statement: &LetStatement<'_>,
    own: &PackageName<'_>,
    state: &mut State<'_>,
    alloc: Global,
) -> Outcome<()>
    requires { IsSound state.old.board.types.graph state.old.names }
    ensures sound { OnOk result (IsSound state.new.board.types.graph state.new.names) }
    ensures number { SameNumber state.old.board.types.graph state.new.board.types.graph }
    ensures outcome { IsStatement (t.Statement.let_ (view_let_statement statement.now)) own.now state.old state.new result }
{
    let root = Root {
        alloc,
        own: own.name,
        nodes: &state.nodes,
    };
    let node = expression(&statement.expr, root, &mut state.board)?;
    state.bind(alloc, &statement.id, node)
}

/// An export.
fn export_statement(
    statement: &ExportStatement<'_>,
    own: &PackageName<'_>,
    state: &mut State<'_>,
    alloc: Global,
) -> Outcome<()>
    requires { IsSound state.old.board.types.graph state.old.names }
    ensures sound { OnOk result (IsSound state.new.board.types.graph state.new.names) }
    ensures number { SameNumber state.old.board.types.graph state.new.board.types.graph }
    ensures outcome { IsStatement (t.Statement.export (view_export_statement statement.now)) own.now state.old state.new result }
{
    let root = Root {
        alloc,
        own: own.name,
        nodes: &state.nodes,
    };
    let node = expression(&statement.expr, root, &mut state.board)?;
    state.board.types.graph.see_sound();
    export_as(&statement.options, state, alloc, node, statement.expr.span)
}

/// Says a statement.
fn say_statement(
    statement: &Statement<'_>,
    own: &PackageName<'_>,
    state: &mut State<'_>,
    alloc: Global,
) -> Outcome<()>
    requires { IsSound state.old.board.types.graph state.old.names }
    ensures sound { OnOk result (IsSound state.new.board.types.graph state.new.names) }
    ensures number { SameNumber state.old.board.types.graph state.new.board.types.graph }
    ensures outcome { IsStatement (view_statement statement.now) own.now state.old state.new result }
{
    match statement {
        Statement::Import(statement) => import_statement(statement, own, state, alloc),
        Statement::Ty(statement) => declaration(statement, own, state, alloc),
        Statement::Let(statement) => let_statement(statement, own, state, alloc),
        Statement::Export(statement) => export_statement(statement, own, state, alloc),
    }
}

/// Says statements, in order.
pub(crate) fn say_statements(
    statements: &Vec<Statement<'_>>,
    own: &PackageName<'_>,
    state: &mut State<'_>,
    alloc: Global,
) -> Outcome<()>
    requires { IsSound state.old.board.types.graph state.old.names }
    ensures sound { OnOk result (IsSound state.new.board.types.graph state.new.names) }
    ensures number { SameNumber state.old.board.types.graph state.new.board.types.graph }
    ensures outcome { AreStatements statements.now.items own.now state.old state.new result }
{
    for statement in statements {
        say_statement(statement, own, &mut *state, alloc)?;
    }
    Ok(())
}
