//! Values of statements and documents.

ghost use Rattle.std.specs.Prelude.{◌≡◌, IfOk, map};
ghost use Rattle.std.specs.Option.{option_map};
ghost use Rattle.serde_json.specs.View.{view};
ghost use Rattle.wac_parser_tree.specs.Trees as t;
ghost use Rattle.wac_parser_tree.specs.Views.{view_document, view_export_options, view_export_statement, view_extern_name, view_import_statement};
ghost use Rattle.wac_parser_tree.specs.Views.{view_import_type, view_let_statement, view_package_directive, view_statement, view_type_statement};
ghost use Rattle.wac_parser_print.specs.Objects.{Gives, or_null};
ghost use Rattle.wac_parser_print.specs.Values as values;

use super::declarations::type_decl;
use super::exprs::expr;
use super::interfaces::{inline_interface, interface_decl};
use super::members::{Object, pair, variant};
use super::objects::{
    Valued, array, declaration, extern_name, ident, package_name, package_path, span,
};
use super::types::func_type;
use super::worlds::world_decl;
use serde_json::Value;
use std::alloc::{AllocError, Global};
use wac_parser_tree::{
    Document, ExportOptions, ExportStatement, ExternName, ImportStatement, ImportType,
    LetStatement, PackageDirective, Statement, TypeStatement,
};

#[tactic(auto, unfolding(crate::specs::Values::import_type))]
pub(crate) fn import_type(alloc: Global, ty: &ImportType<'_>) -> Result<Value, AllocError>
    ensures { IfOk result (λ v. view v ≡ values.import_type (view_import_type ty.now)) }
{
    match ty {
        ImportType::Package(x) => variant(alloc, "package", package_path(alloc, x)),
        ImportType::Func(x) => variant(alloc, "func", func_type(alloc, x)),
        ImportType::Interface(x) => variant(alloc, "interface", inline_interface(alloc, x)),
        ImportType::Ident(x) => variant(alloc, "ident", ident(alloc, x)),
    }
}

pub(crate) fn import_name(alloc: Global, name: &Option<ExternName<'_>>) -> Result<Value, AllocError>
    ensures { IfOk result (λ v. view v ≡ or_null values.extern_name (option_map view_extern_name name.now)) }
{
    match name {
        Some(name) => extern_name(alloc, name),
        None => Ok(Value::Null),
    }
}

#[tactic(auto, unfolding(crate::specs::Values::import_statement))]
pub(crate) fn import_statement(
    alloc: Global,
    statement: &ImportStatement<'_>,
) -> Result<Value, AllocError>
    ensures { IfOk result (λ v. view v ≡ values.import_statement (view_import_statement statement.now)) }
{
    let docs = array(alloc, &statement.docs);
    let id = ident(alloc, &statement.id);
    let name = import_name(alloc, &statement.name);
    let ty = import_type(alloc, &statement.ty);
    Object::new(alloc)
        .with("docs", docs)
        .with("id", id)
        .with("name", name)
        .with("ty", ty)
        .into_value()
}

#[tactic(auto, unfolding(crate::specs::Values::let_statement))]
pub(crate) fn let_statement(
    alloc: Global,
    statement: &LetStatement<'_>,
) -> Result<Value, AllocError>
    ensures { IfOk result (λ v. view v ≡ values.let_statement (view_let_statement statement.now)) }
{
    let expr = expr(alloc, &statement.expr);
    declaration(alloc, &statement.docs, &statement.id, "expr", expr)
}

#[tactic(auto, unfolding(crate::specs::Values::export_options))]
pub(crate) fn export_options(
    alloc: Global,
    options: &ExportOptions<'_>,
) -> Result<Value, AllocError>
    ensures { IfOk result (λ v. view v ≡ values.export_options (view_export_options options.now)) }
{
    match options {
        ExportOptions::None => Value::try_from_str(alloc, "none"),
        ExportOptions::Spread(x) => variant(alloc, "spread", span(alloc, *x)),
        ExportOptions::Rename(x) => variant(alloc, "rename", extern_name(alloc, x)),
    }
}

#[tactic(auto, unfolding(crate::specs::Values::export_statement))]
pub(crate) fn export_statement(
    alloc: Global,
    statement: &ExportStatement<'_>,
) -> Result<Value, AllocError>
    ensures { IfOk result (λ v. view v ≡ values.export_statement (view_export_statement statement.now)) }
{
    let docs = array(alloc, &statement.docs);
    let expr = expr(alloc, &statement.expr);
    let options = export_options(alloc, &statement.options);
    Object::new(alloc)
        .with("docs", docs)
        .with("expr", expr)
        .with("options", options)
        .into_value()
}

#[tactic(auto, unfolding(crate::specs::Values::type_statement))]
pub(crate) fn type_statement(
    alloc: Global,
    statement: &TypeStatement<'_>,
) -> Result<Value, AllocError>
    ensures { IfOk result (λ v. view v ≡ values.type_statement (view_type_statement statement.now)) }
{
    match statement {
        TypeStatement::Interface(x) => variant(alloc, "interface", interface_decl(alloc, x)),
        TypeStatement::World(x) => variant(alloc, "world", world_decl(alloc, x)),
        TypeStatement::Ty(x) => variant(alloc, "type", type_decl(alloc, x)),
    }
}

impl<'a> Valued for Statement<'a> {
    ghost Plain = { t.Statement };

    ghost plain = { view_statement };

    ghost shown = { values.statement };

    #[tactic(auto, unfolding(crate::specs::Values::statement))]
    fn value(&self, alloc: Global) -> Result<Value, AllocError>
        ensures { Gives result (values.statement (view_statement self.now)) }
    {
        match self {
            Statement::Import(x) => variant(alloc, "Import", import_statement(alloc, x)),
            Statement::Ty(x) => variant(alloc, "Type", type_statement(alloc, x)),
            Statement::Let(x) => variant(alloc, "Let", let_statement(alloc, x)),
            Statement::Export(x) => variant(alloc, "Export", export_statement(alloc, x)),
        }
    }
}

#[tactic(auto, unfolding(crate::specs::Values::package_directive))]
pub(crate) fn package_directive(
    alloc: Global,
    directive: &PackageDirective<'_>,
) -> Result<Value, AllocError>
    ensures { IfOk result (λ v. view v ≡ values.package_directive (view_package_directive directive.now)) }
{
    let package = package_name(alloc, &directive.package);
    match &directive.targets {
        Some(path) => {
            let targets = package_path(alloc, path);
            pair(alloc, "package", package, "targets", targets)
        }
        None => variant(alloc, "package", package),
    }
}

#[tactic(auto, unfolding(crate::specs::Values::document))]
pub(crate) fn document(alloc: Global, document: &Document<'_>) -> Result<Value, AllocError>
    ensures { IfOk result (λ v. view v ≡ values.document (view_document document.now)) }
{
    let docs = array(alloc, &document.docs);
    let directive = package_directive(alloc, &document.directive);
    let statements = array(alloc, &document.statements);
    Object::new(alloc)
        .with("docs", docs)
        .with("directive", directive)
        .with("statements", statements)
        .into_value()
}
