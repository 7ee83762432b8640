//! Statements.

ghost use Rattle.std.specs.Prelude.{map};
ghost use Rattle.wac_parser_tree.specs.Views.{view_export_options, view_export_statement, view_import_statement, view_import_type, view_let_statement, view_statement, view_type_statement};
ghost use Rattle.wac_parser_print.specs.Objects.{array_of};
ghost use Rattle.wac_parser_print.specs.Values as values;
ghost use Rattle.wac_parser_json.specs.Writers.{Writes};

use crate::declarations::type_decl;
use crate::exprs::expr;
use crate::interfaces::{inline_interface, interface_decl};
use crate::names::{extern_name, ident, package_path, span};
use crate::parts::{array, object, optional};
use crate::types::func_type;
use crate::worlds::world_decl;
use crate::writer::JsonWriter;
use wac_parser_tree::{
    ExportOptions, ExportStatement, ImportStatement, ImportType, LetStatement, Statement,
    TypeStatement,
};
use wac_streams::ByteSink;

fn import_type<W: ByteSink>(ty: &ImportType<'_>, out: &mut JsonWriter<'_, W>)
    ensures { Writes W.contents W.calls out.old (values.import_type (view_import_type ty.now)) out.new }
{
    match ty {
        ImportType::Package(x) => object!(out; {"package": package_path(x, out)}),
        ImportType::Func(x) => object!(out; {"func": func_type(x, out)}),
        ImportType::Interface(x) => object!(out; {"interface": inline_interface(x, out)}),
        ImportType::Ident(x) => object!(out; {"ident": ident(x, out)}),
    }
}

fn import_statement<W: ByteSink>(statement: &ImportStatement<'_>, out: &mut JsonWriter<'_, W>)
    ensures { Writes W.contents W.calls out.old (values.import_statement (view_import_statement statement.now)) out.new }
{
    object!(out; {
        "docs": array(&statement.docs, out),
        "id": ident(&statement.id, out),
        "name": optional(&statement.name, out),
        "ty": import_type(&statement.ty, out)
    });
}

fn let_statement<W: ByteSink>(statement: &LetStatement<'_>, out: &mut JsonWriter<'_, W>)
    ensures { Writes W.contents W.calls out.old (values.let_statement (view_let_statement statement.now)) out.new }
{
    object!(out; {
        "docs": array(&statement.docs, out),
        "expr": expr(&statement.expr, out),
        "id": ident(&statement.id, out)
    });
}

fn export_options<W: ByteSink>(options: &ExportOptions<'_>, out: &mut JsonWriter<'_, W>)
    ensures { Writes W.contents W.calls out.old (values.export_options (view_export_options options.now)) out.new }
{
    match options {
        ExportOptions::None => out.word("\"none\""),
        ExportOptions::Spread(at) => object!(out; {"spread": span(*at, out)}),
        ExportOptions::Rename(name) => object!(out; {"rename": extern_name(name, out)}),
    }
}

fn export_statement<W: ByteSink>(statement: &ExportStatement<'_>, out: &mut JsonWriter<'_, W>)
    ensures { Writes W.contents W.calls out.old (values.export_statement (view_export_statement statement.now)) out.new }
{
    object!(out; {
        "docs": array(&statement.docs, out),
        "expr": expr(&statement.expr, out),
        "options": export_options(&statement.options, out)
    });
}

fn type_statement<W: ByteSink>(statement: &TypeStatement<'_>, out: &mut JsonWriter<'_, W>)
    ensures { Writes W.contents W.calls out.old (values.type_statement (view_type_statement statement.now)) out.new }
{
    match statement {
        TypeStatement::Interface(x) => object!(out; {"interface": interface_decl(x, out)}),
        TypeStatement::World(x) => object!(out; {"world": world_decl(x, out)}),
        TypeStatement::Ty(x) => object!(out; {"type": type_decl(x, out)}),
    }
}

fn statement<W: ByteSink>(statement: &Statement<'_>, out: &mut JsonWriter<'_, W>)
    ensures { Writes W.contents W.calls out.old (values.statement (view_statement statement.now)) out.new }
{
    match statement {
        Statement::Import(x) => object!(out; {"Import": import_statement(x, out)}),
        Statement::Ty(x) => object!(out; {"Type": type_statement(x, out)}),
        Statement::Let(x) => object!(out; {"Let": let_statement(x, out)}),
        Statement::Export(x) => object!(out; {"Export": export_statement(x, out)}),
    }
}

pub(crate) fn statements<W: ByteSink>(statements: &Vec<Statement<'_>>, out: &mut JsonWriter<'_, W>)
    ensures { Writes W.contents W.calls out.old (array_of values.statement (map view_statement statements.now.items)) out.new }
{
    out.word("[");
    let mut between = "";
    for item in statements {
        out.word(between);
        statement(item, out);
        between = ",";
    }
    out.word("]");
}
