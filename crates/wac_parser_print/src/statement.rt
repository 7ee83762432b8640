//! Statements.

ghost use Rattle.std.specs.Option.{option_map};
ghost use Rattle.wac_parser_tree.specs.Views.{view_export_options, view_export_statement, view_extern_name, view_import_statement};
ghost use Rattle.wac_parser_tree.specs.Views.{view_import_type, view_let_statement, view_statement, view_type_statement};
ghost use Rattle.wac_parser_print.specs.Printing as text;
ghost use Rattle.wac_parser_print.specs.Printers.{Adds};

use crate::printer::DocumentPrinter;
use wac_parser_tree::{
    ExportOptions, ExportStatement, ExternName, ImportStatement, ImportType, LetStatement,
    Statement, TypeStatement,
};
use wac_streams::ByteSink;

impl<W: ByteSink + Drop> DocumentPrinter<'_, W> {
    pub(crate) fn add_import_type(&mut self, level: usize, ty: &ImportType<'_>)
        ensures { Adds self.old (text.import_type level (view_import_type ty.now)) self.new }
    {
        match ty {
            ImportType::Package(path) => self.slice(path.span),
            ImportType::Func(ty) => self.add_func_type(ty),
            ImportType::Interface(interface) => self.add_inline_interface(level, interface),
            ImportType::Ident(id) => self.slice(id.span),
        }
    }

    /// Adds the name of an import, if it has one.
    fn add_import_name(&mut self, name: &Option<ExternName<'_>>)
        ensures { Adds self.old (text.import_name (option_map view_extern_name name.now)) self.new }
    {
        match name {
            Some(name) => {
                self.word(" as ");
                self.add_extern_name(name);
            }
            None => {}
        }
    }

    pub(crate) fn add_import_statement(&mut self, level: usize, statement: &ImportStatement<'_>)
        ensures { Adds self.old (text.import_statement level (view_import_statement statement.now)) self.new }
    {
        self.begin(level, &statement.docs);
        self.word("import ");
        self.slice(statement.id.span);
        self.add_import_name(&statement.name);
        self.word(": ");
        self.add_import_type(level, &statement.ty);
        self.word(";");
    }

    pub(crate) fn add_let_statement(&mut self, level: usize, statement: &LetStatement<'_>)
        ensures { Adds self.old (text.let_statement level (view_let_statement statement.now)) self.new }
    {
        self.begin(level, &statement.docs);
        self.word("let ");
        self.slice(statement.id.span);
        self.word(" = ");
        self.add_expr(level, &statement.expr);
        self.word(";");
    }

    fn add_export_options(&mut self, options: &ExportOptions<'_>)
        ensures { Adds self.old (text.export_options (view_export_options options.now)) self.new }
    {
        match options {
            ExportOptions::None => {}
            ExportOptions::Spread(_) => self.word("..."),
            ExportOptions::Rename(name) => {
                self.word(" as ");
                self.add_extern_name(name);
            }
        }
    }

    pub(crate) fn add_export_statement(&mut self, level: usize, statement: &ExportStatement<'_>)
        ensures { Adds self.old (text.export_statement level (view_export_statement statement.now)) self.new }
    {
        self.begin(level, &statement.docs);
        self.word("export ");
        self.add_expr(level, &statement.expr);
        self.add_export_options(&statement.options);
        self.word(";");
    }

    pub(crate) fn add_type_statement(&mut self, level: usize, statement: &TypeStatement<'_>)
        ensures { Adds self.old (text.type_statement level (view_type_statement statement.now)) self.new }
    {
        match statement {
            TypeStatement::Interface(decl) => self.add_interface_decl(level, decl),
            TypeStatement::World(decl) => self.add_world_decl(level, decl),
            TypeStatement::Ty(decl) => self.add_type_decl(level, decl),
        }
    }

    pub(crate) fn add_statement(&mut self, level: usize, statement: &Statement<'_>)
        ensures { Adds self.old (text.statement level (view_statement statement.now)) self.new }
    {
        match statement {
            Statement::Import(statement) => self.add_import_statement(level, statement),
            Statement::Ty(statement) => self.add_type_statement(level, statement),
            Statement::Let(statement) => self.add_let_statement(level, statement),
            Statement::Export(statement) => self.add_export_statement(level, statement),
        }
    }
}
