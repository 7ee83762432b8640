//! Expressions.

ghost use Rattle.std.specs.Prelude.{◌≡◌, map};
ghost use Rattle.wac_parser_print.specs.Texts.{each};
ghost use Rattle.wac_parser_print.specs.Views.{view_arguments};
ghost use Rattle.wac_parser_tree.specs.Views.{view_access_expr, view_expr, view_instantiation_argument, view_instantiation_argument_name};
ghost use Rattle.wac_parser_tree.specs.Views.{view_named_access_expr, view_new_expr, view_postfix_expr, view_primary_expr};
ghost use Rattle.wac_parser_print.specs.Printing as text;
ghost use Rattle.wac_parser_print.specs.Printers.{Adds};

use crate::printer::DocumentPrinter;
use wac_parser_tree::{
    AccessExpr, Expr, InstantiationArgument, InstantiationArgumentName, NamedAccessExpr, NewExpr,
    PostfixExpr, PrimaryExpr,
};
use wac_streams::ByteSink;

fn is_fill(argument: &InstantiationArgument<'_>) -> bool
    ensures { result ≡ text.is_fill (view_instantiation_argument argument.now) }
{
    match argument {
        InstantiationArgument::Inferred(_) => false,
        InstantiationArgument::Spread(_) => false,
        InstantiationArgument::Named(_) => false,
        InstantiationArgument::Fill(_) => true,
    }
}

/// Whether the only argument is `...`.
fn is_fill_alone(arguments: &Vec<InstantiationArgument<'_>>) -> bool
    ensures { result ≡ text.is_fill_alone (view_arguments arguments.now.items) }
{
    if arguments.len() != 1 {
        return false;
    }
    is_fill(&arguments[0])
}

impl<W: ByteSink + Drop> DocumentPrinter<'_, W> {
    pub(crate) fn add_access_expr(&mut self, access: &AccessExpr<'_>)
        ensures { Adds self.old (text.access_expr (view_access_expr access.now)) self.new }
    {
        self.word(".");
        self.slice(access.id.span);
    }

    pub(crate) fn add_named_access_expr(&mut self, access: &NamedAccessExpr<'_>)
        ensures { Adds self.old (text.named_access_expr (view_named_access_expr access.now)) self.new }
    {
        self.word("[");
        self.slice(access.string.span);
        self.word("]");
    }

    pub(crate) fn add_postfix_expr(&mut self, access: &PostfixExpr<'_>)
        ensures { Adds self.old (text.postfix_expr (view_postfix_expr access.now)) self.new }
    {
        match access {
            PostfixExpr::Access(access) => self.add_access_expr(access),
            PostfixExpr::NamedAccess(access) => self.add_named_access_expr(access),
        }
    }

    fn add_postfix_exprs(&mut self, accesses: &Vec<PostfixExpr<'_>>)
        ensures { Adds self.old (each text.postfix_expr (map view_postfix_expr accesses.now.items)) self.new }
    {
        for access in accesses {
            self.add_postfix_expr(access);
        }
    }

    fn add_argument_name(&mut self, name: &InstantiationArgumentName<'_>)
        ensures { Adds self.old (text.argument_name (view_instantiation_argument_name name.now)) self.new }
    {
        match name {
            InstantiationArgumentName::Ident(id) => self.slice(id.span),
            InstantiationArgumentName::String(string) => self.slice(string.span),
        }
    }

    #[cycle(expr)]
    pub(crate) fn add_expr(&mut self, level: usize, expr: &Expr<'_>)
        ensures { Adds self.old (text.expr level (view_expr expr.now)) self.new }
    {
        self.add_primary_expr(level, &expr.primary);
        self.add_postfix_exprs(&expr.postfix);
    }

    #[cycle(expr)]
    pub(crate) fn add_primary_expr(&mut self, level: usize, expr: &PrimaryExpr<'_>)
        ensures { Adds self.old (text.primary_expr level (view_primary_expr expr.now)) self.new }
    {
        match expr {
            PrimaryExpr::New(expr) => self.add_new_expr(level, expr),
            PrimaryExpr::Nested(nested) => {
                self.word("(");
                self.add_expr(level, &nested.inner);
                self.word(")");
            }
            PrimaryExpr::Ident(id) => self.slice(id.span),
        }
    }

    #[cycle(expr)]
    pub(crate) fn add_new_expr(&mut self, level: usize, expr: &NewExpr<'_>)
        ensures { Adds self.old (text.new_expr level (view_new_expr expr.now)) self.new }
    {
        self.word("new ");
        self.slice(expr.package.span);
        self.word(" {");
        self.add_arguments(level, &expr.arguments);
        self.word("}");
    }

    /// Adds what stands in the braces of an instantiation.
    #[cycle(expr)]
    fn add_arguments(&mut self, level: usize, arguments: &Vec<InstantiationArgument<'_>>)
        ensures { Adds self.old (text.arguments level (view_arguments arguments.now.items)) self.new }
    {
        if arguments.is_empty() {
            return;
        }
        if is_fill_alone(arguments) {
            self.word(" ... ");
            return;
        }
        self.line_end();
        self.add_argument_lines(level.saturating_add(1), arguments);
        self.indent(level);
    }

    /// Adds a line for each argument.
    #[cycle(expr)]
    fn add_argument_lines(&mut self, level: usize, arguments: &Vec<InstantiationArgument<'_>>)
        ensures { Adds self.old (text.argument_lines level (view_arguments arguments.now.items)) self.new }
    {
        for argument in arguments {
            self.indent(level);
            self.add_argument(level, argument);
            self.line_end();
        }
    }

    #[cycle(expr)]
    fn add_argument(&mut self, level: usize, argument: &InstantiationArgument<'_>)
        ensures { Adds self.old (text.argument level (view_instantiation_argument argument.now)) self.new }
    {
        match argument {
            InstantiationArgument::Inferred(id) => {
                self.slice(id.span);
                self.word(",");
            }
            InstantiationArgument::Spread(id) => {
                self.word("...");
                self.slice(id.span);
                self.word(",");
            }
            InstantiationArgument::Named(argument) => {
                self.add_argument_name(&argument.name);
                self.word(": ");
                self.add_expr(level, &argument.expr);
                self.word(",");
            }
            InstantiationArgument::Fill(_) => self.word("..."),
        }
    }
}
