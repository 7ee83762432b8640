//! What a printer prints.

ghost use Rattle.std.specs.Prelude.{map};
ghost use Rattle.wac_parser_tree.specs.Views.{view_access_expr, view_constructor, view_doc_comment, view_document, view_enum_decl, view_export_statement, view_expr};
ghost use Rattle.wac_parser_tree.specs.Views.{view_extern_type, view_flags_decl, view_func_type, view_func_type_ref, view_import_statement, view_import_type, view_inline_interface};
ghost use Rattle.wac_parser_tree.specs.Views.{view_interface_decl, view_interface_export, view_interface_item, view_item_type_decl, view_let_statement, view_method, view_named_access_expr};
ghost use Rattle.wac_parser_tree.specs.Views.{view_named_world_item, view_new_expr, view_package_directive, view_package_path, view_postfix_expr, view_primary_expr, view_record_decl};
ghost use Rattle.wac_parser_tree.specs.Views.{view_resource_decl, view_resource_method, view_statement, view_ty, view_type_alias, view_type_decl, view_type_statement};
ghost use Rattle.wac_parser_tree.specs.Views.{view_use, view_use_path, view_variant_case, view_variant_decl, view_world_decl, view_world_export, view_world_import};
ghost use Rattle.wac_parser_tree.specs.Views.{view_world_include, view_world_item, view_world_item_path, view_world_ref};
ghost use Rattle.wac_parser_print.specs.Printing as text;
ghost use Rattle.wac_parser_print.specs.Printers.{Prints};

use crate::error::PrintError;
use crate::printer::DocumentPrinter;
use wac_parser_tree::{
    AccessExpr, Constructor, DocComment, Document, EnumDecl, ExportStatement, Expr, ExternType,
    FlagsDecl, FuncType, FuncTypeRef, ImportStatement, ImportType, InlineInterface, InterfaceDecl,
    InterfaceExport, InterfaceItem, ItemTypeDecl, LetStatement, Method, NamedAccessExpr,
    NamedWorldItem, NewExpr, PackageDirective, PackagePath, PostfixExpr, PrimaryExpr, RecordDecl,
    ResourceDecl, ResourceMethod, Statement, Type, TypeAlias, TypeDecl, TypeStatement, Use,
    UsePath, VariantCase, VariantDecl, WorldDecl, WorldExport, WorldImport, WorldInclude,
    WorldItem, WorldItemPath, WorldRef,
};
use wac_streams::ByteSink;

impl<W: ByteSink + Drop> DocumentPrinter<'_, W> {
    /// Prints a document: its doc comments, its directive, an empty line, and its statements with an empty
    /// line between each two. Each ends with a line feed.
    pub fn document(&mut self, document: &Document<'_>) -> Result<(), PrintError>
        ensures { Prints self.old (text.document (view_document document.now)) result self.new }
    {
        let had_failed = self.has_failed();
        self.add_document(document);
        self.outcome(had_failed)
    }

    /// Prints `package NAME;` or `package NAME targets PATH;`, and the empty line behind it.
    pub fn package_directive(&mut self, directive: &PackageDirective<'_>) -> Result<(), PrintError>
        ensures { Prints self.old (text.package_directive 0 (view_package_directive directive.now)) result self.new }
    {
        let had_failed = self.has_failed();
        self.add_package_directive(0, directive);
        self.outcome(had_failed)
    }

    /// Prints a statement, without a line feed behind it.
    pub fn statement(&mut self, statement: &Statement<'_>) -> Result<(), PrintError>
        ensures { Prints self.old (text.statement 0 (view_statement statement.now)) result self.new }
    {
        let had_failed = self.has_failed();
        self.add_statement(0, statement);
        self.outcome(had_failed)
    }

    /// Prints doc comments: for each line of each, `/// `, the line without the white space around it, and
    /// a line feed.
    pub fn docs(&mut self, docs: &[DocComment<'_>]) -> Result<(), PrintError>
        ensures { Prints self.old (text.docs 0 (map view_doc_comment docs.now)) result self.new }
    {
        let had_failed = self.has_failed();
        self.add_docs(0, docs);
        self.outcome(had_failed)
    }

    /// Prints `import ID: TYPE;` or `import ID as NAME: TYPE;` behind its doc comments.
    pub fn import_statement(&mut self, statement: &ImportStatement<'_>) -> Result<(), PrintError>
        ensures { Prints self.old (text.import_statement 0 (view_import_statement statement.now)) result self.new }
    {
        let had_failed = self.has_failed();
        self.add_import_statement(0, statement);
        self.outcome(had_failed)
    }

    /// Prints the type of an import: a path, a function, `interface { .. }` or a name.
    pub fn import_type(&mut self, ty: &ImportType<'_>) -> Result<(), PrintError>
        ensures { Prints self.old (text.import_type 0 (view_import_type ty.now)) result self.new }
    {
        let had_failed = self.has_failed();
        self.add_import_type(0, ty);
        self.outcome(had_failed)
    }

    /// Prints a path to an item of a package, with its version.
    pub fn package_path(&mut self, path: &PackagePath<'_>) -> Result<(), PrintError>
        ensures { Prints self.old (text.package_path (view_package_path path.now)) result self.new }
    {
        let had_failed = self.has_failed();
        self.slice(path.span);
        self.outcome(had_failed)
    }

    /// Prints `func(NAME: TYPE, ..)`, with `async ` before it and ` -> TYPE` behind it where it has them.
    pub fn func_type(&mut self, ty: &FuncType<'_>) -> Result<(), PrintError>
        ensures { Prints self.old (text.func_type (view_func_type ty.now)) result self.new }
    {
        let had_failed = self.has_failed();
        self.add_func_type(ty);
        self.outcome(had_failed)
    }

    /// Prints the type of a value, as `list<u8>`; `result<T, _>` is `result<T>`.
    pub fn ty(&mut self, ty: &Type<'_>) -> Result<(), PrintError>
        ensures { Prints self.old (text.ty (view_ty ty.now)) result self.new }
    {
        let had_failed = self.has_failed();
        self.add_ty(ty);
        self.outcome(had_failed)
    }

    /// Prints `interface { .. }`, with a line or more for each item and an empty line between each two.
    pub fn inline_interface(&mut self, interface: &InlineInterface<'_>) -> Result<(), PrintError>
        ensures { Prints self.old (text.inline_interface 0 (view_inline_interface interface.now)) result self.new }
    {
        let had_failed = self.has_failed();
        self.add_inline_interface(0, interface);
        self.outcome(had_failed)
    }

    /// Prints an item of an interface: a `use`, a declared type or an export.
    pub fn interface_item(&mut self, item: &InterfaceItem<'_>) -> Result<(), PrintError>
        ensures { Prints self.old (text.interface_item 0 (view_interface_item item.now)) result self.new }
    {
        let had_failed = self.has_failed();
        self.add_interface_item(0, item);
        self.outcome(had_failed)
    }

    /// Prints `use PATH.{ ID, ID as ID };` behind its doc comments.
    pub fn use_type(&mut self, item: &Use<'_>) -> Result<(), PrintError>
        ensures { Prints self.old (text.use_type 0 (view_use item.now)) result self.new }
    {
        let had_failed = self.has_failed();
        self.add_use_type(0, item);
        self.outcome(had_failed)
    }

    /// Prints the path of a `use`, or its name.
    pub fn use_path(&mut self, path: &UsePath<'_>) -> Result<(), PrintError>
        ensures { Prints self.old (text.use_path (view_use_path path.now)) result self.new }
    {
        let had_failed = self.has_failed();
        self.add_use_path(path);
        self.outcome(had_failed)
    }

    /// Prints a type that is declared in an interface or a world.
    pub fn item_type_decl(&mut self, decl: &ItemTypeDecl<'_>) -> Result<(), PrintError>
        ensures { Prints self.old (text.item_type_decl 0 (view_item_type_decl decl.now)) result self.new }
    {
        let had_failed = self.has_failed();
        self.add_item_type_decl(0, decl);
        self.outcome(had_failed)
    }

    /// Prints `resource ID { .. }` behind its doc comments, with an empty line between each two methods and
    /// a body also where there are none.
    pub fn resource_decl(&mut self, decl: &ResourceDecl<'_>) -> Result<(), PrintError>
        ensures { Prints self.old (text.resource_decl 0 (view_resource_decl decl.now)) result self.new }
    {
        let had_failed = self.has_failed();
        self.add_resource_decl(0, decl);
        self.outcome(had_failed)
    }

    /// Prints a constructor or a method of a resource.
    pub fn resource_method(&mut self, method: &ResourceMethod<'_>) -> Result<(), PrintError>
        ensures { Prints self.old (text.resource_method 0 (view_resource_method method.now)) result self.new }
    {
        let had_failed = self.has_failed();
        self.add_resource_method(0, method);
        self.outcome(had_failed)
    }

    /// Prints `constructor(NAME: TYPE, ..);` behind its doc comments.
    pub fn constructor(&mut self, constructor: &Constructor<'_>) -> Result<(), PrintError>
        ensures { Prints self.old (text.constructor 0 (view_constructor constructor.now)) result self.new }
    {
        let had_failed = self.has_failed();
        self.add_constructor(0, constructor);
        self.outcome(had_failed)
    }

    /// Prints `ID: FUNCTION;` or `ID: static FUNCTION;` behind its doc comments.
    pub fn method(&mut self, method: &Method<'_>) -> Result<(), PrintError>
        ensures { Prints self.old (text.method 0 (view_method method.now)) result self.new }
    {
        let had_failed = self.has_failed();
        self.add_method(0, method);
        self.outcome(had_failed)
    }

    /// Prints the type of a function, or its name.
    pub fn func_type_ref(&mut self, ty: &FuncTypeRef<'_>) -> Result<(), PrintError>
        ensures { Prints self.old (text.func_type_ref (view_func_type_ref ty.now)) result self.new }
    {
        let had_failed = self.has_failed();
        self.add_func_type_ref(ty);
        self.outcome(had_failed)
    }

    /// Prints `variant ID { .. }` behind its doc comments, a line for each case.
    pub fn variant_decl(&mut self, decl: &VariantDecl<'_>) -> Result<(), PrintError>
        ensures { Prints self.old (text.variant_decl 0 (view_variant_decl decl.now)) result self.new }
    {
        let had_failed = self.has_failed();
        self.add_variant_decl(0, decl);
        self.outcome(had_failed)
    }

    /// Prints `ID` or `ID(TYPE)` behind its doc comments, without the comma behind it.
    pub fn variant_case(&mut self, case: &VariantCase<'_>) -> Result<(), PrintError>
        ensures { Prints self.old (text.variant_case 0 (view_variant_case case.now)) result self.new }
    {
        let had_failed = self.has_failed();
        self.add_variant_case(0, case);
        self.outcome(had_failed)
    }

    /// Prints `record ID { .. }` behind its doc comments, a line for each field.
    pub fn record_decl(&mut self, decl: &RecordDecl<'_>) -> Result<(), PrintError>
        ensures { Prints self.old (text.record_decl 0 (view_record_decl decl.now)) result self.new }
    {
        let had_failed = self.has_failed();
        self.add_record_decl(0, decl);
        self.outcome(had_failed)
    }

    /// Prints `flags ID { .. }` behind its doc comments, a line for each flag.
    pub fn flags_decl(&mut self, decl: &FlagsDecl<'_>) -> Result<(), PrintError>
        ensures { Prints self.old (text.flags_decl 0 (view_flags_decl decl.now)) result self.new }
    {
        let had_failed = self.has_failed();
        self.add_flags_decl(0, decl);
        self.outcome(had_failed)
    }

    /// Prints `enum ID { .. }` behind its doc comments, a line for each case.
    pub fn enum_decl(&mut self, decl: &EnumDecl<'_>) -> Result<(), PrintError>
        ensures { Prints self.old (text.enum_decl 0 (view_enum_decl decl.now)) result self.new }
    {
        let had_failed = self.has_failed();
        self.add_enum_decl(0, decl);
        self.outcome(had_failed)
    }

    /// Prints `type ID = TYPE;` behind its doc comments.
    pub fn type_alias(&mut self, alias: &TypeAlias<'_>) -> Result<(), PrintError>
        ensures { Prints self.old (text.type_alias 0 (view_type_alias alias.now)) result self.new }
    {
        let had_failed = self.has_failed();
        self.add_type_alias(0, alias);
        self.outcome(had_failed)
    }

    /// Prints `ID: FUNCTION;` behind its doc comments.
    pub fn interface_export(&mut self, export: &InterfaceExport<'_>) -> Result<(), PrintError>
        ensures { Prints self.old (text.interface_export 0 (view_interface_export export.now)) result self.new }
    {
        let had_failed = self.has_failed();
        self.add_interface_export(0, export);
        self.outcome(had_failed)
    }

    /// Prints a statement that declares an interface, a world or a type.
    pub fn type_statement(&mut self, statement: &TypeStatement<'_>) -> Result<(), PrintError>
        ensures { Prints self.old (text.type_statement 0 (view_type_statement statement.now)) result self.new }
    {
        let had_failed = self.has_failed();
        self.add_type_statement(0, statement);
        self.outcome(had_failed)
    }

    /// Prints `interface ID { .. }` behind its doc comments, with an empty line between each two items.
    pub fn interface_decl(&mut self, decl: &InterfaceDecl<'_>) -> Result<(), PrintError>
        ensures { Prints self.old (text.interface_decl 0 (view_interface_decl decl.now)) result self.new }
    {
        let had_failed = self.has_failed();
        self.add_interface_decl(0, decl);
        self.outcome(had_failed)
    }

    /// Prints `world ID { .. }` behind its doc comments, with an empty line between each two items.
    pub fn world_decl(&mut self, decl: &WorldDecl<'_>) -> Result<(), PrintError>
        ensures { Prints self.old (text.world_decl 0 (view_world_decl decl.now)) result self.new }
    {
        let had_failed = self.has_failed();
        self.add_world_decl(0, decl);
        self.outcome(had_failed)
    }

    /// Prints an item of a world: a `use`, a declared type, an import, an export or an `include`.
    pub fn world_item(&mut self, item: &WorldItem<'_>) -> Result<(), PrintError>
        ensures { Prints self.old (text.world_item 0 (view_world_item item.now)) result self.new }
    {
        let had_failed = self.has_failed();
        self.add_world_item(0, item);
        self.outcome(had_failed)
    }

    /// Prints `import ITEM;` behind its doc comments.
    pub fn world_import(&mut self, import: &WorldImport<'_>) -> Result<(), PrintError>
        ensures { Prints self.old (text.world_import 0 (view_world_import import.now)) result self.new }
    {
        let had_failed = self.has_failed();
        self.add_world_import(0, import);
        self.outcome(had_failed)
    }

    /// Prints `export ITEM;` behind its doc comments.
    pub fn world_export(&mut self, export: &WorldExport<'_>) -> Result<(), PrintError>
        ensures { Prints self.old (text.world_export 0 (view_world_export export.now)) result self.new }
    {
        let had_failed = self.has_failed();
        self.add_world_export(0, export);
        self.outcome(had_failed)
    }

    /// Prints what a world imports or exports: `ID: TYPE`, a path or a name.
    pub fn world_item_path(&mut self, path: &WorldItemPath<'_>) -> Result<(), PrintError>
        ensures { Prints self.old (text.world_item_path 0 (view_world_item_path path.now)) result self.new }
    {
        let had_failed = self.has_failed();
        self.add_world_item_path(0, path);
        self.outcome(had_failed)
    }

    /// Prints `ID: TYPE`.
    pub fn named_world_item(&mut self, item: &NamedWorldItem<'_>) -> Result<(), PrintError>
        ensures { Prints self.old (text.named_world_item 0 (view_named_world_item item.now)) result self.new }
    {
        let had_failed = self.has_failed();
        self.add_named_world_item(0, item);
        self.outcome(had_failed)
    }

    /// Prints the type of a world's item: a name, a function or `interface { .. }`.
    pub fn extern_type(&mut self, ty: &ExternType<'_>) -> Result<(), PrintError>
        ensures { Prints self.old (text.extern_type 0 (view_extern_type ty.now)) result self.new }
    {
        let had_failed = self.has_failed();
        self.add_extern_type(0, ty);
        self.outcome(had_failed)
    }

    /// Prints `include WORLD;` behind its doc comments, or `include WORLD with { .. };` with a line
    /// `ID as ID,` for each name that changes.
    pub fn world_include(&mut self, include: &WorldInclude<'_>) -> Result<(), PrintError>
        ensures { Prints self.old (text.world_include 0 (view_world_include include.now)) result self.new }
    {
        let had_failed = self.has_failed();
        self.add_world_include(0, include);
        self.outcome(had_failed)
    }

    /// Prints the name of a world, or its path.
    pub fn world_ref(&mut self, world: &WorldRef<'_>) -> Result<(), PrintError>
        ensures { Prints self.old (text.world_ref (view_world_ref world.now)) result self.new }
    {
        let had_failed = self.has_failed();
        self.add_world_ref(world);
        self.outcome(had_failed)
    }

    /// Prints a type that is declared in a document.
    pub fn type_decl(&mut self, decl: &TypeDecl<'_>) -> Result<(), PrintError>
        ensures { Prints self.old (text.type_decl 0 (view_type_decl decl.now)) result self.new }
    {
        let had_failed = self.has_failed();
        self.add_type_decl(0, decl);
        self.outcome(had_failed)
    }

    /// Prints `let ID = EXPRESSION;` behind its doc comments.
    pub fn let_statement(&mut self, statement: &LetStatement<'_>) -> Result<(), PrintError>
        ensures { Prints self.old (text.let_statement 0 (view_let_statement statement.now)) result self.new }
    {
        let had_failed = self.has_failed();
        self.add_let_statement(0, statement);
        self.outcome(had_failed)
    }

    /// Prints an expression, with its accesses.
    pub fn expr(&mut self, expr: &Expr<'_>) -> Result<(), PrintError>
        ensures { Prints self.old (text.expr 0 (view_expr expr.now)) result self.new }
    {
        let had_failed = self.has_failed();
        self.add_expr(0, expr);
        self.outcome(had_failed)
    }

    /// Prints an expression without accesses: an instantiation, `(EXPRESSION)` or a name.
    pub fn primary_expr(&mut self, expr: &PrimaryExpr<'_>) -> Result<(), PrintError>
        ensures { Prints self.old (text.primary_expr 0 (view_primary_expr expr.now)) result self.new }
    {
        let had_failed = self.has_failed();
        self.add_primary_expr(0, expr);
        self.outcome(had_failed)
    }

    /// Prints `new NAME {}`, `new NAME { ... }`, or `new NAME { .. }` with a line for each argument.
    pub fn new_expr(&mut self, expr: &NewExpr<'_>) -> Result<(), PrintError>
        ensures { Prints self.old (text.new_expr 0 (view_new_expr expr.now)) result self.new }
    {
        let had_failed = self.has_failed();
        self.add_new_expr(0, expr);
        self.outcome(had_failed)
    }

    /// Prints an access: `.ID` or `["NAME"]`.
    pub fn postfix_expr(&mut self, access: &PostfixExpr<'_>) -> Result<(), PrintError>
        ensures { Prints self.old (text.postfix_expr (view_postfix_expr access.now)) result self.new }
    {
        let had_failed = self.has_failed();
        self.add_postfix_expr(access);
        self.outcome(had_failed)
    }

    /// Prints `.ID`.
    pub fn access_expr(&mut self, access: &AccessExpr<'_>) -> Result<(), PrintError>
        ensures { Prints self.old (text.access_expr (view_access_expr access.now)) result self.new }
    {
        let had_failed = self.has_failed();
        self.add_access_expr(access);
        self.outcome(had_failed)
    }

    /// Prints `["NAME"]`.
    pub fn named_access_expr(&mut self, access: &NamedAccessExpr<'_>) -> Result<(), PrintError>
        ensures { Prints self.old (text.named_access_expr (view_named_access_expr access.now)) result self.new }
    {
        let had_failed = self.has_failed();
        self.add_named_access_expr(access);
        self.outcome(had_failed)
    }

    /// Prints `export EXPRESSION;` behind its doc comments, with `...` or ` as NAME` before the semicolon.
    pub fn export_statement(&mut self, statement: &ExportStatement<'_>) -> Result<(), PrintError>
        ensures { Prints self.old (text.export_statement 0 (view_export_statement statement.now)) result self.new }
    {
        let had_failed = self.has_failed();
        self.add_export_statement(0, statement);
        self.outcome(had_failed)
    }
}
