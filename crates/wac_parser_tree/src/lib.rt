//! The trees of a document, with the place of each part in its source.
#![tactic(auto)]

mod declaration;
mod document;
mod export;
mod expr;
mod import;
mod interface;
mod let_statement;
mod lists;
mod segments;
mod text;
mod value_type;
mod world;

pub use declaration::{
    Constructor, EnumCase, EnumDecl, Field, Flag, FlagsDecl, ItemTypeDecl, Method, RecordDecl,
    ResourceDecl, ResourceMethod, TypeAlias, TypeAliasKind, TypeDecl, VariantCase, VariantDecl,
};
pub use document::{Document, PackageDirective, Statement, TypeStatement};
pub use export::{ExportOptions, ExportStatement};
pub use expr::{
    AccessExpr, Expr, InstantiationArgument, InstantiationArgumentName, NamedAccessExpr,
    NamedInstantiationArgument, NestedExpr, NewExpr, PostfixExpr, PrimaryExpr,
};
pub use import::{ExternName, ImportStatement, ImportType, PackageName, PackagePath};
pub use interface::{
    InlineInterface, InterfaceDecl, InterfaceExport, InterfaceItem, Use, UseItem, UsePath,
};
pub use let_statement::LetStatement;
pub use segments::SegmentSpans;
pub use text::{DocComment, Ident, String};
pub use value_type::{FuncType, FuncTypeRef, NamedType, ResultList, Type};
pub use world::{
    ExternType, NamedWorldItem, WorldDecl, WorldExport, WorldImport, WorldInclude,
    WorldIncludeItem, WorldItem, WorldItemPath, WorldRef,
};
