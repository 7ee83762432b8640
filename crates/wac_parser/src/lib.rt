//! The language: tokens, trees, parsers, printing: the public crate over its parts.
#![tactic(auto)]

mod plain;

pub use wac_parser_lexer as lexer;
pub use wac_parser_print::{ByteSink, DocumentPrinter, DocumentValue, PrintError};
pub use wac_parser_read::{
    DeclaredType, Error, Lookahead, MAX_LEVELS, MemberKind, Parse, ParseDocument, ParseResult,
    Peek, parse_delimited, parse_optional, parse_optional_payload, parse_token,
};
pub use wac_parser_tree::{
    AccessExpr, Constructor, DocComment, Document, EnumCase, EnumDecl, ExportOptions,
    ExportStatement, Expr, ExternName, ExternType, Field, Flag, FlagsDecl, FuncType, FuncTypeRef,
    Ident, ImportStatement, ImportType, InlineInterface, InstantiationArgument,
    InstantiationArgumentName, InterfaceDecl, InterfaceExport, InterfaceItem, ItemTypeDecl,
    LetStatement, Method, NamedAccessExpr, NamedInstantiationArgument, NamedType, NamedWorldItem,
    NestedExpr, NewExpr, PackageDirective, PackageName, PackagePath, PostfixExpr, PrimaryExpr,
    RecordDecl, ResourceDecl, ResourceMethod, ResultList, SegmentSpans, Statement, String, Type,
    TypeAlias, TypeAliasKind, TypeDecl, TypeStatement, Use, UseItem, UsePath, VariantCase,
    VariantDecl, WorldDecl, WorldExport, WorldImport, WorldInclude, WorldIncludeItem, WorldItem,
    WorldItemPath, WorldRef,
};

/// The types that declarations state, and the refusals.
pub mod declare {
    pub use wac_parser_declare::{
        AS_HELP, Binding, Context, Error, GrowingTypes, InstanceOperation, Outcome, PackagedTypes,
        Refusal, ResolutionResult, WITH_HELP, bind, duplicate_name, func_type, func_type_ref,
        inline_interface, interface_at, meaning, not_world, package_path, type_statement,
        undefined_name, unknown_package, unwritable, value_type, world_at,
    };
    pub use wac_parser_resolve::{GraphTypes, PackageRef, Packages};
}

/// Documents, the graphs that they build, and their bytes.
pub mod resolution {
    pub use wac_parser_encode::{EncodeOptions, EncodeResolution, Encoded, Processor};
    pub use wac_parser_resolve::{
        AstResolver, Error, InstanceOperation, PackageRef, Packages, Resolution, ResolutionResult,
        ResolveDocument,
    };
}

/// What holds of all sources, documents and texts.
pub mod laws {
    pub use crate::plain::plain_faults_leave_no_tree;
    pub use wac_parser_grammar::{
        deep_faults_are_deep, document_faults_stand, documents_are_read, documents_are_their_forms,
        documents_have_forms, faults_stand, forms_are_taken, no_track_is_refused,
        parsed_paths_stand, rules_are_exact, rules_have_forms, rules_take_what_fits,
        trees_are_begun,
    };
    pub use wac_parser_lexer::{
        items_in_order, longest_token, only_longest_token, pieces_of_sources,
        unexpected_is_one_character,
    };
    pub use wac_parser_print::examples as printed_examples;
    pub use wac_parser_read::{
        list_faults_stand, lists_are_exact, optional_faults_stand, optionals_are_exact,
    };
    pub use wac_parser_resolve::{
        askers_have_places, choices_are_greatest, documents_are_wired, documents_mean_their_trees,
        examples as ascribed_examples, packages_are_known, packages_stay, refusals_stand,
        stated_types_are_proper, wirings_are_ordered,
    };
}
