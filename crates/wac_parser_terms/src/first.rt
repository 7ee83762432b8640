//! With which tokens parts of a document begin.

ghost use Rattle.std.specs.Prelude.{◌≡◌, ◌∷◌, [], List};
ghost use Rattle.wac_parser_lexer.specs.declared.token.Token.{Token};
ghost use Rattle.wac_parser_lexer.specs.declared.token.Token.TheVariants as k;
ghost use Rattle.wac_parser_grammar.specs.Ahead as ahead;
ghost use Rattle.wac_parser_grammar.specs.ValueTypes as types;
ghost use Rattle.wac_parser_grammar.specs.Expressions as expressions;
ghost use Rattle.wac_parser_grammar.specs.Declarations as declarations;
ghost use Rattle.wac_parser_grammar.specs.Worlds as worlds;
ghost use Rattle.wac_parser_grammar.specs.Documents as documents;

use crate::expr::ARGUMENT_FIRST;
use crate::function::FUNC_FIRST;
use crate::lookahead::Lookahead;
use crate::value_type::TYPE_FIRST;
use wac_parser_lexer::Token;
use wac_parser_tree::{
    AccessExpr, Constructor, EnumCase, EnumDecl, ExportStatement, ExternName, Field, Flag,
    FlagsDecl, FuncType, Ident, ImportStatement, InlineInterface, InstantiationArgument,
    InstantiationArgumentName, InterfaceDecl, InterfaceExport, InterfaceItem, ItemTypeDecl,
    LetStatement, Method, NamedAccessExpr, NamedInstantiationArgument, NamedType, NamedWorldItem,
    NestedExpr, NewExpr, PackageDirective, PackagePath, RecordDecl, ResourceDecl, ResourceMethod,
    Statement, String, Type, TypeAlias, TypeDecl, TypeStatement, Use, UseItem, UsePath,
    VariantCase, VariantDecl, WorldDecl, WorldExport, WorldImport, WorldInclude, WorldIncludeItem,
    WorldItem,
};

/// The tokens with which a declaration of a document begins.
pub const TYPE_DECL_FIRST: [Token; 5] = [
    Token::VariantKeyword,
    Token::RecordKeyword,
    Token::FlagsKeyword,
    Token::EnumKeyword,
    Token::TypeKeyword,
];

/// The tokens with which a declaration of an interface or a world begins.
pub const ITEM_TYPE_DECL_FIRST: [Token; 6] = [
    Token::ResourceKeyword,
    Token::VariantKeyword,
    Token::RecordKeyword,
    Token::FlagsKeyword,
    Token::EnumKeyword,
    Token::TypeKeyword,
];

/// The tokens with which a method begins.
pub const METHOD_FIRST: [Token; 2] = [Token::ConstructorKeyword, Token::Ident];

/// The tokens with which a path begins.
pub const PATH_FIRST: [Token; 2] = [Token::PackagePath, Token::Ident];

/// The tokens with which an item of an interface begins.
pub const INTERFACE_ITEM_FIRST: [Token; 8] = [
    Token::UseKeyword,
    Token::Ident,
    Token::ResourceKeyword,
    Token::VariantKeyword,
    Token::RecordKeyword,
    Token::FlagsKeyword,
    Token::EnumKeyword,
    Token::TypeKeyword,
];

/// The tokens with which an item of a world begins.
pub const WORLD_ITEM_FIRST: [Token; 10] = [
    Token::UseKeyword,
    Token::ImportKeyword,
    Token::ExportKeyword,
    Token::IncludeKeyword,
    Token::ResourceKeyword,
    Token::VariantKeyword,
    Token::RecordKeyword,
    Token::FlagsKeyword,
    Token::EnumKeyword,
    Token::TypeKeyword,
];

/// The tokens with which a name begins that may be a string.
pub const NAME_FIRST: [Token; 2] = [Token::Ident, Token::String];

/// The tokens with which a declaration begins.
pub const TYPE_STATEMENT_FIRST: [Token; 7] = [
    Token::InterfaceKeyword,
    Token::WorldKeyword,
    Token::VariantKeyword,
    Token::RecordKeyword,
    Token::FlagsKeyword,
    Token::EnumKeyword,
    Token::TypeKeyword,
];

/// The tokens with which a statement begins.
pub const STATEMENT_FIRST: [Token; 10] = [
    Token::ImportKeyword,
    Token::LetKeyword,
    Token::ExportKeyword,
    Token::InterfaceKeyword,
    Token::WorldKeyword,
    Token::VariantKeyword,
    Token::RecordKeyword,
    Token::FlagsKeyword,
    Token::EnumKeyword,
    Token::TypeKeyword,
];

/// A part of a document that is known by its first token.
pub trait Peek {
    /// The tokens with which such a part begins, in the order in which they are tried.
    ghost first: { List Token };

    /// Tries the tokens with which such a part begins, and answers whether one of them comes next.
    fn peek(lookahead: &mut Lookahead) -> bool
        ensures { ahead.Tries first lookahead.old result lookahead.new };
}

impl<'a> Peek for Ident<'a> {
    ghost first = { k.Ident ∷ [] };

    fn peek(lookahead: &mut Lookahead) -> bool
        ensures { ahead.Tries (k.Ident ∷ []) lookahead.old result lookahead.new }
    {
        lookahead.peek(Token::Ident)
    }
}

impl<'a> Peek for String<'a> {
    ghost first = { k.String ∷ [] };

    fn peek(lookahead: &mut Lookahead) -> bool
        ensures { ahead.Tries (k.String ∷ []) lookahead.old result lookahead.new }
    {
        lookahead.peek(Token::String)
    }
}

impl<'a> Peek for Type<'a> {
    ghost first = { types.type_first };

    fn peek(lookahead: &mut Lookahead) -> bool
        ensures { ahead.Tries types.type_first lookahead.old result lookahead.new }
    {
        lookahead.peek_any(&TYPE_FIRST)
    }
}

impl<'a> Peek for NamedType<'a> {
    ghost first = { k.Ident ∷ [] };

    fn peek(lookahead: &mut Lookahead) -> bool
        ensures { ahead.Tries (k.Ident ∷ []) lookahead.old result lookahead.new }
    {
        Ident::peek(lookahead)
    }
}

impl<'a> Peek for FuncType<'a> {
    ghost first = { types.func_first };

    fn peek(lookahead: &mut Lookahead) -> bool
        ensures { ahead.Tries types.func_first lookahead.old result lookahead.new }
    {
        lookahead.peek_any(&FUNC_FIRST)
    }
}

impl<'a> Peek for VariantCase<'a> {
    ghost first = { k.Ident ∷ [] };

    fn peek(lookahead: &mut Lookahead) -> bool
        ensures { ahead.Tries (k.Ident ∷ []) lookahead.old result lookahead.new }
    {
        lookahead.peek(Token::Ident)
    }
}

impl<'a> Peek for VariantDecl<'a> {
    ghost first = { k.VariantKeyword ∷ [] };

    fn peek(lookahead: &mut Lookahead) -> bool
        ensures { ahead.Tries (k.VariantKeyword ∷ []) lookahead.old result lookahead.new }
    {
        lookahead.peek(Token::VariantKeyword)
    }
}

impl<'a> Peek for Field<'a> {
    ghost first = { k.Ident ∷ [] };

    fn peek(lookahead: &mut Lookahead) -> bool
        ensures { ahead.Tries (k.Ident ∷ []) lookahead.old result lookahead.new }
    {
        lookahead.peek(Token::Ident)
    }
}

impl<'a> Peek for RecordDecl<'a> {
    ghost first = { k.RecordKeyword ∷ [] };

    fn peek(lookahead: &mut Lookahead) -> bool
        ensures { ahead.Tries (k.RecordKeyword ∷ []) lookahead.old result lookahead.new }
    {
        lookahead.peek(Token::RecordKeyword)
    }
}

impl<'a> Peek for Flag<'a> {
    ghost first = { k.Ident ∷ [] };

    fn peek(lookahead: &mut Lookahead) -> bool
        ensures { ahead.Tries (k.Ident ∷ []) lookahead.old result lookahead.new }
    {
        lookahead.peek(Token::Ident)
    }
}

impl<'a> Peek for FlagsDecl<'a> {
    ghost first = { k.FlagsKeyword ∷ [] };

    fn peek(lookahead: &mut Lookahead) -> bool
        ensures { ahead.Tries (k.FlagsKeyword ∷ []) lookahead.old result lookahead.new }
    {
        lookahead.peek(Token::FlagsKeyword)
    }
}

impl<'a> Peek for EnumCase<'a> {
    ghost first = { k.Ident ∷ [] };

    fn peek(lookahead: &mut Lookahead) -> bool
        ensures { ahead.Tries (k.Ident ∷ []) lookahead.old result lookahead.new }
    {
        lookahead.peek(Token::Ident)
    }
}

impl<'a> Peek for EnumDecl<'a> {
    ghost first = { k.EnumKeyword ∷ [] };

    fn peek(lookahead: &mut Lookahead) -> bool
        ensures { ahead.Tries (k.EnumKeyword ∷ []) lookahead.old result lookahead.new }
    {
        lookahead.peek(Token::EnumKeyword)
    }
}

impl<'a> Peek for TypeAlias<'a> {
    ghost first = { k.TypeKeyword ∷ [] };

    fn peek(lookahead: &mut Lookahead) -> bool
        ensures { ahead.Tries (k.TypeKeyword ∷ []) lookahead.old result lookahead.new }
    {
        lookahead.peek(Token::TypeKeyword)
    }
}

impl<'a> Peek for TypeDecl<'a> {
    ghost first = { declarations.type_decl_first };

    fn peek(lookahead: &mut Lookahead) -> bool
        ensures { ahead.Tries declarations.type_decl_first lookahead.old result lookahead.new }
    {
        lookahead.peek_any(&TYPE_DECL_FIRST)
    }
}

impl<'a> Peek for ItemTypeDecl<'a> {
    ghost first = { declarations.item_type_decl_first };

    fn peek(lookahead: &mut Lookahead) -> bool
        ensures { ahead.Tries declarations.item_type_decl_first lookahead.old result lookahead.new }
    {
        lookahead.peek_any(&ITEM_TYPE_DECL_FIRST)
    }
}

impl<'a> Peek for Constructor<'a> {
    ghost first = { k.ConstructorKeyword ∷ [] };

    fn peek(lookahead: &mut Lookahead) -> bool
        ensures { ahead.Tries (k.ConstructorKeyword ∷ []) lookahead.old result lookahead.new }
    {
        lookahead.peek(Token::ConstructorKeyword)
    }
}

impl<'a> Peek for Method<'a> {
    ghost first = { k.Ident ∷ [] };

    fn peek(lookahead: &mut Lookahead) -> bool
        ensures { ahead.Tries (k.Ident ∷ []) lookahead.old result lookahead.new }
    {
        lookahead.peek(Token::Ident)
    }
}

impl<'a> Peek for ResourceMethod<'a> {
    ghost first = { declarations.method_first };

    fn peek(lookahead: &mut Lookahead) -> bool
        ensures { ahead.Tries declarations.method_first lookahead.old result lookahead.new }
    {
        lookahead.peek_any(&METHOD_FIRST)
    }
}

impl<'a> Peek for ResourceDecl<'a> {
    ghost first = { k.ResourceKeyword ∷ [] };

    fn peek(lookahead: &mut Lookahead) -> bool
        ensures { ahead.Tries (k.ResourceKeyword ∷ []) lookahead.old result lookahead.new }
    {
        lookahead.peek(Token::ResourceKeyword)
    }
}

impl<'a> Peek for PackagePath<'a> {
    ghost first = { k.PackagePath ∷ [] };

    fn peek(lookahead: &mut Lookahead) -> bool
        ensures { ahead.Tries (k.PackagePath ∷ []) lookahead.old result lookahead.new }
    {
        lookahead.peek(Token::PackagePath)
    }
}

impl<'a> Peek for UsePath<'a> {
    ghost first = { worlds.path_first };

    fn peek(lookahead: &mut Lookahead) -> bool
        ensures { ahead.Tries worlds.path_first lookahead.old result lookahead.new }
    {
        lookahead.peek_any(&PATH_FIRST)
    }
}

impl<'a> Peek for UseItem<'a> {
    ghost first = { k.Ident ∷ [] };

    fn peek(lookahead: &mut Lookahead) -> bool
        ensures { ahead.Tries (k.Ident ∷ []) lookahead.old result lookahead.new }
    {
        lookahead.peek(Token::Ident)
    }
}

impl<'a> Peek for Use<'a> {
    ghost first = { k.UseKeyword ∷ [] };

    fn peek(lookahead: &mut Lookahead) -> bool
        ensures { ahead.Tries (k.UseKeyword ∷ []) lookahead.old result lookahead.new }
    {
        lookahead.peek(Token::UseKeyword)
    }
}

impl<'a> Peek for InterfaceExport<'a> {
    ghost first = { k.Ident ∷ [] };

    fn peek(lookahead: &mut Lookahead) -> bool
        ensures { ahead.Tries (k.Ident ∷ []) lookahead.old result lookahead.new }
    {
        lookahead.peek(Token::Ident)
    }
}

impl<'a> Peek for InterfaceItem<'a> {
    ghost first = { worlds.interface_item_first };

    fn peek(lookahead: &mut Lookahead) -> bool
        ensures { ahead.Tries worlds.interface_item_first lookahead.old result lookahead.new }
    {
        lookahead.peek_any(&INTERFACE_ITEM_FIRST)
    }
}

impl<'a> Peek for InterfaceDecl<'a> {
    ghost first = { k.InterfaceKeyword ∷ [] };

    fn peek(lookahead: &mut Lookahead) -> bool
        ensures { ahead.Tries (k.InterfaceKeyword ∷ []) lookahead.old result lookahead.new }
    {
        lookahead.peek(Token::InterfaceKeyword)
    }
}

impl<'a> Peek for InlineInterface<'a> {
    ghost first = { k.InterfaceKeyword ∷ [] };

    fn peek(lookahead: &mut Lookahead) -> bool
        ensures { ahead.Tries (k.InterfaceKeyword ∷ []) lookahead.old result lookahead.new }
    {
        lookahead.peek(Token::InterfaceKeyword)
    }
}

impl<'a> Peek for NamedWorldItem<'a> {
    ghost first = { k.Ident ∷ [] };

    fn peek(lookahead: &mut Lookahead) -> bool
        ensures { ahead.Tries (k.Ident ∷ []) lookahead.old result lookahead.new }
    {
        lookahead.peek(Token::Ident)
    }
}

impl<'a> Peek for WorldImport<'a> {
    ghost first = { k.ImportKeyword ∷ [] };

    fn peek(lookahead: &mut Lookahead) -> bool
        ensures { ahead.Tries (k.ImportKeyword ∷ []) lookahead.old result lookahead.new }
    {
        lookahead.peek(Token::ImportKeyword)
    }
}

impl<'a> Peek for WorldExport<'a> {
    ghost first = { k.ExportKeyword ∷ [] };

    fn peek(lookahead: &mut Lookahead) -> bool
        ensures { ahead.Tries (k.ExportKeyword ∷ []) lookahead.old result lookahead.new }
    {
        lookahead.peek(Token::ExportKeyword)
    }
}

impl<'a> Peek for WorldIncludeItem<'a> {
    ghost first = { k.Ident ∷ [] };

    fn peek(lookahead: &mut Lookahead) -> bool
        ensures { ahead.Tries (k.Ident ∷ []) lookahead.old result lookahead.new }
    {
        lookahead.peek(Token::Ident)
    }
}

impl<'a> Peek for WorldInclude<'a> {
    ghost first = { k.IncludeKeyword ∷ [] };

    fn peek(lookahead: &mut Lookahead) -> bool
        ensures { ahead.Tries (k.IncludeKeyword ∷ []) lookahead.old result lookahead.new }
    {
        lookahead.peek(Token::IncludeKeyword)
    }
}

impl<'a> Peek for WorldItem<'a> {
    ghost first = { worlds.world_item_first };

    fn peek(lookahead: &mut Lookahead) -> bool
        ensures { ahead.Tries worlds.world_item_first lookahead.old result lookahead.new }
    {
        lookahead.peek_any(&WORLD_ITEM_FIRST)
    }
}

impl<'a> Peek for WorldDecl<'a> {
    ghost first = { k.WorldKeyword ∷ [] };

    fn peek(lookahead: &mut Lookahead) -> bool
        ensures { ahead.Tries (k.WorldKeyword ∷ []) lookahead.old result lookahead.new }
    {
        lookahead.peek(Token::WorldKeyword)
    }
}

impl<'a> Peek for NewExpr<'a> {
    ghost first = { k.NewKeyword ∷ [] };

    fn peek(lookahead: &mut Lookahead) -> bool
        ensures { ahead.Tries (k.NewKeyword ∷ []) lookahead.old result lookahead.new }
    {
        lookahead.peek(Token::NewKeyword)
    }
}

impl<'a> Peek for NestedExpr<'a> {
    ghost first = { k.OpenParen ∷ [] };

    fn peek(lookahead: &mut Lookahead) -> bool
        ensures { ahead.Tries (k.OpenParen ∷ []) lookahead.old result lookahead.new }
    {
        lookahead.peek(Token::OpenParen)
    }
}

impl<'a> Peek for InstantiationArgument<'a> {
    ghost first = { expressions.argument_first };

    fn peek(lookahead: &mut Lookahead) -> bool
        ensures { ahead.Tries expressions.argument_first lookahead.old result lookahead.new }
    {
        lookahead.peek_any(&ARGUMENT_FIRST)
    }
}

impl<'a> Peek for NamedInstantiationArgument<'a> {
    ghost first = { expressions.name_first };

    fn peek(lookahead: &mut Lookahead) -> bool
        ensures { ahead.Tries expressions.name_first lookahead.old result lookahead.new }
    {
        lookahead.peek_any(&NAME_FIRST)
    }
}

impl<'a> Peek for InstantiationArgumentName<'a> {
    ghost first = { expressions.name_first };

    fn peek(lookahead: &mut Lookahead) -> bool
        ensures { ahead.Tries expressions.name_first lookahead.old result lookahead.new }
    {
        lookahead.peek_any(&NAME_FIRST)
    }
}

impl<'a> Peek for AccessExpr<'a> {
    ghost first = { k.Dot ∷ [] };

    fn peek(lookahead: &mut Lookahead) -> bool
        ensures { ahead.Tries (k.Dot ∷ []) lookahead.old result lookahead.new }
    {
        lookahead.peek(Token::Dot)
    }
}

impl<'a> Peek for NamedAccessExpr<'a> {
    ghost first = { k.OpenBracket ∷ [] };

    fn peek(lookahead: &mut Lookahead) -> bool
        ensures { ahead.Tries (k.OpenBracket ∷ []) lookahead.old result lookahead.new }
    {
        lookahead.peek(Token::OpenBracket)
    }
}

impl<'a> Peek for TypeStatement<'a> {
    ghost first = { documents.type_statement_first };

    fn peek(lookahead: &mut Lookahead) -> bool
        ensures { ahead.Tries documents.type_statement_first lookahead.old result lookahead.new }
    {
        lookahead.peek_any(&TYPE_STATEMENT_FIRST)
    }
}

impl<'a> Peek for Statement<'a> {
    ghost first = { documents.statement_first };

    fn peek(lookahead: &mut Lookahead) -> bool
        ensures { ahead.Tries documents.statement_first lookahead.old result lookahead.new }
    {
        lookahead.peek_any(&STATEMENT_FIRST)
    }
}

impl<'a> Peek for PackageDirective<'a> {
    ghost first = { k.PackageKeyword ∷ [] };

    fn peek(lookahead: &mut Lookahead) -> bool
        ensures { ahead.Tries (k.PackageKeyword ∷ []) lookahead.old result lookahead.new }
    {
        lookahead.peek(Token::PackageKeyword)
    }
}

impl<'a> Peek for ExternName<'a> {
    ghost first = { expressions.name_first };

    fn peek(lookahead: &mut Lookahead) -> bool
        ensures { ahead.Tries expressions.name_first lookahead.old result lookahead.new }
    {
        lookahead.peek_any(&NAME_FIRST)
    }
}

impl<'a> Peek for ImportStatement<'a> {
    ghost first = { k.ImportKeyword ∷ [] };

    fn peek(lookahead: &mut Lookahead) -> bool
        ensures { ahead.Tries (k.ImportKeyword ∷ []) lookahead.old result lookahead.new }
    {
        lookahead.peek(Token::ImportKeyword)
    }
}

impl<'a> Peek for ExportStatement<'a> {
    ghost first = { k.ExportKeyword ∷ [] };

    fn peek(lookahead: &mut Lookahead) -> bool
        ensures { ahead.Tries (k.ExportKeyword ∷ []) lookahead.old result lookahead.new }
    {
        lookahead.peek(Token::ExportKeyword)
    }
}

impl<'a> Peek for LetStatement<'a> {
    ghost first = { k.LetKeyword ∷ [] };

    fn peek(lookahead: &mut Lookahead) -> bool
        ensures { ahead.Tries (k.LetKeyword ∷ []) lookahead.old result lookahead.new }
    {
        lookahead.peek(Token::LetKeyword)
    }
}
