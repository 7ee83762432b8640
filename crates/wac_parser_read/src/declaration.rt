//! Declarations of types.

ghost use Rattle.wac_parser_grammar.specs.Places.{IsBehind};
ghost use Rattle.std.specs.Prelude.{◌≡◌, ◌∷◌, [], ◌<◌, ◌≤◌, true, map, OnOk};
ghost use Rattle.std.specs.Option.{option_map};
ghost use Rattle.wac_parser_lexer.specs.declared.token.Token.TheVariants as k;
ghost use Rattle.wac_parser_tree.specs.Trees as t;
ghost use Rattle.wac_parser_tree.specs.Views.{view_ty, view_variant_case, view_variant_decl, view_field, view_record_decl, view_flag, view_flags_decl, view_enum_case, view_enum_decl, view_type_alias_kind, view_type_alias, view_type_decl, view_item_type_decl};
ghost use Rattle.wac_parser_grammar.specs.Rules.{left};
ghost use Rattle.wac_parser_grammar.specs.Reads.{Reads};
ghost use Rattle.wac_parser_grammar.specs.Declarations as grammar;

use crate::parse::{Parse, parse_delimited};
use std::alloc::Global;
use wac_parser_grammar::{DeclaredType, Error, MemberKind, ParseResult};
use wac_parser_lexer::{Lexer, Token};
use wac_parser_terms::{
    FUNC_FIRST, ITEM_TYPE_DECL_FIRST, Peek, TYPE_DECL_FIRST, TYPE_FIRST, doc_comments, ended,
    ident, neither_of, none_of, optional, parse_token, sees, sees_any,
};
use wac_parser_tree::{
    EnumCase, EnumDecl, Field, Flag, FlagsDecl, FuncType, ItemTypeDecl, NamedType, RecordDecl,
    ResourceDecl, Type, TypeAlias, TypeAliasKind, TypeDecl, VariantCase, VariantDecl,
};

/// The members of a declaration in braces, at least one. Each begins with its name.
#[tactic(auto, using(wac_parser_terms::proofs::Places::places))]
fn members<'a, T: Parse<'a> + Peek>(
    alloc: Global,
    lexer: &mut Lexer<'a>,
    ty: DeclaredType,
    kind: MemberKind,
) -> ParseResult<Vec<T>>
    requires named { T.first ≡ k.Ident ∷ [] }
    requires some { T.nonempty ≡ true }
    ensures value { Reads (λ v. map T.view v.items) (grammar.members T.rule ty kind) lexer.old result lexer.new }
    ensures takes { OnOk result (left lexer.new < left lexer.old) }
    ensures goes_on { IsBehind lexer.new lexer.old }
{
    parse_token(lexer, Token::OpenBrace)?;
    let items: Vec<T> = parse_delimited(alloc, lexer, Token::CloseBrace, true)?;
    let close = parse_token(lexer, Token::CloseBrace)?;
    if items.is_empty() {
        return Err(Error::EmptyType {
            ty,
            kind,
            span: close,
        });
    }
    Ok(items)
}

/// The type of a case in parentheses, or none.
#[tactic(auto, using(wac_parser_terms::proofs::Places::places), unfolding(wac_parser_grammar::specs::Declarations::case_type))]
fn case_type<'a>(alloc: Global, lexer: &mut Lexer<'a>) -> ParseResult<Option<Type<'a>>>
    ensures value { Reads (option_map view_ty) grammar.case_type lexer.old result lexer.new }
    ensures keeps { OnOk result (left lexer.new ≤ left lexer.old) }
    ensures goes_on { IsBehind lexer.new lexer.old }
{
    if !optional(lexer, Token::OpenParen)? {
        return Ok(None);
    }
    let ty = ended(Type::parse(alloc, lexer)?, lexer, Token::CloseParen)?;
    Ok(Some(ty))
}

impl<'a> Parse<'a> for VariantCase<'a> {
    ghost Plain = { t.VariantCase };

    ghost view = { view_variant_case };

    ghost rule = { grammar.variant_case };

    ghost nonempty = { true };

    #[tactic(auto, using(wac_parser_terms::proofs::Places::places), unfolding(wac_parser_grammar::specs::Declarations::variant_case))]
    fn parse(alloc: Global, lexer: &mut Lexer<'a>) -> ParseResult<VariantCase<'a>> {
        let docs = doc_comments(alloc, lexer)?;
        let id = ident(lexer)?;
        let ty = case_type(alloc, lexer)?;
        Ok(VariantCase { docs, id, ty })
    }
}

impl<'a> Parse<'a> for VariantDecl<'a> {
    ghost Plain = { t.VariantDecl };

    ghost view = { view_variant_decl };

    ghost rule = { grammar.variant_decl };

    ghost nonempty = { true };

    #[tactic(auto, using(wac_parser_terms::proofs::Places::places), unfolding(wac_parser_grammar::specs::Declarations::variant_decl, wac_parser_grammar::specs::Declarations::variant_cases))]
    fn parse(alloc: Global, lexer: &mut Lexer<'a>) -> ParseResult<VariantDecl<'a>> {
        let docs = doc_comments(alloc, lexer)?;
        parse_token(lexer, Token::VariantKeyword)?;
        let id = ident(lexer)?;
        let cases = members(alloc, lexer, DeclaredType::Variant, MemberKind::Case)?;
        Ok(VariantDecl { docs, id, cases })
    }
}

impl<'a> Parse<'a> for Field<'a> {
    ghost Plain = { t.Field };

    ghost view = { view_field };

    ghost rule = { grammar.field };

    ghost nonempty = { true };

    #[tactic(auto, using(wac_parser_terms::proofs::Places::places), unfolding(wac_parser_grammar::specs::Declarations::field))]
    fn parse(alloc: Global, lexer: &mut Lexer<'a>) -> ParseResult<Field<'a>> {
        let docs = doc_comments(alloc, lexer)?;
        let named = NamedType::parse(alloc, lexer)?;
        Ok(Field {
            docs,
            id: named.id,
            ty: named.ty,
        })
    }
}

impl<'a> Parse<'a> for RecordDecl<'a> {
    ghost Plain = { t.RecordDecl };

    ghost view = { view_record_decl };

    ghost rule = { grammar.record_decl };

    ghost nonempty = { true };

    #[tactic(auto, using(wac_parser_terms::proofs::Places::places), unfolding(wac_parser_grammar::specs::Declarations::record_decl, wac_parser_grammar::specs::Declarations::record_fields))]
    fn parse(alloc: Global, lexer: &mut Lexer<'a>) -> ParseResult<RecordDecl<'a>> {
        let docs = doc_comments(alloc, lexer)?;
        parse_token(lexer, Token::RecordKeyword)?;
        let id = ident(lexer)?;
        let fields = members(alloc, lexer, DeclaredType::Record, MemberKind::Field)?;
        Ok(RecordDecl { docs, id, fields })
    }
}

impl<'a> Parse<'a> for Flag<'a> {
    ghost Plain = { t.Flag };

    ghost view = { view_flag };

    ghost rule = { grammar.flag };

    ghost nonempty = { true };

    #[tactic(auto, using(wac_parser_terms::proofs::Places::places), unfolding(wac_parser_grammar::specs::Declarations::flag))]
    fn parse(alloc: Global, lexer: &mut Lexer<'a>) -> ParseResult<Flag<'a>> {
        let docs = doc_comments(alloc, lexer)?;
        let id = ident(lexer)?;
        Ok(Flag { docs, id })
    }
}

impl<'a> Parse<'a> for FlagsDecl<'a> {
    ghost Plain = { t.FlagsDecl };

    ghost view = { view_flags_decl };

    ghost rule = { grammar.flags_decl };

    ghost nonempty = { true };

    #[tactic(auto, using(wac_parser_terms::proofs::Places::places), unfolding(wac_parser_grammar::specs::Declarations::flags_decl, wac_parser_grammar::specs::Declarations::flags_members))]
    fn parse(alloc: Global, lexer: &mut Lexer<'a>) -> ParseResult<FlagsDecl<'a>> {
        let docs = doc_comments(alloc, lexer)?;
        parse_token(lexer, Token::FlagsKeyword)?;
        let id = ident(lexer)?;
        let flags = members(alloc, lexer, DeclaredType::Flags, MemberKind::Flag)?;
        Ok(FlagsDecl { docs, id, flags })
    }
}

impl<'a> Parse<'a> for EnumCase<'a> {
    ghost Plain = { t.EnumCase };

    ghost view = { view_enum_case };

    ghost rule = { grammar.enum_case };

    ghost nonempty = { true };

    #[tactic(auto, using(wac_parser_terms::proofs::Places::places), unfolding(wac_parser_grammar::specs::Declarations::enum_case))]
    fn parse(alloc: Global, lexer: &mut Lexer<'a>) -> ParseResult<EnumCase<'a>> {
        let docs = doc_comments(alloc, lexer)?;
        let id = ident(lexer)?;
        Ok(EnumCase { docs, id })
    }
}

impl<'a> Parse<'a> for EnumDecl<'a> {
    ghost Plain = { t.EnumDecl };

    ghost view = { view_enum_decl };

    ghost rule = { grammar.enum_decl };

    ghost nonempty = { true };

    #[tactic(auto, using(wac_parser_terms::proofs::Places::places), unfolding(wac_parser_grammar::specs::Declarations::enum_decl, wac_parser_grammar::specs::Declarations::enum_cases))]
    fn parse(alloc: Global, lexer: &mut Lexer<'a>) -> ParseResult<EnumDecl<'a>> {
        let docs = doc_comments(alloc, lexer)?;
        parse_token(lexer, Token::EnumKeyword)?;
        let id = ident(lexer)?;
        let cases = members(alloc, lexer, DeclaredType::Enum, MemberKind::Case)?;
        Ok(EnumDecl { docs, id, cases })
    }
}

impl<'a> Parse<'a> for TypeAliasKind<'a> {
    ghost Plain = { t.TypeAliasKind };

    ghost view = { view_type_alias_kind };

    ghost rule = { grammar.type_alias_kind };

    ghost nonempty = { true };

    #[tactic(auto, using(wac_parser_terms::proofs::Places::places), unfolding(wac_parser_grammar::specs::Declarations::type_alias_kind))]
    fn parse(alloc: Global, lexer: &mut Lexer<'a>) -> ParseResult<TypeAliasKind<'a>> {
        if sees_any(lexer, &FUNC_FIRST) {
            return Ok(TypeAliasKind::Func(FuncType::parse(alloc, lexer)?));
        }
        if sees_any(lexer, &TYPE_FIRST) {
            return Ok(TypeAliasKind::Ty(Type::parse(alloc, lexer)?));
        }
        Err(neither_of(lexer, &FUNC_FIRST, &TYPE_FIRST))
    }
}

impl<'a> Parse<'a> for TypeAlias<'a> {
    ghost Plain = { t.TypeAlias };

    ghost view = { view_type_alias };

    ghost rule = { grammar.type_alias };

    ghost nonempty = { true };

    #[tactic(auto, using(wac_parser_terms::proofs::Places::places), unfolding(wac_parser_grammar::specs::Declarations::type_alias))]
    fn parse(alloc: Global, lexer: &mut Lexer<'a>) -> ParseResult<TypeAlias<'a>> {
        let docs = doc_comments(alloc, lexer)?;
        parse_token(lexer, Token::TypeKeyword)?;
        let id = ident(lexer)?;
        parse_token(lexer, Token::Equals)?;
        let kind = ended(TypeAliasKind::parse(alloc, lexer)?, lexer, Token::Semicolon)?;
        Ok(TypeAlias { docs, id, kind })
    }
}

impl<'a> Parse<'a> for TypeDecl<'a> {
    ghost Plain = { t.TypeDecl };

    ghost view = { view_type_decl };

    ghost rule = { grammar.type_decl };

    ghost nonempty = { true };

    #[tactic(auto, using(wac_parser_terms::proofs::Places::places), unfolding(wac_parser_grammar::specs::Declarations::type_decl))]
    fn parse(alloc: Global, lexer: &mut Lexer<'a>) -> ParseResult<TypeDecl<'a>> {
        if sees(lexer, Token::VariantKeyword) {
            return Ok(TypeDecl::Variant(VariantDecl::parse(alloc, lexer)?));
        }
        if sees(lexer, Token::RecordKeyword) {
            return Ok(TypeDecl::Record(RecordDecl::parse(alloc, lexer)?));
        }
        if sees(lexer, Token::FlagsKeyword) {
            return Ok(TypeDecl::Flags(FlagsDecl::parse(alloc, lexer)?));
        }
        if sees(lexer, Token::EnumKeyword) {
            return Ok(TypeDecl::Enum(EnumDecl::parse(alloc, lexer)?));
        }
        if sees(lexer, Token::TypeKeyword) {
            return Ok(TypeDecl::Alias(TypeAlias::parse(alloc, lexer)?));
        }
        Err(none_of(lexer, &TYPE_DECL_FIRST))
    }
}

impl<'a> Parse<'a> for ItemTypeDecl<'a> {
    ghost Plain = { t.ItemTypeDecl };

    ghost view = { view_item_type_decl };

    ghost rule = { grammar.item_type_decl };

    ghost nonempty = { true };

    #[tactic(auto, using(wac_parser_terms::proofs::Places::places), unfolding(wac_parser_grammar::specs::Declarations::item_type_decl))]
    fn parse(alloc: Global, lexer: &mut Lexer<'a>) -> ParseResult<ItemTypeDecl<'a>> {
        if sees(lexer, Token::ResourceKeyword) {
            return Ok(ItemTypeDecl::Resource(ResourceDecl::parse(alloc, lexer)?));
        }
        if sees(lexer, Token::VariantKeyword) {
            return Ok(ItemTypeDecl::Variant(VariantDecl::parse(alloc, lexer)?));
        }
        if sees(lexer, Token::RecordKeyword) {
            return Ok(ItemTypeDecl::Record(RecordDecl::parse(alloc, lexer)?));
        }
        if sees(lexer, Token::FlagsKeyword) {
            return Ok(ItemTypeDecl::Flags(FlagsDecl::parse(alloc, lexer)?));
        }
        if sees(lexer, Token::EnumKeyword) {
            return Ok(ItemTypeDecl::Enum(EnumDecl::parse(alloc, lexer)?));
        }
        if sees(lexer, Token::TypeKeyword) {
            return Ok(ItemTypeDecl::Alias(TypeAlias::parse(alloc, lexer)?));
        }
        Err(none_of(lexer, &ITEM_TYPE_DECL_FIRST))
    }
}
