//! Worlds.

ghost use Rattle.wac_parser_grammar.specs.Places.{IsBehind};
ghost use Rattle.std.specs.Prelude.{◌≡◌, ◌<◌, ◌≤◌, true, OnOk};
ghost use Rattle.wac_parser_tree.specs.Trees as t;
ghost use Rattle.wac_parser_tree.specs.Views.{view_ident, view_extern_type, view_named_world_item, view_world_item_path, view_world_import, view_world_export, view_world_ref, view_world_include_item, view_world_include, view_world_item, view_world_decl};
ghost use Rattle.wac_parser_terms.specs.Views.{view_all};
ghost use Rattle.wac_parser_grammar.specs.Rules.{left};
ghost use Rattle.wac_parser_grammar.specs.Reads.{Reads};
ghost use Rattle.wac_parser_grammar.specs.Worlds as grammar;

use crate::parse::{Parse, braced};
use std::alloc::Global;
use wac_parser_grammar::ParseResult;
use wac_parser_lexer::{Lexer, Token};
use wac_parser_terms::{
    FUNC_FIRST, ITEM_TYPE_DECL_FIRST, PATH_FIRST, WORLD_ITEM_FIRST, doc_comments, ended, ident,
    none_of, optional, parse_token, sees, sees_any,
};
use wac_parser_tree::{
    ExternType, FuncType, Ident, InlineInterface, ItemTypeDecl, NamedWorldItem, PackagePath, Use,
    WorldDecl, WorldExport, WorldImport, WorldInclude, WorldIncludeItem, WorldItem, WorldItemPath,
    WorldRef,
};

/// The tokens with which a type of an item begins.
const EXTERN_TYPE_FIRST: [Token; 4] = [
    Token::Ident,
    Token::AsyncKeyword,
    Token::FuncKeyword,
    Token::InterfaceKeyword,
];

impl<'a> Parse<'a> for ExternType<'a> {
    ghost Plain = { t.ExternType };

    ghost view = { view_extern_type };

    ghost rule = { grammar.extern_type };

    ghost nonempty = { true };

    #[tactic(auto, using(wac_parser_terms::proofs::Places::places), unfolding(wac_parser_grammar::specs::Worlds::extern_type))]
    fn parse(alloc: Global, lexer: &mut Lexer<'a>) -> ParseResult<ExternType<'a>> {
        if sees(lexer, Token::Ident) {
            return Ok(ExternType::Ident(Ident::parse(alloc, lexer)?));
        }
        if sees_any(lexer, &FUNC_FIRST) {
            return Ok(ExternType::Func(FuncType::parse(alloc, lexer)?));
        }
        if sees(lexer, Token::InterfaceKeyword) {
            return Ok(ExternType::Interface(InlineInterface::parse(alloc, lexer)?));
        }
        Err(none_of(lexer, &EXTERN_TYPE_FIRST))
    }
}

/// The colon and the type behind the name of an item.
#[tactic(auto, using(wac_parser_terms::proofs::Places::places), unfolding(wac_parser_grammar::specs::Worlds::item_type))]
fn item_type<'a>(
    alloc: Global,
    lexer: &mut Lexer<'a>,
    id: Ident<'a>,
) -> ParseResult<NamedWorldItem<'a>>
    ensures value { Reads view_named_world_item (grammar.item_type (view_ident id.entry)) lexer.old result lexer.new }
    ensures takes { OnOk result (left lexer.new < left lexer.old) }
    ensures goes_on { IsBehind lexer.new lexer.old }
{
    parse_token(lexer, Token::Colon)?;
    let ty = ExternType::parse(alloc, lexer)?;
    Ok(NamedWorldItem { id, ty })
}

impl<'a> Parse<'a> for NamedWorldItem<'a> {
    ghost Plain = { t.NamedWorldItem };

    ghost view = { view_named_world_item };

    ghost rule = { grammar.named_world_item };

    ghost nonempty = { true };

    #[tactic(auto, using(wac_parser_terms::proofs::Places::places), unfolding(wac_parser_grammar::specs::Worlds::named_world_item))]
    fn parse(alloc: Global, lexer: &mut Lexer<'a>) -> ParseResult<NamedWorldItem<'a>> {
        let id = ident(lexer)?;
        item_type(alloc, lexer, id)
    }
}

/// An identifier, which a colon makes the name of an item.
#[tactic(auto, using(wac_parser_terms::proofs::Places::places), unfolding(wac_parser_grammar::specs::Worlds::ident_path))]
fn ident_path<'a>(alloc: Global, lexer: &mut Lexer<'a>) -> ParseResult<WorldItemPath<'a>>
    ensures value { Reads view_world_item_path grammar.ident_path lexer.old result lexer.new }
    ensures takes { OnOk result (left lexer.new < left lexer.old) }
    ensures goes_on { IsBehind lexer.new lexer.old }
{
    let id = ident(lexer)?;
    if sees(lexer, Token::Colon) {
        return Ok(WorldItemPath::Named(item_type(alloc, lexer, id)?));
    }
    Ok(WorldItemPath::Ident(id))
}

impl<'a> Parse<'a> for WorldItemPath<'a> {
    ghost Plain = { t.WorldItemPath };

    ghost view = { view_world_item_path };

    ghost rule = { grammar.world_item_path };

    ghost nonempty = { true };

    #[tactic(auto, using(wac_parser_terms::proofs::Places::places), unfolding(wac_parser_grammar::specs::Worlds::world_item_path))]
    fn parse(alloc: Global, lexer: &mut Lexer<'a>) -> ParseResult<WorldItemPath<'a>> {
        if sees(lexer, Token::PackagePath) {
            return Ok(WorldItemPath::Package(PackagePath::parse(alloc, lexer)?));
        }
        if sees(lexer, Token::Ident) {
            return ident_path(alloc, lexer);
        }
        Err(none_of(lexer, &PATH_FIRST))
    }
}

impl<'a> Parse<'a> for WorldImport<'a> {
    ghost Plain = { t.WorldImport };

    ghost view = { view_world_import };

    ghost rule = { grammar.world_import };

    ghost nonempty = { true };

    #[tactic(auto, using(wac_parser_terms::proofs::Places::places), unfolding(wac_parser_grammar::specs::Worlds::world_import))]
    fn parse(alloc: Global, lexer: &mut Lexer<'a>) -> ParseResult<WorldImport<'a>> {
        let docs = doc_comments(alloc, lexer)?;
        parse_token(lexer, Token::ImportKeyword)?;
        let path = ended(WorldItemPath::parse(alloc, lexer)?, lexer, Token::Semicolon)?;
        Ok(WorldImport { docs, path })
    }
}

impl<'a> Parse<'a> for WorldExport<'a> {
    ghost Plain = { t.WorldExport };

    ghost view = { view_world_export };

    ghost rule = { grammar.world_export };

    ghost nonempty = { true };

    #[tactic(auto, using(wac_parser_terms::proofs::Places::places), unfolding(wac_parser_grammar::specs::Worlds::world_export))]
    fn parse(alloc: Global, lexer: &mut Lexer<'a>) -> ParseResult<WorldExport<'a>> {
        let docs = doc_comments(alloc, lexer)?;
        parse_token(lexer, Token::ExportKeyword)?;
        let path = ended(WorldItemPath::parse(alloc, lexer)?, lexer, Token::Semicolon)?;
        Ok(WorldExport { docs, path })
    }
}

impl<'a> Parse<'a> for WorldRef<'a> {
    ghost Plain = { t.WorldRef };

    ghost view = { view_world_ref };

    ghost rule = { grammar.world_ref };

    ghost nonempty = { true };

    #[tactic(auto, using(wac_parser_terms::proofs::Places::places), unfolding(wac_parser_grammar::specs::Worlds::world_ref))]
    fn parse(alloc: Global, lexer: &mut Lexer<'a>) -> ParseResult<WorldRef<'a>> {
        if sees(lexer, Token::PackagePath) {
            return Ok(WorldRef::Package(PackagePath::parse(alloc, lexer)?));
        }
        if sees(lexer, Token::Ident) {
            return Ok(WorldRef::Ident(Ident::parse(alloc, lexer)?));
        }
        Err(none_of(lexer, &PATH_FIRST))
    }
}

impl<'a> Parse<'a> for WorldIncludeItem<'a> {
    ghost Plain = { t.WorldIncludeItem };

    ghost view = { view_world_include_item };

    ghost rule = { grammar.world_include_item };

    ghost nonempty = { true };

    #[tactic(auto, using(wac_parser_terms::proofs::Places::places), unfolding(wac_parser_grammar::specs::Worlds::world_include_item))]
    fn parse(_alloc: Global, lexer: &mut Lexer<'a>) -> ParseResult<WorldIncludeItem<'a>> {
        let from = ident(lexer)?;
        parse_token(lexer, Token::AsKeyword)?;
        let to = ident(lexer)?;
        Ok(WorldIncludeItem { from, to })
    }
}

/// The names that change behind a `with`, or none.
#[tactic(auto, using(wac_parser_terms::proofs::Places::places), unfolding(wac_parser_grammar::specs::Worlds::include_with, wac_parser_grammar::specs::Worlds::include_items))]
fn include_with<'a>(alloc: Global, lexer: &mut Lexer<'a>) -> ParseResult<Vec<WorldIncludeItem<'a>>>
    ensures value { Reads (view_all view_world_include_item) grammar.include_with lexer.old result lexer.new }
    ensures keeps { OnOk result (left lexer.new ≤ left lexer.old) }
    ensures goes_on { IsBehind lexer.new lexer.old }
{
    if optional(lexer, Token::WithKeyword)? {
        return braced(alloc, lexer, true);
    }
    Ok(Vec::new(alloc))
}

impl<'a> Parse<'a> for WorldInclude<'a> {
    ghost Plain = { t.WorldInclude };

    ghost view = { view_world_include };

    ghost rule = { grammar.world_include };

    ghost nonempty = { true };

    #[tactic(auto, using(wac_parser_terms::proofs::Places::places), unfolding(wac_parser_grammar::specs::Worlds::world_include))]
    fn parse(alloc: Global, lexer: &mut Lexer<'a>) -> ParseResult<WorldInclude<'a>> {
        let docs = doc_comments(alloc, lexer)?;
        parse_token(lexer, Token::IncludeKeyword)?;
        let world = WorldRef::parse(alloc, lexer)?;
        let with = include_with(alloc, lexer)?;
        parse_token(lexer, Token::Semicolon)?;
        Ok(WorldInclude { docs, world, with })
    }
}

impl<'a> Parse<'a> for WorldItem<'a> {
    ghost Plain = { t.WorldItem };

    ghost view = { view_world_item };

    ghost rule = { grammar.world_item };

    ghost nonempty = { true };

    #[tactic(auto, using(wac_parser_terms::proofs::Places::places), unfolding(wac_parser_grammar::specs::Worlds::world_item))]
    fn parse(alloc: Global, lexer: &mut Lexer<'a>) -> ParseResult<WorldItem<'a>> {
        if sees(lexer, Token::UseKeyword) {
            return Ok(WorldItem::Use(Use::parse(alloc, lexer)?));
        }
        if sees(lexer, Token::ImportKeyword) {
            return Ok(WorldItem::Import(WorldImport::parse(alloc, lexer)?));
        }
        if sees(lexer, Token::ExportKeyword) {
            return Ok(WorldItem::Export(WorldExport::parse(alloc, lexer)?));
        }
        if sees(lexer, Token::IncludeKeyword) {
            return Ok(WorldItem::Include(WorldInclude::parse(alloc, lexer)?));
        }
        if sees_any(lexer, &ITEM_TYPE_DECL_FIRST) {
            return Ok(WorldItem::Ty(ItemTypeDecl::parse(alloc, lexer)?));
        }
        Err(none_of(lexer, &WORLD_ITEM_FIRST))
    }
}

impl<'a> Parse<'a> for WorldDecl<'a> {
    ghost Plain = { t.WorldDecl };

    ghost view = { view_world_decl };

    ghost rule = { grammar.world_decl };

    ghost nonempty = { true };

    #[tactic(auto, using(wac_parser_terms::proofs::Places::places), unfolding(wac_parser_grammar::specs::Worlds::world_decl, wac_parser_grammar::specs::Worlds::world_items))]
    fn parse(alloc: Global, lexer: &mut Lexer<'a>) -> ParseResult<WorldDecl<'a>> {
        let docs = doc_comments(alloc, lexer)?;
        parse_token(lexer, Token::WorldKeyword)?;
        let id = ident(lexer)?;
        let items = braced(alloc, lexer, false)?;
        Ok(WorldDecl { docs, id, items })
    }
}
