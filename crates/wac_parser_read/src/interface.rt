//! Interfaces.

ghost use Rattle.std.specs.Prelude.{◌≡◌, ◌<◌, ◌≤◌, true, OnOk};
ghost use Rattle.wac_parser_tree.specs.Trees as t;
ghost use Rattle.wac_parser_tree.specs.Views.{view_use_path, view_use_item, view_use, view_interface_export, view_interface_item, view_interface_decl, view_inline_interface};
ghost use Rattle.wac_parser_grammar.specs.Worlds as grammar;

use crate::parse::{Parse, braced, parse_optional};
use std::alloc::Global;
use wac_parser_grammar::ParseResult;
use wac_parser_lexer::{Lexer, Token};
use wac_parser_terms::{
    INTERFACE_ITEM_FIRST, ITEM_TYPE_DECL_FIRST, PATH_FIRST, doc_comments, ended, ident, none_of,
    parse_token, sees, sees_any,
};
use wac_parser_tree::{
    FuncTypeRef, Ident, InlineInterface, InterfaceDecl, InterfaceExport, InterfaceItem,
    ItemTypeDecl, PackagePath, Use, UseItem, UsePath,
};

impl<'a> Parse<'a> for UsePath<'a> {
    ghost Plain = { t.UsePath };

    ghost view = { view_use_path };

    ghost rule = { grammar.use_path };

    ghost nonempty = { true };

    #[tactic(auto, using(wac_parser_terms::proofs::Places::places), unfolding(wac_parser_grammar::specs::Worlds::use_path))]
    fn parse(alloc: Global, lexer: &mut Lexer<'a>) -> ParseResult<UsePath<'a>> {
        if sees(lexer, Token::PackagePath) {
            return Ok(UsePath::Package(PackagePath::parse(alloc, lexer)?));
        }
        if sees(lexer, Token::Ident) {
            return Ok(UsePath::Ident(Ident::parse(alloc, lexer)?));
        }
        Err(none_of(lexer, &PATH_FIRST))
    }
}

impl<'a> Parse<'a> for UseItem<'a> {
    ghost Plain = { t.UseItem };

    ghost view = { view_use_item };

    ghost rule = { grammar.use_item };

    ghost nonempty = { true };

    #[tactic(auto, using(wac_parser_terms::proofs::Places::places), unfolding(wac_parser_grammar::specs::Worlds::use_item, wac_parser_grammar::specs::Worlds::use_as))]
    fn parse(alloc: Global, lexer: &mut Lexer<'a>) -> ParseResult<UseItem<'a>> {
        let id = ident(lexer)?;
        let as_id = parse_optional(alloc, lexer, Token::AsKeyword)?;
        Ok(UseItem { id, as_id })
    }
}

impl<'a> Parse<'a> for Use<'a> {
    ghost Plain = { t.Use };

    ghost view = { view_use };

    ghost rule = { grammar.use_types };

    ghost nonempty = { true };

    #[tactic(auto, using(wac_parser_terms::proofs::Places::places), unfolding(wac_parser_grammar::specs::Worlds::use_types, wac_parser_grammar::specs::Worlds::use_items))]
    fn parse(alloc: Global, lexer: &mut Lexer<'a>) -> ParseResult<Use<'a>> {
        let docs = doc_comments(alloc, lexer)?;
        parse_token(lexer, Token::UseKeyword)?;
        let path = UsePath::parse(alloc, lexer)?;
        parse_token(lexer, Token::Dot)?;
        let items = braced(alloc, lexer, true)?;
        parse_token(lexer, Token::Semicolon)?;
        Ok(Use { docs, path, items })
    }
}

impl<'a> Parse<'a> for InterfaceExport<'a> {
    ghost Plain = { t.InterfaceExport };

    ghost view = { view_interface_export };

    ghost rule = { grammar.interface_export };

    ghost nonempty = { true };

    #[tactic(auto, using(wac_parser_terms::proofs::Places::places), unfolding(wac_parser_grammar::specs::Worlds::interface_export))]
    fn parse(alloc: Global, lexer: &mut Lexer<'a>) -> ParseResult<InterfaceExport<'a>> {
        let docs = doc_comments(alloc, lexer)?;
        let id = ident(lexer)?;
        parse_token(lexer, Token::Colon)?;
        let ty = ended(FuncTypeRef::parse(alloc, lexer)?, lexer, Token::Semicolon)?;
        Ok(InterfaceExport { docs, id, ty })
    }
}

impl<'a> Parse<'a> for InterfaceItem<'a> {
    ghost Plain = { t.InterfaceItem };

    ghost view = { view_interface_item };

    ghost rule = { grammar.interface_item };

    ghost nonempty = { true };

    #[tactic(auto, using(wac_parser_terms::proofs::Places::places), unfolding(wac_parser_grammar::specs::Worlds::interface_item))]
    fn parse(alloc: Global, lexer: &mut Lexer<'a>) -> ParseResult<InterfaceItem<'a>> {
        if sees(lexer, Token::UseKeyword) {
            let types = Use::parse(alloc, lexer)?;
            return Ok(InterfaceItem::Use(Box::new(alloc, types)?));
        }
        if sees(lexer, Token::Ident) {
            return Ok(InterfaceItem::Export(InterfaceExport::parse(alloc, lexer)?));
        }
        if sees_any(lexer, &ITEM_TYPE_DECL_FIRST) {
            return Ok(InterfaceItem::Ty(ItemTypeDecl::parse(alloc, lexer)?));
        }
        Err(none_of(lexer, &INTERFACE_ITEM_FIRST))
    }
}

impl<'a> Parse<'a> for InterfaceDecl<'a> {
    ghost Plain = { t.InterfaceDecl };

    ghost view = { view_interface_decl };

    ghost rule = { grammar.interface_decl };

    ghost nonempty = { true };

    #[tactic(auto, using(wac_parser_terms::proofs::Places::places), unfolding(wac_parser_grammar::specs::Worlds::interface_decl, wac_parser_grammar::specs::Worlds::interface_items))]
    fn parse(alloc: Global, lexer: &mut Lexer<'a>) -> ParseResult<InterfaceDecl<'a>> {
        let docs = doc_comments(alloc, lexer)?;
        parse_token(lexer, Token::InterfaceKeyword)?;
        let id = ident(lexer)?;
        let items = braced(alloc, lexer, false)?;
        Ok(InterfaceDecl { docs, id, items })
    }
}

impl<'a> Parse<'a> for InlineInterface<'a> {
    ghost Plain = { t.InlineInterface };

    ghost view = { view_inline_interface };

    ghost rule = { grammar.inline_interface };

    ghost nonempty = { true };

    #[tactic(auto, using(wac_parser_terms::proofs::Places::places), unfolding(wac_parser_grammar::specs::Worlds::inline_interface, wac_parser_grammar::specs::Worlds::interface_items))]
    fn parse(alloc: Global, lexer: &mut Lexer<'a>) -> ParseResult<InlineInterface<'a>> {
        parse_token(lexer, Token::InterfaceKeyword)?;
        let items = braced(alloc, lexer, false)?;
        Ok(InlineInterface { items })
    }
}
