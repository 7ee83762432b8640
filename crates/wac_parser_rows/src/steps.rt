//! Parts that one lexer reads, one behind the other.

use crate::parts::{TellPart, tell_placed};
use wac_parser_lexer::{Lexer, Token};
use wac_parser_read::{
    Lookahead, Parse, ParseResult, Peek, parse_delimited, parse_optional, parse_optional_payload,
    parse_token,
};
use wac_parser_tree::{
    Expr, ExternName, Flag, Ident, InstantiationArgumentName, ItemTypeDecl, PackagePath, Type,
    TypeDecl, WorldRef,
};
use wac_rows::Told;

// A fault has many tokens in it: it is told where it comes, so that proofs of the rest need not take it apart.

/// Tells the part that comes next.
fn tell_part<'a, T: Parse<'a> + TellPart>(lexer: &mut Lexer<'a>, told: &mut Told) {
    match T::parse(told.alloc(), lexer) {
        Ok(part) => part.tell(told),
        Err(fault) => told.show_debug(&fault),
    }
}

/// Tells the flags before a closing brace.
fn tell_flags(lexer: &mut Lexer<'_>, told: &mut Told) {
    let flags: ParseResult<Vec<Flag<'_>>> = parse_delimited(
        told.alloc(),
        lexer,
        Token::CloseBrace,
        true,
    );
    match flags {
        Ok(flags) => {
            told.show(&flags.len());
            told.push(" flags");
            for flag in &flags {
                told.push(" ");
                told.push(flag.id.string);
            }
        }
        Err(fault) => told.show_debug(&fault),
    }
}

/// Tells a closing brace.
fn tell_brace(lexer: &mut Lexer<'_>, told: &mut Told) {
    match parse_token(lexer, Token::CloseBrace) {
        Ok(span) => tell_placed(told, "brace", span),
        Err(fault) => told.show_debug(&fault),
    }
}

/// Tells where an identifier was looked for, and then the `list` keyword.
fn tell_look(lexer: &Lexer<'_>, told: &mut Told) {
    let mut lookahead = Lookahead::new(lexer);
    if Ident::peek(&mut lookahead) {
        return told.push("an identifier");
    }
    let is_list = lookahead.peek(Token::ListKeyword);
    told.push(if is_list {
        "list true: "
    } else {
        "list false: "
    });
    told.show(&lookahead.error());
}

/// Tells the name behind `as`, if that comes next.
fn tell_alias(lexer: &mut Lexer<'_>, told: &mut Told) {
    let name: ParseResult<Option<Ident<'_>>> = parse_optional(
        told.alloc(),
        lexer,
        Token::AsKeyword,
    );
    match name {
        Ok(Some(id)) => id.tell(told),
        Ok(None) => told.push("no name"),
        Err(fault) => told.show_debug(&fault),
    }
}

/// Tells the type in angles behind a keyword, and the span of all.
fn tell_payload(lexer: &mut Lexer<'_>, told: &mut Told) {
    if lexer.peek().is_none() {
        return told.push("no keyword");
    }
    match parse_optional_payload(told.alloc(), lexer) {
        Ok((Some(_), span)) => tell_placed(told, "type", span),
        Ok((None, span)) => tell_placed(told, "no type", span),
        Err(fault) => told.show_debug(&fault),
    }
}

/// Tells what a step reads that is a call of its own.
fn tell_call(lexer: &mut Lexer<'_>, told: &mut Told, name: &str) {
    match name {
        "flags" => tell_flags(lexer, told),
        "brace" => tell_brace(lexer, told),
        "look" => tell_look(lexer, told),
        "alias" => tell_alias(lexer, told),
        "payload" => tell_payload(lexer, told),
        _ => told.push("no such step"),
    }
}

/// Tells what a step reads, or its fault.
fn tell_step(lexer: &mut Lexer<'_>, told: &mut Told, name: &str) {
    match name {
        "identifier" => tell_part::<Ident<'_>>(lexer, told),
        "name" => tell_part::<ExternName<'_>>(lexer, told),
        "argument" => tell_part::<InstantiationArgumentName<'_>>(lexer, told),
        "world" => tell_part::<WorldRef<'_>>(lexer, told),
        "declaration" => tell_part::<TypeDecl<'_>>(lexer, told),
        "item" => tell_part::<ItemTypeDecl<'_>>(lexer, told),
        "type" => tell_part::<Type<'_>>(lexer, told),
        "expression" => tell_part::<Expr<'_>>(lexer, told),
        "path" => tell_part::<PackagePath<'_>>(lexer, told),
        _ => tell_call(lexer, told, name),
    }
}

/// Tells what each of some steps reads of a source, one a line, or its fault.
pub(crate) fn tell_parts(source: &str, told: &mut Told, steps: &str) {
    let Ok(mut lexer) = Lexer::new(source) else {
        return told.push("the lexer refuses the source");
    };
    for name in steps.split(' ') {
        tell_step(&mut lexer, told, name);
        told.push("\n");
    }
}
