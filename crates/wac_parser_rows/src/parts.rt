//! Parts of documents as texts: what their accessors give.

use crate::paths::tell_path;
use crate::tokens::tell_span;
use wac_parser_lexer::SourceSpan;
use wac_parser_tree::{
    Expr, ExternName, Ident, InstantiationArgumentName, ItemTypeDecl, PackagePath, Type, TypeDecl,
    WorldRef,
};
use wac_rows::Told;

/// Parts that are told.
pub(crate) trait TellPart: Sized {
    fn tell(&self, told: &mut Told);
}

/// Tells a text with its place.
pub(crate) fn tell_placed(told: &mut Told, text: &str, span: SourceSpan) {
    told.push(text);
    told.push(" at ");
    tell_span(told, span);
}

impl<'a> TellPart for Ident<'a> {
    fn tell(&self, told: &mut Told) {
        tell_placed(told, self.string, self.span);
    }
}

impl<'a> TellPart for ExternName<'a> {
    fn tell(&self, told: &mut Told) {
        tell_placed(told, self.as_str(), self.span());
    }
}

impl<'a> TellPart for InstantiationArgumentName<'a> {
    fn tell(&self, told: &mut Told) {
        tell_placed(told, self.as_str(), self.span());
    }
}

impl<'a> TellPart for WorldRef<'a> {
    fn tell(&self, told: &mut Told) {
        tell_placed(told, self.name(), self.span());
    }
}

impl<'a> TellPart for TypeDecl<'a> {
    fn tell(&self, told: &mut Told) {
        self.id().tell(told);
    }
}

impl<'a> TellPart for ItemTypeDecl<'a> {
    fn tell(&self, told: &mut Told) {
        self.id().tell(told);
    }
}

impl<'a> TellPart for Type<'a> {
    fn tell(&self, told: &mut Told) {
        tell_placed(told, "type", self.span());
    }
}

impl<'a> TellPart for Expr<'a> {
    fn tell(&self, told: &mut Told) {
        tell_placed(told, "primary", self.primary.span());
        for access in &self.postfix {
            tell_placed(told, ", access", access.span());
        }
    }
}

impl<'a> TellPart for PackagePath<'a> {
    fn tell(&self, told: &mut Told) {
        tell_path(self, told);
    }
}
