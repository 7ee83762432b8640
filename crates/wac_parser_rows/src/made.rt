//! Values that no source gives.

use crate::paths::tell_path;
use crate::sink::Sink;
use crate::writers::tell_taken;
use wac_parser_lexer::{Error, SourceSpan, Token};
use wac_parser_print::DocumentPrinter;
use wac_parser_tree::{PackageDirective, PackageName, PackagePath};
use wac_rows::Told;

/// Tells the tokens that no lexer gives.
fn tell_comments(told: &mut Told) {
    told.show(&Token::Comment);
    told.push(", ");
    told.show(&Token::BlockComment);
}

/// Tells the faults that are made of nothing.
fn tell_faults(told: &mut Told) {
    told.show(&Error::from(()));
    told.push(", ");
    told.show(&Error::default());
}

/// A path without a name, at the greatest place.
fn far_path(length: usize, segments: &'static str) -> PackagePath<'static> {
    PackagePath {
        span: SourceSpan::new(usize::MAX, length),
        string: "",
        name: "",
        segments,
        version: None,
    }
}

/// A directive whose name begins at the second byte and goes on to no end, with a target at the greatest place.
fn far_directive() -> PackageDirective<'static> {
    PackageDirective {
        package: PackageName {
            string: "a:b",
            name: "a:b",
            version: None,
            span: SourceSpan::new(1, usize::MAX),
        },
        targets: Some(far_path(1, "")),
    }
}

/// Tells the text that a directive prints as over three letters.
fn tell_directive(directive: &PackageDirective<'_>, told: &mut Told) {
    let sink = Sink::new(told.alloc(), usize::MAX, 0, false);
    let mut printer = DocumentPrinter::new(sink, "xyz", None);
    told.end(printer.package_directive(directive));
    tell_taken(told, &printer.into_writer());
}

/// Tells the values of a name.
pub(crate) fn tell_made(told: &mut Told, name: &str) {
    match name {
        "comments" => tell_comments(told),
        "faults" => tell_faults(told),
        "path" => tell_path(&far_path(0, "/x"), told),
        "directive" => tell_directive(&far_directive(), told),
        _ => told.push("no such values"),
    }
}
