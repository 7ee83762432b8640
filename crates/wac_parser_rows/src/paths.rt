//! The parts of package paths.

use crate::tokens::tell_span;
use wac_parser_lexer::SourceSpan;
use wac_parser_tree::PackagePath;
use wac_rows::Told;

fn tell_quoted(told: &mut Told, text: &str, span: SourceSpan) {
    told.push("`");
    told.push(text);
    told.push("` at ");
    tell_span(told, span);
}

/// Tells the name of a path's package and its segments, each with its place.
pub(crate) fn tell_path(path: &PackagePath<'_>, told: &mut Told) {
    tell_quoted(told, path.name, path.package_name_span());
    let mut segments = path.segment_spans();
    for _ in 0..=path.segments.len() {
        if let Some((segment, span)) = segments.next() {
            told.push(", ");
            tell_quoted(told, segment, span);
        }
    }
    if segments.next().is_some() {
        told.push(", and more");
    }
}
