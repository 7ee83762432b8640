//! Whether sources are read.

use wac_parser_lexer::SourceSpan;
use wac_parser_read::{Error, ParseDocument};
use wac_rows::Told;

/// Where a fault of parsing stands.
fn span_of(error: &Error) -> SourceSpan {
    match error {
        Error::Lexer { span, .. }
        | Error::Expected { span, .. }
        | Error::ExpectedEither { span, .. }
        | Error::ExpectedMultiple { span, .. }
        | Error::EmptyType { span, .. }
        | Error::InvalidVersion { span, .. }
        | Error::NestedTooDeep { span } => *span,
        Error::Memory => SourceSpan::new(0, 0),
    }
}

/// Tells a place behind its fault.
pub(crate) fn tell_place(told: &mut Told, span: SourceSpan) {
    told.push(" at ");
    told.show(&span.offset);
    told.push("+");
    told.show(&span.length);
}

/// Tells that a source is read, or the refusal with its place.
pub(crate) fn tell_read<'s, D: ParseDocument<'s>>(source: &'s str, told: &mut Told) {
    match D::parse(told.alloc(), source) {
        Ok(_) => told.push("read"),
        Err(error) => {
            told.show(&error);
            tell_place(told, span_of(&error));
        }
    }
}
