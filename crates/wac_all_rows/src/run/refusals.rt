//! Why documents are refused, with all that the refusals say.

use wac::ComposeError;
use wac_parser_lexer::SourceSpan;
use wac_parser_resolve::Error;
use wac_rows::Told;

/// Tells a place behind a word.
fn tell_place(told: &mut Told, word: &str, span: SourceSpan) {
    told.push(word);
    told.show(&span.offset);
    told.push("+");
    told.show(&span.length);
}

/// Tells what the text of a refusal leaves out: where the first asker stands, what an export is, which names are too alike.
fn tell_rest(told: &mut Told, fault: &Error) {
    match fault {
        Error::ImportConflict { instantiation, .. }
        | Error::InstantiationArgMergeFailure { instantiation, .. } => tell_place(
            told,
            ", asked at ",
            *instantiation,
        ),
        Error::MissingTargetExport { kind, .. } => {
            told.push(", a ");
            told.push(kind);
        }
        Error::ValidationFailure { source } => {
            told.push(": ");
            told.show_debug(source);
        }
        _ => {}
    }
}

/// Tells why a document is refused: the text, the place, and what the text leaves out.
pub(crate) fn tell_refusal(told: &mut Told, fault: &Error) {
    told.show(fault);
    if let Some(span) = fault.span() {
        tell_place(told, " at ", span);
    }
    tell_rest(told, fault);
}

/// Tells why a source is not composed.
pub(crate) fn tell_uncomposed(told: &mut Told, fault: &ComposeError) {
    match fault {
        ComposeError::Resolution(fault) => tell_refusal(told, fault),
        _ => told.show(fault),
    }
}
