//! Documents printed to writers that fail, and over other sources.

use crate::sink::Sink;
use wac_parser_lexer::SourceSpan;
use wac_parser_print::{DocumentPrinter, PrintError};
use wac_parser_read::ParseDocument;
use wac_parser_tree::{Document, Ident, Type};
use wac_rows::Told;

// What owns a document is generic in its type: a proof then need not take the whole tree of types apart. For the same reason
// `show` has its tree where the printer's method has it, behind the printer.

/// A tree that is printed.
pub(crate) trait Shown: Sized {
    fn show(printer: &mut DocumentPrinter<'_, Sink>, tree: &Self) -> Result<(), PrintError>;
}

impl<'s> Shown for Document<'s> {
    fn show(printer: &mut DocumentPrinter<'_, Sink>, tree: &Self) -> Result<(), PrintError> {
        printer.document(tree)
    }
}

/// The writer to which a tree was printed. A fault is told.
fn printed<T: Shown>(tree: &T, told: &mut Told, source: &str, sink: Sink) -> Sink {
    let mut printer = DocumentPrinter::new(sink, source, None);
    told.end(T::show(&mut printer, tree));
    printer.into_writer()
}

/// A type's name that stands at the start of a source.
fn first_name() -> Type<'static> {
    Type::Ident(Ident {
        string: "a",
        span: SourceSpan::new(0, 1),
    })
}

/// The writer whose failure ends the printing of a tree. Told is what is not refused behind it.
fn refused<T: Shown>(tree: &T, told: &mut Told, source: &str, sink: Sink) -> Sink {
    let mut printer = DocumentPrinter::new(sink, source, None);
    if T::show(&mut printer, tree) != Err(PrintError::Write) {
        told.push("the failure is not told\n");
    }
    if T::show(&mut printer, tree) != Err(PrintError::Failed) {
        told.push("a document behind the failure\n");
    }
    if printer.ty(&first_name()) != Err(PrintError::Failed) {
        told.push("a type behind the failure\n");
    }
    printer.into_writer()
}

/// A writer that fails or takes nothing at one of its calls gets no call behind that, and has the front of the text. Else it is
/// told.
fn check_refusal<T: Shown>(tree: &T, told: &mut Told, source: &str, sink: Sink, text: &[u8]) {
    let sink = refused(tree, told, source, sink);
    if sink.calls != sink.fails_at {
        told.push("a call behind the failure\n");
    }
    if !text.starts_with(sink.taken.as_slice()) {
        told.push("another text\n");
    }
}

/// Tells the text that a writer has taken, and `(end)` behind it.
pub(crate) fn tell_taken(told: &mut Told, sink: &Sink) {
    told.push_bytes(&sink.taken);
    told.push("(end)");
}

/// Tells the text that a tree prints as to a writer that takes so many bytes a call, each of whose calls is refused in turn.
fn tell_each<T: Shown>(tree: &T, told: &mut Told, source: &str, most: usize) {
    let alloc = told.alloc();
    let whole = printed(tree, told, source, Sink::new(alloc, most, 0, false));
    for call in 0..whole.calls {
        let fails_at = call.saturating_add(1);
        let text = whole.taken.as_slice();
        check_refusal(
            tree,
            told,
            source,
            Sink::new(alloc, most, fails_at, false),
            text,
        );
        check_refusal(
            tree,
            told,
            source,
            Sink::new(alloc, most, fails_at, true),
            text,
        );
    }
    tell_taken(told, &whole);
}

/// Tells the text that a tree prints as over another source.
fn tell_over<T: Shown>(tree: &T, told: &mut Told, other: &str) {
    let alloc = told.alloc();
    let sink = printed(tree, told, other, Sink::new(alloc, usize::MAX, 0, false));
    tell_taken(told, &sink);
}

/// Tells what a source's document prints as: to `writers` of so many bytes a call (a number, or `any`), or `over` another
/// source.
fn tell_of<'s, D: ParseDocument<'s> + Shown>(
    source: &'s str,
    told: &mut Told,
    kind: &str,
    name: &str,
) {
    match D::parse(told.alloc(), source) {
        Ok(tree) if kind == "over" => tell_over(&tree, told, name),
        Ok(tree) => tell_each(&tree, told, source, name.parse().unwrap_or(usize::MAX)),
        Err(fault) => told.show(&fault),
    }
}

/// Tells what a source's document prints as: to `writers` of so many bytes a call, or `over` another source.
pub(crate) fn tell_writers(source: &str, told: &mut Told, kind: &str, name: &str) {
    tell_of::<Document<'_>>(source, told, kind, name);
}
