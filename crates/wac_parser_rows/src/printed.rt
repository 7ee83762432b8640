//! The texts that documents print as.

use std::alloc::{AllocError, Global};
use wac_parser_print::{DocumentPrinter, PrintError};
use wac_parser_read::ParseDocument;
use wac_parser_tree::Document;
use wac_rows::Told;

// What owns a document is generic in its type, and the type is named where the text that it borrows comes first, as a document
// does where it is lent: a proof then need not take the whole tree of types apart.

/// Documents that are printed, and that can be cloned.
pub(crate) trait PrintDocument: Sized {
    /// The printed text of the document over its source, with this unit of indentation.
    fn print(&self, alloc: Global, source: &str, unit: &str) -> Result<Vec<u8>, PrintError>;

    fn copied(&self, alloc: Global) -> Result<Self, AllocError>;
}

/// The printed text of a document over its source, with this unit of indentation.
fn print_document(
    document: &Document<'_>,
    alloc: Global,
    source: &str,
    unit: &str,
) -> Result<Vec<u8>, PrintError> {
    let mut printer = DocumentPrinter::new(Vec::new(alloc), source, Some(unit));
    match printer.document(document) {
        Ok(()) => Ok(printer.into_writer()),
        Err(fault) => Err(fault),
    }
}

impl<'s> PrintDocument for Document<'s> {
    fn print(&self, alloc: Global, source: &str, unit: &str) -> Result<Vec<u8>, PrintError> {
        print_document(self, alloc, source, unit)
    }

    fn copied(&self, alloc: Global) -> Result<Self, AllocError> {
        self.clone(alloc)
    }
}

/// Tells the text of a document, and `(end)` behind it.
fn tell_text<D: PrintDocument>(document: &D, told: &mut Told, source: &str, unit: &str) {
    match document.print(told.alloc(), source, unit) {
        Ok(bytes) => {
            told.push_bytes(&bytes);
            told.push("(end)");
        }
        Err(fault) => told.show(&fault),
    }
}

/// Tells the text of a clone of a document.
fn tell_clone<'s, D: ParseDocument<'s> + PrintDocument>(
    document: &D,
    told: &mut Told,
    source: &'s str,
    unit: &str,
) {
    match document.copied(told.alloc()) {
        Ok(copy) => tell_text(&copy, told, source, unit),
        Err(_) => told.push("out of memory"),
    }
}

/// Tells the text that a source's document prints as, and that of a clone of it, if it is another.
fn tell_both<'s, D: ParseDocument<'s> + PrintDocument>(
    source: &'s str,
    told: &mut Told,
    unit: &str,
) {
    match D::parse(told.alloc(), source) {
        Ok(document) => {
            let mut again = Told::new(told.alloc());
            tell_clone(&document, &mut again, source, unit);
            tell_text(&document, told, source, unit);
            let _ = told.compare(&again);
        }
        Err(fault) => told.show(&fault),
    }
}

/// Tells the text that the document of a source prints as, and a clone of it.
pub(crate) fn tell_printed(source: &str, told: &mut Told, unit: &str) {
    tell_both::<Document<'_>>(source, told, unit);
}
