//! What a run asks of documents.

ghost use Rattle.std.specs.Prelude.{◌≡◌, ℕ, List, IfOk, IfErr};
ghost use Rattle.wac.specs.declared.stop.Stop.{Stop};
ghost use Rattle.wac_parser_tree.specs.Views.{view_document};
ghost use Rattle.wac_types_names.specs.Keys.{Key};
ghost use Rattle.wac.specs.Loading.{StopsFor};
ghost use Rattle.wac.specs.Running.{printed_over};
ghost use Rattle.wac.specs.Texts.{Says, taken_text};

use crate::stop::{Stop, key_taken};
use std::alloc::Global;
use wac_parser_print::{DocumentPrinter, PrintError};
use wac_parser_tree::Document;
use wac_types_names::BorrowedPackageKey;

// What makes a document is generic in its type, and so are those to whom it is lent: a proof then need not take the whole
// tree of types apart. The type is named where no document is there yet, as in `printed::<Document<'_>>(source, alloc)`.

/// Documents whose directive names a package.
pub(crate) trait NameDocument: Sized {
    // the key of the directive's package
    ghost key: { Self → Key };

    /// What is told where a package with the directive's key is there already.
    fn key_taken(&self, alloc: Global) -> Stop
        ensures { StopsFor (Says (taken_text (key self.now))) result };
}

impl<'s> NameDocument for Document<'s> {
    ghost use Rattle.wac_parser_tree.specs.Views.{view_document};
    ghost use Rattle.wac_workspace.specs.Composing.{directive_key};

    ghost key = { λ d. directive_key (view_document d) };

    fn key_taken(&self, alloc: Global) -> Stop {
        let package = &self.directive.package;
        let key = BorrowedPackageKey::from_name_and_version(package.name, package.version.as_ref());
        key_taken(alloc, &key)
    }
}

/// Documents that are printed.
pub(crate) trait PrintDocument: Sized {
    // the printed text over a source
    ghost printed: { Self → List ℕ → List ℕ };

    /// The printed text of the document over its source.
    fn print(&self, alloc: Global, source: &str) -> Result<Vec<u8>, Stop>
        ensures text { IfOk result (λ text. text.items ≡ printed self.now source.now) }
        ensures refused { IfErr result (λ stop. stop ≡ Stop.Memory) };
}

/// The printed text of a document over its source.
fn print_document(document: &Document<'_>, alloc: Global, source: &str) -> Result<Vec<u8>, Stop>
    ensures text { IfOk result (λ text. text.items ≡ printed_over (view_document document.now) source.now) }
    ensures refused { IfErr result (λ stop. stop ≡ Stop.Memory) }
{
    let mut printer = DocumentPrinter::new(Vec::new(alloc), source, None);
    match printer.document(document) {
        Ok(()) => Ok(printer.into_writer()),
        // A vector fails to write only where memory for the bytes is refused.
        Err(PrintError::Write) => Err(Stop::Memory),
        Err(PrintError::Failed) => unreachable!(),
    }
}

impl<'s> PrintDocument for Document<'s> {
    ghost use Rattle.wac_parser_tree.specs.Views.{view_document};
    ghost use Rattle.wac.specs.Running.{printed_over};

    ghost printed = { λ d source. printed_over (view_document d) source };

    fn print(&self, alloc: Global, source: &str) -> Result<Vec<u8>, Stop> {
        print_document(self, alloc, source)
    }
}
