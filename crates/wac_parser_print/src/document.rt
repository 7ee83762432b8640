//! Documents.

ghost use Rattle.std.specs.Option.{option_map};
ghost use Rattle.wac_parser_tree.specs.Views.{view_document, view_package_directive, view_package_path};
ghost use Rattle.wac_parser_print.specs.Printing as text;
ghost use Rattle.wac_parser_print.specs.Printers.{Adds};

use crate::bodies::add_paragraphs;
use crate::printer::DocumentPrinter;
use wac_parser_tree::{Document, PackageDirective, PackagePath};
use wac_streams::ByteSink;

impl<W: ByteSink + Drop> DocumentPrinter<'_, W> {
    /// Adds the target of a package, if it has one.
    fn add_target(&mut self, targets: &Option<PackagePath<'_>>)
        ensures { Adds self.old (text.target (option_map view_package_path targets.now)) self.new }
    {
        match targets {
            Some(path) => {
                self.word(" targets ");
                self.slice(path.span);
            }
            None => {}
        }
    }

    pub(crate) fn add_package_directive(&mut self, level: usize, directive: &PackageDirective<'_>)
        ensures { Adds self.old (text.package_directive level (view_package_directive directive.now)) self.new }
    {
        self.indent(level);
        self.word("package ");
        self.slice(directive.package.span);
        self.add_target(&directive.targets);
        self.word(";");
        self.line_end();
        self.line_end();
    }

    pub(crate) fn add_document(&mut self, document: &Document<'_>)
        ensures { Adds self.old (text.document (view_document document.now)) self.new }
    {
        self.add_docs(0, &document.docs);
        self.add_package_directive(0, &document.directive);
        add_paragraphs(self, 0, &document.statements);
    }
}
