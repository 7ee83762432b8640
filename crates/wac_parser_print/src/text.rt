//! Doc comments and names.

ghost use Rattle.std.specs.Prelude.{map};
ghost use Rattle.wac_parser_print.specs.Texts.{body_closing, body_opening, entry_end};
ghost use Rattle.wac_parser_tree.specs.Views.{view_doc_comment, view_extern_name};
ghost use Rattle.wac_parser_print.specs.Printing as text;
ghost use Rattle.wac_parser_print.specs.Printers.{Adds};

use crate::printer::DocumentPrinter;
use wac_parser_tree::{DocComment, ExternName};
use wac_streams::ByteSink;

impl<W: ByteSink + Drop> DocumentPrinter<'_, W> {
    /// Adds a line of a doc comment.
    fn add_doc_line(&mut self, level: usize, line: &str)
        ensures { Adds self.old (text.doc_line level line.now) self.new }
    {
        self.indent(level);
        self.word("/// ");
        self.word(line.trim());
        self.line_end();
    }

    /// Adds the lines of a doc comment.
    fn add_doc(&mut self, level: usize, doc: &DocComment<'_>)
        ensures { Adds self.old (text.doc level (view_doc_comment doc.now)) self.new }
    {
        for line in doc.comment.lines() {
            self.add_doc_line(level, line);
        }
    }

    /// Adds doc comments.
    pub(crate) fn add_docs(&mut self, level: usize, docs: &[DocComment<'_>])
        ensures { Adds self.old (text.docs level (map view_doc_comment docs.now)) self.new }
    {
        for doc in docs {
            self.add_doc(level, doc);
        }
    }

    /// Adds doc comments, and the indentation of the line behind them.
    pub(crate) fn begin(&mut self, level: usize, docs: &Vec<DocComment<'_>>)
        ensures { Adds self.old (text.begin level (map view_doc_comment docs.now.items)) self.new }
    {
        self.add_docs(level, docs);
        self.indent(level);
    }

    /// Adds the opening brace of a body.
    pub(crate) fn open_body(&mut self)
        ensures { Adds self.old (body_opening) self.new }
    {
        self.word(" {");
        self.line_end();
    }

    /// Adds the closing brace of a body.
    pub(crate) fn close_body(&mut self, level: usize)
        ensures { Adds self.old (body_closing level) self.new }
    {
        self.indent(level);
        self.word("}");
    }

    /// Adds the end of a line of a declaration's body.
    pub(crate) fn end_line(&mut self)
        ensures { Adds self.old (entry_end) self.new }
    {
        self.word(",");
        self.line_end();
    }

    pub(crate) fn add_extern_name(&mut self, name: &ExternName<'_>)
        ensures { Adds self.old (text.extern_name (view_extern_name name.now)) self.new }
    {
        match name {
            ExternName::Ident(id) => self.slice(id.span),
            ExternName::String(string) => self.slice(string.span),
        }
    }
}
