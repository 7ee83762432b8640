//! Resources.

ghost use Rattle.wac_parser_tree.specs.Views.{view_constructor, view_method, view_resource_decl, view_resource_method};
ghost use Rattle.wac_parser_print.specs.Printing as text;
ghost use Rattle.wac_parser_print.specs.Printers.{Adds};

use crate::bodies::add_body_of_items;
use crate::printer::DocumentPrinter;
use wac_parser_tree::{Constructor, Method, ResourceDecl, ResourceMethod};
use wac_streams::ByteSink;

impl<W: ByteSink + Drop> DocumentPrinter<'_, W> {
    pub(crate) fn add_constructor(&mut self, level: usize, constructor: &Constructor<'_>)
        ensures { Adds self.old (text.constructor level (view_constructor constructor.now)) self.new }
    {
        self.begin(level, &constructor.docs);
        self.word("constructor(");
        self.add_named_types(&constructor.params);
        self.word(");");
    }

    pub(crate) fn add_method(&mut self, level: usize, method: &Method<'_>)
        ensures { Adds self.old (text.method level (view_method method.now)) self.new }
    {
        self.begin(level, &method.docs);
        self.slice(method.id.span);
        self.word(": ");
        self.add_keyword_if("static ", method.is_static);
        self.add_func_type(&method.ty);
        self.word(";");
    }

    pub(crate) fn add_resource_method(&mut self, level: usize, method: &ResourceMethod<'_>)
        ensures { Adds self.old (text.resource_method level (view_resource_method method.now)) self.new }
    {
        match method {
            ResourceMethod::Constructor(constructor) => self.add_constructor(level, constructor),
            ResourceMethod::Method(method) => self.add_method(level, method),
        }
    }

    pub(crate) fn add_resource_decl(&mut self, level: usize, decl: &ResourceDecl<'_>)
        ensures { Adds self.old (text.resource_decl level (view_resource_decl decl.now)) self.new }
    {
        self.begin(level, &decl.docs);
        self.word("resource ");
        self.slice(decl.id.span);
        add_body_of_items(self, level, &decl.methods);
    }
}
