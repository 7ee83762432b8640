//! Interfaces.

ghost use Rattle.std.specs.Prelude.{map, codes};
ghost use Rattle.std.specs.Option.{option_map};
ghost use Rattle.wac_parser_print.specs.Texts.{joined};
ghost use Rattle.wac_parser_tree.specs.Views.{view_ident, view_inline_interface, view_interface_decl, view_interface_export, view_interface_item, view_use, view_use_item, view_use_path};
ghost use Rattle.wac_parser_print.specs.Printing as text;
ghost use Rattle.wac_parser_print.specs.Printers.{Adds};

use crate::bodies::add_body_of_items;
use crate::printer::DocumentPrinter;
use wac_parser_tree::{
    Ident, InlineInterface, InterfaceDecl, InterfaceExport, InterfaceItem, Use, UseItem, UsePath,
};
use wac_streams::ByteSink;

impl<W: ByteSink + Drop> DocumentPrinter<'_, W> {
    pub(crate) fn add_use_path(&mut self, path: &UsePath<'_>)
        ensures { Adds self.old (text.use_path (view_use_path path.now)) self.new }
    {
        match path {
            UsePath::Package(path) => self.slice(path.span),
            UsePath::Ident(id) => self.slice(id.span),
        }
    }

    /// Adds the other name of a type that is used, if it has one.
    fn add_new_name(&mut self, name: &Option<Ident<'_>>)
        ensures { Adds self.old (text.new_name (option_map view_ident name.now)) self.new }
    {
        match name {
            Some(id) => {
                self.word(" as ");
                self.slice(id.span);
            }
            None => {}
        }
    }

    fn add_use_item(&mut self, item: &UseItem<'_>)
        ensures { Adds self.old (text.use_item (view_use_item item.now)) self.new }
    {
        self.slice(item.id.span);
        self.add_new_name(&item.as_id);
    }

    fn add_use_items(&mut self, items: &Vec<UseItem<'_>>)
        ensures { Adds self.old (joined (codes ", ") text.use_item (map view_use_item items.now.items)) self.new }
    {
        let mut between = "";
        for item in items {
            self.word(between);
            self.add_use_item(item);
            between = ", ";
        }
    }

    pub(crate) fn add_use_type(&mut self, level: usize, item: &Use<'_>)
        ensures { Adds self.old (text.use_type level (view_use item.now)) self.new }
    {
        self.begin(level, &item.docs);
        self.word("use ");
        self.add_use_path(&item.path);
        self.word(".{ ");
        self.add_use_items(&item.items);
        self.word(" };");
    }

    pub(crate) fn add_interface_export(&mut self, level: usize, export: &InterfaceExport<'_>)
        ensures { Adds self.old (text.interface_export level (view_interface_export export.now)) self.new }
    {
        self.begin(level, &export.docs);
        self.slice(export.id.span);
        self.word(": ");
        self.add_func_type_ref(&export.ty);
        self.word(";");
    }

    pub(crate) fn add_interface_item(&mut self, level: usize, item: &InterfaceItem<'_>)
        ensures { Adds self.old (text.interface_item level (view_interface_item item.now)) self.new }
    {
        match item {
            InterfaceItem::Use(item) => self.add_use_type(level, item),
            InterfaceItem::Ty(decl) => self.add_item_type_decl(level, decl),
            InterfaceItem::Export(export) => self.add_interface_export(level, export),
        }
    }

    pub(crate) fn add_inline_interface(&mut self, level: usize, interface: &InlineInterface<'_>)
        ensures { Adds self.old (text.inline_interface level (view_inline_interface interface.now)) self.new }
    {
        self.word("interface");
        add_body_of_items(self, level, &interface.items);
    }

    pub(crate) fn add_interface_decl(&mut self, level: usize, decl: &InterfaceDecl<'_>)
        ensures { Adds self.old (text.interface_decl level (view_interface_decl decl.now)) self.new }
    {
        self.begin(level, &decl.docs);
        self.word("interface ");
        self.slice(decl.id.span);
        add_body_of_items(self, level, &decl.items);
    }
}
