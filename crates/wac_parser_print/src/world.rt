//! Worlds.

ghost use Rattle.std.specs.Prelude.{map};
ghost use Rattle.wac_parser_tree.specs.Views.{view_extern_type, view_named_world_item, view_world_decl, view_world_export, view_world_import};
ghost use Rattle.wac_parser_tree.specs.Views.{view_world_include, view_world_include_item, view_world_item, view_world_item_path, view_world_ref};
ghost use Rattle.wac_parser_print.specs.Printing as text;
ghost use Rattle.wac_parser_print.specs.Printers.{Adds};

use crate::bodies::{add_body_of_items, add_lines};
use crate::printer::DocumentPrinter;
use wac_parser_tree::{
    ExternType, NamedWorldItem, WorldDecl, WorldExport, WorldImport, WorldInclude,
    WorldIncludeItem, WorldItem, WorldItemPath, WorldRef,
};
use wac_streams::ByteSink;

impl<W: ByteSink + Drop> DocumentPrinter<'_, W> {
    pub(crate) fn add_extern_type(&mut self, level: usize, ty: &ExternType<'_>)
        ensures { Adds self.old (text.extern_type level (view_extern_type ty.now)) self.new }
    {
        match ty {
            ExternType::Ident(id) => self.slice(id.span),
            ExternType::Func(ty) => self.add_func_type(ty),
            ExternType::Interface(interface) => self.add_inline_interface(level, interface),
        }
    }

    pub(crate) fn add_named_world_item(&mut self, level: usize, item: &NamedWorldItem<'_>)
        ensures { Adds self.old (text.named_world_item level (view_named_world_item item.now)) self.new }
    {
        self.slice(item.id.span);
        self.word(": ");
        self.add_extern_type(level, &item.ty);
    }

    pub(crate) fn add_world_item_path(&mut self, level: usize, path: &WorldItemPath<'_>)
        ensures { Adds self.old (text.world_item_path level (view_world_item_path path.now)) self.new }
    {
        match path {
            WorldItemPath::Named(item) => self.add_named_world_item(level, item),
            WorldItemPath::Package(path) => self.slice(path.span),
            WorldItemPath::Ident(id) => self.slice(id.span),
        }
    }

    pub(crate) fn add_world_import(&mut self, level: usize, import: &WorldImport<'_>)
        ensures { Adds self.old (text.world_import level (view_world_import import.now)) self.new }
    {
        self.begin(level, &import.docs);
        self.word("import ");
        self.add_world_item_path(level, &import.path);
        self.word(";");
    }

    pub(crate) fn add_world_export(&mut self, level: usize, export: &WorldExport<'_>)
        ensures { Adds self.old (text.world_export level (view_world_export export.now)) self.new }
    {
        self.begin(level, &export.docs);
        self.word("export ");
        self.add_world_item_path(level, &export.path);
        self.word(";");
    }

    pub(crate) fn add_world_ref(&mut self, world: &WorldRef<'_>)
        ensures { Adds self.old (text.world_ref (view_world_ref world.now)) self.new }
    {
        match world {
            WorldRef::Ident(id) => self.slice(id.span),
            WorldRef::Package(path) => self.slice(path.span),
        }
    }

    pub(crate) fn add_world_include_item(&mut self, level: usize, item: &WorldIncludeItem<'_>)
        ensures { Adds self.old (text.world_include_item level (view_world_include_item item.now)) self.new }
    {
        self.indent(level);
        self.slice(item.from.span);
        self.word(" as ");
        self.slice(item.to.span);
    }

    /// Adds the names that change, where there are any.
    fn add_with_items(&mut self, level: usize, items: &Vec<WorldIncludeItem<'_>>)
        ensures { Adds self.old (text.with_items level (map view_world_include_item items.now.items)) self.new }
    {
        if items.is_empty() {
            return;
        }
        self.word(" with");
        self.open_body();
        add_lines(self, level.saturating_add(1), items);
        self.close_body(level);
    }

    pub(crate) fn add_world_include(&mut self, level: usize, include: &WorldInclude<'_>)
        ensures { Adds self.old (text.world_include level (view_world_include include.now)) self.new }
    {
        self.begin(level, &include.docs);
        self.word("include ");
        self.add_world_ref(&include.world);
        self.add_with_items(level, &include.with);
        self.word(";");
    }

    pub(crate) fn add_world_item(&mut self, level: usize, item: &WorldItem<'_>)
        ensures { Adds self.old (text.world_item level (view_world_item item.now)) self.new }
    {
        match item {
            WorldItem::Use(item) => self.add_use_type(level, item),
            WorldItem::Ty(decl) => self.add_item_type_decl(level, decl),
            WorldItem::Import(import) => self.add_world_import(level, import),
            WorldItem::Export(export) => self.add_world_export(level, export),
            WorldItem::Include(include) => self.add_world_include(level, include),
        }
    }

    pub(crate) fn add_world_decl(&mut self, level: usize, decl: &WorldDecl<'_>)
        ensures { Adds self.old (text.world_decl level (view_world_decl decl.now)) self.new }
    {
        self.begin(level, &decl.docs);
        self.word("world ");
        self.slice(decl.id.span);
        add_body_of_items(self, level, &decl.items);
    }
}
