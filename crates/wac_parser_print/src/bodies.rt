//! Parts that stand on lines of their own, and bodies in braces.

ghost use Rattle.std.specs.Prelude.{ℕ, map};
ghost use Rattle.wac_parser_tree.specs.Trees as t;
ghost use Rattle.wac_parser_tree.specs.Views.{view_enum_case, view_field, view_flag, view_interface_item, view_resource_method};
ghost use Rattle.wac_parser_tree.specs.Views.{view_statement, view_variant_case, view_world_include_item, view_world_item};
ghost use Rattle.wac_parser_print.specs.Texts.{Text, body_of_entries, body_of_items, each, ended, paragraphs};
ghost use Rattle.wac_parser_print.specs.Printing as text;
ghost use Rattle.wac_parser_print.specs.Printers.{Adds};

use crate::printer::DocumentPrinter;
use wac_parser_tree::{
    EnumCase, Field, Flag, InterfaceItem, ResourceMethod, Statement, VariantCase, WorldIncludeItem,
    WorldItem,
};
use wac_streams::ByteSink;

/// What stands on lines of its own, among others of its kind.
pub(crate) trait Entry {
    /// What it says, without where it lies in memory.
    ghost Plain: { Type 0 };

    ghost view: { Self → Plain };

    /// Its text, so many levels in.
    ghost shown: { ℕ → Plain → Text };

    /// Adds it, so many levels in.
    fn add<W: ByteSink + Drop>(printer: &mut DocumentPrinter<'_, W>, level: usize, entry: &Self)
        ensures { Adds printer.old (shown level (view entry.now)) printer.new };
}

/// Adds entries, each on lines of its own that end with a comma.
pub(crate) fn add_lines<T: Entry, W: ByteSink + Drop>(
    printer: &mut DocumentPrinter<'_, W>,
    level: usize,
    entries: &Vec<T>,
)
    ensures { Adds printer.old (each (λ y. ended (T.shown level y)) (map T.view entries.now.items)) printer.new }
{
    for entry in entries {
        T::add(printer, level, entry);
        printer.end_line();
    }
}

/// Adds entries in braces, each on lines of its own that end with a comma.
pub(crate) fn add_body_of_entries<T: Entry, W: ByteSink + Drop>(
    printer: &mut DocumentPrinter<'_, W>,
    level: usize,
    entries: &Vec<T>,
)
    ensures { Adds printer.old (body_of_entries T.shown level (map T.view entries.now.items)) printer.new }
{
    printer.open_body();
    add_lines(printer, level.saturating_add(1), entries);
    printer.close_body(level);
}

/// Adds entries, with an empty line between each two.
pub(crate) fn add_paragraphs<T: Entry, W: ByteSink + Drop>(
    printer: &mut DocumentPrinter<'_, W>,
    level: usize,
    entries: &Vec<T>,
)
    ensures { Adds printer.old (paragraphs (T.shown level) (map T.view entries.now.items)) printer.new }
{
    let mut between = "";
    for entry in entries {
        printer.word(between);
        T::add(printer, level, entry);
        printer.line_end();
        between = "\n";
    }
}

/// Adds entries in braces, with an empty line between each two.
pub(crate) fn add_body_of_items<T: Entry, W: ByteSink + Drop>(
    printer: &mut DocumentPrinter<'_, W>,
    level: usize,
    entries: &Vec<T>,
)
    ensures { Adds printer.old (body_of_items T.shown level (map T.view entries.now.items)) printer.new }
{
    printer.open_body();
    add_paragraphs(printer, level.saturating_add(1), entries);
    printer.close_body(level);
}

impl<'a> Entry for VariantCase<'a> {
    ghost Plain = { t.VariantCase };

    ghost view = { view_variant_case };

    ghost shown = { text.variant_case };

    fn add<W: ByteSink + Drop>(printer: &mut DocumentPrinter<'_, W>, level: usize, entry: &Self) {
        printer.add_variant_case(level, entry);
    }
}

impl<'a> Entry for Field<'a> {
    ghost Plain = { t.Field };

    ghost view = { view_field };

    ghost shown = { text.field };

    fn add<W: ByteSink + Drop>(printer: &mut DocumentPrinter<'_, W>, level: usize, entry: &Self) {
        printer.add_field(level, entry);
    }
}

impl<'a> Entry for Flag<'a> {
    ghost Plain = { t.Flag };

    ghost view = { view_flag };

    ghost shown = { text.flag };

    fn add<W: ByteSink + Drop>(printer: &mut DocumentPrinter<'_, W>, level: usize, entry: &Self) {
        printer.add_flag(level, entry);
    }
}

impl<'a> Entry for EnumCase<'a> {
    ghost Plain = { t.EnumCase };

    ghost view = { view_enum_case };

    ghost shown = { text.enum_case };

    fn add<W: ByteSink + Drop>(printer: &mut DocumentPrinter<'_, W>, level: usize, entry: &Self) {
        printer.add_enum_case(level, entry);
    }
}

impl<'a> Entry for ResourceMethod<'a> {
    ghost Plain = { t.ResourceMethod };

    ghost view = { view_resource_method };

    ghost shown = { text.resource_method };

    fn add<W: ByteSink + Drop>(printer: &mut DocumentPrinter<'_, W>, level: usize, entry: &Self) {
        printer.add_resource_method(level, entry);
    }
}

impl<'a> Entry for InterfaceItem<'a> {
    ghost Plain = { t.InterfaceItem };

    ghost view = { view_interface_item };

    ghost shown = { text.interface_item };

    fn add<W: ByteSink + Drop>(printer: &mut DocumentPrinter<'_, W>, level: usize, entry: &Self) {
        printer.add_interface_item(level, entry);
    }
}

impl<'a> Entry for WorldItem<'a> {
    ghost Plain = { t.WorldItem };

    ghost view = { view_world_item };

    ghost shown = { text.world_item };

    fn add<W: ByteSink + Drop>(printer: &mut DocumentPrinter<'_, W>, level: usize, entry: &Self) {
        printer.add_world_item(level, entry);
    }
}

impl<'a> Entry for WorldIncludeItem<'a> {
    ghost Plain = { t.WorldIncludeItem };

    ghost view = { view_world_include_item };

    ghost shown = { text.world_include_item };

    fn add<W: ByteSink + Drop>(printer: &mut DocumentPrinter<'_, W>, level: usize, entry: &Self) {
        printer.add_world_include_item(level, entry);
    }
}

impl<'a> Entry for Statement<'a> {
    ghost Plain = { t.Statement };

    ghost view = { view_statement };

    ghost shown = { text.statement };

    fn add<W: ByteSink + Drop>(printer: &mut DocumentPrinter<'_, W>, level: usize, entry: &Self) {
        printer.add_statement(level, entry);
    }
}
