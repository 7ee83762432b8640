//! Declared types.

ghost use Rattle.std.specs.Option.{option_map};
ghost use Rattle.wac_parser_tree.specs.Views.{view_enum_case, view_enum_decl, view_field, view_flag, view_flags_decl, view_item_type_decl, view_record_decl};
ghost use Rattle.wac_parser_tree.specs.Views.{view_ty, view_type_alias, view_type_alias_kind, view_type_decl, view_variant_case, view_variant_decl};
ghost use Rattle.wac_parser_print.specs.Printing as text;
ghost use Rattle.wac_parser_print.specs.Printers.{Adds};

use crate::bodies::add_body_of_entries;
use crate::printer::DocumentPrinter;
use wac_parser_tree::{
    EnumCase, EnumDecl, Field, Flag, FlagsDecl, ItemTypeDecl, RecordDecl, Type, TypeAlias,
    TypeAliasKind, TypeDecl, VariantCase, VariantDecl,
};
use wac_streams::ByteSink;

impl<W: ByteSink + Drop> DocumentPrinter<'_, W> {
    /// Adds the type of a case, if it has one.
    fn add_case_type(&mut self, ty: &Option<Type<'_>>)
        ensures { Adds self.old (text.case_type (option_map view_ty ty.now)) self.new }
    {
        match ty {
            Some(ty) => {
                self.word("(");
                self.add_ty(ty);
                self.word(")");
            }
            None => {}
        }
    }

    pub(crate) fn add_variant_case(&mut self, level: usize, case: &VariantCase<'_>)
        ensures { Adds self.old (text.variant_case level (view_variant_case case.now)) self.new }
    {
        self.begin(level, &case.docs);
        self.slice(case.id.span);
        self.add_case_type(&case.ty);
    }

    pub(crate) fn add_variant_decl(&mut self, level: usize, decl: &VariantDecl<'_>)
        ensures { Adds self.old (text.variant_decl level (view_variant_decl decl.now)) self.new }
    {
        self.begin(level, &decl.docs);
        self.word("variant ");
        self.slice(decl.id.span);
        add_body_of_entries(self, level, &decl.cases);
    }

    pub(crate) fn add_field(&mut self, level: usize, field: &Field<'_>)
        ensures { Adds self.old (text.field level (view_field field.now)) self.new }
    {
        self.begin(level, &field.docs);
        self.slice(field.id.span);
        self.word(": ");
        self.add_ty(&field.ty);
    }

    pub(crate) fn add_record_decl(&mut self, level: usize, decl: &RecordDecl<'_>)
        ensures { Adds self.old (text.record_decl level (view_record_decl decl.now)) self.new }
    {
        self.begin(level, &decl.docs);
        self.word("record ");
        self.slice(decl.id.span);
        add_body_of_entries(self, level, &decl.fields);
    }

    pub(crate) fn add_flag(&mut self, level: usize, flag: &Flag<'_>)
        ensures { Adds self.old (text.flag level (view_flag flag.now)) self.new }
    {
        self.begin(level, &flag.docs);
        self.slice(flag.id.span);
    }

    pub(crate) fn add_flags_decl(&mut self, level: usize, decl: &FlagsDecl<'_>)
        ensures { Adds self.old (text.flags_decl level (view_flags_decl decl.now)) self.new }
    {
        self.begin(level, &decl.docs);
        self.word("flags ");
        self.slice(decl.id.span);
        add_body_of_entries(self, level, &decl.flags);
    }

    pub(crate) fn add_enum_case(&mut self, level: usize, case: &EnumCase<'_>)
        ensures { Adds self.old (text.enum_case level (view_enum_case case.now)) self.new }
    {
        self.begin(level, &case.docs);
        self.slice(case.id.span);
    }

    pub(crate) fn add_enum_decl(&mut self, level: usize, decl: &EnumDecl<'_>)
        ensures { Adds self.old (text.enum_decl level (view_enum_decl decl.now)) self.new }
    {
        self.begin(level, &decl.docs);
        self.word("enum ");
        self.slice(decl.id.span);
        add_body_of_entries(self, level, &decl.cases);
    }

    fn add_type_alias_kind(&mut self, kind: &TypeAliasKind<'_>)
        ensures { Adds self.old (text.type_alias_kind (view_type_alias_kind kind.now)) self.new }
    {
        match kind {
            TypeAliasKind::Func(ty) => self.add_func_type(ty),
            TypeAliasKind::Ty(ty) => self.add_ty(ty),
        }
    }

    pub(crate) fn add_type_alias(&mut self, level: usize, alias: &TypeAlias<'_>)
        ensures { Adds self.old (text.type_alias level (view_type_alias alias.now)) self.new }
    {
        self.begin(level, &alias.docs);
        self.word("type ");
        self.slice(alias.id.span);
        self.word(" = ");
        self.add_type_alias_kind(&alias.kind);
        self.word(";");
    }

    pub(crate) fn add_type_decl(&mut self, level: usize, decl: &TypeDecl<'_>)
        ensures { Adds self.old (text.type_decl level (view_type_decl decl.now)) self.new }
    {
        match decl {
            TypeDecl::Variant(decl) => self.add_variant_decl(level, decl),
            TypeDecl::Record(decl) => self.add_record_decl(level, decl),
            TypeDecl::Flags(decl) => self.add_flags_decl(level, decl),
            TypeDecl::Enum(decl) => self.add_enum_decl(level, decl),
            TypeDecl::Alias(alias) => self.add_type_alias(level, alias),
        }
    }

    pub(crate) fn add_item_type_decl(&mut self, level: usize, decl: &ItemTypeDecl<'_>)
        ensures { Adds self.old (text.item_type_decl level (view_item_type_decl decl.now)) self.new }
    {
        match decl {
            ItemTypeDecl::Resource(decl) => self.add_resource_decl(level, decl),
            ItemTypeDecl::Variant(decl) => self.add_variant_decl(level, decl),
            ItemTypeDecl::Record(decl) => self.add_record_decl(level, decl),
            ItemTypeDecl::Flags(decl) => self.add_flags_decl(level, decl),
            ItemTypeDecl::Enum(decl) => self.add_enum_decl(level, decl),
            ItemTypeDecl::Alias(alias) => self.add_type_alias(level, alias),
        }
    }
}
