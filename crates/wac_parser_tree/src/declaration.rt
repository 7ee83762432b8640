//! Declared types.

ghost use Rattle.std.specs.Prelude.{◌≡◌, IfOk};
ghost use Rattle.std.specs.Option.{option_map};
ghost use Rattle.wac_parser_tree.specs.Accessors.{item_type_decl_id, type_decl_id};
ghost use Rattle.wac_parser_tree.specs.Views.{view_ident, view_constructor, view_enum_case, view_enum_decl, view_field, view_flag, view_flags_decl, view_item_type_decl, view_method, view_record_decl, view_resource_decl, view_resource_method, view_ty, view_type_alias, view_type_alias_kind, view_type_decl, view_variant_case, view_variant_decl};

use crate::lists::clone_all;
use crate::text::{DocComment, Ident, clone_docs};
use crate::value_type::{FuncType, NamedType, Type};
use std::alloc::{AllocError, Global};
use wac_parser_lexer::SourceSpan;

/// A type that is declared in a document, outside interfaces and worlds.
#[derive(Debug)]
pub enum TypeDecl<'a> {
    /// A variant.
    Variant(VariantDecl<'a>),
    /// A record.
    Record(RecordDecl<'a>),
    /// Flags.
    Flags(FlagsDecl<'a>),
    /// An enum.
    Enum(EnumDecl<'a>),
    /// Another name for a type.
    Alias(TypeAlias<'a>),
}

// It takes the value apart: where one is held at a `?`, a derived drop is proved there part by part.
impl Drop for TypeDecl<'_> {
    fn drop(self) {
        match self {
            TypeDecl::Variant(_) => {}
            TypeDecl::Record(_) => {}
            TypeDecl::Flags(_) => {}
            TypeDecl::Enum(_) => {}
            TypeDecl::Alias(_) => {}
        }
    }
}

/// A type that is declared in an interface or a world: there are resources too.
#[derive(Debug)]
pub enum ItemTypeDecl<'a> {
    /// A resource.
    Resource(ResourceDecl<'a>),
    /// A variant.
    Variant(VariantDecl<'a>),
    /// A record.
    Record(RecordDecl<'a>),
    /// Flags.
    Flags(FlagsDecl<'a>),
    /// An enum.
    Enum(EnumDecl<'a>),
    /// Another name for a type.
    Alias(TypeAlias<'a>),
}

// It takes the value apart: where one is held at a `?`, a derived drop is proved there part by part.
impl Drop for ItemTypeDecl<'_> {
    fn drop(self) {
        match self {
            ItemTypeDecl::Resource(_) => {}
            ItemTypeDecl::Variant(_) => {}
            ItemTypeDecl::Record(_) => {}
            ItemTypeDecl::Flags(_) => {}
            ItemTypeDecl::Enum(_) => {}
            ItemTypeDecl::Alias(_) => {}
        }
    }
}

/// A declaration `resource ID;` or `resource ID { METHODS }`.
#[derive(Debug, Drop)]
pub struct ResourceDecl<'a> {
    /// The doc comments of the resource.
    pub docs: Vec<DocComment<'a>>,
    /// The name of the resource.
    pub id: Ident<'a>,
    /// Its methods, in order.
    pub methods: Vec<ResourceMethod<'a>>,
}

/// A method of a resource.
#[derive(Debug)]
pub enum ResourceMethod<'a> {
    /// The constructor.
    Constructor(Constructor<'a>),
    /// A method of a resource's value, or a static one.
    Method(Method<'a>),
}

// It takes the value apart: where one is held at a `?`, a derived drop is proved there part by part.
impl Drop for ResourceMethod<'_> {
    fn drop(self) {
        match self {
            ResourceMethod::Constructor(_) => {}
            ResourceMethod::Method(_) => {}
        }
    }
}

/// A constructor `constructor(PARAMS);`.
#[derive(Debug, Drop)]
pub struct Constructor<'a> {
    /// The doc comments of the constructor.
    pub docs: Vec<DocComment<'a>>,
    /// Where the word `constructor` stands.
    pub span: SourceSpan,
    /// The parameters, in order.
    pub params: Vec<NamedType<'a>>,
}

/// A method `ID: [static] FUNC;`.
#[derive(Debug, Drop)]
pub struct Method<'a> {
    /// The doc comments of the method.
    pub docs: Vec<DocComment<'a>>,
    /// The name of the method.
    pub id: Ident<'a>,
    /// Whether `static` stands before its type.
    pub is_static: bool,
    /// Its type.
    pub ty: FuncType<'a>,
}

/// A declaration `variant ID { CASES }`.
#[derive(Debug, Drop)]
pub struct VariantDecl<'a> {
    /// The doc comments of the variant.
    pub docs: Vec<DocComment<'a>>,
    /// The name of the variant.
    pub id: Ident<'a>,
    /// Its cases, in order.
    pub cases: Vec<VariantCase<'a>>,
}

/// A case `ID` or `ID(TYPE)` of a variant.
#[derive(Debug, Drop)]
pub struct VariantCase<'a> {
    /// The doc comments of the case.
    pub docs: Vec<DocComment<'a>>,
    /// The name of the case.
    pub id: Ident<'a>,
    /// The type of its value, if it has one.
    pub ty: Option<Type<'a>>,
}

/// A declaration `record ID { FIELDS }`.
#[derive(Debug, Drop)]
pub struct RecordDecl<'a> {
    /// The doc comments of the record.
    pub docs: Vec<DocComment<'a>>,
    /// The name of the record.
    pub id: Ident<'a>,
    /// Its fields, in order.
    pub fields: Vec<Field<'a>>,
}

/// A field `ID: TYPE` of a record.
#[derive(Debug, Drop)]
pub struct Field<'a> {
    /// The doc comments of the field.
    pub docs: Vec<DocComment<'a>>,
    /// The name of the field.
    pub id: Ident<'a>,
    /// Its type.
    pub ty: Type<'a>,
}

/// A declaration `flags ID { FLAGS }`.
#[derive(Debug, Drop)]
pub struct FlagsDecl<'a> {
    /// The doc comments of the flags.
    pub docs: Vec<DocComment<'a>>,
    /// The name of the flags.
    pub id: Ident<'a>,
    /// The flags, in order.
    pub flags: Vec<Flag<'a>>,
}

/// One of some flags.
#[derive(Debug, Drop)]
pub struct Flag<'a> {
    /// The doc comments of the flag.
    pub docs: Vec<DocComment<'a>>,
    /// The name of the flag.
    pub id: Ident<'a>,
}

/// A declaration `enum ID { CASES }`.
#[derive(Debug, Drop)]
pub struct EnumDecl<'a> {
    /// The doc comments of the enum.
    pub docs: Vec<DocComment<'a>>,
    /// The name of the enum.
    pub id: Ident<'a>,
    /// Its cases, in order.
    pub cases: Vec<EnumCase<'a>>,
}

/// A case of an enum.
#[derive(Debug, Drop)]
pub struct EnumCase<'a> {
    /// The doc comments of the case.
    pub docs: Vec<DocComment<'a>>,
    /// The name of the case.
    pub id: Ident<'a>,
}

/// A declaration `type ID = KIND;`.
#[derive(Debug, Drop)]
pub struct TypeAlias<'a> {
    /// The doc comments of the alias.
    pub docs: Vec<DocComment<'a>>,
    /// The new name.
    pub id: Ident<'a>,
    /// What it names.
    pub kind: TypeAliasKind<'a>,
}

/// What an alias names.
#[derive(Debug)]
pub enum TypeAliasKind<'a> {
    /// A function type.
    Func(FuncType<'a>),
    /// The type of a value.
    Ty(Type<'a>),
}

// It takes the value apart: where one is held at a `?`, a derived drop is proved there part by part.
impl Drop for TypeAliasKind<'_> {
    fn drop(self) {
        match self {
            TypeAliasKind::Func(_) => {}
            TypeAliasKind::Ty(_) => {}
        }
    }
}

impl<'a> VariantCase<'a> {
    /// An equal case.
    pub fn clone(&self, alloc: Global) -> Result<Self, AllocError>
        ensures { IfOk result (λ t. view_variant_case t ≡ view_variant_case self.now) }
    {
        Ok(VariantCase {
            docs: clone_docs(alloc, &self.docs)?,
            id: self.id,
            ty: clone_case_type(alloc, &self.ty)?,
        })
    }
}

impl<'a> VariantDecl<'a> {
    /// An equal declaration.
    pub fn clone(&self, alloc: Global) -> Result<Self, AllocError>
        ensures { IfOk result (λ t. view_variant_decl t ≡ view_variant_decl self.now) }
    {
        Ok(VariantDecl {
            docs: clone_docs(alloc, &self.docs)?,
            id: self.id,
            cases: clone_all(alloc, &self.cases)?,
        })
    }
}

impl<'a> Field<'a> {
    /// An equal field.
    pub fn clone(&self, alloc: Global) -> Result<Self, AllocError>
        ensures { IfOk result (λ t. view_field t ≡ view_field self.now) }
    {
        Ok(Field {
            docs: clone_docs(alloc, &self.docs)?,
            id: self.id,
            ty: self.ty.clone(alloc)?,
        })
    }
}

impl<'a> RecordDecl<'a> {
    /// An equal declaration.
    pub fn clone(&self, alloc: Global) -> Result<Self, AllocError>
        ensures { IfOk result (λ t. view_record_decl t ≡ view_record_decl self.now) }
    {
        Ok(RecordDecl {
            docs: clone_docs(alloc, &self.docs)?,
            id: self.id,
            fields: clone_all(alloc, &self.fields)?,
        })
    }
}

impl<'a> Flag<'a> {
    /// An equal flag.
    pub fn clone(&self, alloc: Global) -> Result<Self, AllocError>
        ensures { IfOk result (λ t. view_flag t ≡ view_flag self.now) }
    {
        Ok(Flag {
            docs: clone_docs(alloc, &self.docs)?,
            id: self.id,
        })
    }
}

impl<'a> FlagsDecl<'a> {
    /// An equal declaration.
    pub fn clone(&self, alloc: Global) -> Result<Self, AllocError>
        ensures { IfOk result (λ t. view_flags_decl t ≡ view_flags_decl self.now) }
    {
        Ok(FlagsDecl {
            docs: clone_docs(alloc, &self.docs)?,
            id: self.id,
            flags: clone_all(alloc, &self.flags)?,
        })
    }
}

impl<'a> EnumCase<'a> {
    /// An equal case.
    pub fn clone(&self, alloc: Global) -> Result<Self, AllocError>
        ensures { IfOk result (λ t. view_enum_case t ≡ view_enum_case self.now) }
    {
        Ok(EnumCase {
            docs: clone_docs(alloc, &self.docs)?,
            id: self.id,
        })
    }
}

impl<'a> EnumDecl<'a> {
    /// An equal declaration.
    pub fn clone(&self, alloc: Global) -> Result<Self, AllocError>
        ensures { IfOk result (λ t. view_enum_decl t ≡ view_enum_decl self.now) }
    {
        Ok(EnumDecl {
            docs: clone_docs(alloc, &self.docs)?,
            id: self.id,
            cases: clone_all(alloc, &self.cases)?,
        })
    }
}

impl<'a> TypeAliasKind<'a> {
    /// An equal kind.
    pub fn clone(&self, alloc: Global) -> Result<Self, AllocError>
        ensures { IfOk result (λ t. view_type_alias_kind t ≡ view_type_alias_kind self.now) }
    {
        match self {
            TypeAliasKind::Func(ty) => Ok(TypeAliasKind::Func(ty.clone(alloc)?)),
            TypeAliasKind::Ty(ty) => Ok(TypeAliasKind::Ty(ty.clone(alloc)?)),
        }
    }
}

impl<'a> TypeAlias<'a> {
    /// An equal alias.
    pub fn clone(&self, alloc: Global) -> Result<Self, AllocError>
        ensures { IfOk result (λ t. view_type_alias t ≡ view_type_alias self.now) }
    {
        Ok(TypeAlias {
            docs: clone_docs(alloc, &self.docs)?,
            id: self.id,
            kind: self.kind.clone(alloc)?,
        })
    }
}

impl<'a> Constructor<'a> {
    /// An equal constructor.
    pub fn clone(&self, alloc: Global) -> Result<Self, AllocError>
        ensures { IfOk result (λ t. view_constructor t ≡ view_constructor self.now) }
    {
        Ok(Constructor {
            docs: clone_docs(alloc, &self.docs)?,
            span: self.span,
            params: clone_all(alloc, &self.params)?,
        })
    }
}

impl<'a> Method<'a> {
    /// An equal method.
    pub fn clone(&self, alloc: Global) -> Result<Self, AllocError>
        ensures { IfOk result (λ t. view_method t ≡ view_method self.now) }
    {
        Ok(Method {
            docs: clone_docs(alloc, &self.docs)?,
            id: self.id,
            is_static: self.is_static,
            ty: self.ty.clone(alloc)?,
        })
    }
}

impl<'a> ResourceMethod<'a> {
    /// An equal method.
    pub fn clone(&self, alloc: Global) -> Result<Self, AllocError>
        ensures { IfOk result (λ t. view_resource_method t ≡ view_resource_method self.now) }
    {
        match self {
            ResourceMethod::Constructor(constructor) => Ok(ResourceMethod::Constructor(
                constructor.clone(alloc)?,
            )),
            ResourceMethod::Method(method) => Ok(ResourceMethod::Method(method.clone(alloc)?)),
        }
    }
}

impl<'a> ResourceDecl<'a> {
    /// An equal declaration.
    pub fn clone(&self, alloc: Global) -> Result<Self, AllocError>
        ensures { IfOk result (λ t. view_resource_decl t ≡ view_resource_decl self.now) }
    {
        Ok(ResourceDecl {
            docs: clone_docs(alloc, &self.docs)?,
            id: self.id,
            methods: clone_all(alloc, &self.methods)?,
        })
    }
}

impl<'a> TypeDecl<'a> {
    /// The name of the type that is declared.
    pub fn id(&self) -> &Ident<'a>
        ensures { view_ident result.now ≡ type_decl_id (view_type_decl self.now) }
    {
        match self {
            TypeDecl::Variant(variant) => &variant.id,
            TypeDecl::Record(record) => &record.id,
            TypeDecl::Flags(flags) => &flags.id,
            TypeDecl::Enum(declaration) => &declaration.id,
            TypeDecl::Alias(alias) => &alias.id,
        }
    }

    /// An equal declaration.
    pub fn clone(&self, alloc: Global) -> Result<Self, AllocError>
        ensures { IfOk result (λ t. view_type_decl t ≡ view_type_decl self.now) }
    {
        match self {
            TypeDecl::Variant(variant) => Ok(TypeDecl::Variant(variant.clone(alloc)?)),
            TypeDecl::Record(record) => Ok(TypeDecl::Record(record.clone(alloc)?)),
            TypeDecl::Flags(flags) => Ok(TypeDecl::Flags(flags.clone(alloc)?)),
            TypeDecl::Enum(declaration) => Ok(TypeDecl::Enum(declaration.clone(alloc)?)),
            TypeDecl::Alias(alias) => Ok(TypeDecl::Alias(alias.clone(alloc)?)),
        }
    }
}

impl<'a> ItemTypeDecl<'a> {
    /// The name of the type that is declared.
    pub fn id(&self) -> &Ident<'a>
        ensures { view_ident result.now ≡ item_type_decl_id (view_item_type_decl self.now) }
    {
        match self {
            ItemTypeDecl::Resource(resource) => &resource.id,
            ItemTypeDecl::Variant(variant) => &variant.id,
            ItemTypeDecl::Record(record) => &record.id,
            ItemTypeDecl::Flags(flags) => &flags.id,
            ItemTypeDecl::Enum(declaration) => &declaration.id,
            ItemTypeDecl::Alias(alias) => &alias.id,
        }
    }

    /// An equal declaration.
    pub fn clone(&self, alloc: Global) -> Result<Self, AllocError>
        ensures { IfOk result (λ t. view_item_type_decl t ≡ view_item_type_decl self.now) }
    {
        match self {
            ItemTypeDecl::Resource(resource) => Ok(ItemTypeDecl::Resource(resource.clone(alloc)?)),
            ItemTypeDecl::Variant(variant) => Ok(ItemTypeDecl::Variant(variant.clone(alloc)?)),
            ItemTypeDecl::Record(record) => Ok(ItemTypeDecl::Record(record.clone(alloc)?)),
            ItemTypeDecl::Flags(flags) => Ok(ItemTypeDecl::Flags(flags.clone(alloc)?)),
            ItemTypeDecl::Enum(declaration) => Ok(ItemTypeDecl::Enum(declaration.clone(alloc)?)),
            ItemTypeDecl::Alias(alias) => Ok(ItemTypeDecl::Alias(alias.clone(alloc)?)),
        }
    }
}

fn clone_case_type<'a>(alloc: Global, ty: &Option<Type<'a>>) -> Result<Option<Type<'a>>, AllocError>
    ensures { IfOk result (λ t. option_map view_ty t ≡ option_map view_ty ty.now) }
{
    match ty {
        Some(ty) => Ok(Some(ty.clone(alloc)?)),
        None => Ok(None),
    }
}
