//! How types and items are called.

ghost use Rattle.std.specs.Prelude.{◌≡◌};
ghost use Rattle.wac_types_base.specs.Collection.{Stands, HasChildren, defined_entry};
ghost use Rattle.wac_types_base.specs.Stated.{stated_of, stated_entry, primitive_word, word_of, value_desc, desc};

use crate::defined::DefinedType;
use crate::item::{ExternKind, FuncKind, ItemKind, PrimitiveType, Type, ValueType};
use crate::types::Types;
use std::fmt;

impl PrimitiveType {
    /// How the type is called.
    pub fn desc(&self) -> &'static str
        ensures { result.now ≡ primitive_word self.now }
    {
        match *self {
            PrimitiveType::U8 => "u8",
            PrimitiveType::S8 => "s8",
            PrimitiveType::U16 => "u16",
            PrimitiveType::S16 => "s16",
            PrimitiveType::U32 => "u32",
            PrimitiveType::S32 => "s32",
            PrimitiveType::U64 => "u64",
            PrimitiveType::S64 => "s64",
            PrimitiveType::F32 => "f32",
            PrimitiveType::F64 => "f64",
            PrimitiveType::Char => "char",
            PrimitiveType::Bool => "bool",
            PrimitiveType::String => "string",
            PrimitiveType::ErrorContext => "error-context",
        }
    }
}

impl ValueType {
    /// How the type is called; an alias as what it names.
    #[cycle(desc)]
    pub fn desc(&self, types: &Types) -> &'static str
        requires { Stands types.now (ItemKind.Value self.now) }
        ensures { result.now ≡ value_desc (stated_of types.now (ItemKind.Value self.now)) }
    {
        types.see_acyclic();
        match *self {
            ValueType::Primitive(ty) => ty.desc(),
            ValueType::Borrow(_) => "borrow",
            ValueType::Own(_) => "own",
            ValueType::Defined(id) => types.defined_type(id).desc(types),
        }
    }
}

impl DefinedType {
    /// How the type is called; an alias as what it names. All its ids stand in the collection.
    #[cycle(desc)]
    pub fn desc(&self, types: &Types) -> &'static str
        requires { HasChildren types.now (defined_entry self.now) }
        ensures { result.now ≡ value_desc (stated_entry types.now (defined_entry self.now)) }
    {
        types.see_acyclic();
        match self {
            DefinedType::Alias(ty) => ty.desc(types),
            other => defined_word(other),
        }
    }
}

/// How a defined type is called that is no alias.
fn defined_word(ty: &DefinedType) -> &'static str
    ensures { result.now ≡ word_of ty.now }
{
    match ty {
        DefinedType::Tuple(_) => "tuple",
        DefinedType::List(_) => "list",
        DefinedType::FixedSizeList(_, _) => "fixed size list",
        DefinedType::Option(_) => "option",
        DefinedType::Result { .. } => "result",
        DefinedType::Variant(_) => "variant",
        DefinedType::Record(_) => "record",
        DefinedType::Flags(_) => "flags",
        DefinedType::Enum(_) => "enum",
        DefinedType::Alias(_) => "alias",
        DefinedType::Stream(_) => "stream",
        DefinedType::Future(_) => "future",
    }
}

impl Type {
    /// How the type is called.
    pub fn desc(&self, types: &Types) -> &'static str
        requires { Stands types.now (ItemKind.Ty self.now) }
        ensures { result.now ≡ desc (stated_of types.now (ItemKind.Ty self.now)) }
    {
        types.see_acyclic();
        match *self {
            Type::Resource(_) => "resource",
            Type::Func(_) => "function type",
            Type::Value(ty) => ty.desc(types),
            Type::Interface(_) => "interface",
            Type::World(_) => "world",
            Type::Module(_) => "module type",
        }
    }
}

impl ItemKind {
    /// How the item is called.
    pub fn desc(&self, types: &Types) -> &'static str
        requires { Stands types.now self.now }
        ensures { result.now ≡ desc (stated_of types.now self.now) }
    {
        types.see_acyclic();
        match *self {
            ItemKind::Ty(ty) => ty.desc(types),
            ItemKind::Func(_) => "function",
            ItemKind::Instance(_) => "instance",
            ItemKind::Component(_) => "component",
            ItemKind::Module(_) => "module",
            ItemKind::Value(_) => "value",
        }
    }
}

impl fmt::Display for FuncKind {
    fn fmt<W: fmt::Write>(&self, f: &mut fmt::Formatter<W>) -> fmt::Result {
        f.write_str(match self {
            FuncKind::Free => "function",
            FuncKind::Method => "method",
            FuncKind::Static => "static method",
            FuncKind::Constructor => "constructor",
        })
    }
}

impl fmt::Display for ExternKind {
    fn fmt<W: fmt::Write>(&self, f: &mut fmt::Formatter<W>) -> fmt::Result {
        f.write_str(match self {
            ExternKind::Import => "import",
            ExternKind::Export => "export",
        })
    }
}
