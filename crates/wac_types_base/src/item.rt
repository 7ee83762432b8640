//! What an item, a type or a value type names.

use crate::ids::{DefinedTypeId, FuncTypeId, InterfaceId, ModuleTypeId, ResourceId, WorldId};

/// A primitive type.
#[derive(Clone, Copy, Debug, PartialEq, Eq, Hash)]
pub enum PrimitiveType {
    U8,
    S8,
    U16,
    S16,
    U32,
    S32,
    U64,
    S64,
    F32,
    F64,
    Char,
    Bool,
    String,
    ErrorContext,
}

/// The type of a value.
#[derive(Clone, Copy, Debug, PartialEq, Eq, Hash)]
pub enum ValueType {
    Primitive(PrimitiveType),
    Borrow(ResourceId),
    Own(ResourceId),
    Defined(DefinedTypeId),
}

/// A type.
#[derive(Clone, Copy, Debug, PartialEq, Eq, Hash)]
pub enum Type {
    Resource(ResourceId),
    Func(FuncTypeId),
    Value(ValueType),
    Interface(InterfaceId),
    World(WorldId),
    Module(ModuleTypeId),
}

/// The kind of an item that is imported or exported, with its type.
#[derive(Clone, Copy, Debug, PartialEq, Eq, Hash)]
pub enum ItemKind {
    /// The item is a type.
    Ty(Type),
    Func(FuncTypeId),
    Instance(InterfaceId),
    Component(WorldId),
    Module(ModuleTypeId),
    Value(ValueType),
}

/// How a function is declared.
#[derive(Clone, Copy, Debug, PartialEq, Eq, Hash)]
pub enum FuncKind {
    Free,
    Method,
    Static,
    Constructor,
}

/// Whether an item is imported or exported.
#[derive(Clone, Copy, Debug, PartialEq, Eq, Hash)]
pub enum ExternKind {
    Import,
    Export,
}
