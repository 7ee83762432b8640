//! What stands in entries and holds no memory. An index may pass 32 bits; then what names it cannot be written.

pub use wac_types_base::PrimitiveType;

/// What an index counts.
#[derive(Clone, Copy, Debug, PartialEq, Eq, Hash)]
pub enum Sort {
    Func,
    Ty,
    Component,
    Instance,
    Module,
}

/// The type of a value: a primitive type, or the index of a type entry.
#[derive(Clone, Copy, Debug, PartialEq, Eq, Hash)]
pub enum ValueType {
    Primitive(PrimitiveType),
    Index(u64),
}

/// What an import is, or what an export is said to be.
#[derive(Clone, Copy, Debug, PartialEq, Eq, Hash)]
pub enum Description {
    Module(u64),
    Func(u64),
    /// The type of that index.
    Equal(u64),
    /// A fresh resource.
    Resource,
    Component(u64),
    Instance(u64),
}
