//! The entries of a component, as the code holds them.

use crate::module::CoreDeclaration;
use crate::value::{Description, PrimitiveType, Sort, ValueType};

/// A function's parameter, or a field of a record.
#[derive(Debug, Drop)]
pub struct Param {
    pub name: String,
    pub ty: ValueType,
}

/// A case of a variant.
#[derive(Debug, Drop)]
pub struct Case {
    pub name: String,
    pub ty: Option<ValueType>,
}

/// A type without declarations.
#[derive(Debug, Drop)]
pub enum DefinedType {
    Primitive(PrimitiveType),
    Record(Vec<Param>),
    Variant(Vec<Case>),
    List(ValueType),
    Option(ValueType),
    FixedSizeList(ValueType, u32),
    Tuple(Vec<ValueType>),
    Flags(Vec<String>),
    Enum(Vec<String>),
    /// What stands in `ok` and in `err`.
    Result(Option<ValueType>, Option<ValueType>),
    /// A handle of the resource of that index.
    Own(u64),
    Borrow(u64),
    Stream(Option<ValueType>),
    Future(Option<ValueType>),
    /// Whether it is async, its parameters, its answer.
    Func(bool, Vec<Param>, Option<ValueType>),
}

#[derive(Debug, Drop)]
pub enum Alias {
    /// An export of an instance.
    Export(Sort, u64, String),
    /// An index of the scope that many scopes further out.
    Outer(Sort, u64, u64),
}

/// What goes under a name: an argument of an instantiation.
#[derive(Debug, Drop)]
pub struct NamedIndex {
    pub name: String,
    pub sort: Sort,
    pub index: u64,
}

/// An export, and what it is said to be, where that is written.
#[derive(Debug, Drop)]
pub struct Export {
    pub name: String,
    pub sort: Sort,
    pub index: u64,
    pub stated: Option<Description>,
}

/// A declaration of a component type or an instance type.
#[derive(Debug, Drop)]
pub enum Declaration {
    Module(Vec<CoreDeclaration>),
    Defined(DefinedType),
    ComponentType(Vec<Declaration>),
    InstanceType(Vec<Declaration>),
    Alias(Alias),
    Import(String, Description),
    Export(String, Description),
}

/// An entry of a component.
#[derive(Debug, Drop)]
pub enum Entry {
    Module(Vec<CoreDeclaration>),
    Nested(Vec<u8>),
    Instantiate(u64, Vec<NamedIndex>),
    Alias(Alias),
    Defined(DefinedType),
    ComponentType(Vec<Declaration>),
    InstanceType(Vec<Declaration>),
    Import(String, Description),
    Export(Export),
}

/// What wrote the component.
#[derive(Debug, Drop)]
pub struct Processor {
    pub name: String,
    pub version: String,
}

/// A name for debuggers, of what stands at an index.
#[derive(Debug, Drop)]
pub struct IndexName {
    pub index: u64,
    pub name: String,
}

/// The names of indexes of one sort.
#[derive(Debug, Drop)]
pub struct SortNames {
    pub sort: Sort,
    pub names: Vec<IndexName>,
}
