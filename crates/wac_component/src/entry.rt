//! What stands in the sections of a component.

use wac_graph_bytes::{CoreDeclaration, Declaration, DefinedType, Description};

/// What an index of a core module counts.
#[derive(Clone, Copy, Debug, PartialEq, Eq, Hash)]
pub enum CoreSort {
    Func,
    Table,
    LinearMemory,
    Global,
    Tag,
    Ty,
    Module,
    Instance,
}

/// What an index counts.
#[derive(Clone, Copy, Debug, PartialEq, Eq, Hash)]
pub enum Sort {
    Core(CoreSort),
    Func,
    Value,
    Ty,
    Component,
    Instance,
}

#[derive(Debug, Drop)]
pub enum Alias {
    /// An export of an instance.
    Export(Sort, u32, String),
    /// An export of a core instance.
    Core(Sort, u32, String),
    /// An index of the scope that many scopes further out.
    Outer(Sort, u32, u32),
}

/// A type. Indexes in it are those of the scope that it stands in.
#[derive(Debug, Drop)]
pub enum TypeEntry {
    Defined(DefinedType),
    /// A resource, perhaps with the index of the core function that destroys one.
    Resource(Option<u32>),
    Component(Vec<Declaration>),
    Instance(Vec<Declaration>),
}

/// The type of a core module.
#[derive(Debug, Drop)]
pub struct CoreType {
    pub declarations: Vec<CoreDeclaration>,
}

/// A core instance under the name of an import.
#[derive(Debug, Drop)]
pub struct CoreArgument {
    pub name: String,
    pub instance: u32,
}

/// A core item under a name.
#[derive(Debug, Drop)]
pub struct CoreItem {
    pub name: String,
    pub sort: CoreSort,
    pub index: u32,
}

#[derive(Debug, Drop)]
pub enum CoreInstance {
    /// A module with core instances under the names of its imports.
    Instantiate(u32, Vec<CoreArgument>),
    /// Core items under names.
    Bundle(Vec<CoreItem>),
}

/// An item under a name.
#[derive(Debug, Drop)]
pub struct Item {
    pub name: String,
    pub sort: Sort,
    pub index: u32,
}

#[derive(Debug, Drop)]
pub enum Instance {
    /// A component with items under the names of its imports.
    Instantiate(u32, Vec<Item>),
    /// Items under names.
    Bundle(Vec<Item>),
}

/// An option of a canonical function; an index is that of a core item.
#[derive(Clone, Copy, Debug, PartialEq, Eq, Hash)]
pub enum CanonicalOption {
    Utf8,
    Utf16,
    CompactUtf16,
    LinearMemory(u32),
    Realloc(u32),
    PostReturn(u32),
    Async,
    Callback(u32),
    CoreType(u32),
    Gc,
}

#[derive(Debug, Drop)]
pub enum Canonical {
    /// A function of that type, made of a core function.
    Lift(u32, Vec<CanonicalOption>, u32),
    /// A core function, made of a function.
    Lower(u32, Vec<CanonicalOption>),
    /// A core function of the component model's own, by its number in the binary format.
    BuiltIn(u8),
}

#[derive(Debug, Drop)]
pub struct Import {
    pub name: String,
    pub description: Description,
}

/// An export, and what it is said to be, where that is written.
#[derive(Debug, Drop)]
pub struct Export {
    pub name: String,
    pub sort: Sort,
    pub index: u32,
    pub stated: Option<Description>,
}

/// A section of a component.
#[derive(Debug, Drop)]
pub enum Section<'a> {
    /// A name, and bytes that mean nothing for the component.
    Custom(String, &'a [u8]),
    /// The bytes of a core module.
    CoreModule(&'a [u8]),
    CoreInstances(Vec<CoreInstance>),
    CoreTypes(Vec<CoreType>),
    /// The bytes of a component in this one.
    Nested(&'a [u8]),
    Instances(Vec<Instance>),
    Aliases(Vec<Alias>),
    Types(Vec<TypeEntry>),
    Canonicals(Vec<Canonical>),
    /// A function that is called, its arguments, and how many results it has.
    Start(u32, Vec<u32>, u32),
    Imports(Vec<Import>),
    Exports(Vec<Export>),
}
