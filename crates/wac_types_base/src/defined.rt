//! Entries of a collection: defined types, resources, functions, interfaces and worlds.

ghost use Rattle.std.specs.Prelude.{◌≡◌, IfOk};

use crate::containers::{Items, NamedMap, Names, Text};
use crate::ids::{InterfaceId, ResourceId};
use crate::item::{ItemKind, ValueType};
use std::alloc::{AllocError, Global};

/// A variant: its cases in order, each with a payload or none.
#[derive(PartialEq, Eq, Hash, Drop)]
pub struct Variant {
    pub cases: NamedMap<Option<ValueType>>,
}

/// A record: its fields in order.
#[derive(PartialEq, Eq, Hash, Drop)]
pub struct Record {
    pub fields: NamedMap<ValueType>,
}

/// Flags, in order.
#[derive(PartialEq, Eq, Hash, Drop)]
pub struct Flags(pub Names);

/// An enumeration: its cases in order.
#[derive(PartialEq, Eq, Hash, Drop)]
pub struct Enum(pub Names);

/// A defined type.
#[derive(PartialEq, Eq, Hash, Drop)]
pub enum DefinedType {
    Tuple(Items<ValueType>),
    List(ValueType),
    FixedSizeList(ValueType, u32),
    Option(ValueType),
    Result {
        ok: Option<ValueType>,
        err: Option<ValueType>,
    },
    Variant(Variant),
    Record(Record),
    Flags(Flags),
    Enum(Enum),
    /// Another name of a type.
    Alias(ValueType),
    Stream(Option<ValueType>),
    Future(Option<ValueType>),
}

/// What an alias of a resource stands for.
#[derive(Clone, Copy, Debug, PartialEq, Eq, Hash)]
pub struct ResourceAlias {
    /// The interface that exports the source, if any.
    pub owner: Option<InterfaceId>,
    pub source: ResourceId,
}

/// A resource, or another name of one.
#[derive(PartialEq, Eq, Hash, Drop)]
pub struct Resource {
    pub name: Text,
    pub alias: Option<ResourceAlias>,
}

/// A function type.
#[derive(PartialEq, Eq, Hash, Drop)]
pub struct FuncType {
    pub params: NamedMap<ValueType>,
    pub result: Option<ValueType>,
    pub is_async: bool,
}

/// A type that is used from another interface.
#[derive(PartialEq, Eq, Hash, Drop)]
pub struct UsedType {
    pub interface: InterfaceId,
    /// The name there, where it is another than here.
    pub name: Option<Text>,
}

/// An interface.
#[derive(PartialEq, Eq, Hash, Drop)]
pub struct Interface {
    /// The identifier, as `a:b/c@1.0.0`.
    pub id: Option<Text>,
    pub uses: NamedMap<UsedType>,
    pub exports: NamedMap<ItemKind>,
}

/// A world.
#[derive(PartialEq, Eq, Hash, Drop)]
pub struct World {
    /// The identifier, as `a:b/c@1.0.0`.
    pub id: Option<Text>,
    pub uses: NamedMap<UsedType>,
    pub imports: NamedMap<ItemKind>,
    pub exports: NamedMap<ItemKind>,
}

/// The same text again, if there is one.
pub fn copy_text(text: &Option<Text>) -> Result<Option<Text>, AllocError>
    ensures { IfOk result (λ t. t ≡ text.now) }
{
    match text {
        None => Ok(None),
        Some(text) => {
            let copy = text.copy()?;
            Ok(Some(copy))
        }
    }
}

/// The same items again.
pub fn copy_items(
    alloc: Global,
    items: &NamedMap<ItemKind>,
) -> Result<NamedMap<ItemKind>, AllocError>
    ensures { IfOk result (λ m. m ≡ items.now) }
{
    let mut copy = NamedMap::new(alloc);
    for at in 0..items.len() {
        let (name, kind) = items.entry(at);
        copy.push(String::from_str(alloc, name)?, *kind)?;
    }
    Ok(copy)
}

/// The same uses again.
pub fn copy_uses(alloc: Global, uses: &NamedMap<UsedType>) -> Result<NamedMap<UsedType>, AllocError>
    ensures { IfOk result (λ m. m ≡ uses.now) }
{
    let mut copy = NamedMap::new(alloc);
    for at in 0..uses.len() {
        let (name, used) = uses.entry(at);
        let used = used.copy()?;
        copy.push(String::from_str(alloc, name)?, used)?;
    }
    Ok(copy)
}

impl UsedType {
    /// The same use again.
    pub fn copy(&self) -> Result<Self, AllocError>
        ensures { IfOk result (λ u. u ≡ self.now) }
    {
        Ok(UsedType {
            interface: self.interface,
            name: copy_text(&self.name)?,
        })
    }
}

impl Interface {
    /// The same interface again.
    pub fn copy(&self, alloc: Global) -> Result<Self, AllocError>
        ensures { IfOk result (λ i. i ≡ self.now) }
    {
        Ok(Interface {
            id: copy_text(&self.id)?,
            uses: copy_uses(alloc, &self.uses)?,
            exports: copy_items(alloc, &self.exports)?,
        })
    }
}

impl World {
    /// The same world again.
    pub fn copy(&self, alloc: Global) -> Result<Self, AllocError>
        ensures { IfOk result (λ w. w ≡ self.now) }
    {
        Ok(World {
            id: copy_text(&self.id)?,
            uses: copy_uses(alloc, &self.uses)?,
            imports: copy_items(alloc, &self.imports)?,
            exports: copy_items(alloc, &self.exports)?,
        })
    }
}
