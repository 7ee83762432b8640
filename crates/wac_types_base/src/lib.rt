//! The types of the component model, as collections of entries with typed ids.
#![tactic(auto)]

pub mod containers;
mod copies;
pub mod copy;
pub mod core_types;
pub mod defined;
pub mod desc;
mod entries;
mod equal;
pub mod ids;
pub mod implicit;
pub mod item;
pub mod laws;
mod once;
mod remap;
pub mod renumber;
pub mod replace;
pub mod resolve;
pub mod sharing;
pub mod types;
pub mod types_mut;
pub mod visit;
pub mod walk;

pub use containers::{Items, NamedMap, Names, Text};
pub use copy::{Copier, copy_world};
pub use core_types::{
    CoreExtern, CoreFuncType, CoreImports, CoreRefType, CoreType, HeapType, ModuleType,
};
pub use defined::{
    DefinedType, Enum, Flags, FuncType, Interface, Record, Resource, ResourceAlias, UsedType,
    Variant, World, copy_items, copy_text, copy_uses,
};
pub use entries::EntryIter;
pub use ids::{DefinedTypeId, FuncTypeId, InterfaceId, ModuleTypeId, ResourceId, WorldId};
pub use implicit::TargetError;
pub use item::{ExternKind, FuncKind, ItemKind, PrimitiveType, Type, ValueType};
pub use laws::unfoldings_are_related;
pub use replace::CycleError;
pub use types::Types;
pub use types_mut::TypesMut;
pub use walk::Places;
