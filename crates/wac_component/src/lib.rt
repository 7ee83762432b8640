//! A reader of components as tools make them: the sections of one level, and the world of a component.
#![tactic(auto)]

mod additions;
mod builder;
mod canonicals;
mod component;
mod core_types;
mod declarations;
pub mod entry;
mod fault;
mod instances;
mod numbers;
mod sections;
mod sorts;
mod spaces;
mod type_scopes;
mod types;
mod world;
mod world_fault;

pub use component::read_component;
pub use entry::{
    Alias, Canonical, CanonicalOption, CoreArgument, CoreInstance, CoreItem, CoreSort, CoreType,
    Export, Import, Instance, Item, Section, Sort, TypeEntry,
};
pub use fault::{FaultKind, ReadError};
pub use world::read_world;
pub use world_fault::{WorldError, WorldFault};
