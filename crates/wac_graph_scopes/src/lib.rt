//! The types of a collection, written in scopes: values, functions, instance types, component types,
//! core modules and imports.
#![tactic(auto)]

mod core_items;
mod entry;
pub mod error;
mod import_places;
pub mod imports;
pub mod items;
mod lacking;
mod laws;
pub mod order;
pub mod prints;
mod resources;
pub mod scope;
mod stock;
mod type_places;
pub mod used;
mod value;
pub mod worlds;

pub use laws::types_at_the_root;
pub use value::fits_in;
