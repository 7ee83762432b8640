//! The bytes of a component: how they are spelled, what they mean, and the writers of each entry.
#![tactic(auto)]

mod component;
mod core_writers;
mod declarations;
mod entries;
pub mod entry;
pub mod error;
mod laws;
pub mod module;
mod text;
mod types;
pub mod value;

pub use component::{
    push_component, push_debug_names, push_entries, push_entry, push_framed, push_producers,
};
pub use core_writers::{
    push_core_declaration, push_core_description, push_core_type, push_core_value,
    push_core_values, push_limits,
};
pub use declarations::{push_declaration, push_declarations};
pub use entries::{
    push_arguments, push_component_type, push_export, push_import, push_inside, push_instance,
    push_instance_type,
};
pub use entry::{
    Alias, Case, Declaration, DefinedType, Entry, Export, IndexName, NamedIndex, Param, Processor,
    SortNames,
};
pub use error::SizeError;
pub use laws::{
    examples, nested_is_shorter, one_reading, one_wiring, renamings, sources_are_earlier,
};
pub use module::{
    CoreDeclaration, CoreDescription, CoreReference, CoreValue, Limits, core_reference, core_value,
};
pub use text::{push_bound, push_extern_name, push_name, push_names, push_signed, push_unsigned};
pub use types::{
    push_alias, push_answer, push_cases, push_defined_type, push_description, push_optional,
    push_params, push_sort, push_value_type, push_value_types,
};
pub use value::{Description, PrimitiveType, Sort, ValueType};
pub use wac_names::{NameKind, component_name};
