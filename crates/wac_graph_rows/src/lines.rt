//! Types and graphs of the lines of rows.
mod entries;
mod graph;
mod modules;
mod types;
mod words;

pub(crate) use entries::standing;
pub(crate) use graph::{Named, PACKAGE, add_lines, do_line, register, tell_argument_refusal};
pub(crate) use types::{
    add_types, take_defined, take_func, take_interface, take_module_type, take_resource, take_world,
};
pub(crate) use words::{item_named, take_item, take_value, type_named};
