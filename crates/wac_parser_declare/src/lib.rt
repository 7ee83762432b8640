//! The types that the declarations of a document state.
#![tactic(auto)]

mod aliases;
mod bodies;
mod functions;
mod growing;
mod includes;
mod interfaces;
mod paths;
mod resources;
mod scope;
mod statements;
mod type_decls;
mod uses;
mod value_types;
mod worlds;

pub use functions::{func_type, func_type_ref};
pub use growing::{GrowingTypes, PackagedTypes};
pub use interfaces::inline_interface;
pub use paths::{interface_at, package_path, world_at};
pub use scope::{Binding, Context, bind, meaning};
pub use statements::type_statement;
pub use value_types::value_type;
pub use wac_parser_refusals::{
    AS_HELP, Error, InstanceOperation, Outcome, Refusal, ResolutionResult, WITH_HELP,
    duplicate_name, not_world, undefined_name, unknown_package, unwritable,
};
