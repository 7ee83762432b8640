//! Why a document is refused: the errors of resolution, with their places and texts.
#![tactic(auto)]

mod error;
mod refusal;
mod refusals;
mod texts;

pub use error::{AS_HELP, Error, InstanceOperation, ResolutionResult, WITH_HELP};
pub use refusal::{Outcome, Refusal};
pub use refusals::{
    duplicate_case, duplicate_constructor, duplicate_enum_case, duplicate_export, duplicate_field,
    duplicate_flag, duplicate_method, duplicate_name, duplicate_parameter, duplicate_with_name,
    duplicate_world_item, invalid_alias_type, missing_with_name, not_func_or_interface,
    not_func_type, not_interface, not_resource_type, not_used_type, not_value_type, not_world,
    undefined_name, undefined_type, unknown_package, unwritable, use_conflict,
};
