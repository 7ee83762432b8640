//! Parsers of names, types and expressions, and the tokens with which parts begin.
#![tactic(auto)]

mod base;
mod expr;
mod first;
mod function;
mod lookahead;
mod package;
mod text;
mod value_type;

pub use base::{behind, ended, neither_of, none_of, optional, parse_token, sees, sees_any};
pub use expr::{
    ARGUMENT_FIRST, access_expr, argument_value, expr_within, instantiation_argument,
    named_access_expr, nested_expr, new_expr, primary_expr,
};
pub use first::{
    INTERFACE_ITEM_FIRST, ITEM_TYPE_DECL_FIRST, METHOD_FIRST, NAME_FIRST, PATH_FIRST, Peek,
    STATEMENT_FIRST, TYPE_DECL_FIRST, TYPE_STATEMENT_FIRST, WORLD_ITEM_FIRST,
};
pub use function::{FUNC_FIRST, func_params, func_type, func_type_ref, named_type, result_list};
pub use lookahead::Lookahead;
pub use package::{new_package, package_name, package_path};
pub use text::{doc_comments, ident, string};
pub use value_type::{MAX_LEVELS, TYPE_FIRST, parse_optional_payload, value_ty};
