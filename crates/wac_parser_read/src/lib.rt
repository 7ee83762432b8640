//! Parsers of documents: one for each tree, and for whole sources.
#![tactic(auto)]

mod declaration;
mod document;
mod export;
mod expr;
mod import;
mod interface;
mod laws;
mod let_statement;
mod name;
mod parse;
mod resource;
mod value_type;
mod world;

pub use document::ParseDocument;
pub use laws::{list_faults_stand, lists_are_exact, optional_faults_stand, optionals_are_exact};
pub use parse::{Parse, parse_delimited, parse_optional};
pub use wac_parser_grammar::{DeclaredType, Error, MemberKind, ParseResult};
pub use wac_parser_terms::{Lookahead, MAX_LEVELS, Peek, parse_optional_payload, parse_token};
