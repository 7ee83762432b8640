//! The grammar of documents as rules, what holds of it, and the faults of a parse.
#![tactic(auto)]

mod error;
mod forms;
mod laws;

pub use error::{DeclaredType, Error, MemberKind, ParseResult};
pub use forms::{
    documents_are_their_forms, documents_have_forms, forms_are_taken, rules_have_forms,
    rules_take_what_fits,
};
pub use laws::{
    deep_faults_are_deep, document_faults_stand, documents_are_read, faults_stand,
    no_track_is_refused, parsed_paths_stand, rules_are_exact, trees_are_begun,
};
