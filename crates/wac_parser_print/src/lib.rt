//! The printer of documents, and their values as JSON.
#![tactic(auto)]

mod bodies;
mod declaration;
mod document;
mod error;
mod expr;
mod interface;
mod laws;
mod methods;
mod printer;
mod resource;
mod statement;
mod text;
mod value_type;
mod values;
mod world;

pub use error::PrintError;
pub use laws::examples;
pub use printer::DocumentPrinter;
pub use values::DocumentValue;
pub use wac_streams::ByteSink;
