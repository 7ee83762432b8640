//! Documents as JSON values.

ghost use Rattle.std.specs.Prelude.{◌≡◌, IfOk};
ghost use Rattle.serde_json.specs.Data.{Data};
ghost use Rattle.serde_json.specs.View.{view};
ghost use Rattle.wac_parser_tree.specs.Views.{view_document};
ghost use Rattle.wac_parser_print.specs.Values as values;

mod declarations;
mod exprs;
mod interfaces;
mod members;
mod objects;
mod statements;
mod types;
mod worlds;

use serde_json::Value;
use statements::document;
use std::alloc::{AllocError, Global};
use wac_parser_tree::Document;

/// A document that has a JSON value, as the original serializes it: an object for each record with its
/// fields in camel case, a variant as an object with its name or as its name alone, null for what is
/// absent (an absent target is left out), a version as its text, a place as its offset and length in bytes.
pub trait DocumentValue {
    /// The value, as plain data.
    ghost json: { Self → Data };

    /// The document as a JSON value; refused only for want of memory.
    fn to_value(&self, alloc: Global) -> Result<Value, AllocError>
        ensures { IfOk result (λ v. view v ≡ json self.now) };
}

impl<'a> DocumentValue for Document<'a> {
    ghost json = { λ d. values.document (view_document d) };

    fn to_value(&self, alloc: Global) -> Result<Value, AllocError>
        ensures { IfOk result (λ v. view v ≡ values.document (view_document self.now)) }
    {
        document(alloc, self)
    }
}
