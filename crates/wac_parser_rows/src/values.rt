//! The JSON values of documents.

use serde_json::Value;
use wac_parser_print::DocumentValue;
use wac_parser_read::ParseDocument;
use wac_parser_tree::Document;
use wac_rows::{Part, Told};

/// The value of a source's document, or the fault, which is told.
fn value_of<'s, D: ParseDocument<'s> + DocumentValue>(
    source: &'s str,
    told: &mut Told,
) -> Option<Value> {
    match D::parse(told.alloc(), source) {
        Ok(document) => told.given(document.to_value(told.alloc())),
        Err(fault) => {
            told.show(&fault);
            None
        }
    }
}

/// Whether what stands in a value under a part's pointer is the value of the part's text. If not, it is told.
fn stands(value: &Value, told: &mut Told, part: &Part<'_>) -> bool {
    let wanted = Value::from_str(told.alloc(), part.text);
    match (value.pointer(part.name), wanted) {
        (Some(found), Ok(wanted)) if *found == wanted => true,
        (Some(found), _) => {
            told.push(part.name);
            told.push(": ");
            told.show(found);
            told.push("\n");
            false
        }
        (None, _) => {
            told.push(part.name);
            told.push(": nothing\n");
            false
        }
    }
}

/// Tells what stands otherwise under the pointers of the parts `at`, and how many stand as stated.
fn tell_of(value: &Value, told: &mut Told, parts: &[Part<'_>]) {
    let mut count = 0u64;
    for part in parts {
        if part.kind == "at" && stands(value, told, part) {
            count = count.saturating_add(1);
        }
    }
    told.show(&count);
    told.push(" as stated");
}

/// Tells what stands otherwise in the value of a source's document, and how much stands as stated.
pub(crate) fn tell_values(source: &str, told: &mut Told, parts: &[Part<'_>]) {
    if let Some(value) = value_of::<Document<'_>>(source, told) {
        tell_of(&value, told, parts);
    }
}
