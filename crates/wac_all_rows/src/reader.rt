//! Rows of bytes that the slow reader reads.
mod spelled;

use spelled::{component_of, spelled};
use std::alloc::Global;
use wac_reader::{ReadError, look};
use wac_rows::{Row, RowTeller, Told};

/// Reads the bytes that a row spells. They are its part `bytes`, or those of its `sections`. Beside them, where a row has them:
/// `leaf`, a component that is taken as it is; `shown` with the name of what is looked at; `refusal` with the name of what is
/// told of one.
pub struct ReaderRows;

/// The bytes that a row spells.
fn bytes_of(alloc: Global, row: &Row<'_>) -> Option<Vec<u8>> {
    match row.text("sections") {
        Some(sections) => component_of(alloc, sections),
        None => spelled(alloc, row.text_or_nothing("bytes")),
    }
}

/// Tells a refusal: place and reason, one of them, or neither.
fn tell_refusal(told: &mut Told, fault: &ReadError, how: &str) {
    let ReadError::At(at, reason) = fault else {
        return told.push("out of memory");
    };
    told.push("refused");
    if how == "" || how == "place" {
        told.push(" at ");
        told.show(at);
    }
    if how == "" || how == "reason" {
        told.push(": ");
        told.push(reason);
    }
}

/// Tells what is looked at in these bytes, or the refusal.
fn tell_look(told: &mut Told, row: &Row<'_>, bytes: &[u8], leaves: &[&[u8]]) {
    match look(told.alloc(), bytes, leaves, row.name_of("shown")) {
        Some(Ok(text)) => told.push(text.as_str()),
        Some(Err(fault)) => tell_refusal(told, &fault, row.name_of("refusal")),
        None => told.push("no such thing to show"),
    }
}

impl RowTeller for ReaderRows {
    fn tell(&self, told: &mut Told, row: &Row<'_>) {
        let leaf = spelled(told.alloc(), row.text_or_nothing("leaf"));
        match (bytes_of(told.alloc(), row), leaf) {
            (Some(bytes), Some(leaf)) => match row.text("leaf") {
                Some(_) => tell_look(told, row, &bytes, &[leaf.as_slice()]),
                None => tell_look(told, row, &bytes, &[]),
            },
            _ => told.push("no bytes"),
        }
    }
}
