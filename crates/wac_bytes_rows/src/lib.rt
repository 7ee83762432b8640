//! Rows of bytes: what lines write, the bytes of components of entries, and the kinds of names.
#![tactic(auto)]

mod core_items;
mod declarations;
mod entries;
mod names;
mod types;
mod values;
mod written;

use names::tell_kinds;
use wac_rows::{Row, RowTeller, Told};
use written::{tell_component, tell_lines};

/// Writes what a row says: `bytes` of lines, a `component` with its parts `processor` and `debug`, or the kinds of `names`.
pub struct ByteRows;

impl RowTeller for ByteRows {
    fn tell(&self, told: &mut Told, row: &Row<'_>) {
        let part = row.first();
        match part.kind {
            "bytes" => tell_lines(told, part.text),
            "names" => tell_kinds(told, part.text),
            _ => tell_component(told, row),
        }
    }
}
