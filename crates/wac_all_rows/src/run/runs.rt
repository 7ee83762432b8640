//! Runs of the program over a text and files of a row.

use crate::run::ends::Ends;
use std::alloc::{AllocError, Global};
use wac_rows::{Row, Told};

/// Tells a text as it stands in quotes.
fn tell_quoted(told: &mut Told, bytes: &[u8]) {
    match std::str::from_utf8(bytes) {
        Ok(text) => told.show_debug(&text),
        Err(_) => told.push("no text"),
    }
    told.push("\n");
}

/// The words of a text.
fn words_of(alloc: Global, text: &str) -> Result<Vec<&str>, AllocError> {
    text.split_ascii_whitespace().collect(alloc)
}

/// Tells how often an end was called, or else the bytes of a file.
fn tell_end(told: &mut Told, ends: &Ends<'_>, name: &str) {
    if let Some(count) = ends.calls(name) {
        told.push_all(&[name, " "]);
        return told.show(&count);
    }
    match ends.files().get(name) {
        Some(bytes) => told.show_bytes(bytes),
        None => told.push("no such file"),
    }
}

/// Tells what the parts `shown` of a row name, a line each.
fn tell_ends(told: &mut Told, ends: &Ends<'_>, row: &Row<'_>) {
    for part in &row.parts {
        if part.kind == "shown" {
            told.push("\n");
            tell_end(told, ends, part.name);
        }
    }
}

/// Tells what a run on words prints over a row's ends, then what it tells of a refusal, then its status, then what else the row
/// asks for.
pub(crate) fn tell_run(told: &mut Told, words: &str, row: &Row<'_>) {
    match words_of(told.alloc(), words) {
        Ok(words) => {
            let mut ends = Ends::new(told, row, row.text_or_nothing("input"));
            let status = ends.run(told.alloc(), &words);
            tell_quoted(told, ends.printed());
            tell_quoted(told, ends.told());
            told.show(&status);
            tell_ends(told, &ends, row);
        }
        Err(_) => told.push("out of memory"),
    }
}
