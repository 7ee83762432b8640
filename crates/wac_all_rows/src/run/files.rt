//! Files of rows.

use wac::MemoryFiles;
use wac_rows::{Part, Row, Told};

/// The bytes of a file: those of its digits, or its text.
fn bytes_of(told: &mut Told, part: &Part<'_>) -> Option<Vec<u8>> {
    if part.kind == "text" {
        return told.given(Vec::from_slice(told.alloc(), part.text.as_bytes()));
    }
    told.given(hex::decode(told.alloc(), part.text))
}

/// Puts the file of a part.
fn put_file(files: &mut MemoryFiles, told: &mut Told, part: &Part<'_>) {
    let Some(bytes) = bytes_of(told, part) else {
        return;
    };
    if let Some(path) = told.given(String::from_str(told.alloc(), part.name)) {
        told.end(files.put(path, bytes));
    }
}

/// The files that a row has: its parts `file PATH` with digits, and `text PATH`. A fault is told.
pub(crate) fn files_of(told: &mut Told, row: &Row<'_>) -> MemoryFiles {
    let mut files = MemoryFiles::new(told.alloc());
    for part in &row.parts {
        if part.kind == "file" || part.kind == "text" {
            put_file(&mut files, told, part);
        }
    }
    files
}
