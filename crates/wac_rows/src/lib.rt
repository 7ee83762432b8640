//! Rows of data: texts of what goes in, and the text that must come out. A program reads files of rows, does what each says,
//! and tells which came out otherwise.
//!
//! In a file a line `=== NAME` begins a row, and a line `--- KIND NAME` one of its parts, the name left out where a kind has
//! one part alone. A part's text stands below its line, without the line feeds at its end. What stands before the first row is
//! for the reader.
#![tactic(auto)]

mod row;
mod told;
mod words;

pub use row::{Part, Row};
use std::alloc::Global;
pub use told::Told;
pub use words::Words;

/// What does the work of rows.
pub trait RowTeller {
    /// Tells what comes of a row.
    fn tell(&self, told: &mut Told, row: &Row<'_>);
}

/// Whether a text was told whole and is this one.
fn is_as_wanted(told: &Told, wanted: Option<&str>) -> bool {
    told.is_whole() && wanted == Some(told.text())
}

/// Tells a row that came out otherwise than wanted. Whether it came out as wanted.
fn compare<T: RowTeller>(teller: &T, report: &mut Told, row: &Row<'_>) -> bool {
    let mut told = Told::new(report.alloc());
    teller.tell(&mut told, row);
    let wanted = row.text("wanted");
    if is_as_wanted(&told, wanted) {
        return true;
    }
    let (name, wanted) = (row.name, wanted.unwrap_or("nothing"));
    report.push_all(&[
        name,
        ": wanted\n",
        wanted,
        "\n",
        name,
        ": came\n",
        told.text(),
        "\n",
    ]);
    false
}

/// Does a row, which stands behind its `=== `.
fn report_row<T: RowTeller>(teller: &T, report: &mut Told, chunk: &str) -> bool {
    match Row::read(report.alloc(), chunk) {
        Ok(row) => compare(teller, report, &row),
        Err(_) => {
            report.push("out of memory\n");
            false
        }
    }
}

/// Does the rows of a text, and tells those that came out otherwise. Whether there are rows, and all came out as wanted.
pub fn report<T: RowTeller>(teller: &T, report: &mut Told, text: &str) -> bool {
    let mut rows = text.split("\n=== ");
    let _ = rows.next();
    let mut count = 0u64;
    let mut right = 0u64;
    for chunk in rows {
        count = count.saturating_add(1);
        if report_row(teller, report, chunk) {
            right = right.saturating_add(1);
        }
    }
    count > 0 && right == count
}
