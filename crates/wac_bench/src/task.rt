//! What is measured.

use crate::counter::Counter;
use std::alloc::Global;
use wac_parser_json::write_json;
use wac_parser_print::DocumentPrinter;
use wac_parser_read::ParseDocument;
use wac_parser_tree::Document;

/// What is done with a document once it is parsed.
#[derive(Clone, Copy)]
pub(crate) enum Task {
    Parse,
    Print,
    Json,
}

impl Task {
    /// The task of this name.
    pub(crate) fn named(name: &str) -> Option<Task> {
        match name {
            "parse" => Some(Task::Parse),
            "print" => Some(Task::Print),
            "json" => Some(Task::Json),
            _ => None,
        }
    }
}

/// How many bytes a source has, how many statements, and how many bytes were printed of it.
#[derive(Clone, Copy)]
pub(crate) struct Counts {
    pub(crate) bytes: usize,
    pub(crate) statements: usize,
    pub(crate) printed: usize,
}

/// How many bytes a document prints as.
fn printed(document: &Document<'_>, source: &str) -> usize {
    let mut printer = DocumentPrinter::new(Counter { count: 0 }, source, None);
    let _ = printer.document(document);
    printer.into_writer().count
}

/// How many bytes its JSON has.
fn json_bytes(document: &Document<'_>) -> usize {
    let mut counter = Counter { count: 0 };
    let _ = write_json(document, &mut counter);
    counter.count
}

fn counts_of(document: &Document<'_>, source: &str, task: Task) -> Counts {
    let printed = match task {
        Task::Parse => 0,
        Task::Print => printed(document, source),
        Task::Json => json_bytes(document),
    };
    Counts {
        bytes: source.len(),
        statements: document.statements.len(),
        printed,
    }
}

/// Documents that are measured. The one that owns them does not know their lifetime: a proof then need not take the whole
/// tree of types apart.
pub(crate) trait MeasureDocument: Sized {
    fn measure(&self, source: &str, task: Task) -> Counts;
}

impl<'s> MeasureDocument for Document<'s> {
    fn measure(&self, source: &str, task: Task) -> Counts {
        counts_of(self, source, task)
    }
}

/// What is counted of a source; none where it is no document.
pub(crate) fn measured<'s, D: ParseDocument<'s> + MeasureDocument>(
    source: &'s str,
    alloc: Global,
    task: Task,
) -> Option<Counts> {
    match D::parse(alloc, source) {
        Ok(document) => Some(document.measure(source, task)),
        Err(_) => None,
    }
}
