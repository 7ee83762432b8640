//! Rows of sources: tokens, parsers of parts, trees, printed texts, writers that fail, and what documents are resolved to.
#![tactic(auto)]

mod escapes;
mod made;
mod parts;
mod paths;
mod printed;
mod resolved;
mod sink;
mod steps;
mod tokens;
mod trees;
mod values;
mod writers;

use escapes::take_unescaped;
use made::tell_made;
use printed::tell_printed;
pub use resolved::ResolveRows;
use steps::tell_parts;
use tokens::{tell_line, tell_texts};
use trees::tell_tree;
use values::tell_values;
use wac_rows::{Part, Row, RowTeller, Told, Words};
use writers::tell_writers;

/// Does what the first part of a row says.
pub struct ParserRows;

/// Tells what each line of a text is, which is a source.
fn tell_lines(told: &mut Told, text: &str, kind: &str) {
    for line in text.split('\n') {
        let mut words = Words::new(told.alloc(), line);
        let source = take_unescaped(&mut words);
        tell_line(source.as_str(), told, kind);
        told.push(words.fault());
        told.push("\n");
    }
}

/// Tells what a source is.
fn tell_source(source: &str, told: &mut Told, part: &Part<'_>) {
    match part.kind {
        "texts" => tell_texts(source, told, part.name),
        "parts" => tell_parts(source, told, part.name),
        "tree" | "clones" => tell_tree(source, told, part.kind),
        "writers" | "over" => tell_writers(source, told, part.kind, part.name),
        _ => told.push("a row of no known part"),
    }
}

/// Tells what a part's source with escapes is.
fn tell_escaped(told: &mut Told, part: &Part<'_>) {
    let mut words = Words::new(told.alloc(), part.text);
    let source = take_unescaped(&mut words);
    tell_source(source.as_str(), told, part);
    told.push(words.fault());
}

/// The unit of indentation of a name.
fn unit_named(told: &mut Told, name: &str) -> &'static str {
    match name {
        "" => "  ",
        "four blanks" => "    ",
        "tabs" => "\t",
        _ => {
            told.push("no such unit of indentation");
            ""
        }
    }
}

impl RowTeller for ParserRows {
    fn tell(&self, told: &mut Told, row: &Row<'_>) {
        let part = row.first();
        match part.kind {
            "prints" => {
                let unit = unit_named(told, part.name);
                tell_printed(part.source(), told, unit);
            }
            "value" => tell_values(part.source(), told, &row.parts),
            "items" | "docs" | "spans" => tell_lines(told, part.text, part.kind),
            "made" => tell_made(told, part.name),
            _ => tell_escaped(told, &part),
        }
    }
}
