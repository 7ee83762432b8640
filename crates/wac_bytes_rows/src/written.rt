//! What is written of lines: of each alone, and of the entries of a component.

use crate::core_items::{core_value_of, take_core};
use crate::declarations::{take_alias, take_declarations, take_outer};
use crate::entries::{take_debug_names, take_entries, take_entry, take_export, take_processor};
use crate::types::take_defined;
use crate::values::{take_description, take_sort, take_value};
use wac_graph_bytes::{
    SizeError, push_alias, push_bound, push_component, push_core_description, push_core_value,
    push_declarations, push_defined_type, push_description, push_export, push_inside, push_sort,
    push_unsigned, push_value_type,
};
use wac_rows::{Row, Told, Words};

/// Writes a bound: `wide N` or `narrow N`.
fn write_bound(out: &mut Vec<u8>, words: &mut Words<'_>) -> Result<(), SizeError> {
    let is_wide = words.take() == "wide";
    push_bound(out, is_wide, words.take_number())
}

/// Writes a word that has one byte.
fn write_sort(out: &mut Vec<u8>, words: &mut Words<'_>) -> Result<(), SizeError> {
    Ok(push_sort(out, take_sort(words))?)
}

/// Writes a core value type.
fn write_core_value(out: &mut Vec<u8>, words: &mut Words<'_>) -> Result<(), SizeError> {
    let word = words.take();
    Ok(push_core_value(out, core_value_of(words, word))?)
}

/// Writes what words behind the first say.
fn write_words(out: &mut Vec<u8>, words: &mut Words<'_>, what: &str) -> Result<(), SizeError> {
    match what {
        "unsigned" => push_unsigned(out, words.take_number()),
        "value" => push_value_type(out, take_value(words)),
        "description" => push_description(out, take_description(words)),
        "sort" => write_sort(out, words),
        "core_value" => write_core_value(out, words),
        "bound" => write_bound(out, words),
        _ => {
            words.refuse("no such line of bytes");
            Ok(())
        }
    }
}

/// Writes what a line says: `unsigned N`, `bound WIDTH N`, `value V`, `type TYPE`, `description D`, `sort SORT`, `alias ..`,
/// `outer ..`, `declarations ..`, `core CORE`, `core_value V`, `export ..`, or `inside ENTRY` (what the section of that entry
/// holds).
fn write_line(out: &mut Vec<u8>, words: &mut Words<'_>) -> Result<(), SizeError> {
    match words.take() {
        "type" => push_defined_type(out, &take_defined(words)),
        "alias" => push_alias(out, &take_alias(words)),
        "outer" => push_alias(out, &take_outer(words)),
        "declarations" => push_declarations(out, &take_declarations(words)),
        "core" => push_core_description(out, take_core(words)),
        "export" => push_export(out, &take_export(words)),
        "inside" => push_inside(out, &take_entry(words)),
        what => write_words(out, words, what),
    }
}

/// Tells the digits of what a line writes, or why it is refused and how many bytes are written then.
fn tell_line(told: &mut Told, line: &str) {
    let mut out = Vec::new(told.alloc());
    let mut words = Words::new(told.alloc(), line);
    match write_line(&mut out, &mut words) {
        Ok(()) => told.show_bytes(&out),
        Err(fault) => {
            told.show(&fault);
            told.push(": ");
            told.show(&out.len());
            told.push(" bytes");
        }
    }
    told.push(words.fault());
}

/// Tells what the lines of a text write, each on a line.
pub(crate) fn tell_lines(told: &mut Told, text: &str) {
    for line in text.split('\n') {
        told.push(line);
        told.push(": ");
        tell_line(told, line);
        told.push("\n");
    }
}

/// Tells the digits of a component of the entries of a row.
pub(crate) fn tell_component(told: &mut Told, row: &Row<'_>) {
    let mut words = Words::new(told.alloc(), row.first().text);
    let entries = take_entries(&mut words);
    let mut debug = words.inside(row.text_or_nothing("debug"));
    let names = take_debug_names(&mut debug);
    let mut by = debug.inside(row.text_or_nothing("processor"));
    let processor = match by.rest() {
        "" => None,
        _ => Some(take_processor(&mut by)),
    };
    let mut out = Vec::new(told.alloc());
    match push_component(told.alloc(), &mut out, &entries, processor.as_ref(), &names) {
        Ok(()) => told.show_bytes(&out),
        Err(fault) => told.show(&fault),
    }
    told.push(by.fault());
}
