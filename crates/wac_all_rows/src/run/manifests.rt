//! Manifests of rows.

use serde_json::Value;
use std::alloc::AllocError;
use wac_rows::{Part, Row, Told};

/// A text in quotes, as JSON has it.
fn quoted(told: &Told, text: &str) -> Result<String, AllocError> {
    Value::String(String::from_str(told.alloc(), text)?).to_string(told.alloc())
}

/// Tells a text in quotes, as JSON has it.
fn tell_quoted(told: &mut Told, text: &str) {
    match quoted(told, text) {
        Ok(text) => told.push(text.as_str()),
        Err(_) => told.push("out of memory"),
    }
}

/// Tells the document that declares a world `w`: the text itself, or one of a world of these items.
fn tell_world(told: &mut Told, world: &str) {
    if world.starts_with("package ") {
        return tell_quoted(told, world);
    }
    let mut text = Told::new(told.alloc());
    text.push("package w:w; world w { ");
    text.push(world);
    text.push(" }");
    tell_quoted(told, text.text());
}

/// Tells the component of that number, as a manifest has it: its bytes are the number.
fn tell_component(told: &mut Told, number: u16, part: &Part<'_>) {
    let (name, version) = part.name.split_once('@').unwrap_or((part.name, ""));
    told.push("{\"name\":\"");
    told.push(name);
    if !version.is_empty() {
        told.push("\",\"version\":\"");
        told.push(version);
    }
    told.push("\",\"bytes\":{\"hex\":\"");
    told.show_bytes(&number.to_be_bytes());
    told.push("\"},\"world\":{\"text\":");
    tell_world(told, part.text);
    told.push("},\"select\":\"w\"}");
}

/// Tells what a manifest has of a part, and how many of its kind stand before it.
fn tell_part(told: &mut Told, number: u16, part: &Part<'_>) {
    if part.kind == "component" {
        return tell_component(told, number, part);
    }
    told.push("{\"source\":{\"text\":");
    tell_quoted(told, part.text);
    told.push("}}");
}

/// Tells the parts of a kind as the items of a list.
fn tell_items(told: &mut Told, row: &Row<'_>, kind: &str) {
    let mut number = 0u16;
    for part in &row.parts {
        if part.kind == kind {
            told.push(if number > 0 { "," } else { "" });
            tell_part(told, number, part);
            number = number.saturating_add(1);
        }
    }
}

/// Tells a row's manifest: the part `manifest` as it stands; components, and the part `plug` with the other members; or
/// components and sources, with the other members in the part `members`. The answer is the program's first word for it.
pub(crate) fn tell_manifest(told: &mut Told, row: &Row<'_>) -> &'static str {
    if let Some(manifest) = row.text("manifest") {
        told.push(manifest);
        return "compose";
    }
    told.push("{\"components\":[");
    tell_items(told, row, "component");
    if let Some(members) = row.text("plug") {
        told.push("],");
        told.push(members);
        told.push("}");
        return "plug";
    }
    told.push("],\"sources\":[");
    tell_items(told, row, "source");
    told.push("]");
    told.push(row.text_or_nothing("members"));
    told.push("}");
    "compose"
}
