//! What a graph is encoded to, as a text.

use crate::lines::PACKAGE;
use std::alloc::Global;
use wac_graph_core::CompositionGraph;
use wac_graph_encode::{EncodeError, EncodeGraph, EncodeOptions, Encoded, Processor};
use wac_reader::{ReadError, nested_in, tell_down, tell_level};
use wac_rows::{Told, Words};
use wac_types_base::ItemKind;

/// The numbers of the collections.
const NUMBERS: (u64, u64) = (8, 9);

/// How a graph is encoded: nested and validated where nothing else is said.
#[derive(Clone, Copy)]
pub(crate) struct Manner<'a> {
    pub(crate) imports_packages: bool,
    pub(crate) omits_validation: bool,
    /// Who is said to have written the component: a name and a version.
    pub(crate) processor: Option<&'a str>,
}

/// Who is said to have written the component.
fn take_processor(words: &mut Words<'_>) -> Processor {
    let name = words.take_text();
    Processor {
        name,
        version: words.take_text(),
    }
}

/// The options that the encoder takes.
fn options_of(told: &mut Told, manner: Manner<'_>) -> EncodeOptions {
    let mut words = Words::new(told.alloc(), manner.processor.unwrap_or(""));
    let processor = match manner.processor {
        Some(_) => Some(take_processor(&mut words)),
        None => None,
    };
    told.push(words.fault());
    EncodeOptions {
        define_components: !manner.imports_packages,
        validate: !manner.omits_validation,
        processor,
    }
}

/// Whether these bytes alone were made.
fn is_made<'a>(made: &'a Result<Vec<u8>, EncodeError>, bytes: &'a [u8]) -> bool {
    match made {
        Ok(again) => again.as_slice() == bytes,
        Err(_) => false,
    }
}

/// Tells it, if the bytes alone are not those beside the world, or if its collection has another number than was asked for.
fn compare(graph: &CompositionGraph, options: EncodeOptions, told: &mut Told, encoded: &Encoded) {
    let made = graph.encode(options);
    if !is_made(&made, encoded.bytes.as_slice()) {
        told.push("`encode` gives other bytes");
    }
    if encoded.types.number() != NUMBERS.1 {
        told.push("the world's collection has another number");
    }
}

/// What a graph is encoded to, or its refusal.
pub(crate) fn encoded_of(
    graph: &CompositionGraph,
    manner: Manner<'_>,
    told: &mut Told,
) -> Result<Encoded, EncodeError> {
    let options = options_of(told, manner);
    let again = options_of(told, manner);
    let answer = graph.encode_world(options, NUMBERS);
    if let Ok(encoded) = &answer {
        compare(graph, again, told, encoded);
    }
    answer
}

/// Tells what the slow reader tells, or where it does not read the bytes.
fn tell_read(told: &mut Told, answer: Result<String, ReadError>) {
    match answer {
        Ok(text) => told.push(text.as_str()),
        Err(ReadError::At(at, what)) => {
            told.push("the bytes are not read at ");
            told.show(&at);
            told.push(what);
        }
        Err(ReadError::Memory) => told.push("out of memory"),
    }
}

/// Tells names, each behind a space.
fn tell_names(told: &mut Told, names: &[String]) {
    for name in names {
        told.push(" ");
        told.push(name.as_str());
    }
}

/// Tells the names of a world's imports and exports, as `world f g -> h`.
fn tell_world(told: &mut Told, encoded: &Encoded) {
    if !encoded.types.has(ItemKind::Component(encoded.world)) {
        return told.push("the world does not stand");
    }
    let world = encoded.types.world(encoded.world);
    told.push("world");
    tell_names(told, world.imports.names());
    told.push(" ->");
    tell_names(told, world.exports.names());
}

/// Tells bytes as hex digits, sixteen bytes a line.
fn tell_hex(told: &mut Told, bytes: &[u8]) {
    for chunk in bytes.chunks(16) {
        told.show_bytes(chunk);
        told.push("\n");
    }
}

/// Tells the bytes of the components that are nested, each below a line.
fn tell_components(told: &mut Told, bytes: &[u8]) {
    match nested_in(told.alloc(), bytes) {
        Ok(components) => {
            for component in &components {
                told.push("component\n");
                tell_hex(told, component);
            }
        }
        Err(_) => told.push("the bytes are not read"),
    }
}

/// Tells what is looked at.
fn tell_look(told: &mut Told, encoded: &Encoded, what: &str) {
    let alloc: Global = told.alloc();
    match what {
        "" => {
            tell_read(told, tell_level(alloc, &encoded.bytes));
            tell_world(told, encoded);
        }
        "bytes" => tell_hex(told, &encoded.bytes),
        "components" => tell_components(told, &encoded.bytes),
        "whole" => tell_read(
            told,
            tell_down(alloc, &encoded.bytes, &[PACKAGE.as_slice()]),
        ),
        _ => told.push("no such thing to show"),
    }
}

/// Tells what a refusal says, and which nodes it names.
fn tell_refusal(told: &mut Told, fault: &EncodeError) {
    match fault {
        EncodeError::ImplicitImportConflict {
            import: first,
            instantiation: second,
            ..
        }
        | EncodeError::ExplicitImportConflict { first, second, .. } => {
            told.show(fault);
            told.push(": ");
            told.show(first);
            told.push(", ");
            told.show(second);
        }
        EncodeError::ImportTypeMergeConflict {
            import,
            first,
            second,
            ..
        } => {
            told.push("`");
            told.show(import);
            told.push("` of ");
            told.show(first);
            told.push(" and ");
            told.show(second);
            told.push(" do not merge");
        }
        _ => told.show(fault),
    }
}

/// Tells what a graph is encoded to, or its refusal.
pub(crate) fn tell_encoded(
    graph: &CompositionGraph,
    manner: Manner<'_>,
    told: &mut Told,
    what: &str,
) {
    match encoded_of(graph, manner, told) {
        Ok(encoded) => tell_look(told, &encoded, what),
        Err(fault) => tell_refusal(told, &fault),
    }
}
