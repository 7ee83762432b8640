//! What is looked at in bytes, as texts.

use super::told::{Text, tell_lines};
use super::{ReadError, Reading, read, read_down};
use std::alloc::Global;

/// What the outermost level says.
pub fn tell_level(alloc: Global, bytes: &[u8]) -> Result<String, ReadError> {
    let reading = read(alloc, bytes)?;
    reading.text(alloc)
}

/// What the bytes say through the compositions in them, down to the leaves.
pub fn tell_down(alloc: Global, bytes: &[u8], leaves: &[&[u8]]) -> Result<String, ReadError> {
    let whole = read_down(alloc, bytes, leaves)?;
    whole.text(alloc)
}

/// The bytes of the components that are nested in the outermost level.
pub fn nested_in(alloc: Global, bytes: &[u8]) -> Result<Vec<Vec<u8>>, ReadError> {
    let reading = read(alloc, bytes)?;
    Ok(reading.components)
}

/// The chain of each export, one a line.
fn tell_chains(alloc: Global, bytes: &[u8], leaves: &[&[u8]]) -> Result<String, ReadError> {
    let whole = read_down(alloc, bytes, leaves)?;
    let chains = whole.chains(alloc)?;
    tell_lines(alloc, &chains)
}

/// The bytes of the components that are nested, one a line.
fn tell_nested(alloc: Global, bytes: &[u8]) -> Result<String, ReadError> {
    let mut text = Text::new(alloc);
    for component in &nested_in(alloc, bytes)? {
        text.push_bytes(component);
        text.push("\n");
    }
    text.finish()
}

/// Writes the contents of the custom sections.
fn push_contents(text: &mut Text, reading: &Reading) {
    for custom in &reading.customs {
        text.push(custom.name.as_str());
        text.push(": ");
        text.push_bytes(&custom.contents);
        text.push("\n");
    }
}

/// Writes who is said to have written the component.
fn push_processors(alloc: Global, text: &mut Text, reading: &Reading) -> Result<(), ReadError> {
    for processor in &reading.processors(alloc)? {
        text.push("by ");
        text.push(processor.name.as_str());
        text.push(" ");
        text.push(processor.version.as_str());
        text.push("\n");
    }
    Ok(())
}

/// Writes the names for debuggers.
fn push_debug_names(alloc: Global, text: &mut Text, reading: &Reading) -> Result<(), ReadError> {
    for name in &reading.debug_names(alloc)? {
        text.push(name.sort.word());
        text.push(" ");
        text.push_number(name.index as usize);
        text.push(" is called ");
        text.push(name.name.as_str());
        text.push("\n");
    }
    Ok(())
}

/// What the custom sections say: contents, processors, names for debuggers.
fn tell_customs(alloc: Global, bytes: &[u8]) -> Result<String, ReadError> {
    let reading = read(alloc, bytes)?;
    let mut text = Text::new(alloc);
    push_contents(&mut text, &reading);
    push_processors(alloc, &mut text, &reading)?;
    push_debug_names(alloc, &mut text, &reading)?;
    text.finish()
}

/// That the outermost level is read.
fn tell_read(alloc: Global, bytes: &[u8]) -> Result<String, ReadError> {
    let _ = read(alloc, bytes)?;
    Ok(String::from_str(alloc, "read")?)
}

/// The lengths of the fronts of the bytes that are read.
fn tell_fronts(alloc: Global, bytes: &[u8]) -> Result<String, ReadError> {
    let mut text = Text::new(alloc);
    for length in 0..=bytes.len() {
        let front = bytes.get(..length).unwrap_or(bytes);
        if read(alloc, front).is_ok() {
            text.push_number(length);
            text.push("\n");
        }
    }
    text.finish()
}

/// What is looked at under a name. None where nothing has the name.
pub fn look(
    alloc: Global,
    bytes: &[u8],
    leaves: &[&[u8]],
    what: &str,
) -> Option<Result<String, ReadError>> {
    match what {
        "" => Some(tell_level(alloc, bytes)),
        "reading" => Some(tell_read(alloc, bytes)),
        "whole" => Some(tell_down(alloc, bytes, leaves)),
        "chains" => Some(tell_chains(alloc, bytes, leaves)),
        "components" => Some(tell_nested(alloc, bytes)),
        "customs" => Some(tell_customs(alloc, bytes)),
        "fronts" => Some(tell_fronts(alloc, bytes)),
        _ => None,
    }
}
