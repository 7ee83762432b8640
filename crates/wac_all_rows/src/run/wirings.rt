//! What a manifest comes to: for each output its name and its wiring, read from its bytes, then what is told of a refusal.

use crate::run::ends::Ends;
use crate::run::manifests::tell_manifest;
use std::alloc::{AllocError, Global};
use wac::MemoryFiles;
use wac::manifest::{BytesData, Component, ComposeManifest, PlugManifest};
use wac_reader::{Leaf, ReadError, tell};
use wac_rows::{Row, Told, Words};

/// The components of a manifest; none where it is a bad one.
fn components_of(alloc: Global, manifest: &str) -> Option<Vec<Component>> {
    match ComposeManifest::read(alloc, manifest) {
        Ok(manifest) => Some(manifest.components),
        Err(_) => Some(PlugManifest::read(alloc, manifest).ok()?.components),
    }
}

/// The name of a component with its version.
fn key_of(
    alloc: Global,
    name: String,
    version: Option<semver::Version>,
) -> Result<String, AllocError> {
    match version {
        None => Ok(name),
        Some(version) => format!(in alloc; "{name}@{version}"),
    }
}

/// The bytes of a component; none where its file is not there.
fn bytes_of(alloc: Global, bytes: BytesData, files: &MemoryFiles) -> Option<Vec<u8>> {
    match bytes {
        BytesData::Bytes(bytes) => Some(bytes),
        BytesData::File(path) => Vec::from_slice(alloc, files.get(path.as_str())?).ok(),
    }
}

/// A handed component.
fn leaf_of(alloc: Global, component: Component, files: &MemoryFiles) -> Option<Leaf> {
    let Component {
        name,
        version,
        bytes,
        world: _world,
        select: _select,
    } = component;
    let key = key_of(alloc, name, version).ok()?;
    let bytes = bytes_of(alloc, bytes, files)?;
    Some(Leaf { key, bytes })
}

/// The components that a manifest hands in.
fn leaves_of(words: &mut Words<'_>, manifest: &str, files: &MemoryFiles) -> Vec<Leaf> {
    let mut leaves = Vec::new(words.alloc());
    if let Some(components) = components_of(words.alloc(), manifest) {
        for component in components {
            if let Some(leaf) = leaf_of(words.alloc(), component, files) {
                words.keep(&mut leaves, leaf);
            }
        }
    }
    leaves
}

/// Tells the wiring of a component.
pub(crate) fn tell_wiring(told: &mut Told, bytes: &[u8], leaves: &[Leaf]) {
    let mut text = String::new(told.alloc());
    let answer = tell(told.alloc(), &mut text, bytes, leaves);
    told.push(text.as_str());
    match answer {
        Ok(()) => {}
        Err(ReadError::Memory) => told.push("out of memory"),
        Err(ReadError::At(at, what)) => {
            told.push("unreadable at ");
            told.show(&at);
            told.push(": ");
            told.push(what);
            told.push("\n");
        }
    }
}

/// Tells a line that the program printed, of a name, a length and digits: the output's name, and its wiring.
fn tell_line(told: &mut Told, line: &str, leaves: &[Leaf]) {
    let mut words = Words::new(told.alloc(), line);
    told.push(words.take());
    told.push("\n");
    let length = words.take_number();
    match hex::decode(told.alloc(), words.rest()) {
        Ok(bytes) if bytes.len() as u64 == length => tell_wiring(told, &bytes, leaves),
        _ => told.push("a line with another length or other digits\n"),
    }
    told.push(words.fault());
}

/// Tells what comes of a row's manifest.
pub(crate) fn tell_wirings(told: &mut Told, row: &Row<'_>) {
    let mut manifest = Told::new(told.alloc());
    let word = tell_manifest(&mut manifest, row);
    let mut words = Words::new(told.alloc(), "");
    let mut ends = Ends::new(told, row, manifest.text());
    let leaves = leaves_of(&mut words, manifest.text(), ends.files());
    let _ = ends.run(told.alloc(), &[word, "-"]);
    let mut lines = Told::new(told.alloc());
    lines.push_bytes(ends.printed());
    for line in lines.text().lines() {
        tell_line(told, line, &leaves);
    }
    told.push_bytes(ends.told());
    told.push(words.fault());
}
