//! Steps of a workspace, one a line, each told by a line:
//! `first NUMBER` (a new workspace), `add KEY DIGITS ITEMS` (a component of these bytes and a world of these items, or the world
//! `w` of this document), `compose TEXT`, `import TEXT` (with packages imported), `resolve TEXT` (the wiring of the component
//! that the document's resolution is encoded to), `encode TEXT` (its bytes), `uses TEXT` (the packages of its graph), `spell NAME
//! SOCKET PLUG ..` (the text of plugging), `plug NAME SOCKET PLUG` (its wiring), `get NAME`, `packages` and `number`.

use crate::run::plugging::{tell_plugged, tell_spelled};
use crate::run::refusals::tell_uncomposed;
use crate::run::resolving::{tell_encoded, tell_resolved, tell_uses};
use semver::Version;
use std::alloc::Global;
use wac::{DeclareDocument, EncodeOptions, Workspace, declared_world};
use wac_parser_read::ParseDocument;
use wac_parser_resolve::{Packages, ResolveDocument};
use wac_parser_tree::Document;
use wac_rows::{Told, Words};
use wac_types_base::{ItemKind, Types, WorldId};

// What owns a document is generic in its type: a proof then need not take the whole tree of types apart.

/// The world `w` that a document declares. A fault is told.
fn declared<D: ResolveDocument + DeclareDocument>(
    document: &D,
    told: &mut Told,
) -> Option<(Types, WorldId)> {
    let none: Packages<'_> = Packages::new(told.alloc());
    match document.resolve(told.alloc(), &none, 0) {
        Ok(resolution) => {
            let world = declared_world(told.alloc(), &resolution, "w", u64::MAX);
            told.given(world)
        }
        Err(fault) => {
            told.show(&fault);
            None
        }
    }
}

/// The world `w` that a source declares. A fault is told.
fn world_of<'s, D: ParseDocument<'s> + ResolveDocument + DeclareDocument>(
    source: &'s str,
    told: &mut Told,
) -> Option<(Types, WorldId)> {
    match D::parse(told.alloc(), source) {
        Ok(document) => declared(&document, told),
        Err(fault) => {
            told.show(&fault);
            None
        }
    }
}

/// The name and the version of a key.
fn key_of(alloc: Global, key: &str) -> (&str, Option<Version>) {
    match key.split_once('@') {
        None => (key, None),
        Some((name, version)) => (name, Version::parse(alloc, version).ok()),
    }
}

/// Adds a component of these bytes and this world.
fn add_package(workspace: &mut Workspace, told: &mut Told, key: &str, digits: &str, source: &str) {
    let Some((types, world)) = world_of::<Document<'_>>(source, told) else {
        return;
    };
    let Ok(bytes) = hex::decode(told.alloc(), digits) else {
        return told.push("no digits");
    };
    if !types.has(ItemKind::Component(world)) {
        return told.push("no such world");
    }
    let (name, version) = key_of(told.alloc(), key);
    match workspace.add_package(name, version.as_ref(), bytes, &types, world) {
        Ok(()) => told.push("added"),
        Err(fault) => told.show(&fault),
    }
}

/// Adds the component that a line says.
fn add(workspace: &mut Workspace, told: &mut Told, words: &mut Words<'_>) {
    let key = words.take();
    let digits = words.take();
    let items = words.rest();
    if items.starts_with("package ") {
        return add_package(workspace, told, key, digits, items);
    }
    let mut source = Told::new(told.alloc());
    source.push("package w:w; world w { ");
    source.push(items);
    source.push(" }");
    add_package(workspace, told, key, digits, source.text());
}

/// Composes a source, with packages imported or not. Told is the output's key and bytes, or its name alone where packages are
/// imported, or the refusal.
fn compose(workspace: &mut Workspace, told: &mut Told, source: &str, imports: bool) {
    let options = EncodeOptions {
        define_components: !imports,
        validate: true,
        processor: None,
    };
    match workspace.compose(source, options) {
        Ok(output) => {
            told.push(output.name.as_str());
            if !imports {
                if let Some(version) = &output.version {
                    told.push("@");
                    told.show(version);
                }
                told.push(" ");
                told.show_bytes(output.bytes.as_slice());
            }
        }
        Err(fault) => tell_uncomposed(told, &fault),
    }
}

/// Tells the keys of the packages that are there.
fn tell_packages(workspace: &Workspace, told: &mut Told) {
    told.push("packages");
    for package in workspace.packages() {
        told.push(" ");
        told.show(&package.package.key());
    }
}

/// Tells whether there is a package of a key.
fn tell_package(workspace: &Workspace, told: &mut Told, key: &str) {
    let (name, version) = key_of(told.alloc(), key);
    match workspace.get(name, version.as_ref()) {
        Some(found) => {
            told.push("there is ");
            told.show(&found.package.key());
        }
        None => told.push("none"),
    }
}

/// Does a step, and tells what comes of it.
fn tell_step(workspace: &mut Workspace, told: &mut Told, words: &mut Words<'_>) {
    match words.take() {
        "first" => {
            *workspace = Workspace::with_first_number(told.alloc(), words.take_number());
            told.push("new");
        }
        "add" => add(workspace, told, words),
        "compose" => compose(workspace, told, words.rest(), false),
        "import" => compose(workspace, told, words.rest(), true),
        "resolve" => tell_resolved(workspace, told, words.rest()),
        "encode" => tell_encoded(workspace, told, words.rest()),
        "uses" => tell_uses(workspace, told, words.rest()),
        "spell" => tell_spelled(workspace, told, words),
        "plug" => tell_plugged(workspace, told, words),
        "get" => tell_package(workspace, told, words.rest()),
        "packages" => tell_packages(workspace, told),
        "number" => told.show(&workspace.next_number()),
        _ => told.push("no such step"),
    }
}

/// Tells what the steps of a text tell of a workspace.
pub(crate) fn tell_steps(told: &mut Told, steps: &str) {
    let mut workspace = Workspace::new(told.alloc());
    for line in steps.lines() {
        let mut words = Words::new(told.alloc(), line);
        tell_step(&mut workspace, told, &mut words);
        told.push(words.fault());
        told.push("\n");
    }
}
