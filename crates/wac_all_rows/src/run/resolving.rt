//! Documents that are resolved over the packages of a workspace, and encoded by their resolutions.

use crate::run::refusals::tell_refusal;
use crate::run::wirings::tell_wiring;
use std::alloc::Global;
use wac::{EncodeOptions, PackageRef, Workspace};
use wac_parser_encode::EncodeResolution;
use wac_parser_read::ParseDocument;
use wac_parser_resolve::{Packages, ResolveDocument};
use wac_parser_tree::Document;
use wac_reader::Leaf;
use wac_rows::{Told, Words};

/// The number of the collection of a document's graph.
const NUMBER: u64 = u64::MAX;

/// The packages of a workspace under their keys.
fn packages_of<'a>(told: &mut Told, workspace: &'a Workspace) -> Packages<'a> {
    let mut packages: Packages<'a> = Packages::new(told.alloc());
    for one in workspace.packages() {
        if packages.insert(one.package.key(), one).is_err() {
            told.push("out of memory");
        }
    }
    packages
}

/// A package as a component that is taken as it is.
fn leaf_of(alloc: Global, package: PackageRef<'_>) -> Option<Leaf> {
    let key = package.package.key();
    Some(Leaf {
        key: format!(in alloc; "{key}").ok()?,
        bytes: Vec::from_slice(alloc, package.package.bytes()).ok()?,
    })
}

/// The packages of a workspace as components that are taken as they are.
pub(crate) fn leaves_of(told: &mut Told, workspace: &Workspace) -> Vec<Leaf> {
    let mut words = Words::new(told.alloc(), "");
    let mut leaves = Vec::new(told.alloc());
    for package in workspace.packages() {
        match leaf_of(told.alloc(), package) {
            Some(leaf) => words.keep(&mut leaves, leaf),
            None => told.push("out of memory"),
        }
    }
    told.push(words.fault());
    leaves
}

// What owns a document is generic in its type: a proof then need not take the whole tree of types apart.

/// The component of a document over packages. A fault is told.
fn encoded<D: ResolveDocument>(
    document: &D,
    told: &mut Told,
    packages: &Packages<'_>,
) -> Option<Vec<u8>> {
    let answer = match document.resolve(told.alloc(), packages, NUMBER) {
        Ok(resolution) => resolution.encode(EncodeOptions::default()),
        Err(fault) => Err(fault),
    };
    match answer {
        Ok(bytes) => Some(bytes),
        Err(fault) => {
            tell_refusal(told, &fault);
            None
        }
    }
}

/// The component of a source's document over the packages of a workspace. A fault is told.
fn component_of<'s, D: ParseDocument<'s> + ResolveDocument>(
    source: &'s str,
    told: &mut Told,
    workspace: &Workspace,
) -> Option<Vec<u8>> {
    let packages = packages_of(told, workspace);
    match D::parse(told.alloc(), source) {
        Ok(document) => encoded(&document, told, &packages),
        Err(fault) => {
            told.show(&fault);
            None
        }
    }
}

/// Tells the keys of the packages that come into the graph of a document over packages, in order.
fn tell_used<D: ResolveDocument>(document: &D, told: &mut Told, packages: &Packages<'_>) {
    match document.resolve(told.alloc(), packages, NUMBER) {
        Ok(resolution) => {
            told.push("uses");
            for package in resolution.graph().packages() {
                told.push(" ");
                told.show(&package.key());
            }
        }
        Err(fault) => tell_refusal(told, &fault),
    }
}

/// Tells the keys of the packages of a workspace that come into the graph of a source's document.
fn tell_used_by<'s, D: ParseDocument<'s> + ResolveDocument>(
    source: &'s str,
    told: &mut Told,
    workspace: &Workspace,
) {
    let packages = packages_of(told, workspace);
    match D::parse(told.alloc(), source) {
        Ok(document) => tell_used(&document, told, &packages),
        Err(fault) => told.show(&fault),
    }
}

/// Tells the keys of the packages of a workspace that come into the graph of a text's document.
pub(crate) fn tell_uses(workspace: &Workspace, told: &mut Told, source: &str) {
    tell_used_by::<Document<'_>>(source, told, workspace);
}

/// Tells the wiring of the component that a source's document is resolved and encoded to, over the packages of a workspace, each
/// of which is taken as it is; or the refusal.
pub(crate) fn tell_resolved(workspace: &Workspace, told: &mut Told, source: &str) {
    if let Some(bytes) = component_of::<Document<'_>>(source, told, workspace) {
        let leaves = leaves_of(told, workspace);
        tell_wiring(told, &bytes, &leaves);
    }
}

/// Tells the bytes of the component that a source's document is resolved and encoded to, or the refusal.
pub(crate) fn tell_encoded(workspace: &Workspace, told: &mut Told, source: &str) {
    if let Some(bytes) = component_of::<Document<'_>>(source, told, workspace) {
        told.show_bytes(&bytes);
    }
}
