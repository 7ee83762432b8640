//! Documents over values, which no row can state, that are resolved, and not encoded by their resolutions.

use super::worlds::add_world;
use super::worlds_rows::{VALUE, add};
use std::alloc::Global;
use std::test::Fail;
use wac_parser_encode::EncodeResolution;
use wac_parser_read::ParseDocument;
use wac_parser_resolve::{Packages, ResolveDocument};
use wac_parser_tree::Document;
use wac_types_base::Types;
use wac_workspace::*;

/// The packages of a workspace under their keys.
fn packages_of<'a>(alloc: Global, workspace: &'a Workspace) -> Result<Packages<'a>, Fail> {
    let mut packages: Packages<'a> = Packages::new(alloc);
    for one in workspace.packages() {
        let _ = packages.insert(one.package.key(), one)?;
    }
    Ok(packages)
}

/// Why a source's document is not encoded, though it is resolved. What owns a document is generic in its type: a proof then need
/// not take the whole tree of types apart.
fn encode_fault<'s, D: ParseDocument<'s> + ResolveDocument>(
    source: &'s str,
    alloc: Global,
    packages: &Packages<'_>,
) -> Result<String, Fail> {
    let document = D::parse(alloc, source)?;
    let resolution = document.resolve(alloc, packages, 7)?;
    match resolution.encode(EncodeOptions::default()) {
        Ok(_bytes) => Err("encoded")?,
        Err(fault) => Ok(format!(in alloc; "{fault}")?),
    }
}

#[test]
fn values_that_are_not_written(rt: HostRuntime) -> Result<(), Fail> {
    let alloc = rt.alloc();
    let mut workspace = Workspace::new(alloc);
    let mut types = Types::new(alloc, u64::MAX);
    let asking = add_world(alloc, &mut types, &[("v", VALUE)], &[]);
    add(alloc, &mut workspace, ("a:a", 1), &types, asking)?;
    let giving = add_world(alloc, &mut types, &[], &[("v", VALUE)]);
    add(alloc, &mut workspace, ("b:b", 2), &types, giving)?;
    let packages = packages_of(alloc, &workspace)?;
    let asked = "package m:m; let x = new a:a { ... };";
    let fault = encode_fault::<Document<'_>>(asked, alloc, &packages)?;
    assert_eq!(rt; fault.as_str(), "a type of `v` cannot be written");
    let taken = "package m:m; let x = new b:b { ... }; let y = x.v;";
    let fault = encode_fault::<Document<'_>>(taken, alloc, &packages)?;
    assert_eq!(rt; fault.as_str(), "a type of `v` cannot be written");
    Ok(())
}
