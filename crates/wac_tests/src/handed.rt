//! Components that are handed in.

use super::worlds::passing_world;
use std::alloc::Global;
use std::test::Fail;
use wac_types_base::{ItemKind, Types};
use wac_workspace::*;

/// The bytes of `p:p`: it imports `f: func()`, and exports it as `g`.
pub(crate) const PASSING: &str = "0061736d0d00010007050140000100\
    0a06010001660100\
    0b0701000167010000";

/// The component of one instance of `p:p`, by the tables of the binary format; the name `x` of the instance is kept for
/// debuggers.
pub(crate) const ONE: &str = "0061736d0d000100 0705 0140000100 0a06 010001660100 0420\
    0061736d0d00010007050140000100 0a06010001660100 0b0701000167010000\
    0508 01000001 0166 0100 0606 0101 0000 0167 0b07 01 00 0167 0101 00\
    0016 0e636f6d706f6e656e742d6e616d65 01 05 05 01 00 0178\
    002b 0970726f647563657273 01 0c70726f6365737365642d6279 01 0a7761632d706172736572 06302e31312e30";

/// The source of that component.
pub(crate) const SOURCE: &str = "package m:m; let x = new p:p { ... }; export x.g as \"g\";";

/// The bytes of digits with blanks between them; none for want of memory.
pub(crate) fn maybe_bytes(alloc: Global, digits: &str) -> Option<Vec<u8>> {
    let mut text = String::new(alloc);
    for c in digits.chars() {
        if c != ' ' {
            text.push(c).ok()?;
        }
    }
    hex::decode(alloc, text.as_str()).ok()
}

/// The bytes of digits with blanks between them.
pub(crate) fn bytes_of(alloc: Global, digits: &str) -> Result<Vec<u8>, Fail> {
    Ok(maybe_bytes(alloc, digits).ok_or("no digits")?)
}

/// Adds a component of these bytes with the world of `p:p`; none where the world cannot be made.
pub(crate) fn add(
    alloc: Global,
    workspace: &mut Workspace,
    name: &str,
    bytes: Vec<u8>,
) -> Option<Result<(), AddPackageError>> {
    let mut types = Types::new(alloc, u64::MAX);
    let world = passing_world(alloc, &mut types)?;
    if !types.has(ItemKind::Component(world)) {
        return None;
    }
    Some(workspace.add_package(name, None, bytes, &types, world))
}

/// A workspace that holds `p:p`.
pub(crate) fn passing_workspace(alloc: Global) -> Result<Workspace, Fail> {
    let mut workspace = Workspace::new(alloc);
    let bytes = bytes_of(alloc, PASSING)?;
    match add(alloc, &mut workspace, "p:p", bytes) {
        Some(Ok(())) => Ok(workspace),
        _ => Err("p:p is not added")?,
    }
}
