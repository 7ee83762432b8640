//! Rows over worlds that no text can state.

use super::worlds::{add_func, add_instance, add_resource, add_world};
use std::alloc::Global;
use std::fmt::Display;
use std::test::Fail;
use wac_reader::{Leaf, ReadError, tell};
use wac_types_base::{ItemKind, PrimitiveType, Types, ValueType, WorldId};
use wac_workspace::*;

/// Adds a component whose only byte is this.
pub(crate) fn add(
    alloc: Global,
    workspace: &mut Workspace,
    leaf: (&str, u8),
    types: &Types,
    world: Option<WorldId>,
) -> Result<(), Fail> {
    let world = world.ok_or("no world")?;
    if !types.has(ItemKind::Component(world)) {
        return Err("no such world")?;
    }
    let bytes = Vec::from_slice(alloc, &[leaf.1])?;
    Ok(workspace.add_package(leaf.0, None, bytes, types, world)?)
}

/// Components that were handed in, each of one byte.
fn leaves_of(alloc: Global, handed: &[(&str, u8)]) -> Result<Vec<Leaf>, Fail> {
    let mut leaves = Vec::new(alloc);
    for (key, byte) in handed {
        leaves.push(Leaf {
            key: String::from_str(alloc, key)?,
            bytes: Vec::from_slice(alloc, &[*byte])?,
        })?;
    }
    Ok(leaves)
}

/// The wiring of bytes.
fn wiring_text(alloc: Global, bytes: &[u8], leaves: &[Leaf]) -> Result<String, Fail> {
    let mut text = String::new(alloc);
    match tell(alloc, &mut text, bytes, leaves) {
        Ok(()) => Ok(text),
        Err(ReadError::Memory) => Err("out of memory")?,
        Err(ReadError::At(at, what)) => Ok(format!(in alloc; "unreadable at {at}: {what}\n")?),
    }
}

/// The text of a refusal, which is dropped here alone.
fn refusal_text<E: Display + Drop>(alloc: Global, fault: E) -> Result<String, Fail> {
    Ok(format!(in alloc; "{fault}")?)
}

/// The wiring of a source, or the text of its refusal.
fn shown(
    alloc: Global,
    workspace: &mut Workspace,
    handed: &[(&str, u8)],
    source: &str,
) -> Result<String, Fail> {
    let leaves = leaves_of(alloc, handed)?;
    match workspace.compose(source, EncodeOptions::default()) {
        Ok(output) => wiring_text(alloc, &output.bytes, &leaves),
        Err(fault) => refusal_text(alloc, fault),
    }
}

/// An item that is a value.
pub(crate) const VALUE: ItemKind = ItemKind::Value(ValueType::Primitive(PrimitiveType::U32));

#[test]
fn a_value_asked_for(rt: HostRuntime) -> Result<(), Fail> {
    let alloc = rt.alloc();
    let mut workspace = Workspace::new(alloc);
    let mut types = Types::new(alloc, u64::MAX);
    let world = add_world(alloc, &mut types, &[("v", VALUE)], &[]);
    add(alloc, &mut workspace, ("a:a", 1), &types, world)?;
    let text = shown(
        alloc,
        &mut workspace,
        &[],
        "package m:m; let x = new a:a { ... };",
    )?;
    assert_eq!(rt; text.as_str(), "a type of `v` cannot be written");
    Ok(())
}

#[test]
fn a_value_taken(rt: HostRuntime) -> Result<(), Fail> {
    let alloc = rt.alloc();
    let mut workspace = Workspace::new(alloc);
    let mut types = Types::new(alloc, u64::MAX);
    let world = add_world(alloc, &mut types, &[], &[("v", VALUE)]);
    add(alloc, &mut workspace, ("a:a", 1), &types, world)?;
    let source = "package m:m; let x = new a:a { ... }; let y = x.v;";
    let text = shown(alloc, &mut workspace, &[], source)?;
    assert_eq!(rt; text.as_str(), "a type of `v` cannot be written");
    Ok(())
}

#[test]
fn two_names_of_one_identifier(rt: HostRuntime) -> Result<(), Fail> {
    let alloc = rt.alloc();
    let mut workspace = Workspace::new(alloc);
    let mut types = Types::new(alloc, u64::MAX);
    let func = add_func(alloc, &mut types, &[]).ok_or("no function")?;
    let one = add_instance(alloc, &mut types, "a:b/i", &[("f", func)]).ok_or("no instance")?;
    let two = add_instance(alloc, &mut types, "a:b/i", &[("f", func), ("g", func)]);
    let two = two.ok_or("no instance")?;
    let world = add_world(alloc, &mut types, &[("a:b/c", one)], &[]);
    add(alloc, &mut workspace, ("d:x", 1), &types, world)?;
    let world = add_world(alloc, &mut types, &[("a:b/e", two)], &[]);
    add(alloc, &mut workspace, ("d:y", 2), &types, world)?;
    let source = "package m:m; let x = new d:x { ... }; let y = new d:y { ... };";
    let text = shown(alloc, &mut workspace, &[("d:x", 1), ("d:y", 2)], source)?;
    assert_eq!(rt;
        text.as_str(),
        "import a:b/c: instance { export f: func(); export g: func(); }\n\
         #0 = d:x (a:b/c = import a:b/c)\n\
         #1 = d:y (a:b/e = import a:b/c)\n"
    );
    Ok(())
}

#[test]
fn a_resource_that_no_item_is(rt: HostRuntime) -> Result<(), Fail> {
    let alloc = rt.alloc();
    let mut workspace = Workspace::new(alloc);
    let mut types = Types::new(alloc, u64::MAX);
    let resource = add_resource(alloc, &mut types, "r").ok_or("no resource")?;
    let func = add_func(alloc, &mut types, &[("x", ValueType::Own(resource))]);
    let func = func.ok_or("no function")?;
    let world = add_world(alloc, &mut types, &[("f", func)], &[]);
    add(alloc, &mut workspace, ("a:a", 1), &types, world)?;
    let text = shown(
        alloc,
        &mut workspace,
        &[],
        "package m:m; let x = new a:a { ... };",
    )?;
    assert_eq!(rt; text.as_str(), "a type of `f` cannot be written");
    Ok(())
}
