//! Plugging as a text, of names that no row can state.

ghost use Rattle.std.specs.Prelude.{IfOk};
ghost use Rattle.wac_texts.specs.Worlds.{HasWorld};

use super::handed::bytes_of;
use super::worlds::{add_func, add_world};
use std::alloc::Global;
use std::test::Fail;
use wac_texts::{PlugTextError, plug_text};
use wac_types_base::{ItemKind, Types};
use wac_workspace::*;

/// The package of a name.
fn find<'a>(workspace: &'a Workspace, name: &str) -> Result<PackageRef<'a>, Fail>
    ensures { IfOk result HasWorld }
{
    match workspace.get(name, None) {
        Some(package) => Ok(package),
        None => Err(Fail::from("no package of that name")),
    }
}

/// Adds `q:q`, which imports a function of that name and exports `h`.
fn add_socket(alloc: Global, workspace: &mut Workspace, name: &str) -> Result<(), Fail> {
    let mut types = Types::new(alloc, u64::MAX);
    let func = add_func(alloc, &mut types, &[]).ok_or("no function")?;
    let world = add_world(alloc, &mut types, &[(name, func)], &[("h", func)]);
    let world = world.ok_or("no world")?;
    if !types.has(ItemKind::Component(world)) {
        return Err("no such world")?;
    }
    Ok(workspace.add_package("q:q", None, bytes_of(alloc, "00")?, &types, world)?)
}

/// Adds `r:r`, which exports a function of that name.
fn add_plug(alloc: Global, workspace: &mut Workspace, name: &str) -> Result<(), Fail> {
    let mut types = Types::new(alloc, u64::MAX);
    let func = add_func(alloc, &mut types, &[]).ok_or("no function")?;
    let world = add_world(alloc, &mut types, &[], &[(name, func)]);
    let world = world.ok_or("no world")?;
    if !types.has(ItemKind::Component(world)) {
        return Err("no such world")?;
    }
    Ok(workspace.add_package("r:r", None, bytes_of(alloc, "01")?, &types, world)?)
}

/// What plugging one package into another is spelled as.
fn spelled(
    alloc: Global,
    workspace: &Workspace,
    plug: &str,
    socket: &str,
) -> Result<Result<String, PlugTextError>, Fail> {
    let plug = find(workspace, plug)?;
    let socket = find(workspace, socket)?;
    Ok(plug_text(alloc, "v:v", &[plug], socket))
}

#[test]
fn a_name_that_no_string_spells(rt: HostRuntime) -> Result<(), Fail> {
    let alloc = rt.alloc();
    let mut workspace = Workspace::new(alloc);
    add_socket(alloc, &mut workspace, "a\"b")?;
    add_plug(alloc, &mut workspace, "a\"b")?;
    let told = spelled(alloc, &workspace, "r:r", "q:q")?;
    assert!(rt; matches!(told, Err(PlugTextError::NameNotSpellable)));
    Ok(())
}
