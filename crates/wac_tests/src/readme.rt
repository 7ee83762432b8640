//! The lines of code of README.md that compose and that keep names, as they stand there.

use super::handed::{PASSING, SOURCE, bytes_of};
use super::worlds::passing_world;
use std::test::Fail;
use wac_types_base::{ItemKind, Types};
use wac_types_names::{NameMap, NameMapNoIntern};
use wac_workspace::*;

#[test]
fn composing(rt: HostRuntime) -> Result<(), Fail> {
    let alloc = rt.alloc();
    let bytes = bytes_of(alloc, PASSING)?;
    let mut types = Types::new(alloc, u64::MAX);
    let world = passing_world(alloc, &mut types).ok_or("no world")?;
    if !types.has(ItemKind::Component(world)) {
        return Err("no such world")?;
    }
    let source = SOURCE;
    let mut workspace = Workspace::new(alloc);
    workspace.add_package("p:p", None, bytes, &types, world)?;
    let output = workspace.compose(source, EncodeOptions::default())?; // bytes and world
    assert_eq!(rt; output.name.as_str(), "m:m");
    Ok(())
}

#[test]
fn versions_on_a_track(rt: HostRuntime) -> Result<(), Fail> {
    let alloc = rt.alloc();
    let mut map: NameMap<String, u32> = NameMap::default(alloc);
    let mut names = NameMapNoIntern;
    map.insert(alloc, "a:b/c@0.2.10", &mut names, false, 2)?;
    let latest = map.get(alloc, "a:b/c@0.2.0", &names)?; // Some(&2)
    assert_eq!(rt; latest, Some(&2));
    Ok(())
}
