//! Packages of worlds.

use crate::lines::take_item;
use semver::Version;
use std::alloc::{AllocError, Global};
use wac_rows::{Told, Words};
use wac_types::{
    BorrowedPackageKey, InterfaceId, ItemKind, NamedMap, Package, PackageKey, Type, Types, WorldId,
    same_key,
};

/// The package of a world that has this name, this version (`none` is none) and this one byte.
fn package_of(
    types: &mut Types,
    told: &mut Told,
    (name, version): (&str, &str),
    byte: u8,
    world: WorldId,
) -> Option<Package> {
    let version = Version::parse(told.alloc(), version).ok();
    let bytes = told.given(Vec::from_slice(told.alloc(), &[byte]))?;
    if !types.has(ItemKind::Component(world)) {
        return told.refuse("the world does not stand");
    }
    let mut lent = types.adding();
    let alloc: Global = told.alloc();
    told.given(Package::from_world(alloc, name, version.as_ref(), bytes, &mut lent, world))
}

/// Tells the name, the version, the bytes and the world.
fn tell_parts(told: &mut Told, package: &Package) {
    told.push(package.name());
    if let Some(version) = package.version() {
        told.push(" ");
        told.show(version);
    }
    for byte in package.bytes() {
        told.push(", byte ");
        told.show(byte);
    }
    told.push(", world ");
    told.show(&package.ty());
}

/// Tells what the interface of instances exports, and its identifier, if it has one.
fn tell_instance(types: &Types, told: &mut Told, id: InterfaceId) {
    if !types.has(ItemKind::Instance(id)) {
        return told.push("the instance does not stand");
    }
    let interface = types.interface(id);
    told.push(", instance");
    if let Some(id) = &interface.id {
        told.push(" ");
        told.push(id.as_str());
    }
    told.push(" exports");
    for name in interface.exports.names() {
        told.push(" ");
        told.push(name.as_str());
    }
}

/// Tells a definition.
fn tell_definition(told: &mut Told, name: &str, item: ItemKind) {
    told.push(" ");
    told.push(name);
    match item {
        ItemKind::Ty(Type::World(id)) => {
            told.push(" world ");
            told.show(&id);
        }
        ItemKind::Ty(Type::Interface(id)) => {
            told.push(" interface ");
            told.show(&id);
        }
        _ => {}
    }
}

/// Tells the definitions.
fn tell_definitions(told: &mut Told, definitions: &NamedMap<ItemKind>) {
    told.push(", defines");
    for at in 0..definitions.len() {
        let (name, item) = definitions.entry(at);
        tell_definition(told, name, *item);
    }
}

/// Whether the keys of a package are one.
fn is_one_key(package: &Package, key: &PackageKey, owned: &PackageKey) -> bool {
    same_key(key, owned) && same_key(&package.key(), owned) && *key == *owned
}

/// Tells the parts of a package's key.
fn tell_key(told: &mut Told, package: &Package, key: &PackageKey) {
    told.show(key);
    told.push(" ");
    told.show(&package.key());
    told.push(" ");
    told.push(key.name());
    if let Some(version) = key.version() {
        told.push(" ");
        told.show(version);
    }
}

/// A package's key, made of it and of the key that it lends.
fn keys_of(package: &Package, alloc: Global) -> Result<(PackageKey, PackageKey), AllocError> {
    let key = PackageKey::new(alloc, package)?;
    Ok((key, BorrowedPackageKey::new(package).into_owned(alloc)?))
}

/// Tells the keys of a package, and whether they are one.
fn tell_keys(told: &mut Told, package: &Package) {
    match keys_of(package, told.alloc()) {
        Ok((key, owned)) => {
            tell_key(told, package, &key);
            told.push(if is_one_key(package, &key, &owned) {
                " one key"
            } else {
                " several keys"
            });
        }
        Err(_) => told.push("out of memory"),
    }
}

/// Tells what is asked of a package.
fn tell_of_package(types: &Types, told: &mut Told, package: &Package, what: &str) {
    match what {
        "package" => {
            tell_parts(told, package);
            tell_instance(types, told, package.instance_type());
            tell_definitions(told, package.definitions());
        }
        "keys" => tell_keys(told, package),
        _ => told.show_debug(package),
    }
}

/// Tells what a line asks of a package: `package NAME VERSION BYTE WORLD` tells its parts, `keys ..` its keys, and `debug ..` its
/// text for developers.
pub(crate) fn tell_package(
    types: &mut Types,
    items: &NamedMap<ItemKind>,
    told: &mut Told,
    words: &mut Words<'_>,
    what: &str,
) {
    let key = (words.take(), words.take());
    let byte = u8::try_from(words.take_number()).unwrap_or(0);
    let ItemKind::Component(world) = take_item(items, words) else {
        return told.push("no such world");
    };
    if let Some(package) = package_of(types, told, key, byte, world) {
        tell_of_package(types, told, &package, what);
    }
}
