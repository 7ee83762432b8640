//! The packages of a workspace.

ghost use Rattle.std.specs.Prelude.{◌≡◌, ◌↔◌, All, IsTrue, IfOk, IfSome, IfNone, true, false};
ghost use Rattle.std.specs.Option.{option_copied, option_map};
ghost use Rattle.std.specs.Iterator.{item_count};
ghost use Rattle.semver.specs.Identifiers.{parts_of};
ghost use Rattle.wac_types_base.specs.declared.item.ItemKind.{ItemKind};
ghost use Rattle.wac_types_base.specs.Collection.{Stands};
ghost use Rattle.wac_workspace.specs.Packages.{key_of, parts_in, AreApart, IsUnder, HasKey, HasBytes, HasHanded, IsEntryMade};
ghost use Rattle.wac_workspace.specs.Resolving.{handed};
ghost use Rattle.wac_parser_resolve.specs.Knowing.{handed_list};
ghost use Rattle.wac_workspace.specs.View.{HasWorld};
ghost use Rattle.wac_workspace.specs.Composing.{output_parts};
ghost use Rattle.wac_workspace.specs.Getting.{GivesRef};

use crate::output::Output;
use indexmap::IndexMap;
use semver::Version;
use std::alloc::{AllocError, Global};
use std::marker::Model;
use wac_parser_resolve::{PackageRef, Packages};
use wac_types_base::{Types, WorldId, copy_world};
use wac_types_names::{BorrowedPackageKey, Package, same_key};

/// A package with the collection of its world.
#[derive(Drop)]
pub struct Entry {
    pub package: Package,
    pub types: Types,
    /// Whether it was handed in; else it is an output.
    pub is_handed: bool,
}

impl Entry {
    /// The package with its collection.
    pub(crate) fn refer(&self) -> PackageRef<'_>
        ensures package { result.package.now ≡ self.now.package }
        ensures types { result.types.now ≡ self.now.types }
    {
        PackageRef {
            package: &self.package,
            types: &self.types,
        }
    }

    /// Whether the package has this key.
    fn has_key(&self, name: &str, version: Option<&Version>) -> bool
        ensures { IsTrue result ↔ (key_of self.now ≡ (name.now, option_map parts_of (option_copied version.entry))) }
    {
        let key = BorrowedPackageKey::from_name_and_version(name, version);
        same_key(&self.package.key(), &key)
    }

    /// Whether the package has these bytes.
    fn has_bytes(&self, bytes: &[u8]) -> bool
        ensures { IsTrue result ↔ (self.now.package.bytes ≡ bytes.now) }
    {
        self.package.bytes() == bytes
    }

    /// Whether the package was handed in with these bytes.
    fn was_handed(&self, bytes: &[u8]) -> bool
        ensures { IsTrue result ↔ ((self.now.is_handed ≡ true) × (self.now.package.bytes ≡ bytes.now)) }
    {
        self.is_handed && self.has_bytes(bytes)
    }
}

/// What an entry is made of: its key, its bytes, a world of a collection, and the number that its own collection has.
#[derive(Drop)]
pub(crate) struct Parts<'p> {
    pub(crate) types: &'p Types,
    pub(crate) world: WorldId,
    pub(crate) number: u64,
    pub(crate) name: &'p str,
    pub(crate) version: Option<&'p Version>,
    pub(crate) bytes: Vec<u8>,
}

/// An entry of these parts, with a copy of the world.
pub(crate) fn make_entry(
    parts: Parts<'_>,
    alloc: Global,
    is_handed: bool,
) -> Result<Entry, AllocError>
    requires { Stands parts.types.now (ItemKind.Component parts.world) }
    ensures made { IfOk result (IsEntryMade (parts_in parts.entry)) }
    ensures origin { IfOk result (λ e. e.is_handed ≡ is_handed) }
    ensures world { IfOk result HasWorld }
{
    let Parts {
        types,
        world,
        number,
        name,
        version,
        bytes,
    } = parts;
    let mut copy = Types::new(alloc, number);
    let mut adding = copy.adding();
    let world = copy_world(alloc, types, world, &mut adding)?;
    let package = Package::from_world(alloc, name, version, bytes, &mut adding, world)?;
    Ok(Entry {
        package,
        types: copy,
        is_handed,
    })
}

/// The entry of an output.
pub(crate) fn output_entry(alloc: Global, output: &Output) -> Result<Entry, AllocError>
    requires { Stands output.now.types (ItemKind.Component output.now.world) }
    ensures made { IfOk result (λ e. IsEntryMade (output_parts output.now) e) }
    ensures origin { IfOk result (λ e. e.is_handed ≡ false) }
    ensures world { IfOk result HasWorld }
{
    let parts = Parts {
        types: &output.types,
        world: output.world,
        number: output.types.number(),
        name: output.name.as_str(),
        version: output.version.as_ref(),
        bytes: Vec::from_slice(alloc, &output.bytes)?,
    };
    make_entry(parts, alloc, false)
}

/// The package of a key.
pub(crate) fn find<'a>(
    entries: &'a [Entry],
    name: &str,
    version: Option<&Version>,
) -> Option<&'a Entry>
    ensures found { IfSome result
        (λ e. IsUnder (name.now, option_map parts_of (option_copied version.entry)) entries.now e.now) }
    ensures none { IfNone result (HasKey entries.now (name.now, option_map parts_of (option_copied version.entry)) → ⊥) }
{
    for entry in entries {
        if entry.has_key(name, version) {
            return Some(entry);
        }
    }
    None
}

/// Whether some package has this key.
pub(crate) fn holds_key(entries: &[Entry], name: &str, version: Option<&Version>) -> bool
    ensures { IsTrue result ↔ HasKey entries.now (name.now, option_map parts_of (option_copied version.entry)) }
{
    for entry in entries {
        if entry.has_key(name, version) {
            return true;
        }
    }
    false
}

/// Whether some package has these bytes.
pub(crate) fn holds_bytes(entries: &[Entry], bytes: &[u8]) -> bool
    ensures { IsTrue result ↔ HasBytes entries.now bytes.now }
{
    for entry in entries {
        if entry.has_bytes(bytes) {
            return true;
        }
    }
    false
}

/// Whether some package was handed in with these bytes.
pub(crate) fn holds_handed(entries: &[Entry], bytes: &[u8]) -> bool
    ensures { IsTrue result ↔ HasHanded entries.now bytes.now }
{
    for entry in entries {
        if entry.was_handed(bytes) {
            return true;
        }
    }
    false
}

/// The packages under their keys.
pub(crate) fn packages_of(alloc: Global, entries: &[Entry]) -> Result<Packages<'_>, AllocError>
    requires worlds { All HasWorld entries.now }
    requires apart { AreApart entries.now }
    ensures handed { IfOk result (λ m. handed_list m ≡ handed entries.now) }
{
    let mut packages = IndexMap::new(alloc);
    for entry in entries {
        let _ = packages.insert(entry.package.key(), entry.refer())?;
    }
    Ok(packages)
}

/// The packages of a workspace, in the order in which they came, seen as the list of those that are left.
#[derive(Drop)]
pub struct PackageRefs<'a> {
    entries: &'a [Entry],
}

impl<'a> Model for PackageRefs<'a> {
    ghost use Rattle.std.specs.Prelude.{List};
    ghost use Rattle.wac_workspace.specs.declared.entries.Entry.{Entry};

    ghost Value = { List Entry };

    ghost view = { λ it. it.entries.now };
}

impl<'a> PackageRefs<'a> {
    /// Those of these entries.
    pub(crate) fn of(entries: &'a [Entry]) -> Self
        ensures { result ≡ entries.now }
    {
        PackageRefs { entries }
    }
}

impl<'a> Iterator for PackageRefs<'a> {
    type Item = PackageRef<'a>;

    ghost next_gives = { GivesRef };

    ghost remaining = { item_count (λ rest. rest) };

    fn next(&mut self) -> Option<PackageRef<'a>> {
        let (first, rest) = self.entries.split_first()?;
        self.entries = rest;
        Some(first.refer())
    }
}
