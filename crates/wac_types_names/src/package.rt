//! Packages and their keys.

ghost use Rattle.std.specs.Prelude.{◌≡◌, ◌↔◌, IsTrue, IfOk, OnErr, Some, option_map, option_copied};
ghost use Rattle.semver.specs.Identifiers.{parts_of};
ghost use Rattle.wac_types_base.specs.Collection.{Stands, Grows};
ghost use Rattle.wac_types_names.specs.Keys.{Key, owned_key, borrowed_key, package_key};
ghost use Rattle.wac_types_names.specs.Packaged.{packaged_under};
ghost use Rattle.wac_types_names.specs.Packages.{DefinitionsOf, AddsInterfaceOf};

use crate::adding::Adding;
use crate::copies::{copy_version, interface_of, items_under};
use crate::definitions::definitions_of;
use semver::Version;
use std::alloc::{AllocError, Global};
use std::fmt;
use std::marker::Model;
use wac_types_base::{InterfaceId, ItemKind, NamedMap, TypesMut, WorldId};

/// A package: a component with its name, its version and its world.
pub struct Package {
    name: String,
    version: Option<Version>,
    bytes: Vec<u8>,
    ty: WorldId,
    instance_type: InterfaceId,
    definitions: NamedMap<ItemKind>,
}

impl Drop for Package {
    fn drop(self) {
        let Package {
            name: _,
            version: _,
            bytes: _,
            ty: _,
            instance_type: _,
            definitions: _,
        } = self;
    }
}

impl Model for Package {
    ghost use Rattle.wac_types_names.specs.Packaged.{Packaged};

    ghost Value = { Packaged };

    ghost use Rattle.wac_types_names.specs.Viewed.{packaged};

    ghost view = { packaged };
}

/// A package of a world of a collection that stands by itself.
pub(crate) fn package_of(
    alloc: Global,
    name: &str,
    version: Option<&Version>,
    bytes: Vec<u8>,
    types: &mut TypesMut<'_>,
    world: WorldId,
) -> Result<Package, AllocError>
    requires { Stands types.old.types.now (ItemKind.Component world) }
    ensures name { IfOk result (λ p. p.name ≡ name.now) }
    ensures version { IfOk result (λ p. p.version ≡ option_map parts_of (option_copied version.entry)) }
    ensures bytes { IfOk result (λ p. p.bytes ≡ bytes.items) }
    ensures ty { IfOk result (λ p. p.ty ≡ world) }
    ensures instance_type { IfOk result
        (λ p. AddsInterfaceOf types.old.types.now types.new.types.now world p.instance_type) }
    ensures definitions { IfOk result (λ p. DefinitionsOf types.old.types.now world p.definitions) }
    ensures err { OnErr result (types.new.types.now ≡ types.old.types.now) }
    ensures grows { Grows types.old.types.now types.new.types.now }
    ensures same_reference { types.new.types.ghost_name ≡ types.old.types.ghost_name }
{
    types.types().see_acyclic();
    let definitions = definitions_of(alloc, types.types(), world)?;
    let name = String::from_str(alloc, name)?;
    let version = copy_version(version)?;
    let interface = interface_of(alloc, types.types(), world)?;
    let instance_type = types.add_interface(interface)?;
    Ok(Package {
        name,
        version,
        bytes,
        ty: world,
        instance_type,
        definitions,
    })
}

impl Package {
    /// A package of a world, under a name and perhaps a version. The interface of its instances is added to the
    /// collection: without identifier, with the world's uses and exports.
    pub fn from_world<T: Adding>(
        alloc: Global,
        name: &str,
        version: Option<&Version>,
        bytes: Vec<u8>,
        types: &mut T,
        world: WorldId,
    ) -> Result<Package, AllocError>
        requires { Stands (T.collection types.old) (ItemKind.Component world) }
        ensures name { IfOk result (λ p. p.name ≡ name.now) }
        ensures version { IfOk result (λ p. p.version ≡ option_map parts_of (option_copied version.entry)) }
        ensures bytes { IfOk result (λ p. p.bytes ≡ bytes.items) }
        ensures ty { IfOk result (λ p. p.ty ≡ world) }
        ensures instance_type { IfOk result
            (λ p. AddsInterfaceOf (T.collection types.old) (T.collection types.new) world p.instance_type) }
        ensures definitions { IfOk result (λ p. DefinitionsOf (T.collection types.old) world p.definitions) }
        ensures err { OnErr result (T.collection types.new ≡ T.collection types.old) }
        ensures grows { Grows (T.collection types.old) (T.collection types.new) }
        ensures keeps { T.Keeps types.old types.new }
    {
        types.make_package(alloc, name, version, bytes, world)
    }

    /// The same package of a collection that is copied under another number: each id has that number.
    pub fn copy_as(&self, alloc: Global, number: u64) -> Result<Package, AllocError>
        ensures { IfOk result (λ p. p ≡ packaged_under number self.now) }
    {
        let mut bytes = Vec::new(alloc);
        bytes.extend_from_slice(self.bytes.as_slice())?;
        Ok(Package {
            name: self.name.clone()?,
            version: copy_version(self.version.as_ref())?,
            bytes,
            ty: self.ty.under(number),
            instance_type: self.instance_type.under(number),
            definitions: items_under(alloc, &self.definitions, number)?,
        })
    }

    /// The key.
    pub fn key(&self) -> BorrowedPackageKey<'_>
        ensures { borrowed_key result ≡ package_key self.now }
    {
        BorrowedPackageKey::from_name_and_version(self.name.as_str(), self.version.as_ref())
    }

    /// The name, as `a:b`.
    pub fn name(&self) -> &str
        ensures { result.now ≡ self.now.name }
    {
        self.name.as_str()
    }

    /// The version, if it has one.
    pub fn version(&self) -> Option<&Version>
        ensures { option_map parts_of (option_copied result) ≡ self.now.version }
    {
        self.version.as_ref()
    }

    /// The bytes of the component.
    pub fn bytes(&self) -> &[u8]
        ensures { result.now ≡ self.now.bytes }
    {
        self.bytes.as_slice()
    }

    /// The world.
    pub fn ty(&self) -> WorldId
        ensures { result ≡ self.now.ty }
    {
        self.ty
    }

    /// The interface of instances: without identifier, with the world's uses and exports.
    pub fn instance_type(&self) -> InterfaceId
        ensures { result ≡ self.now.instance_type }
    {
        self.instance_type
    }

    /// The interfaces and worlds that the package defines, by the names of its exports.
    pub fn definitions(&self) -> &NamedMap<ItemKind>
        ensures { result.now ≡ self.now.definitions }
    {
        &self.definitions
    }
}

impl fmt::Debug for Package {
    fn fmt<W: fmt::Write>(&self, f: &mut fmt::Formatter<W>) -> fmt::Result {
        f.debug_struct("Package")
            .field("name", &self.name)
            .field("version", &self.version)
            .finish()
    }
}

/// A key of a package: its name, and perhaps a version. Keys are ordered by name, then by version; a key without one
/// comes first.
#[derive(Clone, PartialEq, Eq, PartialOrd, Ord, Hash, Debug, Drop)]
pub struct PackageKey {
    name: String,
    version: Option<Version>,
}

impl PackageKey {
    /// The key of a package.
    pub fn new(alloc: Global, package: &Package) -> Result<Self, AllocError>
        ensures { IfOk result (λ k. owned_key k ≡ package_key «package».now) }
    {
        package.key().into_owned(alloc)
    }

    /// The name.
    pub fn name(&self) -> &str
        ensures { result.now ≡ (owned_key self.now).0 }
    {
        self.name.as_str()
    }

    /// The version, if there is one.
    pub fn version(&self) -> Option<&Version>
        ensures { option_map parts_of (option_copied result) ≡ (owned_key self.now).1 }
    {
        self.version.as_ref()
    }
}

/// A key of a package, borrowed.
#[derive(Clone, Copy, PartialEq, Eq, PartialOrd, Ord, Hash, Debug)]
pub struct BorrowedPackageKey<'a> {
    name: &'a str,
    version: Option<&'a Version>,
}

impl<'a> BorrowedPackageKey<'a> {
    /// The key of a package.
    pub fn new(package: &'a Package) -> Self
        ensures { borrowed_key result ≡ package_key «package».now }
    {
        package.key()
    }

    /// A key of this name and this version.
    pub fn from_name_and_version(name: &'a str, version: Option<&'a Version>) -> Self
        ensures { borrowed_key result ≡ (name.now, option_map parts_of (option_copied version.entry)) }
    {
        BorrowedPackageKey { name, version }
    }

    /// The same key, owned.
    pub fn into_owned(self, alloc: Global) -> Result<PackageKey, AllocError>
        ensures { IfOk result (λ k. owned_key k ≡ borrowed_key self.entry) }
    {
        Ok(PackageKey {
            name: String::from_str(alloc, self.name)?,
            version: copy_version(self.version)?,
        })
    }
}

impl fmt::Display for BorrowedPackageKey<'_> {
    ghost use Rattle.std.specs.Prelude.{Some};
    ghost use Rattle.wac_types_names.specs.Keys.{borrowed_key, key_text};

    ghost output = { λ k. Some (key_text (borrowed_key k)) };

    fn fmt<W: fmt::Write>(&self, f: &mut fmt::Formatter<W>) -> fmt::Result {
        f.write_str(self.name)?;
        match self.version {
            None => Ok(()),
            Some(version) => write!(f, "@{version}"),
        }
    }
}

impl fmt::Display for PackageKey {
    ghost use Rattle.std.specs.Prelude.{Some};
    ghost use Rattle.wac_types_names.specs.Keys.{key_text, owned_key};

    ghost output = { λ k. Some (key_text (owned_key k)) };

    fn fmt<W: fmt::Write>(&self, f: &mut fmt::Formatter<W>) -> fmt::Result {
        fmt::Display::fmt(&self.borrowed_key(), f)
    }
}

/// What can be borrowed as a key of a package.
pub trait BorrowedKey {
    ghost key_of: { Self → Key };

    /// The key.
    fn borrowed_key(&self) -> BorrowedPackageKey<'_>
        ensures { borrowed_key result ≡ key_of self.now };
}

impl BorrowedKey for PackageKey {
    ghost use Rattle.wac_types_names.specs.Keys.{owned_key};

    ghost key_of = { owned_key };

    fn borrowed_key(&self) -> BorrowedPackageKey<'_> {
        BorrowedPackageKey {
            name: self.name.as_str(),
            version: self.version.as_ref(),
        }
    }
}

impl BorrowedKey for BorrowedPackageKey<'_> {
    ghost use Rattle.wac_types_names.specs.Keys.{borrowed_key};

    ghost key_of = { borrowed_key };

    fn borrowed_key(&self) -> BorrowedPackageKey<'_> {
        *self
    }
}

/// Whether two keys have one name and one version.
pub fn same_key<A: BorrowedKey, B: BorrowedKey>(a: &A, b: &B) -> bool
    ensures { IsTrue result ↔ (A.key_of a.now ≡ B.key_of b.now) }
{
    a.borrowed_key() == b.borrowed_key()
}
